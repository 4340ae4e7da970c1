// The encoder, which turns a word of glyphs into tape symbols.
#![tactic(auto, unfolding(notation::specs::Choice::both, notation::specs::Choice::pick))]

ghost use Rattle.std.specs.Prelude.{◌≡◌, ◌≤◌, length};
ghost use Rattle.notation.specs.Fill.{fill_from};
ghost use Rattle.alphabet.specs.Model.{symbol_for, is_input, allowed_on, byte_on, byte_at, glyphs_check, encode_check, encode_into};

use outcome::Refusal;
use symbol::Symbol;

// The number of possible symbols: no more glyphs are searched.
const MOST_SYMBOLS: usize = 256;

// The symbol of a glyph: the place of the first equal one among the first 256 glyphs.
pub fn symbol_for(glyphs: &[u32], glyph: u32) -> Option<Symbol>
    ensures { result ≡ symbol_for glyphs.now glyph }
{
    let most = glyphs.len().min(MOST_SYMBOLS);
    let place = glyphs[..most].iter().position(|&g| g == glyph)?;
    Some(Symbol(place as u8))
}

// Whether a symbol is flagged input; a flag that is missing counts as unset.
#[tactic(auto, unfolding(crate::specs::Model::is_input, notation::specs::Choice::both))]
pub fn is_input(flags: &[u8], symbol: Symbol) -> bool
    ensures { result ≡ is_input flags.now symbol }
{
    flags
        .get(usize::from(symbol.0))
        .is_some_and(|&flag| flag != 0)
}

// Writes the symbols of a word into the first places of `out`. Refusal 17, with the first place, for a glyph that is
// neither the blank nor flagged input; then refusal 18 for an output shorter than the word.
pub fn encode(glyphs: &[u32], flags: &[u8], word: &[u32], out: &mut [u8]) -> Result<(), Refusal>
    ensures { (result ≡ encode_check glyphs.now flags.now word.now (length out.old)) × (out.new ≡ encode_into glyphs.now flags.now word.now out.old) }
{
    check_glyphs(glyphs, flags, word)?;
    if out.len() < word.len() {
        return Err(Refusal::OutputSize);
    }
    write_symbols(glyphs, word, out);
    Ok(())
}

// Refusal 17 with the place of the first glyph that is not allowed, if there is one.
fn check_glyphs(glyphs: &[u32], flags: &[u8], word: &[u32]) -> Result<(), Refusal>
    ensures { result ≡ glyphs_check glyphs.now flags.now word.now }
{
    match word.iter().position(|&g| !allowed(glyphs, flags, g)) {
        Some(i) => Err(Refusal::Glyph(i as u64)),
        None => Ok(()),
    }
}

fn allowed(glyphs: &[u32], flags: &[u8], glyph: u32) -> bool
    ensures { result ≡ allowed_on flags.now (symbol_for glyphs.now glyph) }
{
    match symbol_for(glyphs, glyph) {
        None => false,
        Some(symbol) => symbol.is_blank() || is_input(flags, symbol),
    }
}

#[tactic(auto, using(notation::proofs::Facts::Fill::fill_next), unfolding(crate::specs::Model::byte_at))]
fn write_symbols(glyphs: &[u32], word: &[u32], out: &mut [u8])
    requires { length word.now ≤ length out.old }
    ensures { out.new ≡ fill_from (byte_at glyphs.now word.now) (length word.now) 0 out.old }
{
    for (i, &glyph) in word.iter().enumerate() {
        out[i] = byte_for(glyphs, glyph);
    }
}

// The byte written for a glyph.
fn byte_for(glyphs: &[u32], glyph: u32) -> u8
    ensures { result ≡ byte_on (symbol_for glyphs.now glyph) }
{
    symbol_for(glyphs, glyph).map_or(0, |symbol| symbol.0)
}
