// The encoder.
ghost use Rattle.std.specs.Prelude.{◌≡◌, length, set};
ghost use Rattle.symbol.specs.Kinds.{symbol_of};
ghost use Rattle.alphabet.specs.Model.{symbol_for, is_input, encode_check, encode_into};
ghost use Rattle.capi_numbers.specs.Model.Answers.{result_code, result_out, unit_out};
ghost use Rattle.capi_numbers.specs.Model.Parts.{flag_number, named_out};

use capi_numbers::answers;
use symbol::Symbol;

#[unsafe(no_mangle)]
pub extern "C" fn tm_encode(
    glyphs: &[u32],
    flags: &[u8],
    word: &[u32],
    symbols: &mut [u8],
    out: &mut [u64; 8],
) -> u8
    ensures { (result ≡ result_code (encode_check glyphs.now flags.now word.now (length symbols.old))) × (out.new ≡ result_out unit_out (encode_check glyphs.now flags.now word.now (length symbols.old)) out.old) × (symbols.new ≡ encode_into glyphs.now flags.now word.now symbols.old) }
{
    let checked = alphabet::encode(glyphs, flags, word, symbols);
    answers::put_result(out, checked)
}

// Whether a glyph has a symbol, in out[0], and the symbol, in out[1].
#[unsafe(no_mangle)]
pub extern "C" fn tm_symbol_for(glyphs: &[u32], glyph: u32, out: &mut [u64; 8]) -> u8
    ensures { (result ≡ 0) × (out.new ≡ named_out (symbol_for glyphs.now glyph) out.old) }
{
    let named = alphabet::symbol_for(glyphs, glyph);
    answers::put_value(out, named)
}

// Whether a symbol is flagged input, in out[0].
#[unsafe(no_mangle)]
pub extern "C" fn tm_is_input(flags: &[u8], symbol: u8, out: &mut [u64; 8]) -> u8
    ensures { (result ≡ 0) × (out.new ≡ set out.old 0 (flag_number (is_input flags.now (symbol_of symbol)))) }
{
    let flagged = alphabet::is_input(flags, Symbol(symbol));
    answers::put_value(out, flagged)
}
