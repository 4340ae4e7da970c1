// The check of an input word, for every operation that takes one.
ghost use Rattle.std.specs.Prelude.{◌≡◌};
ghost use Rattle.machine.specs.Model.Word.{word_check, symbols_check};

use notation::limits;
use outcome::Refusal;
use table_bytes::inner as bytes;

// Refusal 9 for a word over 1,048,576; refusal 10, with the first place, for a symbol not below `symbols`.
pub fn check_word(symbols: u64, word: &[u8]) -> Result<(), Refusal>
    ensures { result ≡ word_check symbols word.now }
{
    if limits::WORD < word.len() {
        return Err(Refusal::WordLength);
    }
    check_symbols(symbols, word)
}

fn check_symbols(symbols: u64, word: &[u8]) -> Result<(), Refusal>
    ensures { result ≡ symbols_check symbols word.now }
{
    let found = bytes::first_over(symbols, word);
    match found {
        Some(i) => Err(Refusal::WordSymbol(i as u64)),
        None => Ok(()),
    }
}
