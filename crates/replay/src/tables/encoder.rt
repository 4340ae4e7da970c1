// Cases of the encoder: glyphs, flags and a word; then 0 and the word's symbols, or 17 and a place.
use crate::compare::numbers;
use crate::read::lists;
use crate::rows::PLACES;
use capi_numbers::answers;

pub(crate) fn replay(row: &[u64]) -> usize {
    let glyphs = lists::read(row, 0);
    let flags = lists::read(row, glyphs.next);
    let word = lists::read(row, flags.next);
    let glyph_list = glyphs.glyphs;
    let flag_list = flags.bytes;
    let word_list = word.glyphs;
    encode(
        row,
        word.next,
        lists::head(&glyph_list, glyphs.count),
        lists::head(&flag_list, flags.count),
        lists::head(&word_list, word.count),
    )
}

fn encode(row: &[u64], at: usize, glyphs: &[u32], flags: &[u8], word: &[u32]) -> usize {
    let mut symbols: [u8; PLACES] = [0; PLACES];
    let checked = alphabet::encode(glyphs, flags, word, &mut symbols);
    let mut out: [u64; 8] = [0; 8];
    let result = answers::put_result(&mut out, checked);
    let at = numbers::expect(row, at, result as u64);
    if result != 0 {
        return numbers::expect(row, at, out[0]);
    }
    numbers::expect_lists(row, at, word.len(), &symbols, &[])
}
