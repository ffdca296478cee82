// The start of a row: the checks of what is lent, and the words of the work area that a row starts with.
#![tactic(auto)]

mod begin;

ghost use Rattle.std.specs.Prelude.{◌≡◌, length};
ghost use Rattle.start.specs.Start.{start_answer, start_area};

use refusals::Refusal;

// Starts a row: checks 15 (of the grammar and the matrix), 7, 8, 9, 10 and 11, each over the whole input before the next, and writes the
// row's words into the area, over whatever stood there. Words beyond them are untouched; where it refuses, all are.
pub fn start(
    words: &[u16],
    matrix: &[u8],
    tokens: &[u16],
    cuts: &[u16],
    area: &mut [u16],
) -> Result<(), Refusal>
    ensures answers { result ≡ start_answer words.now matrix.now tokens.now cuts.now (length area.old) }
    ensures leaves { area.new ≡ start_area words.now matrix.now tokens.now cuts.now area.old }
{
    if !matrix::grammar_in_shape(words, matrix) {
        return Err(Refusal::BadState);
    }
    let n = tokens.len();
    if n == 0 {
        return Err(Refusal::Empty);
    }
    if 16384 < n {
        return Err(Refusal::TooLong);
    }
    if let Some(token) = begin::first_bad_token(tokens, words[0]) {
        return Err(Refusal::BadToken(token as u32));
    }
    if let Some(cut) = begin::first_bad_cut(cuts, n as u16) {
        return Err(Refusal::BadCut(cut as u32));
    }
    let needed = 7 * n + 5 * (cuts.len() + 1) + 13;
    if area.len() < needed {
        return Err(Refusal::NoRoom(needed as u32));
    }
    begin::write(area, tokens, cuts);
    Ok(())
}
