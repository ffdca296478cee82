// The calls that move a row: step, run, join, and an uncut row read through. Their meanings stand in crate `moving`, in its specs Calls and ReadCall.
// Words, matrix, area and chunk come apart, as the C interface lends them.
#![tactic(auto)]

mod calls;
mod chunk;
mod moves;
mod stack;
mod turn;

ghost use Rattle.std.specs.Prelude.{◌≡◌, length};
ghost use Rattle.moving.specs.Calls.{step_answer, step_area, run_answer, run_area, join_answer, join_area};
ghost use Rattle.moving.specs.ReadCall.{read_answer, read_area};

use chunk::Chunk;
use refusals::Refusal;

// One move of a chunk, a run of one: checks 15, 12 and 13. Where it refuses, the area is untouched.
pub fn step(words: &[u16], matrix: &[u8], area: &mut [u16], chunk: usize) -> Result<(), Refusal>
    ensures answers { result ≡ step_answer words.now matrix.now area.old chunk }
    ensures leaves { area.new ≡ step_area words.now matrix.now area.old chunk }
{
    run(words, matrix, area, chunk, 1)?;
    Ok(())
}

// Moves of a chunk until `budget` are made or it rests, and how many were made: checks 15, 12 and 13. Where it refuses, the area is untouched.
pub fn run(
    words: &[u16],
    matrix: &[u8],
    area: &mut [u16],
    chunk: usize,
    budget: u32,
) -> Result<u32, Refusal>
    ensures answers { result ≡ run_answer words.now matrix.now area.old chunk budget }
    ensures leaves { area.new ≡ run_area words.now matrix.now area.old chunk budget }
{
    if !area::in_shape(words, matrix, area) {
        return Err(Refusal::BadState);
    }
    let Some(live) = Chunk::live(area, chunk) else {
        return Err(Refusal::NoChunk);
    };
    if live.at_rest() {
        return Err(Refusal::AtRest);
    }
    Ok(calls::make_moves(words, matrix, area, chunk, budget))
}

// Joins a chunk to the next live one: checks 15, 12 and 14. Where it refuses, the area is untouched.
pub fn join(words: &[u16], matrix: &[u8], area: &mut [u16], chunk: usize) -> Result<(), Refusal>
    ensures answers { result ≡ join_answer words.now matrix.now area.old chunk }
    ensures leaves { area.new ≡ join_area words.now matrix.now area.old chunk }
{
    if !area::in_shape(words, matrix, area) {
        return Err(Refusal::BadState);
    }
    let Some(left) = Chunk::live(area, chunk) else {
        return Err(Refusal::NoChunk);
    };
    if let Some(right) = left.next_live() {
        if left.at_rest() & right.at_rest() {
            let d = right.c;
            moves::join_chunks(area, chunk, d);
            return Ok(());
        }
    }
    Err(Refusal::NoJoin)
}

// An uncut row started and read to rest: start's checks 15, 7, 8, 9 and 11 (it has no cuts, so never 10), and then the moves of chunk 0 until it
// rests. The words that start has written are not checked again. Where it refuses, the area is untouched.
pub fn read_through(
    words: &[u16],
    matrix: &[u8],
    tokens: &[u16],
    area: &mut [u16],
) -> Result<(), Refusal>
    ensures answers { result ≡ read_answer words.now matrix.now tokens.now (length area.old) }
    ensures leaves { area.new ≡ read_area words.now matrix.now tokens.now area.old }
{
    start::start(words, matrix, tokens, &tokens[0..0], area)?;
    let n = tokens.len();
    calls::make_moves(words, matrix, area, 0, 2 * (n as u32) + 2);
    Ok(())
}
