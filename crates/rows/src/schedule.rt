// The order of calls in which `rows` reads a row. Document 01, "Sample rows": "It moves chunk 0 until at rest, then 1, and so on, then
// joins chunk 0 rightwards, moving it to rest after each join."
// The words, the matrix and the area stay arguments of each function, in the order of the library's own calls: a struct of them would be taken apart
// at each such call, and with the area, a `&mut`, in it each method would have to promise besides that the words and the matrix stay.
ghost use Rattle.std.specs.Prelude.{◌≡◌, ◌-◌, ◌≤◌, length};
ghost use Rattle.rows.specs.Schedule.{rest_area, each_to_rest, join_rightwards, row_answer, row_entries};

use refusals::{Refusal, Report};

// More moves than a row can make.
const BUDGET: u32 = u32::MAX;

// Moves a chunk until it is at rest; where it is at rest already, or gone, nothing changes.
#[tactic(auto, unfolding(crate::specs::Schedule::rest_area))]
fn to_rest(words: &[u16], matrix: &[u8], area: &mut [u16], chunk: usize)
    ensures { area.new ≡ rest_area words.now matrix.now area.old chunk }
{
    let _ = reader::run(words, matrix, area, chunk, BUDGET);
}

// Chunk 0, then 1, and so on.
fn each_to_rest(words: &[u16], matrix: &[u8], area: &mut [u16], chunks: usize)
    ensures { area.new ≡ each_to_rest words.now matrix.now 0 chunks area.old }
{
    for chunk in 0..chunks {
        to_rest(words, matrix, area, chunk);
    }
}

// Chunk 0 and the next, until it is the only one.
fn join_rightwards(words: &[u16], matrix: &[u8], area: &mut [u16], chunks: usize)
    ensures { area.new ≡ join_rightwards words.now matrix.now (chunks - 1) area.old }
{
    for _ in 1..chunks {
        let _ = reader::join(words, matrix, area, 0);
        to_rest(words, matrix, area, 0);
    }
}

// The refusal of load or of start, or the row's report after all its moves.
pub(crate) fn read_row(
    words: &[u16],
    tokens: &[u16],
    cuts: &[u16],
    matrix: &mut [u8],
    area: &mut [u16],
    entries: &mut [u16],
) -> Result<Report, Refusal>
    requires { length cuts.now ≤ 64 }
    ensures value { result ≡ row_answer words.now tokens.now cuts.now matrix.old area.old (length entries.old) }
    ensures entries_after { entries.new ≡ row_entries words.now tokens.now cuts.now matrix.old area.old entries.old }
{
    table::load(words, matrix)?;
    start::start(words, matrix, tokens, cuts, area)?;
    let chunks = cuts.len() + 1;
    each_to_rest(words, matrix, area, chunks);
    join_rightwards(words, matrix, area, chunks);
    report::report(words, matrix, area, entries)
}
