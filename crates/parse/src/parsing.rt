// The steps of the one-call parse: the grammar loaded and the row read through; the row's outcome read off the words, and the words cleared.
ghost use Rattle.std.specs.Prelude.{◌≡◌, ◌++◌, ◌+◌, ◌*◌, ◌≤◌, length, drop};
ghost use Rattle.machine.specs.Answers.{outcome_answer, outcome_out};
ghost use Rattle.layout.specs.Layout.{zeros};
ghost use Rattle.outcomes.specs.OutcomeWords.{words_outcome};
ghost use Rattle.parse.specs.ParseLaws.{Finished, Read};

use refusals::{Refusal, Report};

// The grammar loaded, its matrix in bytes of its own, and the row read through by it.
pub(crate) fn read(words: &[u16], tokens: &[u16], area: &mut [u16]) -> Result<(), Refusal>
    ensures { Read words.now tokens.now area.old result area.new }
{
    // of a fixed size: there is no heap
    let mut matrix = [0u8; 4096];
    table::load(words, &mut matrix)?;
    reader::read_through(words, &matrix, tokens, area)
}

// The words of one run put in at the places of another of their number. Word by word, and apart from report's: by `copy_from_slice` the library for C
// would need `memmove`, which it needs nowhere else, and a public function asks nothing (docs/DECISIONS.md).
fn put_words(from: &[u16], to: &mut [u16])
    requires { length to.old ≡ length from.now }
    ensures { to.new ≡ from.now }
{
    for (i, word) in from.iter().enumerate() {
        to[i] = *word;
    }
}

// The answer of a row at rest, whose report is written where there is one and room for it: its reductions stand in order. Apart from report's
// `outcome`: as a public function that asks nothing (docs/DECISIONS.md) it would first test what is proved here, and then look through the entries,
// which takes a tenth of the time of a parse.
fn outcome(area: &[u16], out: &mut [u16]) -> Result<Report, Refusal>
    requires { Finished area.now }
    ensures value { result ≡ outcome_answer (words_outcome area.now) (length out.old) }
    ensures out_after { out.new ≡ outcome_out (words_outcome area.now) out.old }
{
    // The status is a word of the area (docs/AREA.md), and no enum: a row is stuck from 17 on, and `stuck_refusal` is promised of any word.
    let status = area[5];
    if 17 <= status {
        return Err(refusals::stuck_refusal(status, (area[7] - 1) as u32));
    }
    let count = area[4] as u32;
    let size = 3 * (count as usize);
    if out.len() < size {
        return Err(Refusal::NoRoom(3 * count));
    }
    let made = 18 + 4 * (area[0] as usize);
    put_words(&area[made..made + size], &mut out[..size]);
    // as reader's `moves_of`: a public function asks nothing, and would test that these words are there
    let moves = (area[2] as u32) + 65536 * (area[3] as u32);
    Ok(Report {
        entries: count,
        moves,
    })
}

// The answer of a row of n tokens at rest, its report where there is one, and its words cleared, whatever its answer.
pub(crate) fn finish(area: &mut [u16], n: usize, out: &mut [u16]) -> Result<Report, Refusal>
    requires { Finished area.old × (7 * n + 18 ≤ length area.old) }
    ensures value { result ≡ outcome_answer (words_outcome area.old) (length out.old) }
    ensures area_after { area.new ≡ zeros (7 * n + 18) ++ drop (7 * n + 18) area.old }
    ensures out_after { out.new ≡ outcome_out (words_outcome area.old) out.old }
{
    let answer = outcome(area, out);
    area[..7 * n + 18].fill(0);
    answer
}
