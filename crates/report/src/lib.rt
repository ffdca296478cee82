// The report of a finished row, and the tokens of one of its entries. Their meanings stand in specs/.
#![tactic(auto)]

mod order;
mod outcome;

ghost use Rattle.std.specs.Prelude.{◌≡◌, length};
ghost use Rattle.report.specs.ReportCall.{report_answer, report_out, entry_start, entry_end, entry_tokens, word_address};

use outcome::Reading;
use refusals::{Refusal, Report};
use std::ops::Range;

// Where the tokens of one report entry stand in a run of so many tokens: from its second word up to its third. If the entry isn't wholly in
// the report run, its second word exceeds its third, or its third exceeds the token count, that is no place, at 0.
pub fn entry_range(report: &[u16], entry: usize, count: usize) -> Range<usize>
    ensures start { result.start ≡ entry_start report.now entry count }
    ensures end { result.end ≡ entry_end report.now entry count }
{
    let (entries, _) = report.as_chunks::<3>();
    let Some(&[_, first, after]) = entries.get(entry) else {
        return 0..0;
    };
    if (after < first) | (count < after as usize) {
        return 0..0;
    }
    first as usize..after as usize
}

// The tokens of one report entry: that part of the caller's own token run. If the entry isn't wholly in the report run, its second
// word exceeds its third, or its third exceeds the token count, the answer is the part of no tokens at place 0.
pub fn entry_tokens<'a, 'b>(report: &'a [u16], entry: usize, tokens: &'b [u16]) -> &'b [u16]
    ensures result_value { result.now ≡ entry_tokens report.now entry tokens.now }
    ensures ref_ptr_value { result.ref_ptr ≡ word_address tokens.entry.ref_ptr (entry_start report.now entry (length tokens.now)) }
{
    &tokens[entry_range(report, entry, tokens.len())]
}

// The report of a finished row: just the reductions that its area holds, put in order, three words each, and how many they are; with
// the count of moves. A row that is not finished, or finished stuck, is refused, and so is a run that is too short.
pub fn report(
    words: &[u16],
    matrix: &[u8],
    area: &[u16],
    out: &mut [u16],
) -> Result<Report, Refusal>
    ensures value { result ≡ report_answer words.now matrix.now area.now (length out.old) }
    ensures out_after { out.new ≡ report_out words.now matrix.now area.now out.old }
{
    if !area::in_shape(words, matrix, area) {
        return Err(Refusal::BadState);
    }
    Reading { area }.outcome(out)
}
