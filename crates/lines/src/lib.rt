// The answer of `rows` as bytes: lines of decimal numbers in a lent run of bytes. Document 01, "Sample rows".
// Each line goes to a place of the run; the answer is the place after it, or that place itself where the line has no room, and then
// nothing is written. The run and the place stay two arguments: the promises `written` and `end_after` of these calls name both.
// There are four calls, and not one of a word and numbers, since each is promised (docs/PROMISES.md) to write its own line of document 01.
#![tactic(auto)]

mod writing;

ghost use Rattle.std.specs.Prelude.{◌≡◌};
ghost use Rattle.lines.specs.AnswerLines.{parse_line, entry_line, refused_line, text_line, written, end_after};

// `parse n C moves`: tokens, chunks, moves.
#[tactic(auto, unfolding(crate::specs::AnswerLines::parse_line))]
pub fn put_parse(out: &mut [u8], at: usize, tokens: u32, chunks: u32, moves: u32) -> usize
    ensures value { result ≡ end_after out.old at (parse_line tokens chunks moves) }
    ensures out_after { out.new ≡ written out.old at (parse_line tokens chunks moves) }
{
    writing::put_line(out, at, b"parse ", &[tokens, chunks, moves])
}

// An entry of the report: rule, first place, place after the last.
#[tactic(auto, unfolding(crate::specs::AnswerLines::entry_line))]
pub fn put_entry(out: &mut [u8], at: usize, rule: u32, first: u32, after: u32) -> usize
    ensures value { result ≡ end_after out.old at (entry_line rule first after) }
    ensures out_after { out.new ≡ written out.old at (entry_line rule first after) }
{
    writing::put_line(out, at, b"", &[rule, first, after])
}

// `refused number value`.
#[tactic(auto, unfolding(crate::specs::AnswerLines::refused_line))]
pub fn put_refused(out: &mut [u8], at: usize, number: u32, value: u32) -> usize
    ensures value { result ≡ end_after out.old at (refused_line number value) }
    ensures out_after { out.new ≡ written out.old at (refused_line number value) }
{
    writing::put_line(out, at, b"refused ", &[number, value])
}

// `text L`: the first bad line.
#[tactic(auto, unfolding(crate::specs::AnswerLines::text_line))]
pub fn put_text(out: &mut [u8], at: usize, line: u32) -> usize
    ensures value { result ≡ end_after out.old at (text_line line) }
    ensures out_after { out.new ≡ written out.old at (text_line line) }
{
    writing::put_line(out, at, b"text ", &[line])
}
