// The answer on standard output, each line ended by a line feed.
// The writer and the run of bytes stay arguments, beside a row's tokens, chunks and entries: a struct of them would be made for one call, of `write_row`,
// and taken apart in the next two, and clauses would name `W.contents` of its field. That the run has room is no field's fact: it is of the answer too.
ghost use Rattle.std.specs.Prelude.{◌≡◌, ◌+◌, ◌*◌, ◌≤◌, ◌++◌, length, take, OnOk};
ghost use Rattle.std.specs.Io.KnownBytes.{Appends};
ghost use Rattle.refusals.specs.Refusals.{number_of, value_of};
ghost use Rattle.lines.specs.AnswerLines.{refused_line, text_line};
ghost use Rattle.rows.specs.Answers.{entry_lines, row_lines, row_room};
ghost use Rattle.rows.specs.Schedule.{Fits};

use refusals::{Refusal, Report};
use std::io;
use std::io::Write;

// `text L`, in a buffer of a fixed size: there is no heap.
pub(crate) fn write_text<W: Write>(output: &mut W, line: u32) -> io::Result<()>
    ensures { OnOk result (Appends (W.contents output.old) (W.contents output.new) (text_line line)) }
{
    let mut out = [0u8; 16];
    let end = lines::put_text(&mut out, 0, line);
    output.write_all(&out[..end])
}

// `refused number value`.
fn write_refused<W: Write>(output: &mut W, out: &mut [u8], refusal: Refusal) -> io::Result<()>
    ensures { row_room (Err refusal) ≤ length out.old → OnOk result (Appends (W.contents output.old) (W.contents output.new) (refused_line (number_of refusal) (value_of refusal))) }
{
    let end = lines::put_refused(out, 0, refusal.number(), refusal.value());
    output.write_all(&out[..end])
}

// The entries of a report, a line each; the place after them.
fn put_entries(out: &mut [u8], at: usize, entries: &[u16], count: usize) -> usize
    requires { (at ≤ length out.old) × (3 * count ≤ length entries.now) }
    ensures within { result ≤ length out.new }
    ensures put { let lines = entry_lines entries.now count in at + length lines ≤ length out.old → (result ≡ at + length lines) × (take result out.new ≡ take at out.old ++ lines) }
{
    let mut end = at;
    let (entries, _) = entries.as_chunks::<3>();
    for &[rule, first, after] in &entries[..count] {
        end = lines::put_entry(
            out,
            end,
            u32::from(rule),
            u32::from(first),
            u32::from(after),
        );
    }
    end
}

// `parse n C moves`, and the report.
fn write_report<W: Write>(
    output: &mut W,
    out: &mut [u8],
    tokens: u32,
    chunks: u32,
    report: Report,
    entries: &[u16],
) -> io::Result<()>
    requires { 3 * report.entries ≤ length entries.now }
    ensures { row_room (Ok report) ≤ length out.old → OnOk result (Appends (W.contents output.old) (W.contents output.new) (row_lines tokens chunks (Ok report) entries.now)) }
{
    let first = lines::put_parse(out, 0, tokens, chunks, report.moves);
    let end = put_entries(out, first, entries, report.entries as usize);
    output.write_all(&out[..end])
}

// What a row gives: its report, or its refusal.
pub(crate) fn write_row<W: Write>(
    output: &mut W,
    out: &mut [u8],
    tokens: u32,
    chunks: u32,
    answer: Result<Report, Refusal>,
    entries: &[u16],
) -> io::Result<()>
    requires { Fits answer (length entries.now) }
    ensures { row_room answer ≤ length out.old → OnOk result (Appends (W.contents output.old) (W.contents output.new) (row_lines tokens chunks answer entries.now)) }
{
    match answer {
        Ok(report) => write_report(output, out, tokens, chunks, report, entries),
        Err(refusal) => write_refused(output, out, refusal),
    }
}
