// The program `rows`: a row's three lines from standard input, its answer to standard output. Document 01, "Sample rows".
// input.rt reads the lines, schedule.rt moves the row, output.rt writes the answer; the text itself is the crate `text`, the lines of the answer are the crate `lines`.
#![tactic(auto)]

mod input;
mod output;
mod schedule;

ghost use Rattle.std.specs.Prelude.{◌^◌, ◌<◌, ◌≤◌, length, OnOk, IfSome};
ghost use Rattle.std.specs.Io.KnownBytes.{Appends};
ghost use Rattle.text.specs.FedLimits.{AnswerLimits};
ghost use Rattle.rows.specs.Answers.{row_text, said_text, input_text};

use std::io;
use std::io::{Read, Write};
use text::reading::{Counts, Held, Line};

// The row of these lines: what it gives is written. The buffers, of fixed sizes since there is no heap, are what a row of n = 1,024
// tokens in C = 64 chunks can need: an area of 7n + 5C + 13 words, a report of 3n words, and 18 bytes an entry of the answer and 48 for its first line.
fn answer_row<W: Write>(
    output: &mut W,
    words: &[u16],
    tokens: &[u16],
    cuts: &[u16],
) -> io::Result<()>
    requires { (length tokens.now ≤ 1024) × (length cuts.now ≤ 64) }
    ensures { OnOk result (Appends (W.contents output.old) (W.contents output.new) (row_text words.now tokens.now cuts.now)) }
{
    let mut matrix = [0u8; 4096];
    let mut area = [0u16; 7501];
    let mut entries = [0u16; 3072];
    let mut out = [0u8; 18480];
    let count = tokens.len() as u32;
    let chunks = cuts.len() as u32 + 1;
    let answer = schedule::read_row(words, tokens, cuts, &mut matrix, &mut area, &mut entries);
    output::write_row(output, &mut out, count, chunks, answer, &entries)
}

// The answer to what the text says: `text L` before anything is loaded, or what its row gives.
fn answer_text<W: Write>(output: &mut W, said: Result<Counts, Line>, held: &Held) -> io::Result<()>
    requires { AnswerLimits said }
    ensures { OnOk result (Appends (W.contents output.old) (W.contents output.new) (said_text said held.now.words held.now.tokens held.now.cuts)) }
{
    match said {
        Ok(counts) => {
            let words = &held.words[..counts.words];
            let tokens = &held.tokens[..counts.tokens];
            let cuts = &held.cuts[..counts.cuts];
            answer_row(output, words, tokens, cuts)
        }
        Err(line) => output::write_text(output, line.number()),
    }
}

// The whole program, for any reader and writer: what is written is the answer to the text of the whole input, where the types tell their
// bytes. The buffers of the lines: 2,564 words, 1,024 tokens and 64 cuts.
fn answer_input<R: Read, W: Write>(input: &mut R, output: &mut W) -> io::Result<()>
    ensures { IfSome (R.remaining input.old) (λ text. length text < 2 ^ 64 → OnOk result (Appends (W.contents output.old) (W.contents output.new) (input_text text))) }
{
    let mut piece = [0u8; 4096];
    let mut held = Held::new();
    let said = input::read_lines(input, &mut piece, &mut held)?;
    answer_text(output, said, &held)
}

// A read or a write that fails ends the program with its error.
fn main(rt: HostRuntime) -> io::Result<()> {
    answer_input(&mut rt.stdin(), &mut rt.stdout())
}
