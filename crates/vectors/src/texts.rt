// Cases of the text of the program `rows`: its three lines read in pieces, and its answer's lines as bytes.
use crate::Streams;
use crate::input::Input;
use crate::shown::{Output, sum_of};
use std::io::{Read, Write};
use text::reading::{Counts, Held, Line};

// The sum of a buffer's first numbers.
fn show_first<W: Write>(output: &mut Output<W>, numbers: &[u16], count: usize) {
    if let Some(first) = numbers.get(..count) {
        output.show(sum_of(first));
    }
}

// What a text says: 0 and the first bad line, or how many numbers each of the three lines has, and their sums.
fn show_text<W: Write>(output: &mut Output<W>, said: Result<Counts, Line>, held: &Held) {
    match said {
        Err(line) => {
            output.show(0);
            output.show(line.number());
        }
        Ok(counts) => {
            output.show(counts.words);
            output.show(counts.tokens);
            output.show(counts.cuts);
            show_first(output, &held.words, counts.words);
            show_first(output, &held.tokens, counts.tokens);
            show_first(output, &held.cuts, counts.cuts);
        }
    }
    output.end_line();
}

// A text in pieces of one size, the last of which may be shorter, and what it says; of size 0 in one piece.
fn read_pieces<W: Write>(output: &mut Output<W>, bytes: &[u8], size: usize) {
    let mut held = Held::new();
    let size = if size == 0 { usize::MAX } else { size };
    for piece in bytes.chunks(size) {
        held.feed_piece(piece);
    }
    show_text(output, held.state.finish(), &held);
}

// A line of the answer.
#[derive(Clone, Copy)]
enum AnswerLine {
    Parse,
    Entry,
    Refused,
    Text,
}

// A line by its number; each number after 3 stands for 3 too.
impl From<u16> for AnswerLine {
    fn from(number: u16) -> AnswerLine {
        match number {
            0 => AnswerLine::Parse,
            1 => AnswerLine::Entry,
            2 => AnswerLine::Refused,
            _ => AnswerLine::Text,
        }
    }
}

// A line of the answer with its numbers, past the input's end one of kind 3; where it ends.
fn put<R: Read>(input: &mut Input<R>, bytes: &mut [u8], at: usize) -> usize {
    let line = input.next_word().map_or(AnswerLine::Text, AnswerLine::from);
    let a = input.next_wide();
    let b = input.next_wide();
    let c = input.next_wide();
    match line {
        AnswerLine::Parse => lines::put_parse(bytes, at, a, b, c),
        AnswerLine::Entry => lines::put_entry(bytes, at, a, b, c),
        AnswerLine::Refused => lines::put_refused(bytes, at, a, b),
        AnswerLine::Text => lines::put_text(bytes, at, a),
    }
}

impl<R: Read, W: Write> Streams<R, W> {
    // A text in pieces of each size that is given.
    fn read_each(&mut self, bytes: &[u8]) {
        for _ in 0..self.input.next_number() {
            let size = self.input.next_number();
            read_pieces(&mut self.output, bytes, size);
        }
    }

    // Kind 8: a text, byte by byte, and the sizes of the pieces that it is read in.
    pub(crate) fn reading_case(&mut self) {
        let mut words = [0u16; 16400];
        let mut bytes = [0u8; 16400];
        let words = self.input.read_run(&mut words);
        let bytes = &mut bytes[..words.len()];
        for (byte, word) in bytes.iter_mut().zip(words.iter()) {
            *byte = (*word % 256) as u8;
        }
        self.read_each(bytes);
    }

    // Lines of the answer, from a place of a run of bytes on: where each ends, and the run.
    fn put_lines(&mut self, bytes: &mut [u8]) {
        let mut at = self.input.next_number();
        for _ in 0..self.input.next_number() {
            at = put(&mut self.input, bytes, at);
            self.output.show(at);
        }
        self.output.write(bytes);
        self.output.end_line();
    }

    // Kind 9: how many bytes there are for them, each a `#`, and lines of an answer.
    pub(crate) fn writing_case(&mut self) {
        let mut bytes = [b'#'; 16400];
        let room = self.input.next_number();
        if let Some(bytes) = bytes.get_mut(..room) {
            self.put_lines(bytes);
        }
    }
}
