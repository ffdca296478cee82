// Runs many stored cases through the public calls and writes each answer. Standard input is a stream of 16-bit words, low byte
// first, made by tools/call_vectors.py from the reference reader, and so is what it must write. A case is its kind and what its kind
// asks; kind 6 is a grammar's words, under which the cases of kinds 0 to 5 after it stand. A read that fails ends the cases as the input's
// end does, and after a write that fails nothing more is written; the program then ends with the error of that read, or else of that write.
// Each buffer of a case is of a fixed size: there is no heap.
#![tactic(auto)]

mod buffered;
mod input;
mod rows;
mod shown;
mod tables;
mod texts;

use input::Input;
use shown::Output;
use std::io;
use std::io::{Read, Write};
use tables::Side;

// At most so many cases are run, and so many calls of a schedule.
pub(crate) const MOST: u32 = 1000000;

// What a case asks.
#[derive(Clone, Copy)]
enum Kind {
    Load { whole: bool },
    Set(Side),
    Row { aloud: bool },
    Grammar,
    Entries,
    Reading,
    Writing,
}

// A kind by its number; each number after 9 stands for kind 9 too.
impl From<u16> for Kind {
    fn from(number: u16) -> Kind {
        match number {
            0 => Kind::Load { whole: false },
            1 => Kind::Load { whole: true },
            2 => Kind::Set(Side::Left),
            3 => Kind::Set(Side::Right),
            4 => Kind::Row { aloud: true },
            5 => Kind::Row { aloud: false },
            6 => Kind::Grammar,
            7 => Kind::Entries,
            8 => Kind::Reading,
            _ => Kind::Writing,
        }
    }
}

// What the cases read and where their answers go.
#[derive(Drop)]
pub struct Streams<R, W> {
    input: Input<R>,
    output: Output<W>,
}

impl<R: Read, W: Write> Streams<R, W> {
    // The cases one after the other, until the input is at its end. The words, of which there are `count`, and the matrix are those of the
    // grammar that was read last. The count stands beside the buffer since a `Vec` would allocate, and a slice of it that goes from one case to
    // the next is a borrow round a loop, which gets no generated proof.
    fn run_cases(&mut self) {
        let mut words = [0u16; 4096];
        let mut matrix = [0u8; 4096];
        let mut count = 0;
        for _ in 0..MOST {
            let Some(number) = self.input.next_word() else {
                return;
            };
            match Kind::from(number) {
                Kind::Load { whole } => self.load_case(&words[..count], whole),
                Kind::Set(side) => self.set_case(&words[..count], side),
                Kind::Row { aloud } => self.row_case(&mut words[..count], &mut matrix, aloud),
                Kind::Grammar => count = self.grammar_case(&mut words, &mut matrix),
                Kind::Entries => self.entries_case(),
                Kind::Reading => self.reading_case(),
                Kind::Writing => self.writing_case(),
            }
        }
    }
}

fn main(rt: HostRuntime) -> io::Result<()> {
    let mut streams = Streams {
        input: Input::new(rt.stdin()),
        output: Output::new(rt.stdout()),
    };
    streams.run_cases();
    let Streams { input, output } = streams;
    let written = output.finish();
    input.finish()?;
    written
}
