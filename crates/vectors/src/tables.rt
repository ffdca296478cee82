// Cases of load and of the sets.
ghost use Rattle.std.specs.Prelude.{◌≤◌, length};

use crate::Streams;
use crate::shown::{Told, sum_of};
use std::io::{Read, Write};

// Which of its sets is asked of a nonterminal. The crate table has such an enum for itself alone: its public functions are one for each side.
#[derive(Clone, Copy)]
pub(crate) enum Side {
    Left,
    Right,
}

impl<R: Read, W: Write> Streams<R, W> {
    // Kind 6: a grammar's words, and their matrix in 4,096 bytes that were 0: the answer of load and the bytes' sum. How many words.
    pub(crate) fn grammar_case(&mut self, words: &mut [u16], matrix: &mut [u8; 4096]) -> usize
        ensures { result ≤ length words.old }
    {
        let words = self.input.read_run(words);
        matrix.fill(0);
        let told = Told::from(table::load(words, matrix));
        self.output.show(told.number);
        self.output.show(told.value);
        self.output.show(sum_of(matrix));
        self.output.end_line();
        words.len()
    }

    // Kinds 0 and 1: load into the first bytes, as many as the next word says, of a run of sevens; the answer, the run's sum, and for kind 1
    // the bytes not 0.
    pub(crate) fn load_case(&mut self, words: &[u16], whole: bool) {
        let mut run = [7u8; 5000];
        let room = self.input.next_number();
        if run.len() < room {
            return;
        }
        let told = Told::from(table::load(words, &mut run[..room]));
        self.output.show(told.number);
        self.output.show(told.value);
        self.output.show(sum_of(&run));
        if whole {
            self.output.show_bytes(&run[..room]);
        }
        self.output.end_line();
    }

    // Kinds 2 and 3: a left set or a right set, on a line of its own.
    pub(crate) fn set_case(&mut self, words: &[u16], side: Side) {
        let nonterminal = self.input.next_number() as u32;
        let answer = match side {
            Side::Left => table::left_set(words, nonterminal),
            Side::Right => table::right_set(words, nonterminal),
        };
        self.output.show(Told::from(answer));
        self.output.end_line();
    }
}
