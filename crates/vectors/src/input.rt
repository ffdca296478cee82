// The input: a stream of 16-bit words, low byte first, and runs of words given by patterns.
ghost use Rattle.std.specs.Prelude.{◌≤◌, length};

use std::io;
use std::io::Read;
use std::ops::Range;

// The reader, the piece of the input that it gave last, what is left of that, and, once nothing more is read, how the reads ended: at the
// input's end, or by the first one that failed. The piece stands here since an `io::BufReader` would allocate, and the program has no heap.
#[derive(Drop)]
pub struct Input<R> {
    reader: R,
    piece: [u8; 4096],
    left: Range<usize>,
    ended: Option<io::Result<()>>,
    ghost in_bounds: { left.end ≤ 4096 },
}

impl<R: Read> Input<R> {
    // The input before its first word.
    pub(crate) fn new(reader: R) -> Input<R> {
        Input {
            reader,
            piece: [0; 4096],
            left: 0..0,
            ended: None,
        }
    }

    // The next piece, in place of one that is taken.
    fn next_piece(&mut self) {
        if self.ended.is_some() {
            return;
        }
        match self.reader.read(&mut self.piece) {
            Ok(0) => self.ended = Some(Ok(())),
            Ok(n) => self.left = 0..n,
            Err(error) => self.ended = Some(Err(error)),
        }
    }

    // The next byte of the input, if there is one.
    fn next_byte(&mut self) -> Option<u8> {
        if self.left.is_empty() {
            self.next_piece();
        }
        let place = self.left.next()?;
        Some(self.piece[place])
    }

    // The next word of the input, if there is one.
    pub(crate) fn next_word(&mut self) -> Option<u16> {
        let first = self.next_byte()?;
        let second = self.next_byte()?;
        Some(u16::from_le_bytes([first, second]))
    }

    // The next word as a number; past the input's end 65,536, which no word is: a case that the end cuts short goes on with it, as with a
    // count or a nonterminal, so this stays a number.
    pub(crate) fn next_number(&mut self) -> usize
        ensures { result ≤ 65536 }
    {
        self.next_word().map_or(65536, usize::from)
    }

    // The next word; past the input's end 0.
    pub(crate) fn next_value(&mut self) -> u16 {
        self.next_word().unwrap_or(0)
    }

    // A number of two words, the low one first.
    pub(crate) fn next_wide(&mut self) -> u32 {
        let low = u32::from(self.next_value());
        let high = u32::from(self.next_value());
        low + 65536 * high
    }

    // Reads a piece of a run into its beginning, and answers how long it is: its length, how long its pattern is, and the pattern, which is
    // repeated to the piece's end. A piece that there is no room for is left out.
    fn read_piece(&mut self, run: &mut [u16]) -> usize
        ensures { result ≤ length run.old }
    {
        let size = self.next_number();
        let back = self.next_number();
        if run.len() < size {
            return 0;
        }
        let pattern = size.min(back);
        let (first, rest) = run[..size].split_at_mut(pattern);
        for word in first.iter_mut() {
            *word = self.next_value();
        }
        for (word, again) in rest.iter_mut().zip(first.iter().cycle()) {
            *word = *again;
        }
        size
    }

    // Reads a run, the number of its pieces and then those, into the beginning of this one.
    pub(crate) fn read_run<'a>(&mut self, run: &'a mut [u16]) -> &'a mut [u16]
        ensures { length result.now ≤ length run.old }
    {
        let mut at = 0;
        for _ in 0..self.next_number() {
            at += self.read_piece(&mut run[at..]);
        }
        &mut run[..at]
    }
}

impl<R: Read + Drop> Input<R> {
    // What became of the reads.
    pub(crate) fn finish(self) -> io::Result<()> {
        self.ended.unwrap_or(Ok(()))
    }
}
