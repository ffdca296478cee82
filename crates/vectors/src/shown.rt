// The output: answers as numbers, sums of what is lent, and the two put together.
use crate::buffered::Buffered;
use refusals::{Refusal, Report, Terminals};
use std::io::Write;
use std::{fmt, io};

// Where the output goes, and how its first write that failed did so. After that one nothing is written; a write gives no error back, since
// the program reads on and ends with the error of a read, where there is one, before that of a write.
#[derive(Drop)]
pub struct Output<W> {
    writer: Buffered<W>,
    written: io::Result<()>,
}

impl<W: Write> Output<W> {
    pub(crate) fn new(writer: W) -> Output<W> {
        Output {
            writer: Buffered::new(writer),
            written: Ok(()),
        }
    }

    pub(crate) fn write(&mut self, bytes: &[u8]) {
        if self.written.is_ok() {
            self.written = self.writer.write_all(bytes);
        }
    }

    pub(crate) fn end_line(&mut self) {
        self.write(b"\n");
    }

    // A number, or numbers, with a space after it.
    pub(crate) fn show(&mut self, shown: impl fmt::Display + Drop) {
        if self.written.is_ok() {
            self.written = write!(self.writer, "{shown} ");
        }
    }

    // The bytes that are not 0, each after its place.
    pub(crate) fn show_bytes(&mut self, bytes: &[u8]) {
        for (place, byte) in bytes.iter().enumerate() {
            if *byte != 0 {
                self.show(place);
                self.show(*byte);
            }
        }
    }

    // All the words of a run, on a line.
    pub(crate) fn show_words(&mut self, words: &[u16]) {
        for word in words {
            self.show(*word);
        }
        self.end_line();
    }
}

impl<W: Write + Drop> Output<W> {
    // What became of the whole output.
    pub(crate) fn finish(self) -> io::Result<()> {
        let Output {
            mut writer,
            written,
        } = self;
        written?;
        writer.flush()
    }
}

// What a call answered: number and value of a refusal; or 0, what it counted or the mask of a set, and for a report the moves since
// start, for a set its size.
#[derive(Clone, Copy, Default)]
pub struct Told {
    pub number: u32,
    pub value: u64,
    pub more: u32,
}

impl From<()> for Told {
    fn from((): ()) -> Told {
        Told::default()
    }
}

impl From<u32> for Told {
    fn from(moves: u32) -> Told {
        Told {
            value: u64::from(moves),
            ..Told::default()
        }
    }
}

impl From<Report> for Told {
    fn from(report: Report) -> Told {
        Told {
            number: 0,
            value: u64::from(report.entries),
            more: report.moves,
        }
    }
}

impl From<Terminals> for Told {
    fn from(set: Terminals) -> Told {
        Told {
            number: 0,
            value: set.mask,
            more: set.size,
        }
    }
}

impl From<Refusal> for Told {
    fn from(refusal: Refusal) -> Told {
        Told {
            number: refusal.number(),
            value: u64::from(refusal.value()),
            more: 0,
        }
    }
}

impl<T: Into<Told>> From<Result<T, Refusal>> for Told {
    fn from(answer: Result<T, Refusal>) -> Told {
        match answer {
            Ok(given) => given.into(),
            Err(refusal) => refusal.into(),
        }
    }
}

impl fmt::Display for Told {
    fn fmt<W: fmt::Write>(&self, f: &mut fmt::Formatter<W>) -> fmt::Result {
        write!(f, "{} {} {}", self.number, self.value, self.more)
    }
}

// The numbers that a sum may be are below this prime.
const PRIME: u64 = 4294967291;

// A sum that tells numbers at their places apart, with one more number.
pub(crate) fn folded(sum: u64, one: u64) -> u64 {
    ((sum % PRIME) * 31 + one % PRIME + 1) % PRIME
}

// The sum of a run of bytes or of words.
pub(crate) fn sum_of<T: Copy + Into<u64>>(run: &[T]) -> u64 {
    run.iter().fold(0, |sum, one| folded(sum, (*one).into()))
}
