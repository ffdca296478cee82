// A writer with a buffer of its own, which goes out when it is full and by `flush`. The buffer has its length beside it since `io::BufWriter`
// would allocate, and the program has no heap.
ghost use Rattle.std.specs.Prelude.{◌≤◌};

use std::io;
use std::io::Write;

#[derive(Drop)]
pub struct Buffered<W> {
    writer: W,
    bytes: [u8; 8192],
    filled: usize,
    ghost in_bounds: { filled ≤ 8192 },
}

impl<W: Write> Buffered<W> {
    pub(crate) fn new(writer: W) -> Buffered<W> {
        Buffered {
            writer,
            bytes: [0; 8192],
            filled: 0,
        }
    }
}

impl<W: Write> Write for Buffered<W> {
    fn write(&mut self, bytes: &[u8]) -> io::Result<usize> {
        if self.filled == 8192 {
            self.flush()?;
        }
        let count = bytes.len().min(8192 - self.filled);
        let end = self.filled + count;
        self.bytes[self.filled..end].copy_from_slice(&bytes[..count]);
        self.filled = end;
        Ok(count)
    }

    fn flush(&mut self) -> io::Result<()> {
        self.writer.write_all(&self.bytes[..self.filled])?;
        self.filled = 0;
        self.writer.flush()
    }
}
