// Standard input in pieces, as they come. Nothing is asked for once the text says what it says: after its third line feed, or in a bad line.
ghost use Rattle.std.specs.Prelude.{◌≡◌, ◌<◌, ◌≤◌, length, IfOk};
ghost use Rattle.std.specs.Io.KnownBytes.{ReadConsumes};
ghost use Rattle.text.specs.FedLimits.{AnswerLimits};
ghost use Rattle.rows.specs.Reads.{ReadsText};

use std::io;
use std::io::Read;
use text::reading::{Counts, Held, Line, State};

// What is there of the input, at most a piece of it; 0 at its end. The error of a read that fails.
fn read_piece<R: Read>(input: &mut R, piece: &mut [u8]) -> io::Result<usize>
    ensures bound { IfOk result (λ n. n ≤ length piece.new) }
    ensures bytes { ReadConsumes (R.remaining input.old) (R.remaining input.new) result piece.new }
{
    input.read(piece)
}

// Reads the three lines into their buffers: what it answers, and what the buffers hold then, is what the text of the whole input says, in
// whatever pieces that comes (where the reader's type tells its bytes). A proved loop has to end, and nothing says that an input does: so it
// counts its turns, up to a number that no run comes to.
pub(crate) fn read_lines<R: Read>(
    input: &mut R,
    piece: &mut [u8],
    held: &mut Held,
) -> io::Result<Result<Counts, Line>>
    ensures answer_limits { IfOk result AnswerLimits }
    ensures reads { 0 < length piece.old → IfOk result (λ said. ReadsText held.old.words held.old.tokens held.old.cuts (R.remaining input.old) said held.new.words held.new.tokens held.new.cuts) }
{
    held.state = State::start();
    for _ in 0..u64::MAX {
        if held.state.answer().is_some() {
            break;
        }
        let n = read_piece(input, piece)?;
        if n == 0 {
            break;
        }
        held.feed_piece(&piece[..n]);
    }
    Ok(held.state.finish())
}
