// A line of a word and numbers, as bytes: measured, and then written where it has room. Document 01, "Sample rows".
ghost use Rattle.std.specs.Prelude.{◌≡◌, ℕ, ◌≤◌, List, length, drop};
ghost use Rattle.laws.specs.Decimals.{decimal};
ghost use Rattle.lines.specs.AnswerLines.{separator, answer_line, written, end_after};

use std::marker::Model;

// A line, which clauses see as the list of its bytes. Nothing is made before it has room, and then its bytes are made in the run: made in a buffer
// first and then copied, a line of three small numbers takes more than twice the time.
#[derive(Drop)]
struct Line<'a> {
    word: &'a [u8],
    numbers: &'a [u32],
}

impl<'a> Model for Line<'a> {
    ghost Value = { List ℕ };

    ghost view = { λ line. answer_line line.word.now line.numbers.now };

    ghost invariant = { λ line. (length line.word.now ≤ 8) × (length line.numbers.now ≤ 8) };
}

impl<'a> Line<'a> {
    fn new(word: &'a [u8], numbers: &'a [u32]) -> Line<'a>
        requires { (length word.now ≤ 8) × (length numbers.now ≤ 8) }
        ensures { result ≡ answer_line word.now numbers.now }
    {
        Line { word, numbers }
    }

    // How many bytes it has.
    fn len(&self) -> usize
        ensures { result ≡ length self.now }
    {
        let mut length = self.word.len();
        for number in self.numbers {
            length += digits(*number) + 1;
        }
        length
    }

    // Its bytes, in a run of just their number.
    fn write(&self, out: &mut [u8])
        requires { length out.old ≡ length self.now }
        ensures { out.new ≡ self.now }
    {
        let mut end = self.word.len();
        out[..end].copy_from_slice(self.word);
        for (i, number) in self.numbers.iter().enumerate() {
            let after = end + digits(*number);
            put_digits(&mut out[end..after], *number);
            out[after] = separator(self.numbers, i + 1);
            end = after + 1;
        }
    }
}

// How many digits a number has. Most numbers of a line are small, and for those two tests take less time than `ilog10`.
fn digits(value: u32) -> usize
    ensures is { result ≡ length (decimal value) }
    ensures small { result ≤ 10 }
{
    if value < 10 {
        return 1;
    }
    if value < 100 {
        return 2;
    }
    value.ilog10() as usize + 1
}

// The digits of a number, in a run of just their number. std's `write!` makes them too, but promises them of an `Ok` alone, and `put_line` promises a
// line wherever it has room.
fn put_digits(out: &mut [u8], value: u32)
    requires { length out.old ≡ length (decimal value) }
    ensures { out.new ≡ decimal value }
{
    let last = out.len() - 1;
    out[last] = b'0' + (value % 10) as u8;
    if 10 <= value {
        put_digits(&mut out[..last], value / 10);
    }
}

// What stands after a number: a space before the next, a line feed after the last.
fn separator(numbers: &[u32], next: usize) -> u8
    ensures { result ≡ separator (drop next numbers.now) }
{
    if next < numbers.len() {
        return b' ';
    }
    b'\n'
}

// A line of a word and numbers, from place `at` on, where it has room: the place after it, or `at`. In the four calls of lib.rt, each with a word and
// a count of numbers of its own, it takes less time than as one function for all.
#[inline(always)]
#[tactic(auto, unfolding(crate::specs::AnswerLines::written, crate::specs::AnswerLines::end_after))]
pub(crate) fn put_line(out: &mut [u8], at: usize, word: &[u8], numbers: &[u32]) -> usize
    requires { (length word.now ≤ 8) × (length numbers.now ≤ 8) }
    ensures value { result ≡ end_after out.old at (answer_line word.now numbers.now) }
    ensures out_after { out.new ≡ written out.old at (answer_line word.now numbers.now) }
{
    let line = Line::new(word, numbers);
    match at.checked_add(line.len()) {
        Some(end) if end <= out.len() => {
            line.write(&mut out[at..end]);
            end
        }
        _ => at,
    }
}
