// Three lines of decimal numbers read in pieces: grammar words, tokens, cuts. Document 01, "Sample rows".
// What has been read stands in a `Held`, which takes a byte or a piece at a time; a caller whose buffers are lent to it has the functions under it.
// What a whole text says is `read_text`.
ghost use Rattle.std.specs.Prelude.{◌≡◌, ◌+◌, ◌<◌, ◌≤◌, length, slice_set, MatchBool, not, replicate, true};
ghost use Rattle.laws.specs.Decimals.{is_digit};
ghost use Rattle.laws.specs.Picks.{pick};
ghost use Rattle.text.specs.Readings.{read_text};
ghost use Rattle.text.specs.Feeding.{held, start, started, line_number, line_ended, opened, longer, full, kept, followed, ended, fed, fed_all, answer_of, finish_of};
ghost use Rattle.text.specs.TextFed.{answer_for, after, TextHeld};

// The line that is being read, by its number.
#[derive(Clone, Copy)]
pub enum Line {
    Words = 1,
    Tokens = 2,
    Cuts = 3,
}

impl Line {
    // Its number.
    pub fn number(self) -> u32
        ensures { result ≡ line_number self }
    {
        self as u32
    }
}

// What stood last in it.
#[derive(Clone, Copy)]
pub enum Phase {
    // nothing yet
    Fresh,
    // digits; the value of the number so far
    Number(u16),
    // a space after a number
    Space,
    // something that makes the line bad
    Bad,
    // the third line feed: all three lines have been read
    Done,
}

// How many numbers of each line there are.
#[derive(Clone, Copy)]
pub struct Counts {
    pub words: usize,
    pub tokens: usize,
    pub cuts: usize,
}

// How far a text has been read, and how many numbers of each line are in the buffers.
#[derive(Clone, Copy)]
pub struct State {
    pub line: Line,
    pub phase: Phase,
    pub counts: Counts,
}

impl State {
    // Nothing has been read.
    pub fn start() -> State
        ensures { result ≡ start }
    {
        State {
            line: Line::Words,
            phase: Phase::Fresh,
            counts: Counts {
                words: 0,
                tokens: 0,
                cuts: 0,
            },
        }
    }

    // A number must start. This and the methods below set in place what a byte changes: a whole state made anew would copy its counts at each byte.
    fn started(&mut self, byte: u8)
        ensures { self.new ≡ started self.old byte }
    {
        self.phase = if byte.is_ascii_digit() {
            Phase::Number(u16::from(byte - b'0'))
        } else {
            Phase::Bad
        };
    }

    // The line ends here, and the next begins; the third is the last.
    fn line_ended(&mut self)
        ensures { self.new ≡ line_ended self.old }
    {
        self.phase = Phase::Fresh;
        match self.line {
            Line::Words => self.line = Line::Tokens,
            Line::Tokens => self.line = Line::Cuts,
            Line::Cuts => self.phase = Phase::Done,
        }
    }

    // A line begins: it is empty, or a number must start.
    fn opened(&mut self, byte: u8)
        ensures { self.new ≡ opened self.old byte }
    {
        match byte {
            b'\n' => self.line_ended(),
            _ => self.started(byte),
        }
    }

    // One more digit of a number.
    fn longer(&mut self, value: u16, digit: u8)
        requires { is_digit digit ≡ true }
        ensures { self.new ≡ longer self.old value digit }
    {
        let next = u32::from(value) * 10 + u32::from(digit - b'0');
        self.phase = match u16::try_from(next) {
            Ok(next) => Phase::Number(next),
            Err(_) => Phase::Bad,
        };
    }

    // What may follow a number: a space, or the line's end.
    fn followed(&mut self, byte: u8)
        ensures { self.new ≡ followed self.old byte }
    {
        match byte {
            b' ' => self.phase = Phase::Space,
            b'\n' => self.line_ended(),
            _ => self.phase = Phase::Bad,
        }
    }

    // What the text says so far: how many numbers each line has, or the first bad line; nothing while more of it is wanted.
    pub fn answer(self) -> Option<Result<Counts, Line>>
        ensures { result ≡ answer_of self }
    {
        match self.phase {
            Phase::Fresh | Phase::Number(_) | Phase::Space => None,
            Phase::Bad => Some(Err(self.line)),
            Phase::Done => Some(Ok(self.counts)),
        }
    }

    // What it says where no more comes: a line without its line feed is missing.
    pub fn finish(self) -> Result<Counts, Line>
        ensures { result ≡ finish_of self }
    {
        self.answer().unwrap_or(Err(self.line))
    }
}

// What has been read of a text: how far, and the numbers of its lines, each line's at the front of its buffer. There is no heap, so each buffer is an
// array with its count in the state. Any state may stand beside any numbers: the promises `fed` and `fed_all` are of each, so no invariant bounds it.
#[derive(Drop)]
pub struct Held {
    pub state: State,
    pub words: [u16; 2564],
    pub tokens: [u16; 1024],
    pub cuts: [u16; 64],
}

impl Held {
    // Nothing has been read, and each buffer is all zeros.
    pub fn new() -> Held
        ensures { result ≡ held start (replicate 2564 0) (replicate 1024 0) (replicate 64 0) }
    {
        Held {
            state: State::start(),
            words: [0; 2564],
            tokens: [0; 1024],
            cuts: [0; 64],
        }
    }

    // One byte.
    pub fn feed(&mut self, byte: u8)
        ensures { self.new ≡ fed self.old byte }
    {
        take(
            &mut self.state,
            byte,
            &mut self.words,
            &mut self.tokens,
            &mut self.cuts,
        );
    }

    // The bytes of a piece.
    pub fn feed_piece(&mut self, piece: &[u8])
        ensures { self.new ≡ fed_all self.old piece.now }
    {
        self.state = feed_piece(
            self.state,
            piece,
            &mut self.words,
            &mut self.tokens,
            &mut self.cuts,
        );
    }

    // A whole text in one piece, whatever has been read before.
    pub fn read_text(&mut self, text: &[u8]) -> Result<Counts, Line>
        ensures value { result ≡ answer_for (read_text text.now) }
        ensures text_held { self.new ≡ after self.old.words self.old.tokens self.old.cuts text.now }
    {
        self.state = State::start();
        self.feed_piece(text);
        self.state.finish()
    }
}

// The state after one byte, where the buffers are the caller's: one who is lent them has no `Held`, and to make one would copy all their words.
pub fn feed(
    state: State,
    byte: u8,
    words: &mut [u16; 2564],
    tokens: &mut [u16; 1024],
    cuts: &mut [u16; 64],
) -> State
    ensures { held result words.new tokens.new cuts.new ≡ fed (held state words.old tokens.old cuts.old) byte }
{
    let mut next = state;
    take(&mut next, byte, words, tokens, cuts);
    next
}

// The state after the bytes of a piece.
pub fn feed_piece(
    state: State,
    piece: &[u8],
    words: &mut [u16; 2564],
    tokens: &mut [u16; 1024],
    cuts: &mut [u16; 64],
) -> State
    ensures { held result words.new tokens.new cuts.new ≡ fed_all (held state words.old tokens.old cuts.old) piece.now }
{
    let mut read = state;
    for byte in piece {
        take(&mut read, *byte, words, tokens, cuts);
    }
    read
}

// A whole text in one piece.
pub fn read_text(
    text: &[u8],
    words: &mut [u16; 2564],
    tokens: &mut [u16; 1024],
    cuts: &mut [u16; 64],
) -> Result<Counts, Line>
    ensures value { result ≡ answer_for (read_text text.now) }
    ensures text_held { TextHeld words.old tokens.old cuts.old text.now words.new tokens.new cuts.new }
{
    feed_piece(State::start(), text, words, tokens, cuts).finish()
}

// One byte, in place: a `Held` and a piece are read without a state made anew at each byte.
#[tactic(auto, unfolding(crate::specs::Feeding::fed))]
fn take(
    state: &mut State,
    byte: u8,
    words: &mut [u16; 2564],
    tokens: &mut [u16; 1024],
    cuts: &mut [u16; 64],
)
    ensures { held state.new words.new tokens.new cuts.new ≡ fed (held state.old words.old tokens.old cuts.old) byte }
{
    match state.phase {
        Phase::Fresh => state.opened(byte),
        Phase::Number(value) if byte.is_ascii_digit() => state.longer(value, byte),
        Phase::Number(value) => end(state, value, byte, words, tokens, cuts),
        Phase::Space => state.started(byte),
        Phase::Bad | Phase::Done => {}
    }
}

// A number ends at a byte that is no digit.
fn end(
    state: &mut State,
    value: u16,
    byte: u8,
    words: &mut [u16; 2564],
    tokens: &mut [u16; 1024],
    cuts: &mut [u16; 64],
)
    ensures { held state.new words.new tokens.new cuts.new ≡ ended (held state.old words.old tokens.old cuts.old) value byte }
{
    if keep(state, value, words, tokens, cuts) {
        state.followed(byte);
    } else {
        state.phase = Phase::Bad;
    }
}

// One more number of the line, in the line's buffer; where the line is full nothing changes. Whether it had room.
fn keep(
    state: &mut State,
    value: u16,
    words: &mut [u16; 2564],
    tokens: &mut [u16; 1024],
    cuts: &mut [u16; 64],
) -> bool
    ensures room { result ≡ not (full state.old) }
    ensures after { held state.new words.new tokens.new cuts.new ≡ pick (full state.old) (held state.old words.old tokens.old cuts.old) (kept (held state.old words.old tokens.old cuts.old) value) }
{
    match state.line {
        Line::Words => put(words, &mut state.counts.words, value),
        Line::Tokens => put(tokens, &mut state.counts.tokens, value),
        Line::Cuts => put(cuts, &mut state.counts.cuts, value),
    }
}

// One more number in a line's buffer, and in the count of its numbers; where the buffer is full nothing changes. Whether it had room.
fn put(line: &mut [u16], count: &mut usize, value: u16) -> bool
    ensures { MatchBool result ((count.old < length line.old) × (line.new ≡ slice_set line.old count.old value) × (count.new ≡ count.old + 1)) ((length line.old ≤ count.old) × (line.new ≡ line.old) × (count.new ≡ count.old)) }
{
    let fits = *count < line.len();
    if fits {
        line[*count] = value;
        *count += 1;
    }
    fits
}
