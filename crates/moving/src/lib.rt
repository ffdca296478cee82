// The moves of a chunk and the join of two on the words of a lent work area, as theory: what they read and write there, that this is the
// machine's move of the state that the words stand for, and what the calls that make them answer and leave. Here stand the types that this
// speaks of, and the rest in specs/; the code of the moves is crate `reader`.
#![tactic(auto)]

// What a run has at hand of its chunk: the chunk's row of the table, the counts of reductions and of moves, the word where the slots start,
// and the word of the topmost terminal of its stack. The area holds the row and the counts once the run has ended.
#[derive(Clone, Copy)]
pub struct Hand {
    pub status: u16,
    pub from: u16,
    pub head: u16,
    pub end: u16,
    pub marks: u32,
    pub reductions: u32,
    pub moves: u32,
    pub base: usize,
    // 256 where it has none. As an Option<u16> it takes 6 to 9 instructions a token and 2 to 10 % of time more, as an Option<usize> 18 to 32 % of time
    // (docs/BENCH.md, "Tried and left out"), against the project's rule that the library be as fast as C by hand.
    pub top: u32,
}

// The handle of a stack: the slot where it starts, and how many symbols it has.
#[derive(Clone, Copy)]
pub struct Handle {
    pub start: usize,
    pub count: usize,
}

// Why a chunk is stuck: the refusal of that name, by whose number its row of the table then tells it.
#[derive(Clone, Copy)]
pub enum Stuck {
    NoRelation = 17,
    NoRule = 18,
    NotAxiom = 19,
    SideBySide = 20,
}

// The move that a chunk's words call for: its next symbol put on its stack, marked or not; stuck; the # of the end read; the handle from this
// slot up replaced by this left side of this rule.
#[derive(Clone, Copy)]
pub enum Move {
    Push(bool),
    Stick(Stuck),
    Accept,
    Reduce { from: u16, symbol: u16, rule: u16 },
}
