// A chunk's turn: what its next move is read from, and the move that this calls for, by document 01's rules 1 to 6: the tests of the words in
// their order.
ghost use Rattle.std.specs.Prelude.{◌≡◌, ◌+◌, ◌<◌};
ghost use Rattle.language.specs.Words.{entry, word};
ghost use Rattle.moving.specs.OneMove.{Movable};
ghost use Rattle.moving.specs.Moved.{CallsFor, Compared, Facing, Takes, HasLeft};
ghost use Rattle.moving.specs.ReadWords.{HasStack, terminal_of};
ghost use Rattle.moving.specs.Settled.{settled, Holding, Topped};

use crate::stack::Stack;
use crate::{moves, stack};
use moving::{Hand, Move, Stuck};

// The grammar's words and matrix, the lent area, and one of its chunks with what is at hand of it.
#[derive(Clone, Copy)]
pub(crate) struct Turn<'a> {
    pub(crate) words: &'a [u16],
    pub(crate) matrix: &'a [u8],
    pub(crate) area: &'a [u16],
    pub(crate) c: usize,
    pub(crate) hand: Hand,
    pub ghost holding: { Holding area.now c hand },
}

// The word of rule r's left side.
fn left_word(words: &[u16], r: u16) -> u16
    requires { HasLeft words.now r }
    ensures { result ≡ 256 + word words.now (entry words.now r) }
{
    256 + words[stack::body_start(words, r as usize)]
}

// The topmost terminal of this word at hand, where there is one.
fn terminal(top: u32) -> Option<u16>
    ensures { result ≡ terminal_of top }
{
    if top < 256 { Some(top as u16) } else { None }
}

impl<'a> Turn<'a> {
    // The chunk's stack.
    fn stack(self) -> Stack<'a>
        requires { HasStack (settled self.area.now self.c self.hand) self.c }
        ensures { (result.area.now ≡ self.entry.area.now) × (result.from ≡ self.entry.hand.from) × (result.head ≡ self.entry.hand.head) }
    {
        Stack::new(self.area, self.hand, self.hand.head)
    }

    // The move of a chunk that is not at rest: rules 1 and 2 here, the others where the stack has a terminal.
    pub(crate) fn next_move(self) -> Move
        requires movable { Movable self.words.now self.matrix.now (settled self.area.now self.c self.hand) self.c }
        requires topped { Topped self.area.now self.hand }
        ensures { CallsFor self.entry.words.now self.entry.matrix.now (settled self.entry.area.now self.entry.c self.entry.hand) self.entry.c result }
    {
        let b = moves::slot_word(self.area, self.hand.base, self.hand.head as usize, 0);
        if 256 <= b {
            if self.stack().nonterminal_on_top() {
                return Move::Stick(Stuck::SideBySide);
            }
            return Move::Push(false);
        }
        match terminal(self.hand.top) {
            Some(a) => self.related(a, b),
            None => Move::Push(false),
        }
    }

    // Rules 3 to 6: a is the topmost terminal and b the next symbol. The bytes 1, 2 and 3 are document 01's numbers of the matrix, which C lends.
    fn related(self, a: u16, b: u16) -> Move
        requires { Facing self.words.now self.matrix.now (settled self.area.now self.c self.hand) self.c a b }
        ensures { CallsFor self.entry.words.now self.entry.matrix.now (settled self.entry.area.now self.entry.c self.entry.hand) self.entry.c result }
    {
        match self.matrix[64 * (a as usize) + b as usize] {
            1 => Move::Push(true),
            2 if a == 0 && b == 0 => self.last(),
            2 => Move::Push(false),
            3 => self.takes(),
            _ => Move::Stick(Stuck::NoRelation),
        }
    }

    // Rule 4 for # over #: the # of the end is read where the stack is # and an axiom, or the chunk is stuck.
    fn last(self) -> Move
        requires { Compared self.words.now self.matrix.now (settled self.area.now self.c self.hand) self.c 0 0 2 }
        ensures { CallsFor self.entry.words.now self.entry.matrix.now (settled self.entry.area.now self.entry.c self.entry.hand) self.entry.c result }
    {
        if self.stack().end_and_axiom(self.words[2]) {
            Move::Accept
        } else {
            Move::Stick(Stuck::NotAxiom)
        }
    }

    // Rules 5 and 6: the topmost terminal takes over the next symbol. Where the stack has a mark, the handle is replaced by the left side of
    // the least rule that has it, or the chunk is stuck.
    fn takes(self) -> Move
        requires { Takes self.words.now self.matrix.now (settled self.area.now self.c self.hand) self.c }
        ensures { CallsFor self.entry.words.now self.entry.matrix.now (settled self.entry.area.now self.entry.c self.entry.hand) self.entry.c result }
    {
        if self.hand.marks == 0 {
            return Move::Push(false);
        }
        let stack = self.stack();
        let handle = stack.find_handle();
        match stack.match_rule(handle, self.words) {
            Some(r) => Move::Reduce {
                from: handle.start as u16,
                symbol: left_word(self.words, r),
                rule: r,
            },
            None => Move::Stick(Stuck::NoRule),
        }
    }
}
