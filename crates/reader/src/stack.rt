// What a move reads of a chunk's stack, where it lies on the slots of a lent work area: its symbols from the top down, and the rule whose right
// side its handle is.
ghost use Rattle.std.specs.Prelude.{◌≡◌, ◌+◌, ◌*◌, ◌-◌, ◌≤◌, ◌<◌, leb, length, IfSome};
ghost use Rattle.language.specs.Words.{count_r, entry, body_end};
ghost use Rattle.layout.specs.Layout.{slots_at, slot_word};
ghost use Rattle.moving.specs.MoveWords.{slot_at};
ghost use Rattle.moving.specs.ReadWords.{Stacked, start_slot, TopIs, NonterminalOnTop, EndAndAxiom, HandleIs};
ghost use Rattle.moving.specs.OnStack.{IsStacked};
ghost use Rattle.moving.specs.MatchWords.{Readable, Whole, handle_words, match_words};
ghost use Rattle.moving.specs.Searches.{found_of};

use crate::moves;
use moving::{Hand, Handle};

// A stack on the slots from `from` up to `head` of a lent area, whose slots start at word `base`.
#[derive(Clone, Copy)]
pub(crate) struct Stack<'a> {
    pub(crate) area: &'a [u16],
    pub(crate) base: usize,
    pub(crate) from: usize,
    pub(crate) head: usize,
    pub ghost stands: { (base ≡ slots_at area.now) × IsStacked area.now from head },
}

impl<'a> Stack<'a> {
    // The stack of a chunk at hand, up to slot `head`.
    pub(crate) fn new(area: &'a [u16], hand: Hand, head: u16) -> Self
        requires { (hand.base ≡ slots_at area.now) × Stacked area.now hand.from head }
        ensures { (result.area.now ≡ area.now) × (result.from ≡ hand.from) × (result.head ≡ head) }
    {
        Stack {
            area,
            base: hand.base,
            from: hand.from as usize,
            head: head as usize,
        }
    }

    // Whether it has no symbol.
    fn is_empty(self) -> bool
        ensures { result ≡ leb self.entry.head self.entry.from }
    {
        self.head <= self.from
    }

    // The slot where its topmost symbol's block starts. That there is one is asked here and of the next two, since it holds of some stacks only.
    fn top_slot(self) -> usize
        requires { self.from < self.head }
        ensures { result ≡ start_slot self.entry.area.now self.entry.head }
    {
        self.head - self.area[self.base + 4 * self.head - 1] as usize
    }

    // Word k of its topmost symbol's block (by its number: see `moves::slot_word`).
    fn top_word(self, k: usize) -> u16
        requires { (self.from < self.head) × (k < 4) }
        ensures { result ≡ slot_word self.entry.area.now (start_slot self.entry.area.now self.entry.head) k }
    {
        moves::slot_word(self.area, self.base, self.top_slot(), k)
    }

    // What stands under its topmost symbol. (Field by field: the language has no `..self` where there is a ghost field.)
    fn under(self) -> Self
        requires { self.from < self.head }
        ensures { (result.area.now ≡ self.entry.area.now) × (result.from ≡ self.entry.from) × (result.head ≡ start_slot self.entry.area.now self.entry.head) }
    {
        Stack {
            area: self.area,
            base: self.base,
            from: self.from,
            head: self.top_slot(),
        }
    }

    // Whether its topmost symbol is a nonterminal.
    pub(crate) fn nonterminal_on_top(self) -> bool
        ensures { NonterminalOnTop self.entry.area.now self.entry.from self.entry.head result }
    {
        if self.is_empty() {
            return false;
        }
        256 <= self.top_word(0)
    }

    // The word of its topmost terminal, where it has one. Here and in `find_handle` a `while` goes down the stack, symbol by symbol: no index is
    // counted, and an iterator of its symbols would be a second struct with the same walk in its `next`.
    pub(crate) fn top_terminal(self) -> Option<u16>
        ensures top { TopIs self.entry.area.now self.entry.from self.entry.head result }
        ensures small { IfSome result (λ a. a < 256) }
    {
        let mut rest = self;
        while !rest.is_empty() {
            let word = rest.top_word(0);
            if word < 256 {
                return Some(word);
            }
            rest = rest.under();
        }
        None
    }

    // Its handle: it starts with the topmost mark, or with the nonterminal just below it; at the bottom where there is no mark.
    pub(crate) fn find_handle(self) -> Handle
        ensures { HandleIs self.entry.area.now self.entry.from self.entry.head result.start result.count }
    {
        let mut rest = self;
        let mut count: usize = 0;
        while !rest.is_empty() {
            let mark = rest.top_word(1);
            rest = rest.under();
            count += 1;
            if 0 < mark {
                if rest.nonterminal_on_top() {
                    return Handle {
                        start: rest.top_slot(),
                        count: count + 1,
                    };
                }
                return Handle {
                    start: rest.head,
                    count,
                };
            }
        }
        Handle {
            start: self.from,
            count,
        }
    }

    // Whether it is # and one of the first `axioms` nonterminals.
    pub(crate) fn end_and_axiom(self, axioms: u16) -> bool
        ensures { EndAndAxiom self.entry.area.now self.entry.from self.entry.head axioms result }
    {
        if self.is_empty() {
            return false;
        }
        let lower = self.under();
        if lower.is_empty() {
            return false;
        }
        let word = self.top_word(0) as usize;
        lower.under().is_empty()
            & (lower.top_word(0) == 0)
            & (256 <= word)
            & (word < 256 + axioms as usize)
    }

    // The least rule whose right side is this handle: one with as many words as it has symbols, compared where they lie. Where a rule's body ends,
    // the next one's starts.
    pub(crate) fn match_rule(self, handle: Handle, words: &[u16]) -> Option<u16>
        requires { Readable words.now × Whole self.area.now self.head handle.start × (handle.start < self.head)
            × (handle.count ≡ length (handle_words self.area.now handle.start self.head)) }
        ensures { result ≡ found_of (match_words words.now (handle_words self.entry.area.now handle.start self.entry.head)) }
    {
        let rules = words[3];
        let mut next: u16 = 0;
        let mut end = words[4] as usize;
        // A labelled loop and no `for`: document 01 names this form, where an inner mismatch continues the search and a match breaks with its value.
        'outer: loop {
            let r = next;
            if rules <= r {
                break None;
            }
            next += 1;
            let start = end + 1;
            end = body_end(words, r as usize);
            if end != start + handle.count {
                continue 'outer;
            }
            let mut slot = handle.start;
            for word in &words[start..end] {
                if *word != moves::slot_word(self.area, self.base, slot, 0) {
                    continue 'outer;
                }
                slot += moves::slot_word(self.area, self.base, slot, 2) as usize;
            }
            break Some(r);
        }
    }
}

// The word place at which rule r's body starts. This and the next are no public function of `words`, as `words::body_of` is: a public function asks
// nothing, and would test at each word what the rule search knows.
pub(crate) fn body_start(words: &[u16], r: usize) -> usize
    requires { 4 + r < length words.now }
    ensures { result ≡ entry words.now r }
{
    words[4 + r] as usize
}

// The word place at which rule r's body ends.
fn body_end(words: &[u16], r: usize) -> usize
    requires { Readable words.now × (r < count_r words.now) }
    ensures { (result ≡ body_end words.now r) × (result ≤ length words.now) }
{
    if r + 1 < words[3] as usize {
        return body_start(words, r + 1);
    }
    words.len()
}
