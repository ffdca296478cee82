// The left and right sets of all nonterminals as masks. Document 01, "Sets and matrix".
// The right sets mirror the left sets: everything here looks at right sides from their start, or from their end.
ghost use Rattle.std.specs.Prelude.{◌≡◌, ◌<◌, length, get_or};
ghost use Rattle.language.specs.Words.{count_r, grammar_of};
ghost use Rattle.table.specs.Sided.{from_end, sided, turned};
ghost use Rattle.table.specs.Edges.{Front};
ghost use Rattle.table.specs.SetPasses.{brought, gained, Sound, Members, Changed, Grown};

use crate::checked::Checked;

// The side from which right sides are seen: from their start for left sets, from their end for right sets.
#[derive(Clone, Copy)]
pub(crate) enum Side {
    Left,
    Right,
}

impl Side {
    // Word i of a right side, counted from this side.
    fn word(self, right: &[u16], i: usize) -> usize
        requires { i < length right.now }
        ensures { result ≡ get_or (turned (from_end self) right.now) i 0 }
    {
        match self {
            Side::Left => right[i] as usize,
            Side::Right => right[right.len() - 1 - i] as usize,
        }
    }

    // What a right side brings to the set of its rule's left side, given the sets so far: its outermost terminal, and all of the set of a
    // nonterminal before that.
    fn brought(self, right: &[u16], masks: &[u64; 64]) -> u64
        requires { Front (turned (from_end self) right.now) }
        ensures { let seen = turned (from_end self) right.now in result ≡ brought masks.now (get_or seen 0 0) (get_or seen 1 0) }
    {
        let near = self.word(right, 0);
        // a terminal: from 256 on a nonterminal; no enum, since the words are document 01's, lent by C
        if near < 256 {
            return 1u64 << near;
        }
        1u64 << self.word(right, 1) | masks[near - 256]
    }
}

// A grammar whose right sides are seen from one side.
#[derive(Clone, Copy)]
pub(crate) struct View<'a> {
    pub(crate) grammar: Checked<'a>,
    pub(crate) side: Side,
}

impl View<'_> {
    // Rule r, below R as in checked.rt, brings what it can to the set of its left side: whether that set has changed.
    fn gain(&self, masks: &mut [u64; 64], r: usize) -> bool
        requires { (r < count_r self.now.grammar.words.now) × (length masks.old ≡ 64) }
        ensures is { masks.new ≡ gained self.now.grammar.words.now (from_end self.now.side) masks.old r }
        ensures changed { Changed masks.old masks.new result }
    {
        let left = self.grammar.left(r);
        let old = masks[left];
        let new = old | self.side.brought(self.grammar.right(r), masks);
        masks[left] = new;
        new != old
    }

    // One pass over the rules: whether a set has changed.
    fn pass(&self, masks: &mut [u64; 64]) -> bool
        requires { Sound (sided (from_end self.now.side) (grammar_of self.now.grammar.words.now)) masks.old }
        ensures sound { Sound (sided (from_end self.now.side) (grammar_of self.now.grammar.words.now)) masks.new }
        ensures grown { Grown (gained self.now.grammar.words.now (from_end self.now.side)) masks.old masks.new (count_r self.now.grammar.words.now) result }
    {
        let mut changed = false;
        for r in 0..self.grammar.rules() {
            changed |= self.gain(masks, r);
        }
        changed
    }

    // The left sets of all nonterminals, or the right sets: passes from empty sets until one changes nothing. No iterator is plainer, since what ends
    // this loop is what a pass did, and no place is counted.
    pub(crate) fn masks(&self) -> [u64; 64]
        ensures { Members (sided (from_end self.now.side) (grammar_of self.now.grammar.words.now)) result }
    {
        let mut masks = [0u64; 64];
        while self.pass(&mut masks) {}
        masks
    }
}
