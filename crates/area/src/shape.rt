// The shape rules (c) to (k) of docs/AREA.md, checked in one pass over the lent words.
// Each function is a definition of specs/Shape.antt, or some of them joined, of which its contract is the equation.
// Tests are joined by `&` and `|`, so that a function of many tests has one way through it.
ghost use Rattle.std.specs.Prelude.{false, ◌≡◌, ◌+◌, ◌*◌, ◌-◌, ◌≤◌, ◌<◌, ◌^◌, pred, eqb, length, get_or};
ghost use Rattle.laws.specs.Picks.{pick};
ghost use Rattle.layout.specs.Layout.{slots_at};
ghost use Rattle.area.specs.Shape.{rule_c, symbol_fits, place_fits, tag, opened, inner, scan_slot, side};
ghost use Rattle.area.specs.Shape.{gone_fits, status_fits, bounds_fit, sides_fit, counted, line_of, walk_of};
ghost use Rattle.area.specs.Shape.{end_fits, potential_of, rule_j, rule_k, walk_fits};
ghost use Rattle.area.specs.ShapeCode.{slot_of, row_of, Sized, Few, Within, Countable};

use matrix::all_are;

// A slot, by its number: its four words.
#[derive(Clone, Copy)]
pub struct Slot {
    pub at: u16,
    pub symbol: u16,
    pub mark: u16,
    pub size: u16,
    pub last: u16,
}

// The five words of a chunk's row of the table. The status stays a word, not an enum's value: `status_fits`, `sides_fit` and `counted` of specs/Shape
// are of the number in docs/AREA.md of any row, whatever stands there.
#[derive(Clone, Copy)]
pub struct Row {
    pub status: u16,
    pub from: u16,
    pub head: u16,
    pub end: u16,
    pub marks: u16,
}

// Where a scan of one side of a chunk stands (at first all 0): within a symbol of `size` slots, `within` of them to come; how many symbols,
// terminals other than # and marks it has passed.
#[derive(Clone, Copy, Default)]
pub struct Scan {
    pub within: u16,
    pub size: u16,
    pub symbols: u16,
    pub terminals: u16,
    pub marks: u16,
}

// Where a walk of the chunk table stands (at first all 0): the slot where the last live chunk ends; how many live chunks there were, how many not stuck,
// and how many symbols unread, symbols in all and terminals other than # they have.
#[derive(Clone, Copy, Default)]
pub struct Walk {
    pub at: u16,
    pub live: u16,
    pub running: u16,
    pub unread: u16,
    pub symbols: u16,
    pub terminals: u16,
}

// The area of a row being read, whose sizes fit: its words, its number of tokens, and the grammar's numbers of terminals and nonterminals.
#[derive(Clone, Copy)]
pub(crate) struct Lent<'a> {
    pub(crate) area: &'a [u16],
    pub(crate) tokens: u16,
    pub(crate) terminals: u16,
    pub(crate) nonterminals: u16,
    ghost sized: { Sized area.now },
    ghost tokens_are: { tokens ≡ get_or area.now 0 0 },
    ghost few: { nonterminals ≤ 64 },
}

// ---- (c) the sizes

// n in 1..16,384, C in 1..64, the area at least need(n, C) words.
pub(crate) fn sized(area: &[u16]) -> bool
    ensures { result ≡ rule_c area.now }
{
    let len = area.len();
    if len < 13 {
        return false;
    }
    let tokens = area[0] as usize;
    let count = area[1] as usize;
    (1 <= tokens)
        & (tokens <= 16384)
        & (1 <= count)
        & (count <= 64)
        & (7 * tokens + 5 * count + 13 <= len)
}

// ---- (f) one side of a chunk

// The last word of a slot from which on its symbol, of l slots, has k: 0, but for the last slot.
fn tag_of(k: u16, l: u16) -> u16
    ensures { result ≡ tag (k - 1) l }
{
    if k <= 1 { l } else { 0 }
}

impl Scan {
    // A slot inside a symbol: its words are 0, but for the last of the last slot.
    fn inside(self, slot: Slot) -> Option<Scan>
        requires { 0 < self.within }
        ensures { result ≡ inner self slot.symbol slot.mark slot.size slot.last }
    {
        let fits = (slot.symbol == 0)
            & (slot.mark == 0)
            & (slot.size == 0)
            & (slot.last == tag_of(self.within, self.size));
        if !fits {
            return None;
        }
        Some(Scan {
            within: self.within - 1,
            ..self
        })
    }
}

impl Lent<'_> {
    // The word at which this slot starts.
    fn slot_at(&self, at: u16) -> usize
        ensures { result ≡ slots_at self.now.area.now + 4 * at }
    {
        5 + 5 * self.area[1] as usize + 4 * at as usize
    }

    // The words of this slot.
    fn slot(&self, at: u16) -> Slot
        requires { at ≤ self.now.tokens + 1 }
        ensures { result ≡ slot_of self.now.area.now at }
    {
        let word = self.slot_at(at);
        Slot {
            at,
            symbol: self.area[word],
            mark: self.area[word + 1],
            size: self.area[word + 2],
            last: self.area[word + 3],
        }
    }

    // Symbol and mark: # or a terminal to T; a nonterminal below N, unmarked; a mark is 0 or 1 and never on #.
    fn symbol_fits(&self, slot: Slot) -> bool
        ensures { result ≡ symbol_fits self.now.terminals self.now.nonterminals slot.symbol slot.mark }
    {
        let Slot { symbol, mark, .. } = slot;
        // below 256 a terminal, from there on a nonterminal: no enum, since the words are the area's, lent by C, of any value
        let terminal = symbol <= self.terminals;
        let nonterminal = (256 <= symbol) & (symbol < 256 + self.nonterminals);
        ((mark == 0) & (terminal | nonterminal)) | ((mark == 1) & (symbol != 0) & terminal)
    }

    // Where the symbol stands: # in slots 0 and n+1 and nowhere else, one slot long.
    fn place_fits(&self, slot: Slot) -> bool
        ensures { result ≡ place_fits self.now.tokens slot.at slot.symbol slot.size }
    {
        let Slot {
            at,
            symbol,
            size,
            ..
        } = slot;
        let last = self.tokens + 1;
        let edge = (at == 0) | (at == last);
        let within = at as u32 + size as u32 <= last as u32;
        (edge & (symbol == 0) & (size == 1)) | (!edge & (symbol != 0) & within)
    }

    // A slot at which a symbol starts.
    fn open_symbol(&self, scan: Scan, slot: Slot) -> Option<Scan>
        requires { Few 16386 scan }
        ensures { result ≡ opened self.now.terminals self.now.nonterminals self.now.tokens slot.at scan slot.symbol slot.mark slot.size slot.last }
    {
        let Slot {
            symbol,
            mark,
            size,
            ..
        } = slot;
        let fits = (size != 0)
            & self.symbol_fits(slot)
            & self.place_fits(slot)
            & (slot.last == tag_of(size, size));
        if !fits {
            return None;
        }
        let terminal = (symbol != 0) & (symbol < 256);
        Some(Scan {
            within: size - 1,
            size,
            symbols: scan.symbols + 1,
            terminals: scan.terminals + terminal as u16,
            marks: scan.marks + mark,
        })
    }

    // One slot more.
    #[tactic(auto, unfolding(crate::specs::Shape::scan_slot))]
    fn scan_slot(&self, scan: Scan, slot: Slot) -> Option<Scan>
        requires { Few 16386 scan }
        ensures { result ≡ scan_slot self.now.terminals self.now.nonterminals self.now.tokens slot.at scan slot.symbol slot.mark slot.size slot.last }
    {
        if scan.within == 0 {
            return self.open_symbol(scan, slot);
        }
        scan.inside(slot)
    }

    // One side of a chunk: the slots from `from` up to `to`.
    fn side(&self, from: u16, to: u16) -> Option<Scan>
        requires { to ≤ self.now.tokens + 2 }
        ensures { result ≡ side self.now.terminals self.now.nonterminals self.now.area.now from to }
    {
        let mut scan = Scan::default();
        for at in from..to {
            scan = self.scan_slot(scan, self.slot(at))?;
        }
        Some(scan)
    }

    // The row of chunk c.
    fn row(&self, c: u16) -> Row
        requires { c < get_or self.now.area.now 1 0 }
        ensures { result ≡ row_of self.now.area.now (5 + 5 * c) }
    {
        let word = 5 + 5 * c as usize;
        Row {
            status: self.area[word],
            from: self.area[word + 1],
            head: self.area[word + 2],
            end: self.area[word + 3],
            marks: self.area[word + 4],
        }
    }

    // (d) A live chunk's status: 1 running; 17 to 20 stuck so.
    // (e) From is the end of the live chunk before it and at most n+1; from, head, end in order, the end at most n+2.
    fn bounds_fit(&self, at: u16, row: Row) -> bool
        ensures { result ≡ pick (status_fits row.status) (bounds_fit self.now.tokens at row.from row.head row.end) false }
    {
        ((row.status == 1) | ((17 <= row.status) & (row.status <= 20)))
            & ((row.from == at)
                & (row.from <= self.tokens + 1)
                & (row.from <= row.head)
                & (row.head <= row.end)
                & (row.end <= self.tokens + 2))
    }

    // One row of the table more.
    fn line(&self, walk: Walk, row: Row) -> Option<Walk>
        requires { Within 63 walk }
        ensures { result ≡ line_of self.now.terminals self.now.nonterminals self.now.area.now walk row.status row.from row.head row.end row.marks }
    {
        if row.is_gone() {
            return Some(walk);
        }
        if !self.bounds_fit(walk.at, row) {
            return None;
        }
        let stack = self.side(row.from, row.head)?;
        let unread = self.side(row.head, row.end)?;
        if !row.sides_fit(stack, unread) {
            return None;
        }
        Some(walk.counting(row, stack, unread))
    }

    // (d) to (h) of every chunk.
    pub(crate) fn walk_table(&self) -> Option<Walk>
        ensures { result ≡ walk_of self.now.terminals self.now.nonterminals self.now.area.now }
    {
        let mut walk = Walk::default();
        for c in 0..self.area[1] {
            walk = self.line(walk, self.row(c))?;
        }
        Some(walk)
    }
}

// ---- (d) to (h) of one chunk

impl Row {
    // (d) A gone chunk's row is zeros.
    fn is_gone(self) -> bool
        ensures { result ≡ pick (eqb self.status 0) (gone_fits self.from self.head self.end self.marks) false }
    {
        (self.status == 0)
            & (self.from == 0)
            & (self.head == 0)
            & (self.end == 0)
            & (self.marks == 0)
    }

    // Of a live chunk, from the scans of its stack and of its unread side: (f) each is whole symbols, (g) the marks are those on the stack,
    // (h) a stuck chunk has something unread, one stuck with 18 has a mark.
    fn sides_fit(self, stack: Scan, unread: Scan) -> bool
        ensures { result ≡ sides_fit stack unread self.status self.head self.end self.marks }
    {
        (stack.within == 0)
            & (unread.within == 0)
            & (unread.marks == 0)
            & (self.marks == stack.marks)
            & ((self.status == 1)
                | ((self.head < self.end) & ((self.status != 18) | (1 <= self.marks))))
    }
}

impl Walk {
    // A live chunk's counts added.
    fn counting(self, row: Row, stack: Scan, unread: Scan) -> Walk
        requires { Countable 63 row.end self stack unread }
        ensures { result ≡ counted self stack unread row.status row.end }
    {
        let running = row.status == 1;
        Walk {
            at: row.end,
            live: self.live + 1,
            running: self.running + running as u16,
            unread: self.unread + unread.symbols,
            symbols: self.symbols + stack.symbols + unread.symbols,
            terminals: self.terminals + stack.terminals + unread.terminals,
        }
    }

    // The most moves that can still come.
    fn potential(self) -> usize
        ensures { (result ≡ potential_of self) × (result < 2 ^ 33) }
    {
        let others = one_less(self.live);
        self.unread as usize
            + times(one_less(self.symbols), others)
            + self.terminals as usize
            + 2 * others
            + self.running as usize
    }
}

// ---- (d) to (k) of the whole

// One less, and 0 of 0.
fn one_less(x: u16) -> usize
    ensures { (result ≡ pred x) × (result < 65536) }
{
    x.saturating_sub(1) as usize
}

// The product of two words.
fn times(x: usize, y: usize) -> usize
    requires { (x < 65536) × (y < 65536) }
    ensures { (result ≡ x * y) × (result < 2 ^ 32) }
{
    x * y
}

impl Lent<'_> {
    // (e) The last live chunk's end is n+2, or n+1 if chunk 0 is the only live chunk and its head is n+1.
    fn end_fits(&self, walk: Walk) -> bool
        ensures { result ≡ end_fits self.now.area.now walk }
    {
        let last = self.tokens + 1;
        (walk.at == last + 1) | ((walk.at == last) & (walk.live == 1) & (self.area[7] == last))
    }

    // (j) The moves made, and the most that can still come.
    fn rule_j(&self, walk: Walk) -> bool
        ensures { result ≡ rule_j self.now.area.now walk }
    {
        let tokens = self.tokens as usize;
        let count = self.area[1] as usize;
        // as reader's `moves_of`: a public function asks nothing, and would test that these words are there
        let low = self.area[2] as usize;
        let high = self.area[3] as usize;
        low + 65536 * high + walk.potential() <= times(tokens, count) + tokens + 4 * count - 2
    }

    // (k) Slots past the last end and unused reductions are zeros.
    fn rule_k(&self, walk: Walk) -> bool
        requires { (walk.at ≤ self.now.tokens + 2) × (get_or self.now.area.now 4 0 ≤ self.now.tokens) }
        ensures { result ≡ rule_k self.now.area.now walk }
    {
        let made = self.slot_at(self.tokens + 2);
        let used = made + 3 * self.area[4] as usize;
        let end = made + 3 * self.tokens as usize;
        all_are(&self.area[self.slot_at(walk.at)..made], &0) & all_are(&self.area[used..end], &0)
    }

    // (d) to (k), from a walk of the table: among them (d) chunk 0 is live, with at least one stack slot, and (i) the reductions made and
    // the terminals other than # are at most n.
    pub(crate) fn walk_fits(&self, walk: Walk) -> bool
        ensures { result ≡ walk_fits self.now.area.now (Some walk) }
    {
        // `rule_k` reads only where these hold.
        let others = (self.area[5] != 0)
            & (1 <= self.area[7])
            & self.end_fits(walk)
            & (self.area[4] as usize + walk.terminals as usize <= self.tokens as usize)
            & self.rule_j(walk);
        others && self.rule_k(walk)
    }
}
