// The moves of a chunk and the join of two, on the words of a lent work area.
// Each function that writes leaves exactly the words that a definition of moving/specs/MoveWords.antt names. No symbol moves.
// What a run needs again at each move goes by value from move to move beside the area (`Hand`): a move stores what it changes of the slots and the
// reductions, and `settle` stores the rest when the run ends. The contracts speak of the area as `settle` would leave it (`settled`).
// The area, c and the hand are no struct with `Holding` and `Topped` in ghost fields, since this is no plainer: over a `&mut` area these have to
// hold at each store, and between the stores of one move `Topped` does not; a contract speaks of the three before and after. Of the functions that
// take `base` beside the area, `note` and `lay` write, so the same holds of them; `slot_word` also reads unread symbols, and `Stack::new` makes the
// struct in which `base ≡ slots_at area.now` then stands.
ghost use Rattle.std.specs.Prelude.{◌≡◌, ◌+◌, ◌*◌, ◌-◌, ◌/◌, ◌%◌, ◌≤◌, ◌<◌, length, set};
ghost use Rattle.layout.specs.Layout.{slots_at, slot_word, made_at_word};
ghost use Rattle.moving.specs.MoveWords.{tick_words, mark_of, put_words, ended_words, unmark_words, join_words};
ghost use Rattle.moving.specs.MoveWords.{cleared_one, start_of, cleared_words, over_words, entry_words, made_words};
ghost use Rattle.moving.specs.MoveWords.{Ticks, Pushable, Acceptable, Joinable, Laid, Tagged, Reducible};
ghost use Rattle.moving.specs.MoveWords.{slot_at, from_of};
ghost use Rattle.moving.specs.Settled.{settled, Holding, Topped};
ghost use Rattle.moving.specs.ReadWords.{Stacked, top_word, top_after};

use crate::chunk::Chunk;
use crate::stack::Stack;
use moving::Hand;

// Word k of slot s; the slots start at word `base`. By its number, as in `Stack::top_word`: a move reads one or two of the four words of a slot, where
// area's `Row` and `Slot` hold all of what a check reads.
pub(crate) fn slot_word(area: &[u16], base: usize, s: usize, k: usize) -> u16
    requires { (base ≡ slots_at area.now) × (slot_at area.now s + k < length area.now) }
    ensures { result ≡ slot_word area.now s k }
{
    area[base + 4 * s + k]
}

// Stores the count of moves in its two words, which `moves_of` in chunk.rt reads.
fn store_moves(area: &mut [u16], moves: u32)
    requires { 4 ≤ length area.old }
    ensures { area.new ≡ set (set area.old 2 (moves % 65536)) 3 (moves / 65536) }
{
    area[2] = (moves % 65536) as u16;
    area[3] = (moves / 65536) as u16;
}

// Counts one move after the `moves` until now.
fn tick(area: &mut [u16], moves: u32)
    requires { Ticks area.old moves }
    ensures { area.new ≡ tick_words area.old }
{
    store_moves(area, moves + 1);
}

// The word of the topmost terminal once a symbol of word b is put on. A word below 256 is a terminal and one from 256 on a nonterminal, here and in
// stack.rt and turn.rt: the words are document 01's, which C lends, and no enum stands for them.
fn top_after(b: u16, top: u32) -> u32
    ensures { result ≡ top_after b top }
{
    if b < 256 { u32::from(b) } else { top }
}

// The word at hand of a topmost terminal.
pub(crate) fn top_word(top: Option<u16>) -> u32
    ensures { result ≡ top_word top }
{
    top.map_or(256, u32::from)
}

// The word of a mark.
fn mark_word(marked: bool) -> u16
    ensures { result ≡ mark_of marked }
{
    u16::from(marked)
}

// Puts chunk c's next unread symbol on its stack, marked or not; the move is not yet counted.
pub(crate) fn push(area: &mut [u16], c: usize, mut hand: Hand, marked: bool) -> Hand
    requires { Pushable (settled area.old c hand) c (mark_of marked) × Holding area.old c hand × Topped area.old hand }
    ensures result_after { (settled area.new c result ≡ put_words (settled area.old c hand) c (mark_of marked)) × Holding area.new c result × (result.moves ≡ hand.moves) }
    ensures topped { Topped area.new result }
{
    let mark = mark_word(marked);
    let slot = hand.base + 4 * (hand.head as usize);
    hand.top = top_after(area[slot], hand.top);
    hand.head += area[slot + 2];
    hand.marks += mark as u32;
    area[slot + 1] = mark;
    hand
}

// Puts 0 at `count` words, the first at `at`.
fn zero(area: &mut [u16], at: usize, count: usize)
    requires { at + count ≤ length area.old }
    ensures { area.new ≡ cleared_words area.old at count }
{
    area[at..at + count].fill(0);
}

// Chunk c reads the # of the end, its stack unchanged; the move is not yet counted.
pub(crate) fn accept(area: &mut [u16], c: usize, mut hand: Hand) -> Hand
    requires { Acceptable (settled area.old c hand) c × Holding area.old c hand × Topped area.old hand }
    ensures result_after { (settled area.new c result ≡ ended_words (settled area.old c hand) c) × Holding area.new c result × (result.moves ≡ hand.moves) }
    ensures topped { Topped area.new result }
{
    hand.end -= 1;
    zero(area, hand.base + 4 * (hand.end as usize), 4);
    hand
}

// Puts 0 at `count` words, four apart, the first at `first`. By their places: `iter_mut().step_by(4)` and `as_chunks_mut` do not say in their contracts
// how the words that they pass over end, so the proof does not close over them.
fn unmark(area: &mut [u16], first: usize, count: usize)
    requires { first + 4 * count ≤ length area.old + 3 }
    ensures { area.new ≡ unmark_words area.old first count }
{
    for i in 0..count {
        area[first + 4 * i] = 0;
    }
}

// Joins chunk c to chunk d, the next live one: d's stack is unmarked, its end is c's, and its row of the table is 0.
pub(crate) fn join_chunks(area: &mut [u16], c: usize, d: usize)
    requires { Joinable area.old c d }
    ensures { area.new ≡ join_words area.old c d }
{
    let other = Chunk { area, c: d }.hand();
    let from = other.from;
    let head = other.head;
    let slot = other.base + 4 * (from as usize);
    unmark(area, slot + 1, (head - from) as usize);
    area[5 + 5 * c + 3] = other.end;
    zero(area, 5 + 5 * d, 5);
    tick(area, other.moves);
}

// Clears the block that ends before word `end` in its size: its first three words and the last, the others being 0 already. Where it starts.
fn clear_block(area: &mut [u16], end: usize) -> usize
    requires { Tagged area.old end }
    ensures { (area.new ≡ cleared_one area.old end) × (result ≡ start_of area.old end) }
{
    let start = end - 4 * (area[end - 1] as usize);
    area[end - 1] = 0;
    area[start..start + 3].fill(0);
    start
}

// Clears the blocks on the words from `from` up to `to`, from the top down. A `while` is the plainest: no index is counted, each turn goes down
// by a size that it reads in words that it writes.
fn clear(area: &mut [u16], from: usize, to: usize)
    requires { Laid area.old from to }
    ensures { area.new ≡ cleared_words area.old from (to - from) }
{
    let mut at = to;
    while from < at {
        at = clear_block(area, at);
    }
}

// Puts in a reduction after the `made` until now: rule, first place, place after the last. It is not yet counted. Here and in `settle` the
// words are stored one by one: `copy_from_slice` asks for an array, and the reader's code has none of its own (tests/in_place.sh).
fn note(area: &mut [u16], base: usize, made: u32, rule: u16, first: u16, after: u16)
    requires { (base ≡ slots_at area.old) × (made_at_word area.old + 3 * made + 3 ≤ length area.old) }
    ensures { area.new ≡ entry_words area.old made rule first after }
{
    let at = base + 4 * ((area[0] as usize) + 2) + 3 * (made as usize);
    area[at] = rule;
    area[at + 1] = first;
    area[at + 2] = after;
}

// Lays one unmarked symbol over the slots from `from` up to `head`, the symbols there cleared.
fn lay(area: &mut [u16], base: usize, from: u16, head: u16, symbol: u16)
    requires { (base ≡ slots_at area.old) × (from < head) × Laid area.old (slot_at area.old from) (slot_at area.old head) × (slot_at area.old head ≤ length area.old) }
    ensures { area.new ≡ over_words area.old from head symbol }
{
    let at = base + 4 * (from as usize);
    let to = base + 4 * (head as usize);
    clear(area, at, to);
    let size = head - from;
    area[at] = symbol;
    area[at + 2] = size;
    area[to - 1] = size;
}

// Replaces the handle of chunk c, its stack from slot `from` up, by the left side `symbol` of this rule; the move is not
// yet counted.
pub(crate) fn reduce(
    area: &mut [u16],
    c: usize,
    mut hand: Hand,
    from: u16,
    symbol: u16,
    rule: u16,
) -> Hand
    requires { Reducible (settled area.old c hand) c from × Holding area.old c hand × Stacked (settled area.old c hand) (from_of (settled area.old c hand) c) from × (256 ≤ symbol) }
    ensures result_after { (settled area.new c result ≡ made_words (settled area.old c hand) c from symbol rule) × Holding area.new c result × (result.moves ≡ hand.moves) }
    ensures topped { Topped area.new result }
{
    let head = hand.head;
    let made = hand.reductions;
    hand.top = top_word(Stack::new(area, hand, from).top_terminal());
    hand.marks -= 1;
    hand.reductions = made + 1;
    lay(area, hand.base, from, head, symbol);
    note(area, hand.base, made, rule, from - 1, head - 1);
    hand
}

// Stores what is at hand: the counts, and chunk c's row of the table.
pub(crate) fn settle(area: &mut [u16], c: usize, hand: Hand)
    requires { Holding area.old c hand }
    ensures { area.new ≡ settled area.old c hand }
{
    store_moves(area, hand.moves);
    area[4] = hand.reductions as u16;
    let row = 5 + 5 * c;
    area[row] = hand.status;
    area[row + 1] = hand.from;
    area[row + 2] = hand.head;
    area[row + 3] = hand.end;
    area[row + 4] = hand.marks as u16;
}
