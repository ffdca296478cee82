// What a lent area says of one of its chunks: whether its number is live, whether it is at rest, what a run has at hand of it, and which live
// chunk is the next.
ghost use Rattle.std.specs.Prelude.{◌≡◌, ◌+◌, ◌≤◌, ◌<◌, eqb, length, get_or, Some, None, MatchOption, true, false};
ghost use Rattle.layout.specs.Layout.{slots_at, row_word, moves_in};
ghost use Rattle.moving.specs.AtHand.{AtHand};
ghost use Rattle.moving.specs.Moved.{live_in, rests_by, rests_in};
ghost use Rattle.moving.specs.ReadWords.{live_after};
ghost use Rattle.moving.specs.Searches.{found_of};

use moving::Hand;

// Chunk c of the table of a lent area, where both are there.
#[derive(Clone, Copy)]
pub(crate) struct Chunk<'a> {
    pub(crate) area: &'a [u16],
    pub(crate) c: usize,
    pub ghost listed: { (c < get_or area.now 1 0) × (slots_at area.now ≤ length area.now) },
}

// The count of moves, which stands in two words, where `store_moves` puts it. As in `report`, `parse` and `area`, each of which reads it where its own
// contract knows that the words are there: a public function asks nothing, and would test that again.
fn moves_of(area: &[u16]) -> u32
    requires { 4 ≤ length area.now }
    ensures { result ≡ moves_in area.now }
{
    (area[2] as u32) + 65536 * (area[3] as u32)
}

impl<'a> Chunk<'a> {
    // Chunk number c, where it is live.
    pub(crate) fn live(area: &'a [u16], c: usize) -> Option<Self>
        requires { (2 ≤ length area.now) × (slots_at area.now ≤ length area.now) }
        ensures { MatchOption result (live_in area.now c ≡ false) (λ k. (k.area.now ≡ area.now) × (k.c ≡ c) × (live_in area.now c ≡ true)) }
    {
        if area[1] as usize <= c {
            return None;
        }
        let chunk = Chunk { area, c };
        if chunk.row_word(0) == 0 {
            return None;
        }
        Some(chunk)
    }

    // Word k of its row of the table. By its number: `live` and `next_live` read one word, and `hand` has a field for each.
    fn row_word(self, k: usize) -> u16
        requires { k < 5 }
        ensures { result ≡ row_word self.entry.area.now self.entry.c k }
    {
        self.area[5 + 5 * self.c + k]
    }

    // What the area holds of it. Its topmost terminal is not looked for (256, no Option: slower, as said at `Hand`).
    pub(crate) fn hand(self) -> Hand
        ensures { AtHand self.entry.area.now self.entry.c result }
    {
        Hand {
            status: self.row_word(0),
            from: self.row_word(1),
            head: self.row_word(2),
            end: self.row_word(3),
            marks: self.row_word(4) as u32,
            reductions: self.area[4] as u32,
            moves: moves_of(self.area),
            base: 5 + 5 * (self.area[1] as usize),
            top: 256,
        }
    }

    // Whether it is at rest.
    pub(crate) fn at_rest(self) -> bool
        ensures { result ≡ rests_in self.entry.area.now self.entry.c }
    {
        resting(self.hand())
    }

    // The next live chunk after it.
    pub(crate) fn next_live(self) -> Option<Self>
        ensures { MatchOption result (None ≡ found_of (live_after self.entry.area.now self.entry.c))
            (λ k. (k.area.now ≡ self.entry.area.now) × (Some k.c ≡ found_of (live_after self.entry.area.now self.entry.c))) }
    {
        for d in self.c + 1..self.area[1] as usize {
            let next = Chunk {
                area: self.area,
                c: d,
            };
            if 0 < next.row_word(0) {
                return Some(next);
            }
        }
        None
    }
}

// Whether a live chunk is at rest: it is stuck, or nothing is unread. The status is the word of docs/AREA.md, 1 where the chunk runs: a hand has
// the words of its row as they stand, and `settle` stores them.
pub(crate) fn resting(hand: Hand) -> bool
    ensures { result ≡ rests_by (eqb hand.status 1) hand.end hand.head }
{
    if hand.status != 1 {
        return true;
    }
    hand.end <= hand.head
}
