// The relations of all pairs of terminals as rows of masks, by one walk over the right sides; the matrix, and its conflicts.
// Document 01, "Sets and matrix". # is terminal 0.
// Row a holds the b that a is equal to, row 64 + a the b that a yields to, and row 128 + b the a that take over b: one array, and not one for each
// relation, since so each pair adds one mask to one row, whatever it shows.
ghost use Rattle.std.specs.Prelude.{◌≡◌, ◌+◌, ◌*◌, ◌≤◌, ◌<◌, length, map, get_or, replicate, MatchResult};
ghost use Rattle.laws.specs.Masks.{bit};
ghost use Rattle.language.specs.Symbols.{symbol_of};
ghost use Rattle.language.specs.Words.{grammar_of};
ghost use Rattle.table.specs.SetPasses.{AreSets};
ghost use Rattle.table.specs.Edges.{RightSide};
ghost use Rattle.table.specs.Shown.{Adds, here, anywhere, Paired, shown_by, pair_shown};
ghost use Rattle.table.specs.RelationRows.{Union, Seen, Shows, only_of, only_in, RowWritten, RowRefused, Whole, FirstConflict};

use crate::checked::Checked;
use crate::sets::{Side, View};
use refusals::Refusal;

// A grammar with its left and right sets.
#[derive(Drop)]
struct Sets<'a> {
    grammar: Checked<'a>,
    left: [u64; 64],
    right: [u64; 64],
    ghost are_sets: { AreSets (grammar_of grammar.words.now) left right },
}

// A row, and the members that are added to it.
#[derive(Drop)]
struct Added {
    row: usize,
    mask: u64,
}

impl<'a> Sets<'a> {
    fn new(grammar: Checked<'a>) -> Self
        ensures { result.grammar.words.now ≡ grammar.entry.words.now }
    {
        let masks = |side: Side| View { grammar, side }.masks();
        Sets {
            grammar,
            left: masks(Side::Left),
            right: masks(Side::Right),
        }
    }

    // What the pair a, b shows: two neighbours of a right side, or two terminals around one nonterminal.
    fn shown_by(&self, a: usize, b: usize) -> Added
        requires { Paired a b }
        ensures { result ≡ shown_by self.now.left self.now.right a b }
    {
        // a symbol is a word of document 01, lent by C: below 256 a terminal, from there on a nonterminal
        if 256 <= a {
            return Added {
                row: 128 + b,
                mask: self.right[a - 256],
            };
        }
        if 256 <= b {
            return Added {
                row: 64 + a,
                mask: self.left[b - 256],
            };
        }
        Added {
            row: a,
            mask: 1u64 << b,
        }
    }

    // The rows gain what the pair a, b shows.
    fn show(&self, a: usize, b: usize, rows: &mut [u64; 192])
        requires { Paired a b }
        ensures { rows.new ≡ pair_shown self.now.left self.now.right a b rows.old }
    {
        let shown = self.shown_by(a, b);
        rows[shown.row] |= shown.mask;
    }

    // What a right side shows, place by place. By index: each place asks for the one before and for the one after, which the last has not, so that
    // `windows(2)` shows too little and `windows(3)` leaves out the last pair.
    fn right_shows(&self, right: &[u16], rows: &mut [u64; 192])
        requires { RightSide right.now × (length rows.old ≡ 192) }
        ensures { Adds (λ k a b. anywhere (here (grammar_of self.now.grammar.words.now) k a b) (map symbol_of right.now)) rows.old rows.new }
    {
        for i in 1..right.len() {
            let a = right[i - 1] as usize;
            let b = right[i] as usize;
            self.show(a, b, rows);
            // the terminals around a nonterminal
            if (256 <= b) & (i + 1 < right.len()) {
                self.show(a, right[i + 1] as usize, rows);
            }
        }
    }

    // # equals #; # yields to each member of an axiom's left set; each member of an axiom's right set takes over #.
    fn ends_show(&self) -> [u64; 192]
        ensures { Seen (grammar_of self.now.grammar.words.now) 0 result }
    {
        let axioms = self.grammar.axioms();
        let mut rows = [0u64; 192];
        rows[0] = 1;
        rows[64] = union_of(&self.left, axioms);
        rows[128] = union_of(&self.right, axioms);
        rows
    }

    // The relations of #, and those that the rules show.
    fn relations(&self) -> [u64; 192]
        ensures { Shows (grammar_of self.now.grammar.words.now) result }
    {
        let mut rows = self.ends_show();
        for r in 0..self.grammar.rules() {
            self.right_shows(self.grammar.right(r), &mut rows);
        }
        rows
    }
}

// The members of any of the first `count` sets.
fn union_of(masks: &[u64; 64], count: usize) -> u64
    requires { count ≤ 64 }
    ensures { Union masks.now count result }
{
    let mut all = 0;
    for mask in &masks[..count] {
        all |= *mask;
    }
    all
}

// Terminal t is in a row.
fn has(rows: &[u64; 192], row: usize, t: usize) -> bool
    requires { (row < 192) × (t < 64) }
    ensures { result ≡ bit (get_or rows.now row 0) t }
{
    rows[row] >> t & 1 == 1
}

// What the table says of a pair of terminals, by its number in the matrix. The matrix that is lent to a run is C's bytes, any bytes by its contract: reader
// asks the byte itself.
#[derive(Clone, Copy)]
enum Relation {
    Blank = 0,
    Yields = 1,
    Equal = 2,
    Takes = 3,
}

// The one relation of a pair; none where it has two.
fn only(equal: bool, yields: bool, takes: bool) -> Option<Relation>
    ensures { result ≡ only_of equal yields takes }
{
    match (equal, yields, takes) {
        (false, false, false) => Some(Relation::Blank),
        (false, true, false) => Some(Relation::Yields),
        (true, false, false) => Some(Relation::Equal),
        (false, false, true) => Some(Relation::Takes),
        _ => None,
    }
}

// The relation of the pair a, b; none where it has two.
fn between(rows: &[u64; 192], a: usize, b: usize) -> Option<Relation>
    requires { (a < 64) × (b < 64) }
    ensures { result ≡ only_in rows.now a b }
{
    only(has(rows, a, b), has(rows, 64 + a, b), has(rows, 128 + b, a))
}

// Row a of the matrix: the numbers of the pairs a, b with b up to t, from 64a on. The first that has two relations refuses.
fn write_row(rows: &[u64; 192], a: usize, t: usize, matrix: &mut [u8; 4096]) -> Result<(), Refusal>
    requires { (a < 64) × (t < 64) }
    ensures { MatchResult result (λ _. RowWritten rows.now a t matrix.old matrix.new) (RowRefused rows.now a t) }
{
    for b in 0..=t {
        let place = 64 * a + b;
        let Some(relation) = between(rows, a, b) else {
            return Err(Refusal::Conflict(place as u32));
        };
        matrix[place] = relation as u8;
    }
    Ok(())
}

// The matrix: a over b at 64a + b. A pair with a number past T is unused: its 0 stays. Check 6: the least 64a + b of a pair a, b with two
// relations refuses.
pub(crate) fn write_matrix(grammar: Checked<'_>, matrix: &mut [u8; 4096]) -> Result<(), Refusal>
    requires { matrix.old ≡ replicate 4096 0 }
    ensures { MatchResult result (λ _. Whole (grammar_of grammar.entry.words.now) matrix.new) (FirstConflict (grammar_of grammar.entry.words.now)) }
{
    let rows = Sets::new(grammar).relations();
    let t = grammar.terminals();
    for a in 0..=t {
        write_row(&rows, a, t, matrix)?;
    }
    Ok(())
}
