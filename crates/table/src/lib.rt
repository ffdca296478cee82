// The table of a grammar, worked out from its words: its matrix and its sets. Document 01, "Sets and matrix", "Refusal numbers".
#![tactic(auto)]

mod checked;
mod relations;
mod sets;

ghost use Rattle.std.specs.Prelude.{◌≡◌, length};
ghost use Rattle.language.specs.Words.{grammar_of};
ghost use Rattle.language.specs.Loads.{load_answer, load_bytes, set_checked, set_or_refusal, left_set_answer, right_set_answer};
ghost use Rattle.table.specs.Sided.{from_end, sided};

use checked::Checked;
use refusals::{Refusal, Terminals};
use sets::{Side, View};

// Checks 1 to 6 and then 11, and writes the matrix: 4,096 bytes, anything beyond is untouched.
pub fn load(words: &[u16], matrix: &mut [u8]) -> Result<(), Refusal>
    ensures answer { result ≡ load_answer words.now (length matrix.old) }
    ensures bytes { matrix.new ≡ load_bytes words.now matrix.old }
{
    let grammar = Checked::new(words)?;
    // by value, filled and then copied: document 01's form
    let mut table = [0u8; 4096];
    relations::write_matrix(grammar, &mut table)?;
    if matrix.len() < 4096 {
        return Err(Refusal::NoRoom(4096));
    }
    matrix[..4096].copy_from_slice(&table);
    Ok(())
}

// Checks 1 to 5 and then 21, and gives the left or the right set of nonterminal k.
fn set_of(words: &[u16], k: u32, side: Side) -> Result<Terminals, Refusal>
    ensures { result ≡ set_or_refusal (set_checked words.now k) (sided (from_end side) (grammar_of words.now)) k }
{
    let grammar = Checked::new(words)?;
    let number = k as usize;
    if grammar.nonterminals() <= number {
        return Err(Refusal::NoNonterminal);
    }
    let masks = View { grammar, side }.masks();
    let mask = masks[number];
    Ok(Terminals {
        mask,
        size: mask.count_ones(),
    })
}

// The left set of nonterminal k as a mask, bit t for terminal t, and how many terminals it has. It and `right_set` stay two functions, since the C
// interface and README name both.
pub fn left_set(words: &[u16], k: u32) -> Result<Terminals, Refusal>
    ensures { result ≡ left_set_answer words.now k }
{
    set_of(words, k, Side::Left)
}

// The right set of nonterminal k.
pub fn right_set(words: &[u16], k: u32) -> Result<Terminals, Refusal>
    ensures { result ≡ right_set_answer words.now k }
{
    set_of(words, k, Side::Right)
}
