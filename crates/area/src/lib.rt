// The work area: the rules that the words of a row being read keep.
#![tactic(auto)]

mod shape;

ghost use Rattle.std.specs.Prelude.{◌≡◌};
ghost use Rattle.area.specs.Shape.{in_shape};

use shape::Lent;

// No shape rule is broken: the words are a grammar, the bytes a matrix of it, and the area a row being read.
pub fn in_shape(words: &[u16], matrix: &[u8], area: &[u16]) -> bool
    ensures { result ≡ in_shape words.now matrix.now area.now }
{
    let readable = matrix::grammar_in_shape(words, matrix) & shape::sized(area);
    if !readable {
        return false;
    }
    let lent = Lent {
        area,
        tokens: area[0],
        terminals: words[0],
        nonterminals: words[1],
    };
    match lent.walk_table() {
        Some(walk) => lent.walk_fits(walk),
        None => false,
    }
}
