// The grammar words: checks 1 to 5, and where a rule's body stands. Document 01, "The grammar words", "Refusal numbers".
#![tactic(auto)]

mod checks;

ghost use Rattle.std.specs.Prelude.{◌≡◌, ◌<◌};
ghost use Rattle.language.specs.Words.{word, entry, body_end};
ghost use Rattle.language.specs.Checks.{check_symbols, check_words};
ghost use Rattle.words.specs.Bodies.{body_at};

use checks::Grammar;
use refusals::Refusal;

// Checks 1 to 3: the head, the contents, and that every body word is a symbol.
pub fn check_symbols(words: &[u16]) -> Result<(), Refusal>
    ensures { result ≡ check_symbols words.now }
{
    Grammar::new(words)?.symbols()
}

// Checks 1 to 5: after 1 to 3 the form of each right side, and that no two rules have the same.
pub fn check_words(words: &[u16]) -> Result<(), Refusal>
    ensures { result ≡ check_words words.now }
{
    let grammar = Grammar::new(words)?;
    grammar.symbols()?;
    grammar.forms()?;
    grammar.twins()
}

// Where a rule's body stands: the place of its left side, and the place at which it ends. No `Range`: the contract of the public `body_of` names
// this type (`body_at`).
#[derive(Clone, Copy)]
pub struct Body {
    pub start: usize,
    pub end: usize,
}

// The word at place i; an absent word is 0.
fn word(words: &[u16], i: usize) -> usize
    ensures is { result ≡ word words.now i }
    ensures small { result < 65536 }
{
    words.get(i).map_or(0, |w| *w as usize)
}

// The entry of rule r, 0 where it is absent.
fn entry(words: &[u16], r: usize) -> usize
    ensures is { result ≡ entry words.now r }
    ensures small { result < 65536 }
{
    word(words, r.saturating_add(4))
}

// Rule r's body ends where the next starts, the last at the end of the run.
fn body_end(words: &[u16], r: usize) -> usize
    ensures { result ≡ body_end words.now r }
{
    let next = r.saturating_add(1);
    if next < word(words, 3) {
        return entry(words, next);
    }
    words.len()
}

// Where the body of rule r stands, of any words; an absent word is 0.
pub fn body_of(words: &[u16], r: usize) -> Body
    ensures { result ≡ body_at words.now r }
{
    Body {
        start: entry(words, r),
        end: body_end(words, r),
    }
}
