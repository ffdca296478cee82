// Checks 1 to 5 of the grammar words, each over the whole grammar. Document 01, "The grammar words" and "Refusal numbers".
// For each check a test of one candidate (a head word, an entry, a word place, a rule), and a search for the first that fails.
// Words that pass 1 and 2 are a `Grammar`, of which 3 to 5 are asked.
ghost use Rattle.std.specs.Prelude.{◌≡◌, [], ◌∷◌, ◌+◌, ◌≤◌, ◌<◌, map, MatchResult};
ghost use Rattle.language.specs.Words.{count_r, right_words, outside};
ghost use Rattle.language.specs.Symbols.{symbol_of};
ghost use Rattle.language.specs.Stages.{checked};
ghost use Rattle.language.specs.CheckHead.{head_limit, bad_head, head_stage};
ghost use Rattle.language.specs.CheckContents.{bad_contents, contents_stage};
ghost use Rattle.language.specs.CheckSymbols.{symbol_stage};
ghost use Rattle.language.specs.CheckForm.{form_stage};
ghost use Rattle.language.specs.CheckTwins.{twin_stage};
ghost use Rattle.words.specs.Laid.{Laid};
ghost use Rattle.words.specs.Bodies.{body_at};
ghost use Rattle.words.specs.Forms.{bad_right};
ghost use Rattle.words.specs.Places.{wrong_word};
ghost use Rattle.words.specs.Twins.{twin_of};

use crate::{Body, entry, word};
use refusals::Refusal;

// Words that pass 1 and 2: every entry is there, and every body stands where its entry says.
#[derive(Clone, Copy)]
pub(crate) struct Grammar<'a> {
    words: &'a [u16],
    ghost laid: { Laid words.now },
}

// v is outside low..high.
fn outside(low: usize, high: usize, v: usize) -> bool
    ensures { result ≡ outside low high v }
{
    !(low..=high).contains(&v)
}

// ---- 1 HEAD

// The greatest value that head word i may have: 63, 64, N, 256.
fn head_limit(words: &[u16], i: usize) -> usize
    ensures { result ≡ head_limit words.now i }
{
    match i {
        0 => 63,
        1 => 64,
        2 => word(words, 1),
        _ => 256,
    }
}

// Head word i is absent or out of its range.
fn bad_head(words: &[u16], i: usize) -> bool
    ensures { result ≡ bad_head words.now i }
{
    (words.len() <= i) | outside(1, head_limit(words, i), word(words, i))
}

// The first of the 4 head words that is absent or out of its range.
fn head(words: &[u16]) -> Result<(), Refusal>
    ensures { result ≡ checked (head_stage ∷ []) words.now }
{
    match (0..4).find(|i| bad_head(words, *i)) {
        Some(i) => Err(Refusal::Head(i as u32)),
        None => Ok(()),
    }
}

// ---- 2 CONTENTS

// Entry r is absent or wrong, entry 0 not 4+R or a later one not 2 to 9 above the one before; for r = R, the last body isn't 2 to 9 words.
fn bad_contents(words: &[u16], r: usize) -> bool
    requires { (0 < count_r words.now) × (r ≤ count_r words.now) }
    ensures { result ≡ bad_contents words.now r }
{
    let rules = word(words, 3);
    if r == rules {
        let last = entry(words, r - 1);
        return outside(last + 2, last + 9, words.len());
    }
    if words.len() <= 4 + r {
        return true;
    }
    let start = words[4 + r] as usize;
    if r == 0 {
        return start != 4 + rules;
    }
    let before = words[3 + r] as usize;
    outside(before + 2, before + 9, start)
}

// The first entry that is absent or wrong, or R where the last body is.
fn contents(words: &[u16]) -> Result<(), Refusal>
    requires { 0 < count_r words.now }
    ensures { result ≡ checked (contents_stage ∷ []) words.now }
{
    match (0..word(words, 3) + 1).find(|r| bad_contents(words, *r)) {
        Some(r) => Err(Refusal::Contents(r as u32)),
        None => Ok(()),
    }
}

// A right side has two adjacent nonterminals, or no terminal.
fn bad_form(right: &[u16]) -> bool
    ensures { result ≡ bad_right (map symbol_of right.now) }
{
    // no terminal stands so far; a nonterminal stands just before
    let mut bare = true;
    let mut after = false;
    for w in right {
        // below 256 a terminal, from there on a nonterminal: no enum, since the words are document 01's, lent by C
        let nonterminal = 256 <= *w;
        if after & nonterminal {
            return true;
        }
        bare &= nonterminal;
        after = nonterminal;
    }
    bare
}

impl<'a> Grammar<'a> {
    // Checks 1 and 2: the words, laid as they say.
    pub(crate) fn new(words: &'a [u16]) -> Result<Self, Refusal>
        ensures { MatchResult result (λ g. (g.words.now ≡ words.now) × (Ok tt ≡ checked (head_stage ∷ contents_stage ∷ []) words.now)) (λ refusal. Err refusal ≡ checked (head_stage ∷ contents_stage ∷ []) words.now) }
    {
        head(words)?;
        contents(words)?;
        Ok(Grammar { words })
    }

    // R.
    fn rules(&self) -> usize
        ensures is { result ≡ count_r self.now.words.now }
        ensures small { result < 65536 }
    {
        self.words[3] as usize
    }

    // Where the body of rule r stands. `body_of`, a public function, asks nothing (docs/DECISIONS.md): it is of any words, and reads an absent one as 0.
    // Of a grammar no word is absent, and so it is said here. A type of rule numbers, in place of r below R, is no plainer: it would carry its grammar.
    fn body(&self, r: usize) -> Body
        requires { r < count_r self.now.words.now }
        ensures { result ≡ body_at self.now.words.now r }
    {
        let start = self.words[4 + r] as usize;
        if r + 1 < self.rules() {
            return Body {
                start,
                end: self.words[5 + r] as usize,
            };
        }
        Body {
            start,
            end: self.words.len(),
        }
    }

    // The right side of rule r.
    fn right(&self, r: usize) -> &'a [u16]
        requires { r < count_r self.now.words.now }
        ensures { result.now ≡ right_words self.now.words.now r }
    {
        let body = self.body(r);
        &self.words[body.start + 1..body.end]
    }

    // ---- 3 SYMBOL

    // The word w is no nonterminal (as a left side) or no symbol, neither a terminal 1..T nor 256 + k with k below N.
    fn wrong(&self, w: usize, left: bool) -> bool
        ensures { result ≡ wrong_word self.now.words.now left w }
    {
        let nonterminals = self.words[1] as usize;
        if left {
            return nonterminals <= w;
        }
        outside(1, self.words[0] as usize, w) & outside(256, 255 + nonterminals, w)
    }

    // The first word place of the bodies whose word is no nonterminal (left) or no symbol.
    pub(crate) fn symbols(&self) -> Result<(), Refusal>
        ensures { result ≡ checked (symbol_stage ∷ []) self.now.words.now }
    {
        for r in 0..self.rules() {
            let body = self.body(r);
            // by number: `Symbol` names the place in the whole run, and the first of a body is its left side
            for p in body.start..body.end {
                if self.wrong(self.words[p] as usize, p == body.start) {
                    return Err(Refusal::Symbol(p as u32));
                }
            }
        }
        Ok(())
    }

    // ---- 4 FORM

    // The first rule whose right side has two adjacent nonterminals, or no terminal.
    pub(crate) fn forms(&self) -> Result<(), Refusal>
        ensures { result ≡ checked (form_stage ∷ []) self.now.words.now }
    {
        match (0..self.rules()).find(|r| bad_form(self.right(*r))) {
            Some(r) => Err(Refusal::Form(r as u32)),
            None => Ok(()),
        }
    }

    // ---- 5 TWIN

    // Rules q and r have the same right side: their bodies are as long, and after the left sides no word differs. By place, and not as two slices: the
    // size is then that of rule r's body, the same for each q, and the first word that differs ends it (docs/DESIGN-PASS.md, "words, table").
    fn same_right(&self, q: usize, r: usize) -> bool
        requires { (q < count_r self.now.words.now) × (r < count_r self.now.words.now) }
        ensures { result ≡ twin_of self.now.words.now r q }
    {
        let one = self.body(q);
        let other = self.body(r);
        let size = other.end - other.start;
        if one.end - one.start != size {
            return false;
        }
        for j in 1..size {
            if self.words[one.start + j] != self.words[other.start + j] {
                return false;
            }
        }
        true
    }

    // The least rule that has the same right side as an earlier one.
    pub(crate) fn twins(&self) -> Result<(), Refusal>
        ensures { result ≡ checked (twin_stage ∷ []) self.now.words.now }
    {
        for later in 0..self.rules() {
            for earlier in 0..later {
                if self.same_right(earlier, later) {
                    return Err(Refusal::Twin(later as u32));
                }
            }
        }
        Ok(())
    }
}
