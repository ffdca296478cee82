// Words that pass checks 1 to 5, and their parts. A rule's number r is asked to be below R at each function that reads rule r: a type of rule numbers
// is no plainer, since it would have to carry the words whose rule it is.
ghost use Rattle.std.specs.Prelude.{◌≡◌, ◌≤◌, ◌<◌, MatchResult};
ghost use Rattle.language.specs.Words.{count_n, count_r, right_words, grammar_of};
ghost use Rattle.language.specs.Checks.{Passed, check_words};
ghost use Rattle.table.specs.Sided.{left_of};

use refusals::Refusal;

// Words that pass checks 1 to 5. The checks' own `Grammar`, of words that pass 1 and 2, stays private to crate words: as public functions its methods
// would each need a promise that asks nothing (docs/DECISIONS.md, "Small functions that stand in more than one crate").
#[derive(Clone, Copy)]
pub(crate) struct Checked<'a> {
    pub(crate) words: &'a [u16],
    ghost passed: { Passed words.now },
}

impl<'a> Checked<'a> {
    // Checks 1 to 5.
    pub(crate) fn new(words: &'a [u16]) -> Result<Self, Refusal>
        ensures { MatchResult result (λ g. (g.words.now ≡ words.now) × (Ok tt ≡ check_words words.now)) (λ refusal. Err refusal ≡ check_words words.now) }
    {
        words::check_words(words)?;
        Ok(Checked { words })
    }

    // T.
    pub(crate) fn terminals(&self) -> usize
        ensures is { result ≡ (grammar_of self.now.words.now).terminals }
        ensures low { result < 64 }
    {
        self.words[0] as usize
    }

    // N.
    pub(crate) fn nonterminals(&self) -> usize
        ensures is { result ≡ count_n self.now.words.now }
        ensures low { result ≤ 64 }
    {
        self.words[1] as usize
    }

    // A.
    pub(crate) fn axioms(&self) -> usize
        ensures is { result ≡ (grammar_of self.now.words.now).axioms }
        ensures low { result ≤ 64 }
    {
        self.words[2] as usize
    }

    // R.
    pub(crate) fn rules(&self) -> usize
        ensures { result ≡ count_r self.now.words.now }
    {
        self.words[3] as usize
    }

    // The left side of rule r.
    pub(crate) fn left(&self, r: usize) -> usize
        requires { r < count_r self.now.words.now }
        ensures is { result ≡ left_of self.now.words.now r }
        ensures low { result < 64 }
    {
        self.words[words::body_of(self.words, r).start] as usize
    }

    // The right side of rule r.
    pub(crate) fn right(&self, r: usize) -> &'a [u16]
        requires { r < count_r self.now.words.now }
        ensures { result.now ≡ right_words self.now.words.now r }
    {
        let body = words::body_of(self.words, r);
        &self.words[body.start + 1..body.end]
    }
}
