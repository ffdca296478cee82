// The front-to-back parse in one call: the grammar loaded, the row read through, its outcome, and the work area cleared. Its meaning stands in specs/.
#![tactic(auto)]

mod parsing;

ghost use Rattle.std.specs.Prelude.{◌≡◌, length};
ghost use Rattle.parse.specs.ParseCall.{parse_answer, parse_area, parse_out};

use refusals::{Refusal, Report};

// The front-to-back parse in one call: checks 1 to 9, 11 for the work area, 17 to 20, and 11 for the report. From 11 for the work area on, the
// words that it needs there are zero when it ends; words beyond them, and on a refusal the report run, are untouched.
pub fn parse(
    words: &[u16],
    tokens: &[u16],
    area: &mut [u16],
    out: &mut [u16],
) -> Result<Report, Refusal>
    ensures answers { result ≡ parse_answer words.now tokens.now (length area.old) (length out.old) }
    ensures clears { area.new ≡ parse_area words.now tokens.now area.old }
    ensures writes { out.new ≡ parse_out words.now tokens.now (length area.old) out.old }
{
    parsing::read(words, tokens, area)?;
    parsing::finish(area, tokens.len(), out)
}
