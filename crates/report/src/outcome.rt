// The outcome of a row, read off the words of an area in shape, and its report written.
ghost use Rattle.std.specs.Prelude.{◌≡◌, ◌++◌, ◌+◌, ◌*◌, ◌-◌, ◌≤◌, length, get_or, drop};
ghost use Rattle.language.specs.Reports.{put_in_order, report_words};
ghost use Rattle.machine.specs.Answers.{outcome_answer, outcome_out};
ghost use Rattle.layout.specs.Layout.{made_at_word, read_made};
ghost use Rattle.outcomes.specs.OutcomeWords.{none_live, words_report, words_outcome, Reportable};

use crate::order;
use refusals::{Refusal, Report};

// The area of a row being read, whose words are in shape.
#[derive(Clone, Copy)]
pub(crate) struct Reading<'a> {
    pub(crate) area: &'a [u16],
    pub ghost reportable: { Reportable area.now },
}

// Of so many chunks none but chunk 0 is live.
fn alone(area: &[u16], count: usize) -> bool
    requires { 5 + 5 * count ≤ length area.now }
    ensures { result ≡ none_live (count - 1) area.now 10 }
{
    (1..count).all(|chunk| area[5 + 5 * chunk] == 0)
}

impl Reading<'_> {
    // The reductions made, put in order at the front of a run.
    fn write_report(self, count: usize, out: &mut [u16])
        requires { (count ≡ get_or self.area.now 4 0) × (3 * count ≤ length out.old) }
        ensures { out.new ≡ report_words (put_in_order (read_made count self.entry.area.now (made_at_word self.entry.area.now))) ++ drop (3 * count) out.old }
    {
        let tokens = self.area[0] as usize;
        let chunks = self.area[1] as usize;
        let made = 5 + 5 * chunks + 4 * (tokens + 2);
        let run = &mut out[..3 * count];
        order::put_words(&self.area[made..made + 3 * count], run);
        order::put_in_order(run);
    }

    // The report of a row at rest, written where there is room for it. That of `parse` is apart (parse/src/parsing.rt), since its entries stand in
    // order: by this one, made public and so asking nothing (docs/DECISIONS.md), it would look through them again, a tenth of its time.
    fn report(self, out: &mut [u16]) -> Result<Report, Refusal>
        ensures value { result ≡ outcome_answer (words_report self.entry.area.now) (length out.old) }
        ensures out_after { out.new ≡ outcome_out (words_report self.entry.area.now) out.old }
    {
        let count = self.area[4] as u32;
        if out.len() < 3 * (count as usize) {
            return Err(Refusal::NoRoom(3 * count));
        }
        self.write_report(count as usize, out);
        // as reader's `moves_of`: a public function asks nothing, and would test that these words are there
        let moves = (self.area[2] as u32) + 65536 * (self.area[3] as u32);
        Ok(Report {
            entries: count,
            moves,
        })
    }

    // The answer of a report: 16 where chunk 0 is not alone or not at rest, what chunk 0 is stuck with, or its report.
    pub(crate) fn outcome(self, out: &mut [u16]) -> Result<Report, Refusal>
        ensures value { result ≡ outcome_answer (words_outcome self.entry.area.now) (length out.old) }
        ensures out_after { out.new ≡ outcome_out (words_outcome self.entry.area.now) out.old }
    {
        if !alone(self.area, self.area[1] as usize) {
            return Err(Refusal::Unfinished);
        }
        // The status is a word of the area (docs/AREA.md), and no enum: a row is stuck from 17 on, and `stuck_refusal` is promised of any word.
        let status = self.area[5];
        let head = self.area[7];
        if 17 <= status {
            return Err(refusals::stuck_refusal(status, (head - 1) as u32));
        }
        if head < self.area[8] {
            return Err(Refusal::Unfinished);
        }
        self.report(out)
    }
}
