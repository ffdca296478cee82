// An answer as numbers, for callers that know no enum: its number, 0 on success, and what it gives besides.
ghost use Rattle.std.specs.Prelude.{◌≡◌};
ghost use Rattle.refusals.specs.Refusals.{answer_number, answer_value, set_value, set_size, run_value, report_value, report_moves};

use refusals::{Refusal, Report, Terminals};

// 0, or the number of a refusal, whatever the answer gives else.
pub(crate) fn number<T>(answer: &Result<T, Refusal>) -> u32
    ensures { result ≡ answer_number answer.now }
{
    match answer {
        Ok(_) => 0,
        Err(refusal) => refusal.number(),
    }
}

// The value of a refusal. This and those below are held each to a definition of its own (`answer_value`, `set_value`, `set_size`, `run_value`,
// `report_value`, `report_moves`), which the contracts of the C interface cite: one function over what an answer gives would be told that at each call.
pub(crate) fn value(answer: Result<(), Refusal>) -> u32
    ensures { result ≡ answer_value answer }
{
    match answer {
        Ok(()) => 0,
        Err(refusal) => refusal.value(),
    }
}

// The mask of a set, or the value of a refusal.
pub(crate) fn set_value(answer: Result<Terminals, Refusal>) -> u64
    ensures { result ≡ set_value answer }
{
    match answer {
        Ok(set) => set.mask,
        Err(refusal) => refusal.value() as u64,
    }
}

pub(crate) fn set_size(answer: Result<Terminals, Refusal>) -> u32
    ensures { result ≡ set_size answer }
{
    match answer {
        Ok(set) => set.size,
        Err(_) => 0,
    }
}

// The moves made, or the value of a refusal.
pub(crate) fn run_value(answer: Result<u32, Refusal>) -> u32
    ensures { result ≡ run_value answer }
{
    match answer {
        Ok(made) => made,
        Err(refusal) => refusal.value(),
    }
}

// The number of entries, or the value of a refusal.
pub(crate) fn report_value(answer: Result<Report, Refusal>) -> u32
    ensures { result ≡ report_value answer }
{
    match answer {
        Ok(report) => report.entries,
        Err(refusal) => refusal.value(),
    }
}

pub(crate) fn report_moves(answer: Result<Report, Refusal>) -> u32
    ensures { result ≡ report_moves answer }
{
    match answer {
        Ok(report) => report.moves,
        Err(_) => 0,
    }
}
