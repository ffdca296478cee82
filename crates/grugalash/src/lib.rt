// Each public call as a program in C or Rust makes it, declared in include/grugalash.h; the crate grugalash_c builds the static library of
// them. A run of words or bytes crosses as an address and a length; an answer as its number, 0 on success, with its value written where the
// caller says. Each function answers, and leaves what it was lent, as the public call does: its contract is an equation over the
// definitions that the call's own contract cites. The C interface has each run by itself, so those that travel together stay apart here, and in
// the public calls below; and it has a name for each side of a set, where `table` has one function under both.
#![tactic(auto)]

mod answers;

ghost use Rattle.std.specs.Prelude.{◌≡◌, length};
ghost use Rattle.language.specs.Checks.{check_symbols, check_words};
ghost use Rattle.language.specs.Loads.{load_answer, load_bytes, left_set_answer, right_set_answer};
ghost use Rattle.refusals.specs.Refusals.{answer_number, answer_value, set_value, set_size, run_value, report_value, report_moves};
ghost use Rattle.area.specs.Shape.{in_shape};
ghost use Rattle.start.specs.Start.{start_answer, start_area};
ghost use Rattle.moving.specs.Calls.{step_answer, step_area, run_answer, run_area, join_answer, join_area};
ghost use Rattle.parse.specs.ParseCall.{parse_answer, parse_area, parse_out};
ghost use Rattle.report.specs.ReportCall.{report_answer, report_out, entry_start, entry_tokens};

// `words::check_symbols`.
#[unsafe(no_mangle)]
pub extern "C" fn grugalash_check_symbols(words: &[u16], value: &mut u32) -> u32
    ensures value { result ≡ answer_number (check_symbols words.now) }
    ensures value_after { value.new ≡ answer_value (check_symbols words.now) }
{
    let answer = words::check_symbols(words);
    *value = answers::value(answer);
    answers::number(&answer)
}

// `words::check_words`.
#[unsafe(no_mangle)]
pub extern "C" fn grugalash_check_words(words: &[u16], value: &mut u32) -> u32
    ensures value { result ≡ answer_number (check_words words.now) }
    ensures value_after { value.new ≡ answer_value (check_words words.now) }
{
    let answer = words::check_words(words);
    *value = answers::value(answer);
    answers::number(&answer)
}

// `table::load`.
#[unsafe(no_mangle)]
pub extern "C" fn grugalash_load(words: &[u16], matrix: &mut [u8], value: &mut u32) -> u32
    ensures value { result ≡ answer_number (load_answer words.now (length matrix.old)) }
    ensures value_after { value.new ≡ answer_value (load_answer words.now (length matrix.old)) }
    ensures matrix_after { matrix.new ≡ load_bytes words.now matrix.old }
{
    let answer = table::load(words, matrix);
    *value = answers::value(answer);
    answers::number(&answer)
}

// `table::left_set`.
#[unsafe(no_mangle)]
pub extern "C" fn grugalash_left_set(
    words: &[u16],
    nonterminal: u32,
    mask: &mut u64,
    size: &mut u32,
) -> u32
    ensures value { result ≡ answer_number (left_set_answer words.now nonterminal) }
    ensures mask_after { mask.new ≡ set_value (left_set_answer words.now nonterminal) }
    ensures size_after { size.new ≡ set_size (left_set_answer words.now nonterminal) }
{
    let answer = table::left_set(words, nonterminal);
    *mask = answers::set_value(answer);
    *size = answers::set_size(answer);
    answers::number(&answer)
}

// `table::right_set`.
#[unsafe(no_mangle)]
pub extern "C" fn grugalash_right_set(
    words: &[u16],
    nonterminal: u32,
    mask: &mut u64,
    size: &mut u32,
) -> u32
    ensures value { result ≡ answer_number (right_set_answer words.now nonterminal) }
    ensures mask_after { mask.new ≡ set_value (right_set_answer words.now nonterminal) }
    ensures size_after { size.new ≡ set_size (right_set_answer words.now nonterminal) }
{
    let answer = table::right_set(words, nonterminal);
    *mask = answers::set_value(answer);
    *size = answers::set_size(answer);
    answers::number(&answer)
}

// `area::in_shape`.
#[unsafe(no_mangle)]
pub extern "C" fn grugalash_in_shape(words: &[u16], matrix: &[u8], area: &[u16]) -> bool
    ensures { result ≡ in_shape words.now matrix.now area.now }
{
    area::in_shape(words, matrix, area)
}

// `start::start`.
#[unsafe(no_mangle)]
pub extern "C" fn grugalash_start(
    words: &[u16],
    matrix: &[u8],
    tokens: &[u16],
    cuts: &[u16],
    area: &mut [u16],
    value: &mut u32,
) -> u32
    ensures value { result ≡ answer_number (start_answer words.now matrix.now tokens.now cuts.now (length area.old)) }
    ensures value_after { value.new ≡ answer_value (start_answer words.now matrix.now tokens.now cuts.now (length area.old)) }
    ensures area_after { area.new ≡ start_area words.now matrix.now tokens.now cuts.now area.old }
{
    let answer = start::start(words, matrix, tokens, cuts, area);
    *value = answers::value(answer);
    answers::number(&answer)
}

// `reader::step`.
#[unsafe(no_mangle)]
pub extern "C" fn grugalash_step(
    words: &[u16],
    matrix: &[u8],
    area: &mut [u16],
    chunk: usize,
    value: &mut u32,
) -> u32
    ensures value { result ≡ answer_number (step_answer words.now matrix.now area.old chunk) }
    ensures value_after { value.new ≡ answer_value (step_answer words.now matrix.now area.old chunk) }
    ensures area_after { area.new ≡ step_area words.now matrix.now area.old chunk }
{
    let answer = reader::step(words, matrix, area, chunk);
    *value = answers::value(answer);
    answers::number(&answer)
}

// `reader::run`.
#[unsafe(no_mangle)]
pub extern "C" fn grugalash_run(
    words: &[u16],
    matrix: &[u8],
    area: &mut [u16],
    chunk: usize,
    budget: u32,
    value: &mut u32,
) -> u32
    ensures value { result ≡ answer_number (run_answer words.now matrix.now area.old chunk budget) }
    ensures value_after { value.new ≡ run_value (run_answer words.now matrix.now area.old chunk budget) }
    ensures area_after { area.new ≡ run_area words.now matrix.now area.old chunk budget }
{
    let answer = reader::run(words, matrix, area, chunk, budget);
    *value = answers::run_value(answer);
    answers::number(&answer)
}

// `reader::join`.
#[unsafe(no_mangle)]
pub extern "C" fn grugalash_join(
    words: &[u16],
    matrix: &[u8],
    area: &mut [u16],
    chunk: usize,
    value: &mut u32,
) -> u32
    ensures value { result ≡ answer_number (join_answer words.now matrix.now area.old chunk) }
    ensures value_after { value.new ≡ answer_value (join_answer words.now matrix.now area.old chunk) }
    ensures area_after { area.new ≡ join_area words.now matrix.now area.old chunk }
{
    let answer = reader::join(words, matrix, area, chunk);
    *value = answers::value(answer);
    answers::number(&answer)
}

// `report::report`.
#[unsafe(no_mangle)]
pub extern "C" fn grugalash_report(
    words: &[u16],
    matrix: &[u8],
    area: &[u16],
    out: &mut [u16],
    entries: &mut u32,
    moves: &mut u32,
) -> u32
    ensures value { result ≡ answer_number (report_answer words.now matrix.now area.now (length out.old)) }
    ensures entries_after { entries.new ≡ report_value (report_answer words.now matrix.now area.now (length out.old)) }
    ensures moves_after { moves.new ≡ report_moves (report_answer words.now matrix.now area.now (length out.old)) }
    ensures out_after { out.new ≡ report_out words.now matrix.now area.now out.old }
{
    let answer = report::report(words, matrix, area, out);
    *entries = answers::report_value(answer);
    *moves = answers::report_moves(answer);
    answers::number(&answer)
}

// `parse::parse`.
#[unsafe(no_mangle)]
pub extern "C" fn grugalash_parse(
    words: &[u16],
    tokens: &[u16],
    area: &mut [u16],
    out: &mut [u16],
    entries: &mut u32,
    moves: &mut u32,
) -> u32
    ensures value { result ≡ answer_number (parse_answer words.now tokens.now (length area.old) (length out.old)) }
    ensures entries_after { entries.new ≡ report_value (parse_answer words.now tokens.now (length area.old) (length out.old)) }
    ensures moves_after { moves.new ≡ report_moves (parse_answer words.now tokens.now (length area.old) (length out.old)) }
    ensures area_after { area.new ≡ parse_area words.now tokens.now area.old }
    ensures out_after { out.new ≡ parse_out words.now tokens.now (length area.old) out.old }
{
    let answer = parse::parse(words, tokens, area, out);
    *entries = answers::report_value(answer);
    *moves = answers::report_moves(answer);
    answers::number(&answer)
}

// `report::entry_tokens`: where the part starts in the token run, and how many tokens it has.
#[unsafe(no_mangle)]
pub extern "C" fn grugalash_entry_tokens(
    report: &[u16],
    entry: usize,
    tokens: &[u16],
    first: &mut usize,
) -> usize
    ensures value { result ≡ length (entry_tokens report.now entry tokens.now) }
    ensures first_after { first.new ≡ entry_start report.now entry (length tokens.now) }
{
    *first = report::entry_range(report, entry, tokens.len()).start;
    report::entry_tokens(report, entry, tokens).len()
}
