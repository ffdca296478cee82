// The static library: the functions of the crate grugalash as a program in C or Rust links them, declared in include/grugalash.h. A run of
// words or bytes crosses as an address and a length. Each one is grugalash's function of its name, and promises the same:
// a crate is a library or a static library, so the C interface needs each export in both,
// with each run by itself and the two sides of a set under two names, as there.
#![tactic(auto)]

ghost use Rattle.std.specs.Prelude.{◌≡◌, length};
ghost use Rattle.language.specs.Checks.{check_symbols, check_words};
ghost use Rattle.language.specs.Loads.{load_answer, load_bytes, left_set_answer, right_set_answer};
ghost use Rattle.refusals.specs.Refusals.{answer_number, answer_value, set_value, set_size, run_value, report_value, report_moves};
ghost use Rattle.area.specs.Shape.{in_shape};
ghost use Rattle.start.specs.Start.{start_answer, start_area};
ghost use Rattle.moving.specs.Calls.{step_answer, step_area, run_answer, run_area, join_answer, join_area};
ghost use Rattle.parse.specs.ParseCall.{parse_answer, parse_area, parse_out};
ghost use Rattle.report.specs.ReportCall.{report_answer, report_out, entry_start, entry_tokens};

#[unsafe(no_mangle)]
pub extern "C" fn grugalash_check_symbols(words: &[u16], value: &mut u32) -> u32
    ensures value { result ≡ answer_number (check_symbols words.now) }
    ensures value_after { value.new ≡ answer_value (check_symbols words.now) }
{
    grugalash::grugalash_check_symbols(words, value)
}

#[unsafe(no_mangle)]
pub extern "C" fn grugalash_check_words(words: &[u16], value: &mut u32) -> u32
    ensures value { result ≡ answer_number (check_words words.now) }
    ensures value_after { value.new ≡ answer_value (check_words words.now) }
{
    grugalash::grugalash_check_words(words, value)
}

#[unsafe(no_mangle)]
pub extern "C" fn grugalash_load(words: &[u16], matrix: &mut [u8], value: &mut u32) -> u32
    ensures value { result ≡ answer_number (load_answer words.now (length matrix.old)) }
    ensures value_after { value.new ≡ answer_value (load_answer words.now (length matrix.old)) }
    ensures matrix_after { matrix.new ≡ load_bytes words.now matrix.old }
{
    grugalash::grugalash_load(words, matrix, value)
}

#[unsafe(no_mangle)]
pub extern "C" fn grugalash_left_set(
    words: &[u16],
    nonterminal: u32,
    mask: &mut u64,
    size: &mut u32,
) -> u32
    ensures value { result ≡ answer_number (left_set_answer words.now nonterminal) }
    ensures mask_after { mask.new ≡ set_value (left_set_answer words.now nonterminal) }
    ensures size_after { size.new ≡ set_size (left_set_answer words.now nonterminal) }
{
    grugalash::grugalash_left_set(words, nonterminal, mask, size)
}

#[unsafe(no_mangle)]
pub extern "C" fn grugalash_right_set(
    words: &[u16],
    nonterminal: u32,
    mask: &mut u64,
    size: &mut u32,
) -> u32
    ensures value { result ≡ answer_number (right_set_answer words.now nonterminal) }
    ensures mask_after { mask.new ≡ set_value (right_set_answer words.now nonterminal) }
    ensures size_after { size.new ≡ set_size (right_set_answer words.now nonterminal) }
{
    grugalash::grugalash_right_set(words, nonterminal, mask, size)
}

#[unsafe(no_mangle)]
pub extern "C" fn grugalash_in_shape(words: &[u16], matrix: &[u8], area: &[u16]) -> bool
    ensures { result ≡ in_shape words.now matrix.now area.now }
{
    grugalash::grugalash_in_shape(words, matrix, area)
}

#[unsafe(no_mangle)]
pub extern "C" fn grugalash_start(
    words: &[u16],
    matrix: &[u8],
    tokens: &[u16],
    cuts: &[u16],
    area: &mut [u16],
    value: &mut u32,
) -> u32
    ensures value { result ≡ answer_number (start_answer words.now matrix.now tokens.now cuts.now (length area.old)) }
    ensures value_after { value.new ≡ answer_value (start_answer words.now matrix.now tokens.now cuts.now (length area.old)) }
    ensures area_after { area.new ≡ start_area words.now matrix.now tokens.now cuts.now area.old }
{
    grugalash::grugalash_start(words, matrix, tokens, cuts, area, value)
}

#[unsafe(no_mangle)]
pub extern "C" fn grugalash_step(
    words: &[u16],
    matrix: &[u8],
    area: &mut [u16],
    chunk: usize,
    value: &mut u32,
) -> u32
    ensures value { result ≡ answer_number (step_answer words.now matrix.now area.old chunk) }
    ensures value_after { value.new ≡ answer_value (step_answer words.now matrix.now area.old chunk) }
    ensures area_after { area.new ≡ step_area words.now matrix.now area.old chunk }
{
    grugalash::grugalash_step(words, matrix, area, chunk, value)
}

#[unsafe(no_mangle)]
pub extern "C" fn grugalash_run(
    words: &[u16],
    matrix: &[u8],
    area: &mut [u16],
    chunk: usize,
    budget: u32,
    value: &mut u32,
) -> u32
    ensures value { result ≡ answer_number (run_answer words.now matrix.now area.old chunk budget) }
    ensures value_after { value.new ≡ run_value (run_answer words.now matrix.now area.old chunk budget) }
    ensures area_after { area.new ≡ run_area words.now matrix.now area.old chunk budget }
{
    grugalash::grugalash_run(words, matrix, area, chunk, budget, value)
}

#[unsafe(no_mangle)]
pub extern "C" fn grugalash_join(
    words: &[u16],
    matrix: &[u8],
    area: &mut [u16],
    chunk: usize,
    value: &mut u32,
) -> u32
    ensures value { result ≡ answer_number (join_answer words.now matrix.now area.old chunk) }
    ensures value_after { value.new ≡ answer_value (join_answer words.now matrix.now area.old chunk) }
    ensures area_after { area.new ≡ join_area words.now matrix.now area.old chunk }
{
    grugalash::grugalash_join(words, matrix, area, chunk, value)
}

#[unsafe(no_mangle)]
pub extern "C" fn grugalash_report(
    words: &[u16],
    matrix: &[u8],
    area: &[u16],
    out: &mut [u16],
    entries: &mut u32,
    moves: &mut u32,
) -> u32
    ensures value { result ≡ answer_number (report_answer words.now matrix.now area.now (length out.old)) }
    ensures entries_after { entries.new ≡ report_value (report_answer words.now matrix.now area.now (length out.old)) }
    ensures moves_after { moves.new ≡ report_moves (report_answer words.now matrix.now area.now (length out.old)) }
    ensures out_after { out.new ≡ report_out words.now matrix.now area.now out.old }
{
    grugalash::grugalash_report(words, matrix, area, out, entries, moves)
}

#[unsafe(no_mangle)]
pub extern "C" fn grugalash_parse(
    words: &[u16],
    tokens: &[u16],
    area: &mut [u16],
    out: &mut [u16],
    entries: &mut u32,
    moves: &mut u32,
) -> u32
    ensures value { result ≡ answer_number (parse_answer words.now tokens.now (length area.old) (length out.old)) }
    ensures entries_after { entries.new ≡ report_value (parse_answer words.now tokens.now (length area.old) (length out.old)) }
    ensures moves_after { moves.new ≡ report_moves (parse_answer words.now tokens.now (length area.old) (length out.old)) }
    ensures area_after { area.new ≡ parse_area words.now tokens.now area.old }
    ensures out_after { out.new ≡ parse_out words.now tokens.now (length area.old) out.old }
{
    grugalash::grugalash_parse(words, tokens, area, out, entries, moves)
}

#[unsafe(no_mangle)]
pub extern "C" fn grugalash_entry_tokens(
    report: &[u16],
    entry: usize,
    tokens: &[u16],
    first: &mut usize,
) -> usize
    ensures value { result ≡ length (entry_tokens report.now entry tokens.now) }
    ensures first_after { first.new ≡ entry_start report.now entry (length tokens.now) }
{
    grugalash::grugalash_entry_tokens(report, entry, tokens, first)
}
