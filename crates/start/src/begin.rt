// A row's start: the searches that 9 and 10 need, and the words of the row.
ghost use Rattle.std.specs.Prelude.{◌≡◌, ◌++◌, ℕ, ◌+◌, ◌*◌, ◌≤◌, not, length, get_or, position, MatchOption};
ghost use Rattle.std.specs.List.{list_all};
ghost use Rattle.language.specs.Words.{outside};
ghost use Rattle.std.proofs.lemmas.List.Edits.{sets};
ghost use Rattle.layout.specs.Layout.{zeros};
ghost use Rattle.start.specs.StartChecks.{found, bad_cuts, Writable};
ghost use Rattle.start.specs.StartWords.{start_row, start_rows, start_slot, start_slots, start_words};

// A token outside 1..t.
fn is_bad_token(token: u16, t: u16) -> bool
    ensures { result ≡ outside 1 t token }
{
    (token < 1) | (t < token)
}

// 9: every token is within 1..t: all of them are looked at, with no exit before the end. By the search below alone, which has one, a start takes
// 17 instructions a token in place of 11.
fn tokens_fit(tokens: &[u16], t: u16) -> bool
    ensures { result ≡ list_all (λ token. not (outside 1 t token)) tokens.now }
{
    tokens
        .iter()
        .fold(true, |fit, token| fit & !is_bad_token(*token, t))
}

// 9: the place of the first token outside 1..t.
pub(crate) fn first_bad_token(tokens: &[u16], t: u16) -> Option<usize>
    ensures { result ≡ position (outside 1 t) tokens.now }
{
    if tokens_fit(tokens, t) {
        return None;
    }
    tokens.iter().position(|token| is_bad_token(*token, t))
}

// 10: 63 if there are more cuts, else the place of the first cut above n or below its predecessor.
pub(crate) fn first_bad_cut(cuts: &[u16], n: u16) -> Option<usize>
    ensures bad { found result ≡ bad_cuts n cuts.now }
    ensures few { MatchOption result (length cuts.now ≤ 63) (λ i. i ≤ 63) }
{
    if 63 < cuts.len() {
        return Some(63);
    }
    let mut before = 0;
    for (i, cut) in cuts.iter().enumerate() {
        if (n < *cut) | (*cut < before) {
            return Some(i);
        }
        before = *cut;
    }
    None
}

// ---- the words, each function's one after another from some word of the area on (`sets`)

// The row of a running chunk with no mark.
fn write_row(area: &mut [u16], at: usize, from: u16, head: u16, end: u16)
    requires { at + 5 ≤ length area.old }
    ensures { area.new ≡ sets area.old at (start_row from head end) }
{
    area[at..at + 5].copy_from_slice(&[1, from, head, end, 0]);
}

// A row for each chunk: chunk 0 has # on its stack, a chunk ends at its cut, the last after the # of the end.
fn write_table(area: &mut [u16], cuts: &[u16], n: u16)
    requires { (n ≤ 16384) × ((i : ℕ) → get_or cuts.now i 0 ≤ n) × (10 + 5 * length cuts.now ≤ length area.old) }
    ensures { area.new ≡ sets area.old 5 (start_rows n 0 1 cuts.now) }
{
    let mut from: u16 = 0;
    let mut head: u16 = 1;
    // rows by their place: std's contract of `as_chunks_mut` doesn't say what the slice ends as
    for (i, cut) in cuts.iter().enumerate() {
        let end = *cut + 1;
        write_row(area, 5 + 5 * i, from, head, end);
        from = end;
        head = end;
    }
    write_row(area, 5 + 5 * cuts.len(), from, head, n + 2);
}

// An unmarked terminal on one slot. Word by word: four stores are as plain as a `copy_from_slice` of four words, by which a start takes 2 to 10
// instructions a token more.
fn write_slot(area: &mut [u16], at: usize, terminal: u16)
    requires { at + 4 ≤ length area.old }
    ensures { area.new ≡ sets area.old at (start_slot terminal) }
{
    area[at] = terminal;
    area[at + 1] = 0;
    area[at + 2] = 1;
    area[at + 3] = 1;
}

// A slot for the # of chunk 0, for each token, and for the # of the end; then zeros: no word of a reduction is left from before.
fn write_slots(area: &mut [u16], tokens: &[u16], base: usize)
    requires { base + 4 * (length tokens.now + 2) + 3 * length tokens.now ≤ length area.old }
    ensures { area.new ≡ sets area.old base (start_slots tokens.now ++ zeros (3 * length tokens.now)) }
{
    write_slot(area, base, 0);
    // by their places, as the rows in `write_table`: std does not say what the slice of `as_chunks_mut` ends as
    for (i, token) in tokens.iter().enumerate() {
        write_slot(area, base + 4 + 4 * i, *token);
    }
    let last = base + 4 + 4 * tokens.len();
    write_slot(area, last, 0);
    let made = last + 4;
    let count = 3 * tokens.len();
    area[made..made + count].fill(0);
}

// The words of the row's start, and no word beyond: n, C, no moves, no reductions made; the table; the slots and the reductions.
pub(crate) fn write(area: &mut [u16], tokens: &[u16], cuts: &[u16])
    requires { Writable tokens.now cuts.now (length area.old) }
    ensures { area.new ≡ sets area.old 0 (start_words tokens.now cuts.now) }
{
    let n = tokens.len() as u16;
    let count = cuts.len() + 1;
    area[..5].copy_from_slice(&[n, count as u16, 0, 0, 0]);
    write_table(area, cuts, n);
    write_slots(area, tokens, 5 + 5 * count);
}
