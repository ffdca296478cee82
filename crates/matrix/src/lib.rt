// The grammar words and the matrix, lent with every call on a row being read: the shape rules (a) and (b) of docs/AREA.md.
#![tactic(auto)]

ghost use Rattle.std.specs.Prelude.{◌≡◌, ℕ, ◌+◌, ◌*◌, ◌≤◌, ◌<◌, length};
ghost use Rattle.matrix.specs.GrammarShape.{byte_fits, grammar_in_shape};
ghost use Rattle.laws.specs.Looks.{TellsAll};
ghost use Rattle.matrix.specs.ByteTests.{byte_at};
ghost use Rattle.std.specs.List.{list_all};

// A byte of the matrix, a over b, neither past t, the number of terminals: # over # is 2; # over b is 0 or 1; a over # is 0 or 3; any
// other 0 to 3.
fn byte_fits(a: usize, b: usize, x: u8) -> bool
    ensures { (t : ℕ) → a ≤ t → b ≤ t → result ≡ byte_fits t a b x }
{
    match (a, b) {
        (0, 0) => x == 2,
        (0, _) => x <= 1,
        (_, 0) => (x == 0) | (x == 3),
        _ => x <= 3,
    }
}

// Each element of a run is this one: all of them are looked at, with no exit before the end. By `all`, which stops at the first that is another, the matrix
// takes 2.8 us in place of 0.25: of a row of 8 tokens, whose check looks at 74 words and 4,096 bytes, that is 1.3 ns for each two bytes in place of 0.12,
// where docs/BENCH.md wants "one check under 1 ns a word".
pub fn all_are<T: PartialEq>(run: &[T], wanted: &T) -> bool
    ensures { result ≡ list_all (λ x. T.eq x wanted.now) run.now }
{
    run.iter().fold(true, |all, x| all & (*x == *wanted))
}

// The bytes of row a, which is not past t, fit: those up to t, and those past t are 0. The look at those up to t has no exit before
// the end, as in `all_are`.
fn row_fits(matrix: &[u8], t: usize, a: usize) -> bool
    requires { (a ≤ t) × (t < 64) × (4096 ≤ length matrix.now) }
    ensures { TellsAll (byte_at t matrix.now) (64 * a) (64 * a + 64) result }
{
    let start = 64 * a;
    let past = t + 1;
    (0..past).fold(true, |all, b| all & byte_fits(a, b, matrix[start + b]))
        && all_are(&matrix[start + past..start + 64], &0)
}

// The grammar words and the matrix keep the shape rules: (a) the words pass 1 to 3, (b) the matrix has its bytes, a over b at 64a + b, and
// each of them fits: row by row up to t, and past t they are 0.
pub fn grammar_in_shape(words: &[u16], matrix: &[u8]) -> bool
    ensures { result ≡ grammar_in_shape words.now matrix.now }
{
    if let Err(_) = words::check_symbols(words) {
        return false;
    }
    if matrix.len() < 4096 {
        return false;
    }
    let t = words[0] as usize;
    let past = t + 1;
    (0..past).all(|a| row_fits(matrix, t, a)) && all_are(&matrix[64 * past..4096], &0)
}
