// The table of the runs of the sixteen codes: eight entries for each code. The first entries are the letters of the
// run, at most seven, and the last entry is their number.
ghost use Rattle.std.specs.Prelude.{◌+◌, ◌*◌, ◌≤◌, ◌<◌, ◌≡◌, true, false, length};
ghost use Rattle.word.specs.Letters.{is_inverse, generator};
ghost use Rattle.word_dialect.specs.Dialect.{are_parts, signed_run};
ghost use Rattle.word_dialect.specs.steps.Table.{Steps, Row, Before, HoldsRuns};

use crate::following;

// A run of letters: its first code, the step from each code to the next, modulo 16, and the number of letters.
#[derive(Clone, Copy)]
struct Run {
    first: u8,
    step: u8,
    number: u8,
}

// Is the code an inverse?
fn is_inverse(c: u8) -> bool
    ensures { result ≡ is_inverse c }
{
    (8 <= c) & (c <= 14)
}

// The run of code c in Y letters, if n generators come after its generator in its part: y_k, or y_k and the inverse of
// y_(k+1). The inverse run starts with y_(k+1).
fn y_run(c: u8, n: u8) -> Run
    requires { (c < 16) × (generator c + n < 8) × (n < 7) }
    ensures { Steps (signed_run true c n) result.first result.step result.number }
{
    let g = c % 8;
    if is_inverse(c) {
        if n == 0 {
            return Run {
                first: g + 8,
                step: 0,
                number: 1,
            };
        }
        return Run {
            first: g + 1,
            step: 7,
            number: 2,
        };
    }
    if n == 0 {
        return Run {
            first: g,
            step: 0,
            number: 1,
        };
    }
    Run {
        first: g,
        step: 9,
        number: 2,
    }
}

// The run of code c in Artin letters, if n generators come after its generator in its part: b_k up to the part's end.
// The inverse run goes down from the part's end.
fn artin_run(c: u8, n: u8) -> Run
    requires { (c < 16) × (generator c + n < 8) × (n < 7) }
    ensures { Steps (signed_run false c n) result.first result.step result.number }
{
    let g = c % 8;
    if is_inverse(c) {
        return Run {
            first: g + n + 8,
            step: 15,
            number: n + 1,
        };
    }
    Run {
        first: g,
        step: 1,
        number: n + 1,
    }
}

// The run of code c in either dialect. The two rules share no value, so one function of both would be no plainer.
fn run_of(way: bool, c: u8, n: u8) -> Run
    requires { (c < 16) × (generator c + n < 8) × (n < 7) }
    ensures { Steps (signed_run way c n) result.first result.step result.number }
{
    if way {
        return y_run(c, n);
    }
    artin_run(c, n)
}

// Writes the entries of code c. The entries before them stay.
fn lay_run(table: &mut [u8], c: usize, run: Run)
    requires { (8 * c + 8 ≤ length table.old) × (run.first < 16) × (run.step < 16) }
    ensures { Before (8 * c) table.old table.new × Row table.new c run.first run.step run.number }
{
    let mut code = run.first;
    for i in 0..7 {
        table[8 * c + i] = code;
        code = (code + run.step) % 16;
    }
    table[8 * c + 7] = run.number;
}

// Lays the run of code c, after the runs of the codes below it.
fn lay_code(table: &mut [u8], way: bool, parts: &[u8], c: u8)
    requires { (c < 16) × (length table.old ≡ 128) × (are_parts parts.now ≡ true)
        × HoldsRuns way parts.now c table.old }
    ensures { HoldsRuns way parts.now (c + 1) table.new }
{
    let n = following(parts, c % 8);
    let r = run_of(way, c, n);
    lay_run(table, c as usize, r);
}

// Lays the runs of the sixteen codes.
pub(crate) fn lay_table(table: &mut [u8], way: bool, parts: &[u8])
    requires { (length table.old ≡ 128) × (are_parts parts.now ≡ true) }
    ensures { HoldsRuns way parts.now 16 table.new }
{
    for c in 0..16 {
        lay_code(table, way, parts, c);
    }
}
