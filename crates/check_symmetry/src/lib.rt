// Whether a matrix is symmetric, number by number.
#![tactic(auto)]

ghost use Rattle.std.specs.Prelude.{◌≡◌, true, ℕ, ◌*◌, ◌+◌, ◌≤◌, ◌<◌, length};
ghost use Rattle.linear.specs.Slice.{at};
ghost use Rattle.linear.specs.Place.{Carried};
ghost use Rattle.check_symmetry.specs.Symmetric.{Symmetric};

// Whether the numbers of row i before its diagonal, from index start on, are those of column i above it.
fn is_row_symmetric(xs: &[i64], i: usize, start: usize, n: usize) -> bool
    requires n_bound { (n ≤ 32) × ((i < n) × (n * n ≤ length xs.now)) }
    requires carried { Carried 0 n i start }
    ensures { result ≡ true → (j : ℕ) → j < i → at xs.now (i * n + j) ≡ at xs.now (j * n + i) }
{
    // The column by a place that is carried: as `zip(xs[i..].iter().step_by(n)).all(..)`, tried, the proof did not close.
    let mut down = i;
    for &x in &xs[start..start + i] {
        if x != xs[down] {
            return false;
        }
        down += n;
    }
    true
}

// Whether a matrix is symmetric. The contract says what is used: where the answer is true, it is.
fn is_symmetric(xs: &[i64], n: usize) -> bool
    requires { (n ≤ 32) × (n * n ≤ length xs.now) }
    ensures { result ≡ true → Symmetric xs.now n }
{
    // As `(0..n).all(|i| ..)`, tried, the proof did not close: a row's answer is an implication, no equation.
    let mut start = 0;
    for i in 0..n {
        if !is_row_symmetric(xs, i, start, n) {
            return false;
        }
        start += n;
    }
    true
}

// Whether two matrices are symmetric.
pub fn are_symmetric(xs: &[i64], ys: &[i64], n: usize) -> bool
    requires { (n ≤ 32) × ((n * n ≤ length xs.now) × (n * n ≤ length ys.now)) }
    ensures { result ≡ true → Symmetric xs.now n × Symmetric ys.now n }
{
    is_symmetric(xs, n) && is_symmetric(ys, n)
}
