// A symmetric matrix that is handed in by its lower half, filled out (document 02, Paper 10).
#![tactic(auto)]

ghost use Rattle.std.specs.Prelude.{◌≡◌, ℕ, ◌+◌, ◌*◌, ◌≤◌, ◌<◌, length};
ghost use Rattle.linear.specs.Slice.{at};
ghost use Rattle.linear.specs.Written.{written};
ghost use Rattle.half_fill.specs.Half.{lower_place, half_place, filled_rows, filled_out};

use rules::{Kind, is_natural_in_range};

// 02, Paper 10: "8 for a list under 528".
pub const HALF_LENGTH: usize = 528;

// The index in the half of row i and column j + 1, from that of row i and column j: the next one left of the diagonal, one row further down from it on.
fn next_place(place: usize, i: usize, j: usize) -> usize
    requires { (i < 32) × ((j < 32) × (place ≡ half_place i j)) }
    ensures { result ≡ half_place i (j + 1) }
{
    if j < i {
        return place + 1;
    }
    place + (j + 1)
}

// Writes row i from index `to` on; its first number is at index `from` of the half. The loop goes by column, which `next_place` takes, as that of `fill_rows`
// goes by row: `iter_mut().enumerate()` over the part of `out` is no plainer.
fn fill_row(out: &mut [i64; 1024], to: usize, half: &[i64], from: usize, i: usize, n: usize)
    requires n_bound { (n ≤ 32) × ((i < n) × (528 ≤ length half.now)) }
    requires to_value { (to ≡ i * n) × (from ≡ lower_place i 0) }
    ensures { out.new ≡ written out.old to 1 (λ (j : ℕ). at half.now (half_place i j)) n }
{
    let mut place = from;
    for j in 0..n {
        out[to + j] = half[place];
        place = next_place(place, i, j);
    }
}

// The rows one after the other; their places are carried.
fn fill_rows(n: usize, half: &[i64]) -> [i64; 1024]
    requires { (n ≤ 32) × (528 ≤ length half.now) }
    ensures { result ≡ filled_rows n half.now n }
{
    let mut out = [0i64; 1024];
    let mut to = 0;
    let mut from = 0;
    for i in 0..n {
        fill_row(&mut out, to, half, from, i, n);
        to += n;
        from += i + 1;
    }
    out
}

// The filled-out matrix; where n is out of range the half is not read.
pub fn fill_out(n: u32, half: &[i64]) -> [i64; 1024]
    requires { 528 ≤ length half.now }
    ensures { result ≡ filled_out n half.now }
{
    if is_natural_in_range(Kind::Size, n) {
        return fill_rows(n as usize, half);
    }
    [0i64; 1024]
}
