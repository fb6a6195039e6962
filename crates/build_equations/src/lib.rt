// The sums over the distinct lines (document 02, Paper 3), and where they are written.
#![tactic(auto)]

ghost use Rattle.std.specs.Prelude.{◌≡◌, true, ℕ, ◌+◌, ◌≤◌, ◌<◌, ◌^◌, pos, nat_abs, ◌+ℤ◌, ◌-ℤ◌, ◌*ℤ◌, length, set};
ghost use Rattle.integer.specs.Finite.{sumℕ};
ghost use Rattle.linear.specs.Slice.{at};
ghost use Rattle.linear.specs.Written.{written};
ghost use Rattle.build_lines.specs.Distinct.{touches};
ghost use Rattle.build_gathering.specs.Gathered.{Proper, ProperLines, Ready};
ghost use Rattle.build_equations.specs.Written.{width_of, matrix_written, right_written};
ghost use Rattle.build_equations.specs.Kept.{SmallRow, RowSums, Grown, kept_matrix, kept_right};

use build_gathering::{Gathered, KeptLines};
use build_lines::Observation;

// How a matrix is laid out: row after row, whole rows or the lower half.
#[derive(Clone, Copy)]
pub enum Layout {
    Square,
    Lower,
}

// The sums of the row of a mark, one at each mark from 0 to 32, and its right side.
#[derive(Clone, Copy)]
pub struct Row {
    pub sums: [i64; 33],
    pub right: i64,
}

// Whether a line is at a mark.
fn is_at(l: Observation, k: u32) -> bool
    ensures { result ≡ touches k l }
{
    l.from == k || l.to == k
}

// The weight of a line that joins k to another mark: added on the diagonal, taken from the place of the other.
fn join(mut sums: [i64; 33], k: u32, other: u32, weight: i64) -> [i64; 33]
    requires k_bound { (k ≤ 32) × (other ≤ 32) }
    requires k_bound_2 { (nat_abs (at sums k) ≤ 2 ^ 31) × ((nat_abs (at sums other) ≤ 2 ^ 31) × (nat_abs weight ≤ 2 ^ 31)) }
    ensures { result ≡ set (set sums k (at sums k +ℤ weight)) other (at sums other -ℤ weight) }
{
    let i = k as usize;
    let j = other as usize;
    let beside = sums[j] - weight;
    sums[i] += weight;
    sums[j] = beside;
    sums
}

// What a line at mark k adds to the row of k.
fn grow(row: Row, k: u32, l: Observation) -> Row
    requires k_bound { (k ≤ 32) × (Proper l × SmallRow row) }
    requires l_value { touches k l ≡ true }
    ensures { Grown k l row result }
{
    let weight = l.weight as i64;
    let product = weight * l.difference;
    if l.to == k {
        return Row {
            sums: join(row.sums, k, l.from, weight),
            right: row.right + product,
        };
    }
    Row {
        sums: join(row.sums, k, l.to, weight),
        right: row.right - product,
    }
}

// The row of a mark, summed over the kept lines.
fn row_of(seen: &KeptLines, count: usize, k: u32) -> Row
    requires { (k ≤ 32) × ProperLines seen.now count }
    ensures { RowSums seen.now k count result }
{
    let mut row = Row {
        sums: [0i64; 33],
        right: 0,
    };
    for &l in &seen.lines[..count] {
        if is_at(l, k) {
            row = grow(row, k, l);
        }
    }
    row
}

// Writes the sums at marks 1, 2, .. width from an index on.
fn store_row(sums: &[i64; 33], width: usize, dst: &mut [i64], start: usize)
    requires { (width ≤ 32) × (start + width ≤ length dst.old) }
    ensures { dst.new ≡ written dst.old start 1 (λ (j : ℕ). at sums.now (j + 1)) width }
{
    dst[start..start + width].copy_from_slice(&sums[1..width + 1]);
}

fn width_of(layout: Layout, n: usize, i: usize) -> usize
    requires { (n ≤ 32) × (i < n) }
    ensures { (result ≡ width_of layout n i) × (result ≤ 32) }
{
    match layout {
        Layout::Square => n,
        Layout::Lower => i + 1,
    }
}

fn count_of(n: u32) -> usize
    ensures { result ≡ n }
{
    n as usize
}

// Writes the equations of the kept lines, row after row. The loop counts i because a row is that of mark i + 1 and its width depends on i.
pub fn write_equations(g: Gathered, layout: Layout, matrix: &mut [i64], right: &mut [i64])
    requires ready { Ready g }
    requires n_in_bounds { (sumℕ g.progress.n (width_of layout g.progress.n) ≤ length matrix.old) × (g.progress.n ≤ length right.old) }
    ensures { (matrix.new ≡ matrix_written layout g.progress.n (kept_matrix g) matrix.old)
        × (right.new ≡ right_written g.progress.n (kept_right g) right.old) }
{
    let n = count_of(g.progress.n);
    let mut start = 0;
    for i in 0..n {
        let row = row_of(&g.seen, g.progress.count, (i + 1) as u32);
        let width = width_of(layout, n, i);
        store_row(&row.sums, width, matrix, start);
        right[i] = row.right;
        start += width;
    }
}
