// Whether the numbers of an inquiry can be used: 3. The tests of weights_search are of other kinds and lists; one function over a list of kinds and numbers is
// no plainer, since every kind and number is named there just the same.
ghost use Rattle.std.specs.Prelude.{◌≡◌, ◌≤◌, length};
ghost use Rattle.quality_spec.specs.Inquiry.{inquiry_sizes, inquiry_lists};

use rules::{Kind, all_in_range, is_natural_in_range};

// 3 for n and t.
pub fn are_sizes_in_range(n: u32, t: u32) -> bool
    ensures { result ≡ inquiry_sizes n t }
{
    is_natural_in_range(Kind::Size, n) && is_natural_in_range(Kind::InverseScale, t)
}

// 3 for the numbers of the lists that are used.
pub fn are_lists_in_range(n: usize, matrix: &[i64], inverse: &[i64], weights: &[i64]) -> bool
    requires { (n ≤ 32) × ((1024 ≤ length matrix.now) × ((1024 ≤ length inverse.now) × (32 ≤ length weights.now))) }
    ensures { result ≡ inquiry_lists n matrix.now inverse.now weights.now }
{
    let size = n * n;
    all_in_range(Kind::Matrix, matrix, size)
        && all_in_range(Kind::Inverse, inverse, size)
        && all_in_range(Kind::Weight, weights, n)
}
