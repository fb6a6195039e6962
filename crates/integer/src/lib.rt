// Leaf functions on machine integers.
#![tactic(auto)]

ghost use Rattle.std.specs.Prelude.{◌≡◌, ◌+◌, ◌*◌, ◌<◌, ◌≤◌, ◌^◌, max, pos, nat_abs, ◌+ℤ◌, ◌-ℤ◌, ◌*ℤ◌};
ghost use Rattle.integer.specs.Finite.{first_or};
ghost use Rattle.integer.specs.Quotient.{ceil_div, round_div};

// One term of a sum of products.
pub fn add_product(acc: i64, a: i64, b: i64) -> i64
    requires { nat_abs acc + nat_abs a * nat_abs b < 2 ^ 63 }
    ensures { result ≡ acc +ℤ a *ℤ b }
{
    acc + a * b
}

// The absolute value.
pub fn magnitude(x: i64) -> u64
    requires { nat_abs x < 2 ^ 63 }
    ensures { result ≡ nat_abs x }
{
    x.unsigned_abs()
}

// The larger of two numbers.
pub fn larger(a: u64, b: u64) -> u64
    ensures { result ≡ max a b }
{
    a.max(b)
}

// 01: "rounded up to a whole number". Not std's `div_ceil`: the edit ceil_rounds_down and the definition `ceil_div` speak of the divisor less 1 that is added.
pub fn ceil_div(a: u64, b: u64) -> u64
    requires { (0 < b) × (a + b ≤ 2 ^ 64) }
    ensures { result ≡ ceil_div a b }
{
    (a + (b - 1)) / b
}

// (a + c) / b rounded up, for a c of at most half of b, without the sum a + c, which may not fit.
pub fn ceil_sum(a: u64, c: u64, b: u64) -> u64
    requires { (0 < b) × ((2 * c ≤ b) × (b ≤ 2 ^ 62)) }
    ensures { result ≡ ceil_div (a + c) b }
{
    a / b + ceil_div(a % b + c, b)
}

// x / d to the nearest whole number, halves away from zero.
pub fn round_div(x: i64, d: u64) -> i64
    requires { (0 < d) × (2 * nat_abs x + 2 * d < 2 ^ 63) }
    ensures { result ≡ round_div x d }
{
    let e = d as i64;
    if x < 0 {
        (2 * x - e) / (2 * e)
    } else {
        (2 * x + e) / (2 * e)
    }
}

// How far x lies from d times v.
pub fn distance(x: i64, d: u64, v: i64) -> u64
    requires { (d < 2 ^ 63) × (nat_abs x + d * nat_abs v < 2 ^ 63) }
    ensures { result ≡ nat_abs (x -ℤ pos d *ℤ v) }
{
    magnitude(x - d as i64 * v)
}

// 2 ^ s, the steps in one unit (01: S = 2^s, T = 2^t).
pub fn power(s: u32) -> u64
    requires { s ≤ 20 }
    ensures { result ≡ 2 ^ s }
{
    1u64 << s
}

// x / 2 ^ s to the nearest whole number, halves away from zero (01: V is X/S rounded to a whole unit).
pub fn round_scaled(x: i64, s: u32) -> i64
    requires { (nat_abs x ≤ 2 ^ 36) × (s ≤ 20) }
    ensures { result ≡ round_div x (2 ^ s) }
{
    round_div(x, power(s))
}

// One step of a search for the first index: found, the first below n; here, whether n is one.
pub fn first_or(found: usize, n: usize, here: bool) -> usize
    requires { n < 2 ^ 63 }
    ensures { result ≡ first_or found n here }
{
    if found < n {
        return found;
    }
    if here { n } else { n + 1 }
}
