// The doubles on either side of a height (02, Paper 11), by bits: no float arithmetic, no rounding mode.
#![tactic(auto)]

ghost use Rattle.std.specs.Prelude.{cond, ◌≡◌, ◌*◌, ◌-◌, ◌/◌, ◌≤◌, ◌<◌, ◌^◌, nat_abs};
ghost use Rattle.std.specs.Float.{binary64};
ghost use Rattle.std.specs.Float.Ieee.{units};
ghost use Rattle.doubles_guess.specs.Units.{plus_zero};
ghost use Rattle.doubles_interval.specs.Ends.{toward, away, below, above};
ghost use Rattle.doubles_interval.specs.Full.{Full};
ghost use Rattle.doubles_interval.specs.Interval.{units_of, interval_of};

use doubles_guess::{LEADING, SIGN};

// What the digits that a double has no room for count up to.
const DROPPED: u64 = 1 << 11;

// The two ends of a height, compared through their exact whole-number meaning (01, "The form to use in each place").
#[derive(Clone, Copy)]
pub struct Interval {
    pub low: f64,
    pub high: f64,
}

// The double ±digits · 2^shift units, from its bits.
fn from_parts(negative: bool, digits: u64, shift: u32) -> f64
    requires { (2 ^ 52 ≤ digits) × (digits < 2 ^ 53) × (shift ≤ 2045) }
    ensures { result ≡ units binary64 negative digits shift }
{
    let rest = (shift as u64 + 1) * LEADING + (digits - LEADING);
    if negative {
        f64::from_bits(SIGN + rest)
    } else {
        f64::from_bits(rest)
    }
}

// A number shifted up to 64 digits, and by how many.
#[derive(Clone, Copy)]
pub struct Shifted {
    pub number: u64,
    pub zeros: u32,
}

fn shifted_up(a: u64) -> Shifted
    requires { 0 < a }
    ensures { Full a result.number result.zeros }
{
    let zeros = a.leading_zeros();
    Shifted {
        number: a << zeros,
        zeros,
    }
}

// The first 53 of 64 digits.
fn leading(number: u64) -> u64
    ensures { result ≡ number / 2048 }
{
    number / DROPPED
}

// ±a steps, 2^s to one, cut to the 53 digits that a double has.
fn toward_zero(negative: bool, a: u64, s: u32) -> f64
    requires { (0 < a) × (s ≤ 20) }
    ensures { result ≡ toward negative (a * 2 ^ (1074 - s)) }
{
    let f = shifted_up(a);
    from_parts(negative, leading(f.number), 1085 - s - f.zeros)
}

// ±a steps, cut to 53 digits and one up in the last where something was cut off.
fn away_from_zero(negative: bool, a: u64, s: u32) -> f64
    requires { (0 < a) × (s ≤ 20) }
    ensures { result ≡ away negative (a * 2 ^ (1074 - s)) }
{
    let f = shifted_up(a);
    let digits = leading(f.number);
    let shift = 1085 - s - f.zeros;
    if f.number % DROPPED == 0 {
        return from_parts(negative, digits, shift);
    }
    if digits == 2 * LEADING - 1 {
        return from_parts(negative, LEADING, shift + 1);
    }
    from_parts(negative, digits + 1, shift)
}

fn plus_zero() -> f64
    ensures { result ≡ plus_zero }
{
    f64::from_bits(0)
}

// The double at an end of z steps: the largest not above them where it is the low end, else the smallest not below them. The low end of a negative number and
// the high end of a positive one lie farther from zero. A zero is plus zero.
fn end_at(low: bool, z: i64, s: u32) -> f64
    requires { (nat_abs z < 2 ^ 63) × (s ≤ 20) }
    ensures { result ≡ cond low (below (units_of s z)) (above (units_of s z)) }
{
    let a = z.unsigned_abs();
    if a == 0 {
        return plus_zero();
    }
    let negative = z < 0;
    let farther = negative == low;
    if farther {
        away_from_zero(negative, a, s)
    } else {
        toward_zero(negative, a, s)
    }
}

// The ends of the height x with the limit e, 2^s steps to one: of (X − E)/S and of (X + E)/S.
pub fn interval_of(x: i64, e: u64, s: u32) -> Interval
    requires { (nat_abs x ≤ 2 ^ 36) × ((e ≤ 2 ^ 60) × (s ≤ 20)) }
    ensures { result ≡ interval_of s x e }
{
    let reach = e as i64;
    Interval {
        low: end_at(true, x - reach, s),
        high: end_at(false, x + reach, s),
    }
}
