// Doubles by their bits: the meaning of a double in whole numbers of 2 ^ -1074, and the guess nearest to it.
#![tactic(auto)]

ghost use Rattle.std.specs.Prelude.{◌≡◌, ◌+◌, ◌*◌, ◌%◌, ◌≤◌, ◌<◌, ◌^◌};
ghost use Rattle.doubles_guess.specs.Units.{signed_by};
ghost use Rattle.doubles_guess.specs.Decoded.{Decoded, Normal};
ghost use Rattle.doubles_guess.specs.Guess.{MagnitudeFoundAs, GuessFoundAs};

// The bit of the sign.
pub const SIGN: u64 = 1 << 63;

// The one in front of the digits that a double keeps.
pub const LEADING: u64 = 1 << 52;

// The field of an exponent that no number has.
const NO_NUMBER: u64 = 2047;
// The greatest guess.
const MOST_STEPS: u64 = 1 << 36;

// The sign, the digits and the exponent of a finite double: ±digits · 2^shift units of 2^-1074.
#[derive(Clone, Copy)]
pub struct DoubleParts {
    pub negative: bool,
    pub digits: u64,
    pub shift: u64,
}

// A double taken apart; nothing where it is not finite. A NaN is the one value that has no bits that could be read.
pub fn decode(x: f64) -> Option<DoubleParts>
    ensures { Decoded x result }
{
    if x.is_nan() {
        return None;
    }
    let bits = x.to_bits();
    let negative = bits >= SIGN;
    let field = bits % SIGN / LEADING;
    let digits = bits % LEADING;
    match field {
        NO_NUMBER => None,
        0 => Some(DoubleParts {
            negative,
            digits,
            shift: 0,
        }),
        _ => Some(DoubleParts {
            negative,
            digits: LEADING + digits,
            shift: field - 1,
        }),
    }
}

// h half steps in whole steps, a half counted as one more.
fn half_up(h: u64) -> u64
    requires { h < 2 ^ 53 }
    ensures { 2 * result ≡ h + h % 2 }
{
    (h + 1) / 2
}

// The absolute value of digits · 2^shift units in steps, 2^s to one: the nearest whole number, halves up; nothing where it is above 2^36.
fn nearest(digits: u64, shift: u64, s: u64) -> Option<u64>
    requires { Normal digits shift × (s ≤ 20) }
    ensures { MagnitudeFoundAs digits shift s result }
{
    let d = 1073u64.checked_sub(shift + s)?;
    if 63 < d {
        return Some(0);
    }
    let steps = half_up(digits >> d);
    (steps <= MOST_STEPS).then_some(steps)
}

fn signed(negative: bool, steps: u64) -> i64
    requires { steps ≤ 2 ^ 36 }
    ensures { result ≡ signed_by negative steps }
{
    let plain = steps as i64;
    if negative { -plain } else { plain }
}

// The exact value of x times 2^s, rounded to a nearest whole number, halves away from zero (02, Paper 11); nothing where x gives no guess (19).
pub fn guess_of(x: f64, s: u32) -> Option<i64>
    requires { s ≤ 20 }
    ensures { GuessFoundAs s x result }
{
    let p = decode(x)?;
    let magnitude = nearest(p.digits, p.shift, s as u64)?;
    Some(signed(p.negative, magnitude))
}
