// A number at a place of a line (01: "A number is 0, or digits without a leading 0, with a minus before it where negative; −0 is no number").
#![tactic(auto)]

ghost use Rattle.std.specs.Prelude.{◌≡◌, ◌<◌, ◌≤◌, SomeIff, length, drop, pos, neg_ℤ, slice_index};
ghost use Rattle.line_numeral.specs.Numeral.{digit_of, lost, run_at, magnitude_at, number_at, positive_of, negative_of, cap_at, cap_magnitude};
ghost use Rattle.line_numeral.specs.Capped.{capped_magnitude, capped_number};

const CAP: u64 = 1099511627776;

// The absolute value of a number, and the index after it.
#[derive(Clone, Copy)]
struct Magnitude {
    value: u64,
    next: usize,
}

// A number, and the index after it. The index is past the end where no number stands: `number_at` of specs/Numeral.antt has it so, and what follows
// is read from there.
#[derive(Clone, Copy)]
pub struct Number {
    pub value: i64,
    pub next: usize,
}

// The byte at an index. Past the end of the line it is NUL, which stands in no form.
pub fn byte_at(s: &[u8], at: usize) -> u8
    ensures { result ≡ slice_index s.now at }
{
    s.get(at).copied().unwrap_or(0)
}

// The value of a decimal digit; no other byte has one.
fn digit(b: u8) -> Option<u64>
    ensures { SomeIff result (digit_of b < 10) (digit_of b) }
{
    if !b.is_ascii_digit() {
        return None;
    }
    Some(u64::from(b - b'0'))
}

// At most 2^40, so that no further digit wraps.
fn cap_magnitude(v: u64) -> u64
    ensures { (result ≡ cap_magnitude v) × (result ≤ cap_at) }
{
    v.min(CAP)
}

// All digits from an index on.
fn run_at(s: &[u8], at: usize) -> Magnitude
    requires { at ≤ length s.now }
    ensures { result ≡ capped_magnitude (run_at 0 at (drop at s.now)) }
{
    let mut value = 0;
    let mut next = at;
    for b in &s[at..] {
        let Some(d) = digit(*b) else { break };
        value = cap_magnitude(value * 10 + d);
        next += 1;
    }
    Magnitude { value, next }
}

// 0, or digits without a leading 0.
fn magnitude_at(s: &[u8], at: usize) -> Magnitude
    ensures { (result ≡ capped_magnitude (magnitude_at s.now at)) × (result.value ≤ cap_at) }
{
    match byte_at(s, at) {
        b'0' => Magnitude {
            value: 0,
            next: at + 1,
        },
        b'1'..=b'9' => run_at(s, at),
        _ => Magnitude {
            value: 0,
            next: s.len() + 1,
        },
    }
}

fn plus(v: u64) -> i64
    requires { v ≤ cap_at }
    ensures { result ≡ pos v }
{
    v as i64
}

fn minus(v: u64) -> i64
    requires { v ≤ cap_at }
    ensures { result ≡ neg_ℤ (pos v) }
{
    -(v as i64)
}

fn positive(z: Magnitude) -> Number
    requires { z.value ≤ cap_at }
    ensures { result ≡ positive_of z }
{
    Number {
        value: plus(z.value),
        next: z.next,
    }
}

// A minus before an absolute value: −0 is no number.
fn negative(z: Magnitude, lost: usize) -> Number
    requires { z.value ≤ cap_at }
    ensures { result ≡ negative_of lost z }
{
    if z.value == 0 {
        return Number {
            value: 0,
            next: lost,
        };
    }
    Number {
        value: minus(z.value),
        next: z.next,
    }
}

// The number at an index, at most 2^40 in absolute value, and the index after it; past the end of the line where no number stands there.
pub fn number_at(s: &[u8], at: usize) -> Number
    ensures { result ≡ capped_number (number_at s.now at) }
{
    if byte_at(s, at) == b'-' {
        negative(magnitude_at(s, at + 1), s.len() + 1)
    } else {
        positive(magnitude_at(s, at))
    }
}
