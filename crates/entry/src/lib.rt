// The register entry of a guess and its limit.
#![tactic(auto)]

ghost use Rattle.std.specs.Prelude.{◌≡◌, ◌≤◌, ◌^◌, nat_abs};
ghost use Rattle.entry.specs.Entry.{entry_bound};
ghost use Rattle.entry.specs.Register.{can_enter, RegisteredAs};

use rules::{Kind, Refusal};

// The limit of a register entry (02, Paper 2: (E + |X − S·V|)/S rounded up).
pub fn entry_bound(x: i64, e: u64, s: u32) -> u64
    requires { (nat_abs x ≤ 2 ^ 36) × (s ≤ 20) }
    ensures { result ≡ entry_bound s x e }
{
    let steps = integer::power(s);
    let value = integer::round_scaled(x, s);
    integer::ceil_sum(e, integer::distance(x, steps, value), steps)
}

// A register entry: V and its limit.
#[derive(Clone, Copy)]
pub struct Entry {
    pub value: i64,
    pub limit: u64,
}

fn can_enter(x: i64, s: u32) -> bool
    ensures { result ≡ can_enter x s }
{
    rules::is_in_range(Kind::Guess, x) && rules::is_in_range(Kind::SolutionScale, s as i64)
}

// The register entry of a guess x and its limit e, for the solution scale s; 3 where x or s is out of range.
pub fn register_entry(x: i64, e: u64, s: u32) -> Result<Entry, Refusal>
    ensures { RegisteredAs x e s result }
{
    if !can_enter(x, s) {
        return Err(Refusal::OutOfRange);
    }
    Ok(Entry {
        value: integer::round_scaled(x, s),
        limit: entry_bound(x, e, s),
    })
}
