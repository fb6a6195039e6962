// Field lines (document 02, Paper 3) and the tests of one line.
#![tactic(auto)]

ghost use Rattle.std.specs.Prelude.{◌≡◌};
ghost use Rattle.build_lines.specs.Line.{is_mark, outside_range, same_contents};
ghost use Rattle.build_lines.specs.declared.BuildRefusal.TheVariants.{Refused};

use rules::{Kind, Refusal, is_in_range, is_natural_in_range};

// A field line: its key, the two marks, the difference in whole units and the weight. Its layout is C's.
#[repr(C)]
#[derive(Clone, Copy, PartialEq, Eq)]
pub struct Observation {
    pub key: u32,
    pub from: u32,
    pub to: u32,
    pub difference: i64,
    pub weight: u32,
}

// Why no equations are built from a list of field lines.
#[derive(Clone, Copy)]
pub enum BuildRefusal {
    // 8 or 3
    Refused(Refusal),
    // 16: from equals to
    SameMark,
    // 17: a key met before with other contents
    OtherContents,
}

impl From<Refusal> for BuildRefusal {
    ghost from_gives = { λ r e. e ≡ Refused r };

    fn from(r: Refusal) -> BuildRefusal {
        BuildRefusal::Refused(r)
    }
}

// Whether k is the fixed mark or one of the marks 1 to n.
fn is_mark(k: u32, n: u32) -> bool
    ensures { result ≡ is_mark n k }
{
    is_natural_in_range(Kind::Mark, k) && k <= n
}

// 3: whether a number of the line is outside its range.
pub fn is_outside_range(l: Observation, n: u32) -> bool
    ensures { result ≡ outside_range n l }
{
    !(is_natural_in_range(Kind::Key, l.key)
        && is_mark(l.from, n)
        && is_mark(l.to, n)
        && is_in_range(Kind::Difference, l.difference)
        && is_natural_in_range(Kind::LineWeight, l.weight))
}

// Whether two lines have the same contents.
pub fn has_contents(a: Observation, b: Observation) -> bool
    ensures { result ≡ same_contents a b }
{
    Observation { key: b.key, ..a } == b
}
