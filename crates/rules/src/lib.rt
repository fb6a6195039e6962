// The ranges of document 01 and of 02's Papers 7, 5 and 3, and 01's refusals.
#![tactic(auto)]

ghost use Rattle.std.specs.Prelude.{◌≡◌, ℕ, ◌<◌, ◌≤◌, pos, get_or, length};
ghost use Rattle.rules.specs.Range.{index_of, range_of, in_range, all_in_range};

// What a number stands for; each kind has its own range (01: "Every form has its own range").
#[derive(Clone, Copy)]
pub enum Kind {
    Size,
    SolutionScale,
    InverseScale,
    Matrix,
    Right,
    Guess,
    Inverse,
    Weight,
    // how many lists of weights may be tried
    Allowance,
    // how far a right side may lie from the one that is given
    Tolerance,
    // of a field line: its key, a mark, its difference, its weight
    Key,
    Mark,
    Difference,
    LineWeight,
}

#[derive(Clone, Copy)]
pub struct Range {
    pub lowest: i64,
    pub highest: i64,
}

// In the order of `Kind`. A constant table is the form that document 01 names.
const RANGES: [Range; 14] = [
    // Size
    Range {
        lowest: 1,
        highest: 32,
    },
    // SolutionScale
    Range {
        lowest: 0,
        highest: 20,
    },
    // InverseScale
    Range {
        lowest: 0,
        highest: 20,
    },
    // Matrix
    Range {
        lowest: -1048576,
        highest: 1048576,
    },
    // Right
    Range {
        lowest: -1073741824,
        highest: 1073741824,
    },
    // Guess
    Range {
        lowest: -68719476736,
        highest: 68719476736,
    },
    // Inverse
    Range {
        lowest: -1048576,
        highest: 1048576,
    },
    // Weight
    Range {
        lowest: 1,
        highest: 1024,
    },
    // Allowance
    Range {
        lowest: 1,
        highest: 64,
    },
    // Tolerance
    Range {
        lowest: 0,
        highest: 1048576,
    },
    // Key
    Range {
        lowest: 1,
        highest: 65535,
    },
    // Mark
    Range {
        lowest: 0,
        highest: 32,
    },
    // Difference
    Range {
        lowest: -65536,
        highest: 65536,
    },
    // LineWeight
    Range {
        lowest: 1,
        highest: 64,
    },
];

// 01: "A lent matrix list has at least 1,024 numbers and a column list at least 32"; 8 for a shorter one.
pub const MATRIX_LENGTH: usize = 1024;

pub const COLUMN_LENGTH: usize = 32;

// Why something is refused: a case for each of 01's numbers, with the places or the count that it gives. Rows and columns count from 1.
#[derive(Clone, Copy)]
pub enum Refusal {
    // 1: a line above 320 bytes
    TooLong,
    // 2: not one of the eight forms
    NoForm,
    // 3: a number outside its range
    OutOfRange,
    // 4: a list with other than n numbers
    WrongCount,
    // 5: a margin of 0 or less, at this row
    Margin(u32),
    // 6: a residual of the guess too large, at this row
    Residual(u32),
    // 7: a residual of the inverse too large, at this column and row
    InverseResidual(u32, u32),
    // 8: a lent list too short
    TooShort,
    // 11: a form before problem, or before scale
    TooEarly,
    // 12: a form given already
    Repeated,
    // 13: end with this many forms outstanding
    Missing(u32),
    // 14: a line after an accepted end
    AfterEnd,
    // 15: checking before an accepted end
    NotEnded,
}

// `kind as usize` in place of this was tried: that the number of each kind is its line is not found then.
fn index_of(kind: Kind) -> usize
    ensures { (result ≡ index_of kind) × (result < 14) }
{
    match kind {
        Kind::Size => 0,
        Kind::SolutionScale => 1,
        Kind::InverseScale => 2,
        Kind::Matrix => 3,
        Kind::Right => 4,
        Kind::Guess => 5,
        Kind::Inverse => 6,
        Kind::Weight => 7,
        Kind::Allowance => 8,
        Kind::Tolerance => 9,
        Kind::Key => 10,
        Kind::Mark => 11,
        Kind::Difference => 12,
        Kind::LineWeight => 13,
    }
}

// The line of the table for a kind.
pub fn range_of(kind: Kind) -> Range
    ensures { result ≡ range_of kind }
{
    RANGES[index_of(kind)]
}

// Whether x is a number of that kind's range.
pub fn is_in_range(kind: Kind, x: i64) -> bool
    ensures { result ≡ in_range kind x }
{
    let range = range_of(kind);
    range.lowest <= x && x <= range.highest
}

// The same of a natural number.
pub fn is_natural_in_range(kind: Kind, x: u32) -> bool
    ensures { result ≡ in_range kind (pos x) }
{
    is_in_range(kind, i64::from(x))
}

// Whether the first n numbers of a list all are.
pub fn all_in_range(kind: Kind, xs: &[i64], n: usize) -> bool
    requires { n ≤ length xs.now }
    ensures { result ≡ all_in_range kind n (λ (i : ℕ). get_or xs.now i (pos 0)) }
{
    xs[..n].iter().all(|&x| is_in_range(kind, x))
}
