// What a form of a line gives: for which part and number i, and which numbers.
#![tactic(auto)]

ghost use Rattle.std.specs.Prelude.{◌≡◌, true, ◌&&◌, ◌≤◌, pos, nat_abs};
ghost use Rattle.std.specs.Int.Signed.{le_z};
ghost use Rattle.loader_values.specs.Item.{placed};
ghost use Rattle.loader_values.specs.Capped.{item_in, outside_in, miscounted_in, values_in};

use line_parts::CappedForm;
use rules::Kind;

// The forms that are given once for each i from 1 to n.
#[derive(Clone, Copy, PartialEq, Eq)]
pub enum Part {
    Row,
    Right,
    Guess,
    Inverse,
    Weight,
}

// Which form a line is, with n, with s and t, or with the number i.
#[derive(Clone, Copy)]
pub enum Item {
    Problem(i64),
    Scale(i64, i64),
    Of(Part, i64),
    End,
}

// Its numbers but i are left out, so it is no `From`.
pub fn item_of(form: CappedForm) -> Item
    ensures { result ≡ item_in form }
{
    match form {
        CappedForm::Problem(n) => Item::Problem(n),
        CappedForm::Scale(s, t) => Item::Scale(s, t),
        CappedForm::Row(i) => Item::Of(Part::Row, i),
        CappedForm::Right(i, _, _) => Item::Of(Part::Right, i),
        CappedForm::Guess(i, _) => Item::Of(Part::Guess, i),
        CappedForm::Inverse(i) => Item::Of(Part::Inverse, i),
        CappedForm::Weight(i, _) => Item::Of(Part::Weight, i),
        CappedForm::End => Item::End,
    }
}

// Whether the number i of a form is 1 to n.
pub fn is_placed(item: Item, n: u32) -> bool
    ensures { result ≡ placed n item }
{
    match item {
        Item::Of(_, i) => 1 <= i && i <= i64::from(n),
        _ => true,
    }
}

// 3: whether a number other than i is outside its range; inside: whether those of a list are in range.
pub fn is_outside(form: CappedForm, inside: bool) -> bool
    ensures { result ≡ outside_in form inside }
{
    match form {
        CappedForm::Problem(n) => !rules::is_in_range(Kind::Size, n),
        CappedForm::Scale(s, t) => {
            !rules::is_in_range(Kind::SolutionScale, s)
                || !rules::is_in_range(Kind::InverseScale, t)
        }
        CappedForm::Right(_, b, d) => {
            !rules::is_in_range(Kind::Right, b) || !rules::is_in_range(Kind::Tolerance, d)
        }
        CappedForm::Row(_) | CappedForm::Inverse(_) => !inside,
        CappedForm::Guess(_, x) => !rules::is_in_range(Kind::Guess, x),
        CappedForm::Weight(_, w) => !rules::is_in_range(Kind::Weight, w),
        CappedForm::End => false,
    }
}

// 4: whether a list has other than n numbers.
pub fn is_miscounted(form: CappedForm, count: usize, n: usize) -> bool
    ensures { result ≡ miscounted_in n form count }
{
    match form {
        CappedForm::Row(_) | CappedForm::Inverse(_) => count != n,
        _ => false,
    }
}

// The numbers that a form puts into a list come first, the tolerance after the right side; those of a row or of an inverse row are the numbers beside it, which stand
// here already. They are put where they stand: with the list by value a take of one number copies all 32 once more.
pub fn put_values(form: CappedForm, values: &mut [i64; 32])
    ensures { values.new ≡ values_in form values.old }
{
    match form {
        CappedForm::Right(_, b, d) => {
            values[0] = b;
            values[1] = d;
        }
        CappedForm::Guess(_, x) => values[0] = x,
        CappedForm::Weight(_, w) => values[0] = w,
        _ => {}
    }
}

// A number that is 0 to 32.
pub fn natural(x: i64) -> u32
    requires { le_z (pos 0) x && le_z x (pos 32) ≡ true }
    ensures { result ≡ nat_abs x }
{
    x as u32
}

// The number i of a form, where it is 1 to 32.
pub fn place_of(i: i64) -> u32
    requires { le_z (pos 1) i && le_z i (pos 32) ≡ true }
    ensures { (result ≡ nat_abs i) × (1 ≤ result) × (result ≤ 32) }
{
    i as u32
}
