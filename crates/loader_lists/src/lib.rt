// The six lent lists: whether one is too short, where the numbers of a form are written in them, and the weights that an end fills in.
#![tactic(auto)]

ghost use Rattle.std.specs.Prelude.{◌≡◌, ◌+◌, ◌≤◌, ◌<◌, length};
ghost use Rattle.std.proofs.Math.Seq.{paste};
ghost use Rattle.loader_lists.specs.Put.{filled_at, filled, closed_weights, closed};
ghost use Rattle.loader_lists.specs.Span.{Narrow, Room, FillRoom, span_of, pasted_at, second_of};
ghost use Rattle.loader_lists.specs.Lists.{lists, is_too_short};
ghost use Rattle.loader_lists.specs.Pasted.{Rooms, pasted_all};

use loader_values::{Item, Part};
use rules::{COLUMN_LENGTH, MATRIX_LENGTH};

// Places of a list, one after another, as `span_of` of specs/Span.antt has them.
#[derive(Clone, Copy)]
pub struct Span {
    at: usize,
    count: usize,
}

// The indices of a form in the list of a part, of width numbers a form: (i − 1)·width and those after it, where the form is of that part; else none.
fn span_of(part: Part, item: Item, width: usize) -> Span
    requires { Narrow width item }
    ensures { result ≡ span_of part item width }
{
    match item {
        Item::Of(of, i) if part == of => {
            let k = loader_values::place_of(i) as usize;
            Span {
                at: (k - 1) * width,
                count: width,
            }
        }
        _ => Span { at: 0, count: 0 },
    }
}

// Writes the first count of 32 numbers into a list from an index on. By `copy_from_slice`, with the numbers by value, each list of each line took a call of memcpy
// and a copy of them, also where nothing is written: a file of 8 heights took a third longer.
fn write_values(values: &[i64; 32], count: usize, l: &mut [i64], at: usize)
    requires { (count ≤ 32) × (at + count ≤ length l.old) }
    ensures { l.new ≡ paste l.old at values.now count }
{
    for (j, &value) in values[..count].iter().enumerate() {
        l[at + j] = value;
    }
}

// Writes the first numbers of a form at its indices in the list of a part.
pub fn write_part(part: Part, item: Item, values: &[i64; 32], width: usize, l: &mut [i64])
    requires { Room width (length l.old) item }
    ensures { l.new ≡ pasted_at (span_of part item width) values.now l.old }
{
    let span = span_of(part, item, width);
    write_values(values, span.count, l, span.at);
}

// The second of 32 numbers, 32 times.
pub fn second_of(values: &[i64; 32]) -> [i64; 32]
    ensures { result ≡ second_of values.now }
{
    [values[1]; 32]
}

// Writes 1 at the index i of a list, where it is not in the set.
fn fill_place(set: u32, i: usize, l: &mut [i64])
    requires { (i < 32) × (i < length l.old) }
    ensures { l.new ≡ filled_at set i l.old }
{
    if !loader_bit_set::has_place(set, i as u32) {
        l[i] = 1;
    }
}

// Writes 1 at each of the first n indices of a list that are not in the set.
#[tactic(auto, unfolding(crate::specs::Put::filled))]
fn fill_places(set: u32, n: usize, l: &mut [i64])
    requires { (n ≤ 32) × (n ≤ length l.old) }
    ensures { l.new ≡ filled n set l.old }
{
    for i in 0..n {
        fill_place(set, i, l);
    }
}

// Fills in the weights that were not given, where the form is an end.
pub fn fill_weights(item: Item, given: u32, n: usize, weights: &mut [i64])
    requires { FillRoom n (length weights.old) item }
    ensures { weights.new ≡ closed_weights n given item weights.old }
{
    if let Item::End = item {
        fill_places(given, n, weights);
    }
}

// 8: whether a list of one of these lengths is too short. The six lengths come one by one, as C lends the lists and `is_too_short` has them.
pub fn is_short(
    matrix: usize,
    right: usize,
    tolerance: usize,
    guess: usize,
    inverse: usize,
    weights: usize,
) -> bool
    ensures { result ≡ is_too_short matrix right tolerance guess inverse weights }
{
    matrix < MATRIX_LENGTH
        || right < COLUMN_LENGTH
        || tolerance < COLUMN_LENGTH
        || guess < COLUMN_LENGTH
        || inverse < MATRIX_LENGTH
        || weights < COLUMN_LENGTH
}

// Writes the numbers of an accepted form at their own indices: they come first among the values, n of them in a row, else one, and a right side's tolerance is
// the second, which goes into a list of its own. An end fills in the weights whose indices are not in the set of
// those given. The six lists come one by one, as C lends them.
pub fn write_all(
    item: Item,
    values: &[i64; 32],
    given: u32,
    n: usize,
    matrix: &mut [i64],
    right: &mut [i64],
    tolerance: &mut [i64],
    guess: &mut [i64],
    inverse: &mut [i64],
    weights: &mut [i64],
)
    requires { Rooms n item (lists matrix.old right.old tolerance.old guess.old inverse.old weights.old) }
    ensures { lists matrix.new right.new tolerance.new guess.new inverse.new weights.new
        ≡ closed n given item (pasted_all n item values.now (lists matrix.old right.old tolerance.old guess.old inverse.old weights.old)) }
{
    write_part(Part::Row, item, values, n, matrix);
    write_part(Part::Right, item, values, 1, right);
    write_part(Part::Right, item, &second_of(values), 1, tolerance);
    write_part(Part::Guess, item, values, 1, guess);
    write_part(Part::Inverse, item, values, n, inverse);
    write_part(Part::Weight, item, values, 1, weights);
    fill_weights(item, given, n, weights);
}
