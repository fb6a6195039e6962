// The new file of a converter, written into a buffer line by line. Each function gives the index after what it wrote.
#![tactic(auto)]

ghost use Rattle.std.specs.Prelude.{◌≡◌, ℕ, ◌+◌, ◌*◌, ◌≤◌, ◌<◌, ◌^◌, ltb, pos, nat_abs, length};
ghost use Rattle.integer.specs.Finite.{largest};
ghost use Rattle.linear.specs.Slice.{at as number};
ghost use Rattle.line_form.specs.Form.{problem, scale};
ghost use Rattle.listing_text.specs.Line.{each};
ghost use Rattle.listing_text.specs.Wrote.{Wrote};
ghost use Rattle.loader_runs.specs.Holds.{InRange};
ghost use Rattle.file.specs.Read.{state_of};
ghost use Rattle.convert_spec.specs.Converted.{some_tolerance};
ghost use Rattle.convert_spec.specs.File.{form_for, old_file};
ghost use Rattle.convert_writer.specs.Written.{held_by, form_line, rest_of, value_text, most_for, line_room, FirstSmall};

use file::Collected;
use listing_text::{put_bytes, put_integer, put_list, put_natural};
use loader_values::Part;

// (word i z)
fn put_value(out: &mut [u8], at: usize, word: &[u8], i: u64, z: i64) -> usize
    requires { (length word.now ≤ 10) × ((nat_abs z < 2 ^ 63) × (at + 53 ≤ length out.old)) }
    ensures { Wrote 53 out.old at (value_text word.now i z) out.new result }
{
    let a = put_bytes(out, at, word);
    let b = put_natural(out, a, i);
    let c = put_bytes(out, b, b" ");
    let d = put_integer(out, c, z);
    put_bytes(out, d, b")\n")
}

// The line of a part for row i.
fn put_line(out: &mut [u8], at: usize, part: Part, i: usize, n: usize, c: &Collected) -> usize
    requires in_range { InRange (state_of c.now) }
    requires n_value { (n ≡ c.now.loader.n) × ((n ≤ 32) × ((i < n) × (at + line_room ≤ length out.old))) }
    ensures { Wrote (most_for part) out.old at (form_line (form_for (held_by c.now) part i)) out.new result }
{
    let number = i as u64 + 1;
    match part {
        Part::Row => put_list(out, at, b"(row ", number, &c.matrix, i * n, n),
        Part::Right => put_value(out, at, b"(right ", number, c.right[i]),
        Part::Guess => put_value(out, at, b"(guess ", number, c.guess[i]),
        Part::Inverse => put_list(out, at, b"(inverse ", number, &c.inverse, i * n, n),
        Part::Weight => put_value(out, at, b"(weight ", number, c.weights[i]),
    }
}

// The lines of a part, by rising i. The part says which: a closure that writes into the buffer would need `form_line` in its contract at each of five calls.
fn put_part(out: &mut [u8], at: usize, part: Part, n: usize, c: &Collected) -> usize
    requires in_range { InRange (state_of c.now) }
    requires n_value { (n ≡ c.now.loader.n) × ((n ≤ 32) × (at + n * most_for part + line_room ≤ length out.old)) }
    ensures { Wrote (n * most_for part) out.old at (each n (λ (i : ℕ). form_line (form_for (held_by c.now) part i))) out.new result }
{
    let mut index = at;
    for i in 0..n {
        index = put_line(out, index, part, i, n, c);
    }
    index
}

// (problem n)
fn put_problem(out: &mut [u8], at: usize, n: u64) -> usize
    requires { at + 31 ≤ length out.old }
    ensures { Wrote 31 out.old at (form_line (problem (pos n))) out.new result }
{
    let a = put_bytes(out, at, b"(problem ");
    let b = put_natural(out, a, n);
    put_bytes(out, b, b")\n")
}

// (scale s t)
fn put_scale(out: &mut [u8], at: usize, s: u64, t: u64) -> usize
    requires { at + 50 ≤ length out.old }
    ensures { Wrote 50 out.old at (form_line (scale (pos s) (pos t))) out.new result }
{
    let a = put_bytes(out, at, b"(scale ");
    let b = put_natural(out, a, s);
    let c = put_bytes(out, b, b" ");
    let d = put_natural(out, c, t);
    put_bytes(out, d, b")\n")
}

// The lines of the parts, part after part, and the end.
fn put_rest(out: &mut [u8], at: usize, n: usize, c: &Collected) -> usize
    requires in_range { InRange (state_of c.now) }
    requires n_value { (n ≡ c.now.loader.n) × ((n ≤ 32) × (at + 22100 ≤ length out.old)) }
    ensures { Wrote 21318 out.old at (rest_of (held_by c.now)) out.new result }
{
    let d = put_part(out, at, Part::Row, n, c);
    let e = put_part(out, d, Part::Right, n, c);
    let f = put_part(out, e, Part::Guess, n, c);
    let g = put_part(out, f, Part::Inverse, n, c);
    let h = put_part(out, g, Part::Weight, n, c);
    put_bytes(out, h, b"(end)\n")
}

// The new file, from the start of the buffer on: problem, scale, each part by rising i, end.
pub fn put_file(out: &mut [u8], c: Collected) -> usize
    requires in_range { InRange (state_of c) }
    requires in_bounds { 32768 ≤ length out.old }
    ensures { Wrote 32768 out.old 0 (old_file (held_by c)) out.new result }
{
    let loader = c.loader;
    let n = loader.size() as usize;
    let s = u64::from(loader.solution_scale());
    let t = u64::from(loader.inverse_scale());
    let a = put_problem(out, 0, n as u64);
    let b = put_scale(out, a, s, t);
    put_rest(out, b, n, &c)
}

// Whether one of the first n numbers is other than 0.
fn has_other(values: &[i64; 32], n: usize) -> bool
    requires { (n ≤ 32) × FirstSmall values.now n }
    ensures { result ≡ ltb 0 (largest n (λ (i : ℕ). nat_abs (number values.now i))) }
{
    values[..n].iter().any(|v| *v != 0)
}

// Whether a tolerance is above 0.
pub fn has_tolerance(c: Collected) -> bool
    requires { InRange (state_of c) }
    ensures { result ≡ some_tolerance (held_by c) }
{
    has_other(&c.tolerance, c.loader.size() as usize)
}
