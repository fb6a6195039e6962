// Bytes, numbers and the lines of a listing put into a buffer at an index. Each function gives the index after what it wrote.
#![tactic(auto)]

ghost use Rattle.std.specs.Prelude.{◌+◌, ◌≤◌, ◌<◌, ◌^◌, ℕ, ◌*◌, List, pos, nat_abs, length, slice_index_or, ◌++◌};
ghost use Rattle.line_numeral.specs.Decimal.{decimal, numeral};
ghost use Rattle.listing_text.specs.Wrote.{Wrote};
ghost use Rattle.listing_text.specs.Line.{each, gap, line_opening, line_closing, pair_line};

pub fn put_bytes(out: &mut [u8], at: usize, src: &[u8]) -> usize
    requires { at + length src.now ≤ length out.old }
    ensures { Wrote (length src.now) out.old at src.now out.new result }
{
    // `copy_from_slice` is a call of memmove here, which a caller in C then has to bring.
    for (i, &byte) in src.iter().enumerate() {
        out[at + i] = byte;
    }
    at + src.len()
}

// The digits of n, the highest first.
fn put_digits(out: &mut [u8], at: usize, n: u64) -> usize
    requires { at + length (decimal n) ≤ length out.old }
    ensures { Wrote (length (decimal n)) out.old at (decimal n) out.new result }
{
    if n < 10 {
        out[at] = b'0' + n as u8;
        return at + 1;
    }
    let last = put_digits(out, at, n / 10);
    out[last] = b'0' + (n % 10) as u8;
    last + 1
}

// The digits of n: one is written here, since most limits have one and a function that calls itself is never taken into its caller.
pub fn put_natural(out: &mut [u8], at: usize, n: u64) -> usize
    requires { at + 20 ≤ length out.old }
    ensures { Wrote 20 out.old at (decimal n) out.new result }
{
    if n < 10 {
        out[at] = b'0' + n as u8;
        return at + 1;
    }
    put_digits(out, at, n)
}

pub fn put_integer(out: &mut [u8], at: usize, z: i64) -> usize
    requires { (nat_abs z < 2 ^ 63) × (at + 20 ≤ length out.old) }
    ensures { Wrote 20 out.old at (numeral z) out.new result }
{
    let magnitude = integer::magnitude(z);
    if z < 0 {
        out[at] = b'-';
        return put_digits(out, at + 1, magnitude);
    }
    put_digits(out, at, magnitude)
}

// A line's start: its word, a number and the inner bracket.
fn put_opening(out: &mut [u8], at: usize, word: &[u8], i: u64) -> usize
    requires { (length word.now ≤ 10) × (at + 32 ≤ length out.old) }
    ensures { Wrote 32 out.old at (line_opening word.now i) out.new result }
{
    let a = put_bytes(out, at, word);
    let b = put_natural(out, a, i);
    put_bytes(out, b, b" (")
}

// (word i (z e))
pub fn put_pair(out: &mut [u8], at: usize, word: &[u8], i: u64, z: i64, e: u64) -> usize
    requires { (length word.now ≤ 10) × ((nat_abs z < 2 ^ 63) × (at + 76 ≤ length out.old)) }
    ensures { Wrote 76 out.old at (pair_line word.now i z e) out.new result }
{
    let a = put_opening(out, at, word, i);
    let b = put_integer(out, a, z);
    let c = put_bytes(out, b, b" ");
    let d = put_natural(out, c, e);
    put_bytes(out, d, b"))\n")
}

// The space before the number at index j of a list, which the first has not.
pub fn put_gap(out: &mut [u8], at: usize, j: usize) -> usize
    requires { at + 1 ≤ length out.old }
    ensures { Wrote 1 out.old at (gap j) out.new result }
{
    if j == 0 {
        return at;
    }
    put_bytes(out, at, b" ")
}

// A number of a list, as it is written.
pub trait Numeral: Copy {
    // What is read past a list's end.
    ghost zero: { Self };

    ghost text: { Self → List ℕ };

    // Which numbers can be written.
    ghost Fits: { Self → Type 0 };

    fn put(self, out: &mut [u8], at: usize) -> usize
        requires { Fits self × (at + 20 ≤ length out.old) }
        ensures { Wrote 20 out.old at (text self) out.new result };
}

impl Numeral for u64 {
    ghost zero = { 0 };

    ghost text = { decimal };

    ghost Fits = { λ _. Unit };

    fn put(self, out: &mut [u8], at: usize) -> usize {
        put_natural(out, at, self)
    }
}

impl Numeral for i64 {
    ghost zero = { pos 0 };

    ghost text = { numeral };

    ghost Fits = { λ z. nat_abs z < 2 ^ 63 };

    fn put(self, out: &mut [u8], at: usize) -> usize {
        put_integer(out, at, self)
    }
}

// The number at index j of a list, and the space before it.
fn put_item<T: Numeral>(out: &mut [u8], at: usize, j: usize, v: T) -> usize
    requires { T.Fits v × (at + 21 ≤ length out.old) }
    ensures { Wrote 21 out.old at (gap j ++ T.text v) out.new result }
{
    let a = put_gap(out, at, j);
    v.put(out, a)
}

// The n numbers from an index of a list on, single spaces between them. j is also the place in the line, and the contract of `put_list` names start and n.
fn put_numbers<T: Numeral>(out: &mut [u8], at: usize, values: &[T], start: usize, n: usize) -> usize
    requires room { (n ≤ 32) × ((start + n ≤ length values.now) × (at + n * 21 ≤ length out.old)) }
    requires fit { (j : ℕ) → j < n → T.Fits (slice_index_or values.now (start + j) T.zero) }
    ensures { Wrote (n * 21) out.old at (each n (λ (j : ℕ). gap j ++ T.text (slice_index_or values.now (start + j) T.zero))) out.new result }
{
    let mut index = at;
    for j in 0..n {
        index = put_item(out, index, j, values[start + j]);
    }
    index
}

// (word i (v .. v))
pub fn put_list<T: Numeral>(
    out: &mut [u8],
    at: usize,
    word: &[u8],
    i: u64,
    values: &[T],
    start: usize,
    n: usize,
) -> usize
    requires room { (length word.now ≤ 10) × ((n ≤ 32) × ((start + n ≤ length values.now) × (at + 707 ≤ length out.old))) }
    requires fit { (j : ℕ) → j < n → T.Fits (slice_index_or values.now (start + j) T.zero) }
    ensures { Wrote 707 out.old at
        (line_opening word.now i ++ each n (λ (j : ℕ). gap j ++ T.text (slice_index_or values.now (start + j) T.zero)) ++ line_closing) out.new result }
{
    let a = put_opening(out, at, word, i);
    let b = put_numbers(out, a, values, start, n);
    put_bytes(out, b, b"))\n")
}
