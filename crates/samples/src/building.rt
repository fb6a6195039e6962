// Field lines from a text of numbers, and what is built of them.
ghost use Rattle.std.specs.Prelude.{◌≤◌};

use crate::held::{less_where, marked, marked_matrix};
use crate::lent::build_first;
use crate::print::{print_list, print_number, print_refusal, print_text};
use build_equations::Layout;
use build_lines::{BuildRefusal, Observation};
use line_numeral::Number;
use std::io::Stdout;

#[derive(Clone, Copy)]
struct Placed {
    line: Observation,
    next: usize,
}

// The first count of the lines were read.
#[derive(Clone, Copy)]
struct Lines {
    lines: [Observation; 320],
    count: usize,
}

// The answer, and both lists afterwards.
#[derive(Clone, Copy)]
struct BuiltLists {
    built: Result<(), BuildRefusal>,
    matrix: [i64; 1024],
    right: [i64; 32],
}

// A number, and the index after the space behind it, up to the end.
fn number_from(text: &[u8], at: usize) -> Number {
    let number = line_numeral::number_at(text, at);
    Number {
        value: number.value,
        next: text.len().min(number.next.saturating_add(1)),
    }
}

// A number as one that is never negative, as near as may be.
fn natural(x: i64) -> u32 {
    x.clamp(0, 4294967295) as u32
}

fn line_from(text: &[u8], at: usize) -> Placed {
    let key = number_from(text, at);
    let from = number_from(text, key.next);
    let to = number_from(text, from.next);
    let difference = number_from(text, to.next);
    let weight = number_from(text, difference.next);
    Placed {
        line: Observation {
            key: natural(key.value),
            from: natural(from.value),
            to: natural(to.value),
            difference: difference.value,
            weight: natural(weight.value),
        },
        next: weight.next,
    }
}

// The lines from an index on, at most 320.
fn lines_from(text: &[u8], start: usize) -> Lines
    ensures { result.count ≤ 320 }
{
    let mut lines = [Observation {
        key: 0,
        from: 0,
        to: 0,
        difference: 0,
        weight: 0,
    }; 320];
    let mut count = 0;
    let mut at = start;
    for i in 0..320 {
        if at < text.len() {
            let placed = line_from(text, at);
            lines[i] = placed.line;
            at = placed.next;
            count = i + 1;
        }
    }
    Lines { lines, count }
}

// How many numbers of the matrix are printed: more than are written.
fn shown_of(n: u32) -> usize {
    if n < 6 { 26 } else { 1024 }
}

fn print_built(output: Stdout, built: Result<(), BuildRefusal>) {
    match built {
        Ok(()) => print_text(output, b"built"),
        Err(BuildRefusal::Refused(refusal)) => print_refusal(output, refusal),
        Err(BuildRefusal::SameMark) => print_number(output, 16),
        Err(BuildRefusal::OtherContents) => print_number(output, 17),
    }
}

// The first count lines built into lists that hold -7 everywhere; where the name is a or r, the matrix list, or that of the right sides, is one too short.
fn built_of(name: u8, n: u32, lines: [Observation; 320], count: usize) -> BuiltLists
    requires { count ≤ 320 }
{
    let mut matrix = marked_matrix();
    let mut right = marked();
    let a = less_where(1024, name == b'a');
    let b = less_where(32, name == b'r');
    let built = build_first(
        n,
        lines,
        count,
        Layout::Square,
        &mut matrix[..a],
        &mut right[..b],
    );
    BuiltLists {
        built,
        matrix,
        right,
    }
}

// A build: the text is n and then the lines, five numbers each.
pub fn print_build(output: Stdout, name: u8, text: &[u8]) {
    let size = number_from(text, 0);
    let n = natural(size.value);
    let read = lines_from(text, size.next);
    let after = built_of(name, n, read.lines, read.count);
    print_built(output, after.built);
    print_list(output, &after.matrix, shown_of(n));
    print_text(output, b" right");
    print_list(output, &after.right, 32);
    print_text(output, b"\n");
}
