// Answers, lists and numbers on standard output.
use crate::held::{Limits, UNWRITTEN};
use rules::Refusal;
use std::io::Stdout;

pub fn print_text(output: Stdout, text: &[u8]) {
    let _ = output.write_all(text);
}

pub fn print_number(output: Stdout, x: u64) {
    let _ = output.print(x);
}

// An answer by itself on a line.
pub fn print_answer(output: Stdout, outcome: Result<(), Refusal>) {
    print_outcome(output, outcome);
    print_text(output, b"\n");
}

fn print_outcome(output: Stdout, outcome: Result<(), Refusal>) {
    match outcome {
        Ok(()) => print_text(output, b"accepted"),
        Err(refusal) => print_refusal(output, refusal),
    }
}

// 01's number, and the places or the count that it gives: each is 1 or more.
pub fn print_refusal(output: Stdout, refusal: Refusal) {
    let reply = listing_refusal::reply_of(refusal, 0);
    print_number(output, u64::from(reply.number));
    print_given(output, reply.first);
    print_given(output, reply.second);
}

fn print_given(output: Stdout, x: u64) {
    if x > 0 {
        print_text(output, b" ");
        print_number(output, x);
    }
}

// A number after a space.
fn print_signed(output: Stdout, x: i64) {
    if x < 0 {
        print_text(output, b" -");
    } else {
        print_text(output, b" ");
    }
    print_number(output, x.unsigned_abs());
}

// The first numbers of a list, each after a space.
pub fn print_list(output: Stdout, l: &[i64], count: usize) {
    for &x in l.iter().take(count) {
        print_signed(output, x);
    }
}

// The first limits of a list; a dash where none was written.
fn print_bounds(output: Stdout, bounds: &[u64], count: usize) {
    for &bound in bounds.iter().take(count) {
        if bound == UNWRITTEN {
            print_text(output, b" -");
        } else {
            print_text(output, b" ");
            print_number(output, bound);
        }
    }
}

// An answer, and the first limits of both lists, each list after its name.
pub fn print_checked(
    output: Stdout,
    checked: Limits,
    solution_name: &[u8],
    solutions: usize,
    inverse_name: &[u8],
    inverses: usize,
) {
    print_outcome(output, checked.outcome);
    print_text(output, solution_name);
    print_bounds(output, &checked.solution, solutions);
    print_text(output, inverse_name);
    print_bounds(output, &checked.inverse, inverses);
    print_text(output, b"\n");
}
