// Commands on what is held: its lists, and checks of them.
use crate::held::{Loaded, checked_on_lists, checked_through};
use crate::print::{print_answer, print_checked, print_list};
use std::io::Stdout;

pub fn print_of(output: Stdout, held: &Loaded, name: u8, rest: &[u8]) {
    match name {
        b'p' => print_list_of(output, held, byte(rest, 0)),
        b'c' => print_checked(
            output,
            checked_through(held, false),
            b" solution",
            3,
            b" inverse",
            5,
        ),
        b'd' => print_answer(output, checked_through(held, true).outcome),
        b'k' => print_checked(
            output,
            checked_on_lists(held, byte(rest, 0), byte(rest, 1), byte(rest, 2)),
            b"; solution",
            2,
            b"; inverse",
            4,
        ),
        _ => {}
    }
}

// A byte as a number; 0 where there is none.
fn byte(text: &[u8], at: usize) -> u32 {
    u32::from(text.get(at).copied().unwrap_or(0))
}

fn print_list_of(output: Stdout, held: &Loaded, which: u32) {
    match which {
        0 => print_list(output, &held.matrix, 10),
        1 => print_list(output, &held.right, 10),
        2 => print_list(output, &held.tolerance, 10),
        3 => print_list(output, &held.guess, 10),
        4 => print_list(output, &held.inverse, 10),
        _ => print_list(output, &held.weights, 10),
    }
}
