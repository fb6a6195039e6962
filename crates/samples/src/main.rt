// Sample lines, files, checks and builds through the proved calls, and a loader, by a script from standard input; what each answers is printed.
// The script's entries are each followed by a byte of 255. An entry that starts with a byte of 254 is a command, given by the next byte:
//   t  print the rest of the entry
//   l  what the rest is as a line
//   f  the listing of the rest as a file
//   n  a new loader, and lists that hold -7 everywhere
//   0 to 5  take the rest as a line, with that list one number too short
//   p  print the first ten numbers of a list, 0 to 5, and no line feed
//   c  check through the loader;  d  the same, with a solution limit list that is too short
//   k  check on lists: the rest is n, s and t, a byte each
//   b  build equations: the rest is n and then field lines, five numbers each, with a space after each number;  a, r  the same, with a matrix list, or a list
//      of right sides, that is one number too short
// Any other entry is a line for the loader. A script that fills the buffer may have been cut, so it is not run at all.
#![tactic(auto)]

ghost use Rattle.std.specs.Prelude.{◌≡◌, ◌≤◌, length};

use building::print_build;
use held::{Loaded, fresh, take};
use print::{print_answer, print_text};
use read::{print_line, print_listing};
use show::print_of;
use std::io::{Read, Stdin, Stdout};

mod building;
mod held;
mod lent;
mod print;
mod read;
mod show;

fn script_buffer() -> [u8; 262144]
    ensures { 262144 ≡ length result }
{
    [0; 262144]
}

// Reads until the buffer is full, the input ends or a read fails; gives how many bytes were read.
// `program_input::fill` does not serve: it gives no count where a read fails, and what came before that is run here.
fn read_full(input: &mut Stdin, buf: &mut [u8]) -> usize
    ensures { result ≤ length buf.new }
{
    let mut done = 0;
    while done < buf.len() {
        let got = input.read(&mut buf[done..]).unwrap_or(0);
        if got == 0 {
            break;
        }
        done += got;
    }
    done
}

fn main(rt: HostRuntime) {
    let mut text = script_buffer();
    let n = read_full(&mut rt.stdin(), &mut text);
    if n < 262144 {
        run(rt.stdout(), &text[..n]);
    } else {
        let _ = rt
            .stderr()
            .write_all(b"samples: the script fills the buffer\n");
    }
}

fn run(output: Stdout, text: &[u8]) {
    let mut held = fresh();
    let mut from = 0usize;
    for (i, &byte) in text.iter().enumerate() {
        if byte == 255 {
            run_entry(output, &mut held, &text[from..i]);
            from = i + 1;
        }
    }
}

fn run_entry(output: Stdout, held: &mut Loaded, text: &[u8]) {
    match text {
        [254, name, rest @ ..] => run_command(output, held, *name, rest),
        _ => print_taken(output, held, text, b'-'),
    }
}

fn print_taken(output: Stdout, held: &mut Loaded, line: &[u8], short: u8) {
    take(held, line, short);
    print_answer(output, held.outcome);
}

fn run_command(output: Stdout, held: &mut Loaded, name: u8, rest: &[u8]) {
    match name {
        b'n' => *held = fresh(),
        0..=b'5' => print_taken(output, held, rest, name),
        _ => {
            print_given(output, name, rest);
            print_of(output, held, name, rest);
        }
    }
}

// A command on the rest of its entry alone.
fn print_given(output: Stdout, name: u8, rest: &[u8]) {
    match name {
        b't' => print_text(output, rest),
        b'l' => print_line(output, rest),
        b'f' => print_listing(output, rest),
        b'a' | b'b' | b'r' => print_build(output, name, rest),
        _ => {}
    }
}
