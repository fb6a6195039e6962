// The calls of `program_input` whose errors tell why a read failed, on standard input: a line for each call, with what it gives and the buffer after it.
#![tactic(auto)]

use program_input::{fill, read_front, skip_rest};
use std::io;
use std::io::{Stdin, Stdout};

fn print_text(output: Stdout, text: &[u8]) {
    let _ = output.write_all(text);
}

// How many bytes were read, or why a read failed.
fn print_read(output: Stdout, read: io::Result<usize>, buf: &[u8]) {
    match read {
        Ok(n) => {
            let _ = output.print(n);
        }
        Err(error) => {
            let _ = output.print(error);
        }
    }
    print_text(output, b" ");
    print_text(output, buf);
    print_text(output, b"\n");
}

fn print_fill(output: Stdout, input: &mut Stdin) {
    let mut buf = [b'-'; 4];
    let read = fill(input, &mut buf);
    print_text(output, b"fill ");
    print_read(output, read, &buf);
}

fn print_front(output: Stdout, input: &mut Stdin) {
    let mut buf = [b'-'; 8];
    let read = read_front(input, &mut buf);
    print_text(output, b"read_front ");
    print_read(output, read, &buf);
}

fn print_rest(output: Stdout, input: &mut Stdin) {
    print_text(output, b"skip_rest");
    if let Err(error) = skip_rest(input) {
        print_text(output, b" ");
        let _ = output.print(error);
    }
    print_text(output, b"\n");
}

// The first bytes; the next ones, and all that is left; then the end of the input, twice.
fn main(rt: HostRuntime) {
    let output = rt.stdout();
    let mut input = rt.stdin();
    print_fill(output, &mut input);
    print_front(output, &mut input);
    print_fill(output, &mut input);
    print_rest(output, &mut input);
}
