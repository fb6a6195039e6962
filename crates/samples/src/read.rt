// What a line is, and the listing of a file.
use crate::print::{print_list, print_number, print_refusal, print_text};
use line_form::Numbers;
use line_parts::CappedForm;
use std::io::Stdout;

// A line that is refused has no numbers beside it.
pub fn print_line(output: Stdout, text: &[u8]) {
    let line = line::read_line(text);
    match line.answer {
        Ok(form) => print_form(output, form),
        Err(refusal) => {
            print_text(output, b"refused ");
            print_refusal(output, refusal);
        }
    }
    print_numbers(output, line.numbers);
    print_text(output, b"\n");
}

// The form's word and its numbers; a tolerance of 0 is not printed, given or not.
fn print_form(output: Stdout, form: CappedForm) {
    match form {
        CappedForm::Problem(n) => print_word(output, b"problem", &[n]),
        CappedForm::Scale(s, t) => print_word(output, b"scale", &[s, t]),
        CappedForm::Row(i) => print_word(output, b"row", &[i]),
        CappedForm::Right(i, b, 0) => print_word(output, b"right", &[i, b]),
        CappedForm::Right(i, b, d) => print_word(output, b"right", &[i, b, d]),
        CappedForm::Guess(i, x) => print_word(output, b"guess", &[i, x]),
        CappedForm::Inverse(i) => print_word(output, b"inverse", &[i]),
        CappedForm::Weight(i, w) => print_word(output, b"weight", &[i, w]),
        CappedForm::End => print_text(output, b"end"),
    }
}

fn print_word(output: Stdout, word: &[u8], numbers: &[i64]) {
    print_text(output, word);
    print_list(output, numbers, numbers.len());
}

// The count of a list, whether all its numbers are in range, and the first 32.
fn print_numbers(output: Stdout, numbers: Numbers) {
    if numbers.count == 0 {
        return;
    }
    print_text(output, b" of ");
    print_number(output, numbers.count as u64);
    if numbers.inside {
        print_text(output, b" in range:");
    } else {
        print_text(output, b" not in range:");
    }
    print_list(output, &numbers.values, numbers.count);
}

pub fn print_listing(output: Stdout, file: &[u8]) {
    let mut out = [0u8; 32768];
    let k = listing::listing(file, &mut out);
    print_text(output, &out[..k]);
}
