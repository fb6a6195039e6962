// A line of the file: one of the forms, spelled exactly, or 01's refusal 1 or 2.
#![tactic(auto)]

ghost use Rattle.std.specs.Prelude.{◌≡◌};
ghost use Rattle.line_form.specs.Form.{bytes};
ghost use Rattle.line_form.specs.Reading.{word_at, reading};
ghost use Rattle.line_parts.specs.Line.{of_reading, line_of};

use line_parts::{Line, decide, last_at, refuse};
use reader::LineReader;
use rules::Refusal;

mod reader;

// The index after a single space.
fn after_space(line: &[u8], at: usize) -> usize
    ensures { result ≡ word_at line.now at (bytes " ") }
{
    line_form::word_at(line, at, b" ")
}

// The index after a single space and a list's opening bracket.
fn after_bracket(line: &[u8], at: usize) -> usize
    ensures { result ≡ word_at line.now at (bytes " (") }
{
    line_form::word_at(line, at, b" (")
}

// What a line is by its reading: its form, the numbers capped, where it is the spelling of one; else 2. Every part is read, whatever
// the one before it was: where a part is missing, all that follow are read past the end of the line.
fn read_short_line(line: &[u8]) -> Line
    ensures { result ≡ of_reading (reading line.now) }
{
    let reader = LineReader::new(line);
    let head = reader.head();
    let first = reader.moved(head.next).number();
    let second = reader.moved(after_space(line, first.next)).number();
    let list = reader
        .moved(after_bracket(line, first.next))
        .list(head.word);
    let last = last_at(line, head, first, second, list);
    let end = reader.moved(last).close();
    decide(line, head, first, second, list, end)
}

// What a line is (`line_of`): 1 above 320 bytes, of which none is then read; else by its reading.
pub fn read_line(line: &[u8]) -> Line
    ensures { result ≡ line_of line.now }
{
    if 320 < line.len() {
        return refuse(Refusal::TooLong);
    }
    read_short_line(line)
}
