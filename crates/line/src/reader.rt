// A line reader: a line's slice and an index in it (01: "read from left to right, one byte after another"). Each reading hands the slice and the index
// to a function on slices, takes any index, and answers with the index after what it read, past the end of the line where nothing of the kind stands there.
ghost use Rattle.std.specs.Prelude.{◌≡◌};
ghost use Rattle.line_numeral.specs.Numeral.{number_at};
ghost use Rattle.line_numeral.specs.Capped.{capped_number};
ghost use Rattle.line_form.specs.Form.{bytes};
ghost use Rattle.line_form.specs.ListAt.{listed_at};
ghost use Rattle.line_form.specs.Reading.{word_at, head_at};
ghost use Rattle.line_parts.specs.Parts.{kind_of};

use line_form::{Head, Listed, Word};
use line_numeral::Number;
use line_parts::{close_at, list_at};

#[derive(Clone, Copy)]
pub struct LineReader<'a> {
    pub line: &'a [u8],
    pub at: usize,
}

impl<'a> LineReader<'a> {
    // At the line's first byte.
    pub fn new(line: &'a [u8]) -> LineReader<'a>
        ensures { (result.line ≡ line.entry) × (result.at ≡ 0) }
    {
        LineReader { line, at: 0 }
    }

    // At another index of the same line.
    pub fn moved(self, at: usize) -> LineReader<'a>
        ensures { (result.line ≡ self.entry.line) × (result.at ≡ at) }
    {
        LineReader {
            line: self.line,
            at,
        }
    }

    // A form's opening word.
    pub fn head(self) -> Head
        ensures { result ≡ head_at self.entry.line.now self.entry.at }
    {
        line_form::head_at(self.line, self.at)
    }

    pub fn number(self) -> Number
        ensures { result ≡ capped_number (number_at self.entry.line.now self.entry.at) }
    {
        line_numeral::number_at(self.line, self.at)
    }

    // A list in a form of this word.
    pub fn list(self, word: Word) -> Listed
        ensures { result ≡ listed_at (kind_of word) self.entry.line.now self.entry.at }
    {
        list_at(self.line, self.at, word)
    }

    // A closing bracket.
    pub fn close(self) -> usize
        ensures { result ≡ word_at self.entry.line.now self.entry.at (bytes ")") }
    {
        close_at(self.line, self.at)
    }
}
