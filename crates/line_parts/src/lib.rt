// What a line is, from its parts: one of the forms, its numbers capped, or 01's refusal 1 or 2.
#![tactic(auto)]

ghost use Rattle.std.specs.Prelude.{◌≡◌};
ghost use Rattle.line_form.specs.Form.{bytes};
ghost use Rattle.line_form.specs.ListAt.{listed_at};
ghost use Rattle.line_form.specs.Reading.{word_at, right_last, last_of};
ghost use Rattle.line_parts.specs.Line.{refused};
ghost use Rattle.line_parts.specs.Parts.{kind_of, last_in, capped_right, capped_of, has_list, decided};

use line_form::{Head, Listed, Numbers, Word};
use line_numeral::Number;
use rules::{Kind, Refusal};

// A form's numbers, ±2^40 where they are larger in absolute value; i comes first and is kept apart. The numbers of a row stand beside it. The third
// of a right side is its tolerance, 0 where it has none.
#[derive(Clone, Copy)]
pub enum CappedForm {
    Problem(i64),
    Scale(i64, i64),
    Row(i64),
    Right(i64, i64, i64),
    Guess(i64, i64),
    Inverse(i64),
    Weight(i64, i64),
    End,
}

// What a line is: its form, or 1 or 2 (01's numbers by `line_code` of specs/Line.antt). Where it is neither a row nor a row of the inverse, there are no
// numbers beside the answer.
#[derive(Clone, Copy)]
pub struct Line {
    pub answer: Result<CappedForm, Refusal>,
    pub numbers: Numbers,
}

// The kind against whose range the numbers of a list are tested, in a row and in a row of the inverse; of the other words no such test is kept.
pub fn kind_of(word: Word) -> Kind
    ensures { result ≡ kind_of word }
{
    match word {
        Word::Inverse => Kind::Inverse,
        _ => Kind::Matrix,
    }
}

// The list at an index, in a form of this word.
pub fn list_at(line: &[u8], at: usize, word: Word) -> Listed
    ensures { result ≡ listed_at (kind_of word) line.now at }
{
    line_form::list_at(line, at, kind_of(word))
}

// The index after a closing bracket.
pub fn close_at(line: &[u8], at: usize) -> usize
    ensures { result ≡ word_at line.now at (bytes ")") }
{
    line_form::word_at(line, at, b")")
}

// The index of the last bracket of a right form, by the count of the numbers in the list that stands there: after the second number, after a list of two
// numbers, or none.
fn right_last(count: usize, second: usize, list: usize, other: usize) -> usize
    ensures { result ≡ right_last count second list other }
{
    match count {
        1 => second,
        2 => list,
        _ => other,
    }
}

// The index of a form's last bracket, from the indices after its opening, its first number, a second number, a list with its bracket, and that of a right form.
fn last_of(word: Word, head: usize, first: usize, second: usize, list: usize, right: usize) -> usize
    ensures { result ≡ last_of word head first second list right }
{
    match word {
        Word::Problem => first,
        Word::Scale | Word::Guess | Word::Weight => second,
        Word::Row | Word::Inverse => list,
        Word::Right => right,
        Word::End => head,
    }
}

// The same, from the parts themselves.
pub fn last_at(line: &[u8], head: Head, first: Number, second: Number, list: Listed) -> usize
    ensures { result ≡ last_in line.now head first second list }
{
    let close = close_at(line, list.next);
    let right = right_last(list.numbers.count, second.next, close, line.len() + 1);
    last_of(head.word, head.next, first.next, second.next, close, right)
}

// A right form: b alone, or b and its tolerance in a list.
fn right_of(first: i64, second: i64, list: Numbers) -> CappedForm
    ensures { result ≡ capped_right first second list }
{
    if list.count == 1 {
        return CappedForm::Right(first, second, 0);
    }
    CappedForm::Right(first, list.values[0], list.values[1])
}

fn form_of(word: Word, first: i64, second: i64, list: Numbers) -> CappedForm
    ensures { result ≡ capped_of word first second list }
{
    match word {
        Word::Problem => CappedForm::Problem(first),
        Word::Scale => CappedForm::Scale(first, second),
        Word::Row => CappedForm::Row(first),
        Word::Right => right_of(first, second, list),
        Word::Guess => CappedForm::Guess(first, second),
        Word::Inverse => CappedForm::Inverse(first),
        Word::Weight => CappedForm::Weight(first, second),
        Word::End => CappedForm::End,
    }
}

// Whether the numbers of a list stand beside a form.
fn has_list(word: Word) -> bool
    ensures { result ≡ has_list word }
{
    matches!(word, Word::Row | Word::Inverse)
}

pub fn refuse(refusal: Refusal) -> Line
    ensures { result ≡ refused refusal }
{
    Line {
        answer: Err(refusal),
        numbers: line_form::no_numbers(),
    }
}

// What a line is, from its parts and the index after its last bracket: 2 where it does not end there, else the form of its word.
#[tactic(auto, unfolding(crate::specs::Parts::decided))]
pub fn decide(
    line: &[u8],
    head: Head,
    first: Number,
    second: Number,
    list: Listed,
    end: usize,
) -> Line
    ensures { result ≡ decided line.now head first second list end }
{
    if end != line.len() {
        return refuse(Refusal::NoForm);
    }
    let answer = Ok(form_of(head.word, first.value, second.value, list.numbers));
    if has_list(head.word) {
        return Line {
            answer,
            numbers: list.numbers,
        };
    }
    Line {
        answer,
        numbers: line_form::no_numbers(),
    }
}
