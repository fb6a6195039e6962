// The parts of a line at an index: a form's opening word, bytes, and a list of numbers. Each gives the index after it, past the end of
// the line where it does not stand there: `word_at`, `head_at` and `listed_at` of specs/ have it so, and what follows is read from there.
#![tactic(auto)]

ghost use Rattle.std.specs.Prelude.{◌≡◌, drop, set};
ghost use Rattle.line_form.specs.Reading.{opening, starts, word_at, or_word, head_at};
ghost use Rattle.line_form.specs.List.{no_numbers};
ghost use Rattle.line_form.specs.ListAt.{listed_at};

use rules::Kind;

// The word that a form starts with.
#[derive(Clone, Copy)]
pub enum Word {
    Problem,
    Scale,
    Row,
    Right,
    Guess,
    Inverse,
    Weight,
    End,
}

const WORDS: [Word; 8] = [
    Word::Problem,
    Word::Scale,
    Word::Row,
    Word::Right,
    Word::Guess,
    Word::Inverse,
    Word::Weight,
    Word::End,
];

// A form's word, and the index after its opening.
#[derive(Clone, Copy)]
pub struct Head {
    pub word: Word,
    pub next: usize,
}

// The numbers of a list: how many, whether all of them are in their range, and the first 32 of them. `numbers_of` of specs/List.antt has these three, and
// nothing is allocated.
#[derive(Clone, Copy)]
pub struct Numbers {
    pub count: usize,
    pub inside: bool,
    pub values: [i64; 32],
}

// The numbers of a list, and the index after the last.
#[derive(Clone, Copy)]
pub struct Listed {
    pub numbers: Numbers,
    pub next: usize,
}

// Whether the bytes from an index on start with a word.
fn has_word(s: &[u8], at: usize, word: &[u8]) -> bool
    ensures { result ≡ starts word.now (drop at s.now) }
{
    s[at.min(s.len())..].starts_with(word)
}

// The index after a word; past the end of the line where the word does not stand there.
pub fn word_at(s: &[u8], at: usize, word: &[u8]) -> usize
    ensures { result ≡ word_at s.now at word.now }
{
    if has_word(s, at, word) {
        at + word.len()
    } else {
        s.len() + 1
    }
}

// How a form of the word starts.
fn opening(word: Word) -> &'static [u8]
    ensures { result.now ≡ opening word }
{
    match word {
        Word::Problem => b"(problem ",
        Word::Scale => b"(scale ",
        Word::Row => b"(row ",
        Word::Right => b"(right ",
        Word::Guess => b"(guess ",
        Word::Inverse => b"(inverse ",
        Word::Weight => b"(weight ",
        Word::End => b"(end",
    }
}

// The head, or this word where the head is none.
fn or_word(s: &[u8], at: usize, head: Head, word: Word) -> Head
    ensures { result ≡ or_word s.now at head word (opening word) }
{
    if head.next <= s.len() {
        return head;
    }
    Head {
        word,
        next: word_at(s, at, opening(word)),
    }
}

// The word whose opening stands at an index.
pub fn head_at(s: &[u8], at: usize) -> Head
    ensures { result ≡ head_at s.now at }
{
    let mut head = Head {
        word: Word::End,
        next: s.len() + 1,
    };
    for word in WORDS {
        head = or_word(s, at, head, word);
    }
    head
}

// What stands beside a form that has no list.
pub fn no_numbers() -> Numbers
    ensures { result ≡ no_numbers }
{
    Numbers {
        count: 0,
        inside: true,
        values: [0i64; 32],
    }
}

// Stores v at the index n, where there is such an index.
fn put(values: &mut [i64], n: usize, v: i64)
    ensures { values.new ≡ set values.old n v }
{
    if n < values.len() {
        values[n] = v;
    }
}

// The numbers from an index on, single spaces between them, and the index after the last. Past the 32nd they are only counted and tested.
// The count is a part of the answer, which a `for` would hold beside an index of its own.
pub fn list_at(s: &[u8], at: usize, kind: Kind) -> Listed
    ensures { result ≡ listed_at kind s.now at }
{
    let first = line_numeral::number_at(s, at);
    let mut values = [0i64; 32];
    put(&mut values, 0, first.value);
    let mut inside = rules::is_in_range(kind, first.value);
    let mut next = first.next;
    let mut count = 1;
    while count <= s.len() && line_numeral::byte_at(s, next) == b' ' {
        let n = line_numeral::number_at(s, next + 1);
        put(&mut values, count, n.value);
        inside &= rules::is_in_range(kind, n.value);
        next = n.next;
        count += 1;
    }
    Listed {
        numbers: Numbers {
            count,
            inside,
            values,
        },
        next,
    }
}
