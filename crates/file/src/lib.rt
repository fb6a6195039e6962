// The lines of a file, taken by a loader one after another.
#![tactic(auto)]

ghost use Rattle.std.specs.Prelude.{◌≡◌, ◌+◌, ◌≤◌, length, drop};
ghost use Rattle.loader_runs.specs.Length.{line_length};
ghost use Rattle.loader_lists.specs.Lists.{lists};
ghost use Rattle.file.specs.Read.{ReadAs, LinesTakenAs};
ghost use Rattle.file.specs.Feeds.{FeedWithin};

use loader::Loader;
use rules::Refusal;

// Whether one of 16 bytes is a line feed: all are compared, so that they can be compared at once, in 6 instructions. `any` stops at the first: 33 for a block.
fn has_feed(file: &[u8], at: usize) -> bool
    requires { at + 16 ≤ length file.now }
    ensures { FeedWithin file.now at 16 result }
{
    let mut found = false;
    for &byte in &file[at..at + 16] {
        found |= byte == b'\n';
    }
    found
}

// The index from which on the first line feed is near, or the end of the file: before it, 16 bytes at a time, there is none. The index is what is given back, and
// so it is counted: a loop over `chunks_exact(16)` would count it beside the block. `position` alone, with no blocks, takes 5 instructions for each byte.
fn skip_blocks(file: &[u8], at: usize) -> usize
    requires { at ≤ length file.now }
    ensures { (result + line_length (drop result file.now) ≡ at + line_length (drop at file.now)) × (result ≤ length file.now) }
{
    let mut i = at;
    while i + 16 <= file.len() {
        if has_feed(file, i) {
            return i;
        }
        i += 16;
    }
    i
}

// How many bytes stand before the first line feed, or before the end.
fn first_feed(bytes: &[u8]) -> usize
    ensures { (result ≡ line_length bytes.now) × (result ≤ length bytes.now) }
{
    bytes
        .iter()
        .position(|&byte| byte == b'\n')
        .unwrap_or(bytes.len())
}

// The index of the first line feed from an index on, or the end of the file.
fn line_end(file: &[u8], at: usize) -> usize
    requires { at ≤ length file.now }
    ensures { (result ≡ at + line_length (drop at file.now)) × (result ≤ length file.now) }
{
    let near = skip_blocks(file, at);
    near + first_feed(&file[near..])
}

// What taking a file's lines gives back: the first refusal and the number of its line, from 1, or acceptance of all lines; and the loader then. All three stand side by
// side, since LinesTakenAs says what they are whether a line is refused or not.
#[derive(Clone, Copy)]
pub struct LinesTaken {
    pub outcome: Result<(), Refusal>,
    pub line: u64,
    pub loader: Loader,
}

// Every line up to the first refusal, at a new loader, and the lists that their numbers go into. The next line begins where line_end found the end of the last:
// `file.split` would look at each byte by itself, as `position` does.
pub fn take_lines(
    file: &[u8],
    matrix: &mut [i64],
    right: &mut [i64],
    tolerance: &mut [i64],
    guess: &mut [i64],
    inverse: &mut [i64],
    weights: &mut [i64],
) -> LinesTaken
    ensures { LinesTakenAs file.now
        (lists matrix.old right.old tolerance.old guess.old inverse.old
        weights.old)
        result
        (lists matrix.new right.new tolerance.new guess.new inverse.new
        weights.new) }
{
    let mut loader = Loader::new();
    let mut line: u64 = 0;
    let mut at = 0;
    while at < file.len() {
        let end = line_end(file, at);
        let taken = loader.take(
            &file[at..end],
            matrix,
            right,
            tolerance,
            guess,
            inverse,
            weights,
        );
        line += 1;
        if let Err(refusal) = taken.outcome {
            return LinesTaken {
                outcome: Err(refusal),
                line,
                loader,
            };
        }
        loader = taken.loader;
        at = end + 1;
    }
    LinesTaken {
        outcome: Ok(()),
        line,
        loader,
    }
}

// The same, with the lists by value. They stand one by one, as take_lines and `Loader::take` are lent them: from a struct of lists each would be lent by its name
// all the same.
#[derive(Clone, Copy)]
pub struct Collected {
    pub outcome: Result<(), Refusal>,
    pub line: u64,
    pub loader: Loader,
    pub matrix: [i64; 1024],
    pub right: [i64; 32],
    pub tolerance: [i64; 32],
    pub guess: [i64; 32],
    pub inverse: [i64; 1024],
    pub weights: [i64; 32],
}

// Every line up to the first refusal, at a new loader with lists of zeros.
pub fn read_file(file: &[u8]) -> Collected
    ensures { ReadAs file.now result }
{
    let mut matrix = [0i64; 1024];
    let mut right = [0i64; 32];
    let mut tolerance = [0i64; 32];
    let mut guess = [0i64; 32];
    let mut inverse = [0i64; 1024];
    let mut weights = [0i64; 32];
    let taken = take_lines(
        file,
        &mut matrix,
        &mut right,
        &mut tolerance,
        &mut guess,
        &mut inverse,
        &mut weights,
    );
    Collected {
        outcome: taken.outcome,
        line: taken.line,
        loader: taken.loader,
        matrix,
        right,
        tolerance,
        guess,
        inverse,
        weights,
    }
}
