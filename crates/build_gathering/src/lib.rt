// The adder (document 02, Paper 3): field lines are taken one after the other, and those whose key is new are kept.
#![tactic(auto)]

ghost use Rattle.std.specs.Prelude.{◌≡◌, ℕ, eqb, Err, position};
ghost use Rattle.build_gathering.specs.Gathered.{together, saying, added, opened_as, opening_progress, no_lines, few, line_number_of};

use build_lines::{BuildRefusal, Observation, has_contents, is_outside_range};
use rules::{Kind, Refusal, is_natural_in_range};

// How far the lines are taken: `count` of them are kept, `lines` of them were looked at, the refused one among them.
#[derive(Clone, Copy)]
pub struct Progress {
    pub n: u32,
    pub count: usize,
    pub lines: usize,
    pub status: Result<(), BuildRefusal>,
}

// The lines that are kept, in places: arrays, since there is no heap. The key of each stands in `keys` too, at the same place: a search goes along `keys`, where
// several are compared at once, which they are not in steps of a whole line.
#[derive(Clone, Copy)]
pub struct KeptLines {
    pub keys: [u32; 256],
    pub lines: [Observation; 256],
}

// The lines taken so far. Those whose key no earlier line has are kept in `seen`, in the first `count` places.
#[derive(Clone, Copy)]
pub struct Gathered {
    pub progress: Progress,
    pub seen: KeptLines,
}

// What stands where no line is kept.
const NO_OBSERVATION: Observation = Observation {
    key: 0,
    from: 0,
    to: 0,
    difference: 0,
    weight: 0,
};

#[tactic(auto, unfolding(crate::specs::Gathered::saying))]
fn refuse(g: Progress, refusal: BuildRefusal) -> Progress
    ensures { result ≡ saying g (Err refusal) }
{
    Progress {
        status: Err(refusal),
        ..g
    }
}

// Where the first of the kept lines stands that has this key, by the keys of these lines.
fn met_at(keys: &[u32], key: u32) -> Option<usize>
    ensures { result ≡ position (λ (k : ℕ). eqb k key) keys.now }
{
    keys.iter().position(|&k| k == key)
}

// The adder: a line more, by the tests in their order, where no line before it is refused; after a refusal no line is looked at. A line whose key is new is kept.
// Progress and lines are handed in apart, so that the lines are changed where they stand, and never copied.
pub fn add_observation(mut g: Progress, seen: &mut KeptLines, l: Observation) -> Progress
    ensures { together result seen.new ≡ added (together g seen.old) l }
{
    if g.status.is_err() {
        return g;
    }
    g.lines = g.lines.min(255) + 1;
    if is_outside_range(l, g.n) {
        return refuse(g, BuildRefusal::Refused(Refusal::OutOfRange));
    }
    if l.from == l.to {
        return refuse(g, BuildRefusal::SameMark);
    }
    let end = g.count.min(256);
    if let Some(at) = met_at(&seen.keys[..end], l.key) {
        if has_contents(seen.lines[at], l) {
            return g;
        }
        return refuse(g, BuildRefusal::OtherContents);
    }
    if end < 256 {
        seen.keys[end] = l.key;
        seen.lines[end] = l;
        g.count = end + 1;
    }
    g
}

// How many of so many lines are looked at: none where something is said before any line, and none of a list above 256.
#[tactic(auto, unfolding(crate::specs::Gathered::few))]
pub fn few_of(start: Progress, lines: usize) -> usize
    ensures { result ≡ few start.status lines }
{
    if start.status.is_err() {
        return 0;
    }
    if lines <= 256 { lines } else { 0 }
}

// What is said before any line: 8 where a lent list is too short, then 3 for n, and for a list above 256.
#[tactic(auto, unfolding(crate::specs::Gathered::opened_as))]
fn opened_as(n: u32, lines: usize, short: bool) -> Result<(), BuildRefusal>
    ensures { result ≡ opened_as n lines short }
{
    if short {
        return Err(Refusal::TooShort.into());
    }
    if is_natural_in_range(Kind::Size, n) && lines <= 256 {
        return Ok(());
    }
    Err(Refusal::OutOfRange.into())
}

// Before any line.
#[tactic(auto, unfolding(crate::specs::Gathered::opening_progress))]
pub fn open(n: u32, lines: usize, short: bool) -> Progress
    ensures { result ≡ opening_progress n lines short }
{
    Progress {
        n,
        count: 0,
        lines: 0,
        status: opened_as(n, lines, short),
    }
}

// What is kept before any line.
#[tactic(auto, unfolding(crate::specs::Gathered::no_lines))]
pub fn no_lines() -> KeptLines
    ensures { result ≡ no_lines }
{
    KeptLines {
        keys: [0u32; 256],
        lines: [NO_OBSERVATION; 256],
    }
}

pub fn as_gathered(progress: Progress, seen: KeptLines) -> Gathered
    ensures { result ≡ together progress seen }
{
    Gathered { progress, seen }
}

// The number, from 1, of the line that is refused; 0 where none is.
pub fn line_of(g: Gathered) -> usize
    ensures { result ≡ line_number_of g }
{
    if g.progress.status.is_err() {
        g.progress.lines
    } else {
        0
    }
}
