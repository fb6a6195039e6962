// Equations from the field lines (document 02, Papers 3 and 10): 8 first, then 3 for n and the count, then all lines gathered, and where nothing is said, the equations
// written. Two functions are lent a slice of field lines, `gather` and `build`; each does no more than take the slice apart: tests, sums
// and writing are in functions on plain numbers and lists.
#![tactic(auto)]

ghost use Rattle.std.specs.Prelude.{◌≡◌, ◌||◌, length};
ghost use Rattle.rules.specs.Range.{short_column};
ghost use Rattle.build_gathering.specs.Gathered.{together, gathered, opening_progress, no_lines, few};
ghost use Rattle.build.specs.BuiltAs.{short_as, BuiltAs};
ghost use Rattle.build.specs.Finished.{ReadyFor, Finished};

use build_equations::{Layout, write_equations};
use build_gathering::{Gathered, Progress, add_observation, as_gathered, few_of, no_lines, open};
use build_lines::{BuildRefusal, Observation};
use half_fill::HALF_LENGTH;
use rules::{COLUMN_LENGTH, MATRIX_LENGTH};

// Whether a matrix list of this length is too short for its layout.
fn is_short_as(layout: Layout, matrix: usize) -> bool
    ensures { result ≡ short_as layout matrix }
{
    match layout {
        Layout::Square => matrix < MATRIX_LENGTH,
        Layout::Lower => matrix < HALF_LENGTH,
    }
}

// 8: whether a list of one of these lengths is too short.
fn is_short(layout: Layout, matrix: usize, right: usize) -> bool
    ensures { result ≡ short_as layout matrix || short_column right }
{
    is_short_as(layout, matrix) || right < COLUMN_LENGTH
}

// Before any line of so many: what is said of n, their count and the lengths of the two lists, 8 first.
pub fn begin(n: u32, lines: usize, layout: Layout, matrix: usize, right: usize) -> Progress
    ensures { result ≡ opening_progress n lines (short_as layout matrix || short_column right) }
{
    open(n, lines, is_short(layout, matrix, right))
}

// The equations written, where nothing is said.
pub fn finish(
    g: Gathered,
    layout: Layout,
    matrix: &mut [i64],
    right: &mut [i64],
) -> Result<(), BuildRefusal>
    requires { ReadyFor g layout matrix.old right.old }
    ensures { Finished g layout matrix.old right.old result matrix.new right.new }
{
    g.progress.status?;
    write_equations(g, layout, matrix, right);
    Ok(())
}

// The lines one after the other; none is looked at where something is said before any, and none of a list above 256.
pub fn gather(observations: &[Observation], start: Progress) -> Gathered
    ensures { result ≡ gathered (together start no_lines) observations.now (few start.status (length observations.now)) }
{
    let mut progress = start;
    let mut seen = no_lines();
    let end = few_of(start, observations.len());
    for i in 0..end {
        progress = add_observation(progress, &mut seen, observations[i]);
    }
    as_gathered(progress, seen)
}

// The equations of the distinct lines, the matrix in its layout, or the first refusal with both lists untouched.
pub fn build(
    n: u32,
    observations: &[Observation],
    layout: Layout,
    matrix: &mut [i64],
    right: &mut [i64],
) -> Result<(), BuildRefusal>
    ensures { BuiltAs n observations.now layout matrix.old right.old result matrix.new right.new }
{
    let start = begin(n, observations.len(), layout, matrix.len(), right.len());
    let g = gather(observations, start);
    finish(g, layout, matrix, right)
}
