// Equations from the field lines, for callers that ask which line is refused: as `build::build`, and the number of that line.
ghost use Rattle.build_equations.specs.declared.Layout.TheVariants.{Square, Lower};
ghost use Rattle.calls_spec.specs.Build.{BuildLineExported};

use build::{begin, gather};
use build_equations::Layout;
use build_lines::Observation;
use reply::builds::finish_status;

// The matrix square.
#[unsafe(no_mangle)]
pub extern "C" fn kodarfi_build_line(
    n: u32,
    observations: &[Observation],
    matrix: &mut [i64],
    right: &mut [i64],
    line: &mut u64,
) -> u32
    ensures { BuildLineExported n observations.now Square matrix.old right.old result matrix.new right.new line.new }
{
    let layout = Layout::Square;
    let start = begin(n, observations.len(), layout, matrix.len(), right.len());
    let g = gather(observations, start);
    finish_status(g, layout, matrix, right, line)
}

// The matrix by its lower half.
#[unsafe(no_mangle)]
pub extern "C" fn kodarfi_build_half_line(
    n: u32,
    observations: &[Observation],
    half: &mut [i64],
    right: &mut [i64],
    line: &mut u64,
) -> u32
    ensures { BuildLineExported n observations.now Lower half.old right.old result half.new right.new line.new }
{
    let layout = Layout::Lower;
    let start = begin(n, observations.len(), layout, half.len(), right.len());
    let g = gather(observations, start);
    finish_status(g, layout, half, right, line)
}
