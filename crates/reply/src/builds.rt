// The last step of a build in numbers, for other languages: what is said, and of which line.
ghost use Rattle.build.specs.Finished.{ReadyFor};
ghost use Rattle.reply.specs.Builds.{FinishedStatus};

use crate::built_number;
use build::finish;
use build_equations::Layout;
use build_gathering::{Gathered, line_of};

// The equations written, or the number of the first refusal; and the line that it is of, 0 where there is none.
pub fn finish_status(
    g: Gathered,
    layout: Layout,
    matrix: &mut [i64],
    right: &mut [i64],
    line: &mut u64,
) -> u32
    requires { ReadyFor g layout matrix.old right.old }
    ensures { FinishedStatus g layout matrix.old right.old result matrix.new right.new line.new }
{
    *line = line_of(g) as u64;
    built_number(finish(g, layout, matrix, right))
}
