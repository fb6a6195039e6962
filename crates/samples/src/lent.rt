// A build of lines that stand in an array of the program's own. The function lends a part of that array as a slice of structs.
ghost use Rattle.std.specs.Prelude.{◌≤◌, take};
ghost use Rattle.build.specs.BuiltAs.{BuiltAs};

use build::build;
use build_equations::Layout;
use build_lines::{BuildRefusal, Observation};

// The equations of the first lines of an array, the matrix in its layout.
pub fn build_first(
    n: u32,
    lines: [Observation; 320],
    count: usize,
    layout: Layout,
    matrix: &mut [i64],
    right: &mut [i64],
) -> Result<(), BuildRefusal>
    requires { count ≤ 320 }
    ensures { BuiltAs n (take count lines) layout matrix.old right.old result matrix.new right.new }
{
    build(n, &lines[..count], layout, matrix, right)
}
