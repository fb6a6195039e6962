// The check of two nets, the second dependent on the first (document 02, Paper 8).
ghost use Rattle.check_spec.specs.Input.{input};
ghost use Rattle.dependent_spec.specs.Nets.{nets};
ghost use Rattle.calls_spec.specs.TwoNets.{DependentExported};

use dependent_check::check_dependent;
use reply::nets::{net_of, nets_reply};
use reply::write_reply;

// `dependent_check::check_dependent`; `*net` is the net that a refusal is of, and 0 where nothing is refused.
#[unsafe(no_mangle)]
pub extern "C" fn kodarfi_check_dependent(
    n1: u32,
    s1: u32,
    t1: u32,
    matrix1: &[i64],
    right1: &[i64],
    tolerance1: &[i64],
    guess1: &[i64],
    inverse1: &[i64],
    weights1: &[i64],
    solution_bounds1: &mut [u64],
    inverse_bounds1: &mut [u64],
    n2: u32,
    s2: u32,
    t2: u32,
    matrix2: &[i64],
    coupling: &[i64],
    right2: &[i64],
    tolerance2: &[i64],
    guess2: &[i64],
    inverse2: &[i64],
    weights2: &[i64],
    solution_bounds2: &mut [u64],
    inverse_bounds2: &mut [u64],
    net: &mut u32,
    places: &mut [u64; 2],
) -> u32
    ensures { DependentExported (nets
        (input n1 s1 t1 matrix1.now right1.now tolerance1.now guess1.now inverse1.now
        weights1.now solution_bounds1.old inverse_bounds1.old)
        (input n2 s2 t2 matrix2.now right2.now tolerance2.now guess2.now inverse2.now
        weights2.now solution_bounds2.old inverse_bounds2.old)
        coupling.now)
        result net.new places.new
        solution_bounds1.new inverse_bounds1.new solution_bounds2.new inverse_bounds2.new }
{
    let checked = check_dependent(
        n1,
        s1,
        t1,
        matrix1,
        right1,
        tolerance1,
        guess1,
        inverse1,
        weights1,
        solution_bounds1,
        inverse_bounds1,
        n2,
        s2,
        t2,
        matrix2,
        coupling,
        right2,
        tolerance2,
        guess2,
        inverse2,
        weights2,
        solution_bounds2,
        inverse_bounds2,
    );
    *net = net_of(checked);
    write_reply(nets_reply(checked), places)
}
