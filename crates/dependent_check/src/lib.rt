// The check of two nets, the second dependent on the first (document 02, Paper 8).
#![tactic(auto)]

ghost use Rattle.check_spec.specs.Input.{input};
ghost use Rattle.dependent_spec.specs.Nets.{nets};
ghost use Rattle.dependent_spec.specs.Together.{CheckedTogether};

use check_held::check_held;
use dependent_coupling::copy_limits;
use dependent_net::check_dependent_net;
use dependent_spec::NetsRefusal;
use rules::{COLUMN_LENGTH, MATRIX_LENGTH, Refusal};

// The main net first: 8, 3, 5, 6, 7; then the dependent net in the same order. The main net's limits are held until both are accepted, so that a refusal of
// either leaves all four limit lists as they were.
// The lists stand one by one and in the order of the C call (docs/API.md).
pub fn check_dependent(
    n1: u32,
    s1: u32,
    t1: u32,
    matrix1: &[i64],
    right1: &[i64],
    tolerance1: &[i64],
    guess1: &[i64],
    inverse1: &[i64],
    weights1: &[i64],
    solution_bounds1: &mut [u64],
    inverse_bounds1: &mut [u64],
    n2: u32,
    s2: u32,
    t2: u32,
    matrix2: &[i64],
    coupling: &[i64],
    right2: &[i64],
    tolerance2: &[i64],
    guess2: &[i64],
    inverse2: &[i64],
    weights2: &[i64],
    solution_bounds2: &mut [u64],
    inverse_bounds2: &mut [u64],
) -> Result<(), NetsRefusal>
    ensures { CheckedTogether (nets
        (input n1 s1 t1 matrix1.now right1.now tolerance1.now guess1.now inverse1.now
        weights1.now solution_bounds1.old inverse_bounds1.old)
        (input n2 s2 t2 matrix2.now right2.now tolerance2.now guess2.now inverse2.now
        weights2.now solution_bounds2.old inverse_bounds2.old)
        coupling.now)
        result solution_bounds1.new inverse_bounds1.new solution_bounds2.new inverse_bounds2.new }
{
    if solution_bounds1.len() < COLUMN_LENGTH || inverse_bounds1.len() < MATRIX_LENGTH {
        return Err(NetsRefusal::Main(Refusal::TooShort));
    }
    let main = check_held(
        n1, s1, t1, matrix1, right1, tolerance1, guess1, inverse1, weights1,
    );
    main.outcome.map_err(NetsRefusal::Main)?;
    let marks = n1 as usize;
    let limits = main.solution;
    check_dependent_net(
        marks,
        s1,
        guess1,
        limits,
        n2,
        s2,
        t2,
        matrix2,
        coupling,
        right2,
        tolerance2,
        guess2,
        inverse2,
        weights2,
        solution_bounds2,
        inverse_bounds2,
    )
    .map_err(NetsRefusal::Dependent)?;
    copy_limits(solution_bounds1, &limits, marks);
    copy_limits(inverse_bounds1, &main.inverse, marks * marks);
    Ok(())
}
