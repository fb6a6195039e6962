// Two proposals for the same equations: each height's common interval (document 02, Paper 13).
#![tactic(auto)]

ghost use Rattle.common_spec.specs.Answer.{CommonAs};
ghost use Rattle.common_spec.specs.Proposals.{proposal, proposals};

use check_held::check_held;
use common_ends::{Heights, are_equations_same, meet};
use common_spec::CommonRefusal;
use rules::COLUMN_LENGTH;

// The common interval of each height, in the finer of the two steps. Order: 8 for an interval list, the first proposal, the second, 20, 21; a refusal leaves
// both interval lists as they were.
// The lists stand one by one and in the order of the C call (docs/API.md).
pub fn common_interval(
    n1: u32,
    s1: u32,
    t1: u32,
    matrix1: &[i64],
    right1: &[i64],
    tolerance1: &[i64],
    guess1: &[i64],
    inverse1: &[i64],
    weights1: &[i64],
    n2: u32,
    s2: u32,
    t2: u32,
    matrix2: &[i64],
    right2: &[i64],
    tolerance2: &[i64],
    guess2: &[i64],
    inverse2: &[i64],
    weights2: &[i64],
    low: &mut [i64],
    high: &mut [i64],
) -> Result<(), CommonRefusal>
    ensures { CommonAs (proposals
        (proposal n1 s1 t1 matrix1.now right1.now tolerance1.now guess1.now inverse1.now weights1.now)
        (proposal n2 s2 t2 matrix2.now right2.now tolerance2.now guess2.now inverse2.now weights2.now)
        low.old high.old) result low.new high.new }
{
    if low.len() < COLUMN_LENGTH || high.len() < COLUMN_LENGTH {
        return Err(CommonRefusal::TooShort);
    }
    let first = check_held(
        n1, s1, t1, matrix1, right1, tolerance1, guess1, inverse1, weights1,
    );
    first.outcome.map_err(CommonRefusal::First)?;
    // The limits alone are lent on: a reference into what is held would keep 8 kB of inverse limits alive, here and for the second.
    let limits1 = first.solution;
    let second = check_held(
        n2, s2, t2, matrix2, right2, tolerance2, guess2, inverse2, weights2,
    );
    second.outcome.map_err(CommonRefusal::Second)?;
    let limits2 = second.solution;
    let size = n1 as usize;
    if !are_equations_same(
        size,
        matrix1,
        right1,
        tolerance1,
        n2 as usize,
        matrix2,
        right2,
        tolerance2,
    ) {
        return Err(CommonRefusal::Different);
    }
    let heights1 = Heights {
        s: s1,
        guess: guess1,
        limits: &limits1,
    };
    let heights2 = Heights {
        s: s2,
        guess: guess2,
        limits: &limits2,
    };
    meet(size, heights1, heights2, low, high)
}
