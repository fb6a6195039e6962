// Two proposals for the same equations (document 02, Paper 13), for other languages.
ghost use Rattle.common_spec.specs.Proposals.{proposal, proposals};
ghost use Rattle.calls_spec.specs.TwoProposals.{CommonExported};

use common_interval::common_interval;
use reply::proposals::{common_reply, proposal_of};
use reply::write_reply;

// The common intervals of two proposals: `common_interval::common_interval`.
#[unsafe(no_mangle)]
pub extern "C" fn kodarfi_common(
    n1: u32,
    s1: u32,
    t1: u32,
    matrix1: &[i64],
    right1: &[i64],
    tolerance1: &[i64],
    guess1: &[i64],
    inverse1: &[i64],
    weights1: &[i64],
    n2: u32,
    s2: u32,
    t2: u32,
    matrix2: &[i64],
    right2: &[i64],
    tolerance2: &[i64],
    guess2: &[i64],
    inverse2: &[i64],
    weights2: &[i64],
    low: &mut [i64],
    high: &mut [i64],
    of_proposal: &mut u32,
    places: &mut [u64; 2],
) -> u32
    ensures { CommonExported (proposals
        (proposal n1 s1 t1 matrix1.now right1.now tolerance1.now guess1.now inverse1.now weights1.now)
        (proposal n2 s2 t2 matrix2.now right2.now tolerance2.now guess2.now inverse2.now weights2.now)
        low.old high.old) result of_proposal.new places.new low.new high.new }
{
    let common = common_interval(
        n1, s1, t1, matrix1, right1, tolerance1, guess1, inverse1, weights1, n2, s2, t2, matrix2,
        right2, tolerance2, guess2, inverse2, weights2, low, high,
    );
    *of_proposal = proposal_of(common);
    write_reply(common_reply(common), places)
}
