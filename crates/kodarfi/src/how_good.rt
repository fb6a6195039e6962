// The factor of a proposal's limits.
ghost use Rattle.quality_spec.specs.Inquiry.{inquiry};
ghost use Rattle.calls_spec.specs.Quality.{QualityExported};

use quality::quality;
use reply::factors::{denominator_or, numerator_or, quality_reply};
use reply::write_reply;

// How far the limits of a proposal can lie above true errors: `quality::quality`.
#[unsafe(no_mangle)]
pub extern "C" fn kodarfi_quality(
    n: u32,
    t: u32,
    matrix: &[i64],
    inverse: &[i64],
    weights: &[i64],
    numerator: &mut u64,
    denominator: &mut u64,
    places: &mut [u64; 2],
) -> u32
    ensures { QualityExported (inquiry n t matrix.now inverse.now weights.now) numerator.old denominator.old result places.new numerator.new denominator.new }
{
    let found = quality(n, t, matrix, inverse, weights);
    *numerator = numerator_or(found, *numerator);
    *denominator = denominator_or(found, *denominator);
    write_reply(quality_reply(found), places)
}
