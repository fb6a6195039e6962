// The answer of the call on two proposals in numbers, for other languages.
ghost use Rattle.std.specs.Prelude.{◌≡◌};
ghost use Rattle.rules.specs.Which.{which_of, refusal_of};
ghost use Rattle.listing_refusal.specs.Refused.{printed};
ghost use Rattle.listing_refusal.specs.Reply.{reply_of};
ghost use Rattle.common_spec.specs.Answer.{common_code};

use crate::alone;
use common_spec::CommonRefusal;
use listing_refusal::{Reply, no_refusal, reply_of};
use rules::Refusal;

// The answer; a refusal that gives its number alone leaves both places 0.
pub fn common_reply(common: Result<(), CommonRefusal>) -> Reply
    ensures { result ≡ reply_of (printed 0 (refusal_of (common_code common))) }
{
    match common {
        Ok(()) => no_refusal(),
        Err(CommonRefusal::TooShort) => reply_of(Refusal::TooShort, 0),
        Err(CommonRefusal::First(refusal) | CommonRefusal::Second(refusal)) => reply_of(refusal, 0),
        Err(CommonRefusal::Different) => alone(20),
        Err(CommonRefusal::TooWide) => alone(21),
    }
}

// Of which proposal the refusal is.
pub fn proposal_of(common: Result<(), CommonRefusal>) -> u32
    ensures { result ≡ which_of (common_code common) }
{
    match common {
        Err(CommonRefusal::First(_)) => 1,
        Err(CommonRefusal::Second(_)) => 2,
        _ => 0,
    }
}
