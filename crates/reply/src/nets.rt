// The answer of a check of two nets in numbers, for other languages.
ghost use Rattle.std.specs.Prelude.{◌≡◌};
ghost use Rattle.rules.specs.Which.{which_of, refusal_of};
ghost use Rattle.listing_refusal.specs.Refused.{printed};
ghost use Rattle.listing_refusal.specs.Reply.{reply_of};
ghost use Rattle.dependent_spec.specs.Order.{nets_code};

use dependent_spec::NetsRefusal;
use listing_refusal::{Reply, no_refusal, reply_of};

// The answer, without the net that it is about.
pub fn nets_reply(checked: Result<(), NetsRefusal>) -> Reply
    ensures { result ≡ reply_of (printed 0 (refusal_of (nets_code checked))) }
{
    match checked {
        Ok(()) => no_refusal(),
        Err(NetsRefusal::Main(refusal) | NetsRefusal::Dependent(refusal)) => reply_of(refusal, 0),
    }
}

// The net that a refusal is of, 1 or 2; 0 where nothing is refused.
pub fn net_of(checked: Result<(), NetsRefusal>) -> u32
    ensures { result ≡ which_of (nets_code checked) }
{
    match checked {
        Ok(()) => 0,
        Err(NetsRefusal::Main(_)) => 1,
        Err(NetsRefusal::Dependent(_)) => 2,
    }
}
