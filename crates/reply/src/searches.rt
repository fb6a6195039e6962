// The answer of a search for weights in numbers, for other languages.
ghost use Rattle.std.specs.Prelude.{◌≡◌};
ghost use Rattle.rules.specs.Order.{if_accepted};
ghost use Rattle.listing_refusal.specs.Refused.{printed};
ghost use Rattle.listing_refusal.specs.Reply.{reply_of};
ghost use Rattle.weights_spec.specs.Search.{search_code, count_of};

use crate::alone;
use listing_refusal::{Reply, no_refusal, reply_of};
use weights_spec::SearchRefusal;

// The answer; a refusal gives its number alone, so both places are 0.
pub fn found_reply(found: Result<u32, SearchRefusal>) -> Reply
    ensures { result ≡ reply_of (printed 0 (search_code found)) }
{
    match found {
        Ok(_) => no_refusal(),
        Err(SearchRefusal::Refused(refusal)) => reply_of(refusal, 0),
        Err(SearchRefusal::NoneGood) => alone(18),
    }
}

// The tried count where a list was found, and what was there before where none was.
pub fn tried_or(found: Result<u32, SearchRefusal>, before: u32) -> u32
    ensures { result ≡ if_accepted (search_code found) (count_of found) before }
{
    match found {
        Ok(count) => count,
        Err(_) => before,
    }
}
