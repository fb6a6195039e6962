// The answer to doubles that are to become guesses in numbers, for other languages.
ghost use Rattle.std.specs.Prelude.{◌≡◌};
ghost use Rattle.listing_refusal.specs.Refused.{printed};
ghost use Rattle.listing_refusal.specs.Reply.{reply_of};
ghost use Rattle.doubles_lists.specs.Inward.{guesses_code};

use crate::alone;
use doubles_lists::GuessRefusal;
use listing_refusal::{Reply, no_refusal, reply_of};

// The answer; a refusal gives its number alone, so both places are 0.
pub fn guessed_reply(guessed: Result<(), GuessRefusal>) -> Reply
    ensures { result ≡ reply_of (printed 0 (guesses_code guessed)) }
{
    match guessed {
        Ok(()) => no_refusal(),
        Err(GuessRefusal::Refused(refusal)) => reply_of(refusal, 0),
        Err(GuessRefusal::NoGuess) => alone(19),
    }
}
