// The answer of a call for the factor in numbers, for other languages.
ghost use Rattle.std.specs.Prelude.{◌≡◌};
ghost use Rattle.rules.specs.Order.{if_accepted};
ghost use Rattle.listing_refusal.specs.Refused.{printed};
ghost use Rattle.listing_refusal.specs.Reply.{reply_of};
ghost use Rattle.quality_spec.specs.Answer.{quality_code, numerator_of, denominator_of};

use listing_refusal::{Reply, no_refusal, reply_of};
use quality_spec::Fraction;
use rules::Refusal;

// The answer; 8 and 3 give their number alone, so both places are 0.
pub fn quality_reply(quality: Result<Fraction, Refusal>) -> Reply
    ensures { result ≡ reply_of (printed 0 (quality_code quality)) }
{
    match quality {
        Ok(_) => no_refusal(),
        Err(refusal) => reply_of(refusal, 0),
    }
}

// The numerator where there is a factor, and what was there before where there is none.
pub fn numerator_or(quality: Result<Fraction, Refusal>, before: u64) -> u64
    ensures { result ≡ if_accepted (quality_code quality) (numerator_of quality) before }
{
    match quality {
        Ok(fraction) => fraction.numerator,
        Err(_) => before,
    }
}

// The same of the denominator.
pub fn denominator_or(quality: Result<Fraction, Refusal>, before: u64) -> u64
    ensures { result ≡ if_accepted (quality_code quality) (denominator_of quality) before }
{
    match quality {
        Ok(fraction) => fraction.denominator,
        Err(_) => before,
    }
}
