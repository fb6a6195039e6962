// The answer of a converter in numbers, for other languages.
ghost use Rattle.std.specs.Prelude.{◌≡◌};
ghost use Rattle.rules.specs.Order.{if_accepted};
ghost use Rattle.listing_refusal.specs.Refused.{printed};
ghost use Rattle.listing_refusal.specs.Reply.{reply_of};
ghost use Rattle.convert_spec.specs.Converted.{convert_code, length_of};

use crate::alone;
use convert_spec::ConversionRefusal;
use listing_refusal::{Reply, no_refusal, reply_of};

// The answer; a refusal that gives its number alone leaves both places 0.
pub fn converted_reply(converted: Result<usize, ConversionRefusal>) -> Reply
    ensures { result ≡ reply_of (printed 0 (convert_code converted)) }
{
    match converted {
        Ok(_) => no_refusal(),
        Err(ConversionRefusal::Refused(refusal)) => reply_of(refusal, 0),
        Err(ConversionRefusal::NotConvertible) => alone(22),
    }
}

// The new file's length where it is written, and what was there before where it is not.
pub fn length_or(converted: Result<usize, ConversionRefusal>, before: usize) -> usize
    ensures { result ≡ if_accepted (convert_code converted) (length_of converted) before }
{
    match converted {
        Ok(length) => length,
        Err(_) => before,
    }
}
