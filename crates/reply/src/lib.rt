// What a call answers, in numbers for other languages: 01's number and its two places.
#![tactic(auto)]

ghost use Rattle.std.specs.Prelude.{◌≡◌, [], ◌∷◌, get_or};
ghost use Rattle.rules.specs.Refusal.{code, number_of};
ghost use Rattle.listing_refusal.specs.Refused.{printed};
ghost use Rattle.listing_refusal.specs.Reply.{reply_of};
ghost use Rattle.build_lines.specs.Order.{build_code};

use build_lines::BuildRefusal;
use listing_refusal::{Reply, no_refusal, reply_of};
use rules::Refusal;

pub mod builds;
pub mod conversions;
pub mod factors;
pub mod guesses;
pub mod nets;
pub mod proposals;
pub mod searches;

// The answer of an outcome; a refusal that gives its number alone leaves both places 0.
pub fn outcome_reply(outcome: Result<(), Refusal>) -> Reply
    ensures { result ≡ reply_of (printed 0 (code outcome)) }
{
    match outcome {
        Ok(()) => no_refusal(),
        Err(refusal) => reply_of(refusal, 0),
    }
}

// A refusal that gives its number alone.
fn alone(number: u32) -> Reply
    ensures { result ≡ reply_of (number ∷ 0 ∷ []) }
{
    Reply {
        number,
        count: 1,
        first: 0,
        second: 0,
    }
}

// Writes the two places of a reply; gives its number.
pub fn write_reply(reply: Reply, places: &mut [u64; 2]) -> u32
    ensures { (result ≡ reply.number) × (places.new ≡ reply.first ∷ reply.second ∷ []) }
{
    *places = [reply.first, reply.second];
    reply.number
}

// The number of a refusal.
fn refused_number(refusal: Refusal) -> u32
    ensures { result ≡ number_of refusal }
{
    let status = reply_of(refusal, 0);
    status.number
}

// The number of the answer to field lines, 0 where the equations are built.
pub fn built_number(built: Result<(), BuildRefusal>) -> u32
    ensures { result ≡ get_or (build_code built) 0 0 }
{
    match built {
        Ok(()) => 0,
        Err(BuildRefusal::Refused(refusal)) => refused_number(refusal),
        Err(BuildRefusal::SameMark) => 16,
        Err(BuildRefusal::OtherContents) => 17,
    }
}
