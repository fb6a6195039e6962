// The answer to a refused file: in numbers, and as one line written into a buffer.
#![tactic(auto)]

ghost use Rattle.std.specs.Prelude.{◌≡◌, [], ◌∷◌, ◌≤◌, length};
ghost use Rattle.rules.specs.Refusal.{number_of, values_of};
ghost use Rattle.listing_refusal.specs.Refused.{printed, refused_of};
ghost use Rattle.listing_refusal.specs.Reply.{reply_of};
ghost use Rattle.listing_refusal.specs.Answered.{Answered};

use listing_text::put_list;
use rules::Refusal;

// The answer in numbers: 01's number of a refusal, how many numbers stand in the inner brackets, and these; 0 where there is none.
// `reply_of` of specs/Reply.antt has these four, which C is given.
#[derive(Clone, Copy)]
pub struct Reply {
    pub number: u32,
    pub count: usize,
    pub first: u64,
    pub second: u64,
}

// The answer, and the bytes written of it.
#[derive(Clone, Copy)]
pub struct FileAnswer {
    pub reply: Reply,
    pub length: usize,
}

fn number_of(refusal: Refusal) -> u32
    ensures { result ≡ number_of refusal }
{
    match refusal {
        Refusal::TooLong => 1,
        Refusal::NoForm => 2,
        Refusal::OutOfRange => 3,
        Refusal::WrongCount => 4,
        Refusal::Margin(_) => 5,
        Refusal::Residual(_) => 6,
        Refusal::InverseResidual(_, _) => 7,
        Refusal::TooShort => 8,
        Refusal::TooEarly => 11,
        Refusal::Repeated => 12,
        Refusal::Missing(_) => 13,
        Refusal::AfterEnd => 14,
        Refusal::NotEnded => 15,
    }
}

// What a refusal says; of one that gives its number alone, with the number of the line.
pub fn reply_of(refusal: Refusal, line: u64) -> Reply
    ensures { result ≡ reply_of (printed line (number_of refusal ∷ values_of refusal)) }
{
    let number = number_of(refusal);
    let (count, first, second) = match refusal {
        Refusal::Margin(row) => (1, u64::from(row), 0),
        Refusal::Residual(row) => (1, u64::from(row), 0),
        Refusal::InverseResidual(column, row) => (2, u64::from(column), u64::from(row)),
        Refusal::Missing(count) => (1, u64::from(count), 0),
        _ => (1, line, 0),
    };
    Reply {
        number,
        count,
        first,
        second,
    }
}

// Nothing is refused.
pub fn no_refusal() -> Reply
    ensures { result ≡ reply_of [] }
{
    Reply {
        number: 0,
        count: 0,
        first: 0,
        second: 0,
    }
}

// The line of a refusal, from the start of the buffer on.
pub fn put_refusal(out: &mut [u8], refusal: Refusal, line: u64) -> FileAnswer
    requires { 32768 ≤ length out.old }
    ensures { Answered (printed line (number_of refusal ∷ values_of refusal))
        (refused_of (printed line (number_of refusal ∷ values_of refusal))) out.old out.new result }
{
    let reply = reply_of(refusal, line);
    let shown = [reply.first, reply.second];
    let length = put_list(
        out,
        0,
        b"(refused ",
        u64::from(reply.number),
        &shown,
        0,
        reply.count,
    );
    FileAnswer { reply, length }
}
