// Standard input, read into a buffer. Where a read fails, `fill`, `skip_rest` and `read_front` tell why. register and convert print that it did and no more: they
// call the plain forms, whose answer has no room for a reason.
#![tactic(auto)]

ghost use Rattle.std.specs.Prelude.{◌≤◌, ◌≡◌, length, take};
ghost use Rattle.program_input.specs.Input.{Inside, Filled};

use std::io;
use std::io::{Read, Stdin};

// That a read failed; no caller tells why.
#[derive(Clone, Copy)]
pub struct ReadFailed;

// One read into a buffer from an index on: how many bytes it gave, and none at the end of the input; the bytes before it stay.
fn read_some(input: &mut Stdin, buf: &mut [u8], from: usize) -> Result<Option<usize>, ReadFailed>
    requires { from ≤ length buf.old }
    ensures inside { Inside from (length buf.old) result }
    ensures buf_unchanged { take from buf.new ≡ take from buf.old }
{
    let Ok(got) = input.read(&mut buf[from..]) else {
        return Err(ReadFailed);
    };
    if got < 1 {
        return Ok(None);
    }
    Ok(Some(got))
}

// Fills the buffer, or reads to the end of the input where it comes first; gives how many bytes were read.
// std's `read_exact` fails where the input ends first, and its `read_to_end` takes a heap.
pub fn fill_plain(input: &mut Stdin, buf: &mut [u8]) -> Result<usize, ReadFailed>
    ensures { Filled (length buf.old) result }
{
    let mut done = 0;
    while done < buf.len() {
        let Some(got) = read_some(input, buf, done)? else {
            break;
        };
        done += got;
    }
    Ok(done)
}

// Reads what is left of the input. A proved loop ends: this one goes round a number of times that no input uses up.
pub fn skip_rest_plain(input: &mut Stdin) -> Result<(), ReadFailed> {
    let mut scratch = [0u8; 4096];
    for _ in 0..u64::MAX {
        if read_some(input, &mut scratch, 0)?.is_none() {
            break;
        }
    }
    Ok(())
}

// Reads all of the input, and keeps what fits the buffer; gives how many bytes it holds.
pub fn read_front_plain(input: &mut Stdin, buf: &mut [u8]) -> Result<usize, ReadFailed>
    ensures { Filled (length buf.old) result }
{
    let n = fill_plain(input, buf)?;
    skip_rest_plain(input)?;
    Ok(n)
}

// One read as in `read_some`; an error tells why it failed.
fn read_more(input: &mut Stdin, buf: &mut [u8], from: usize) -> io::Result<Option<usize>>
    requires { from ≤ length buf.old }
    ensures inside { Inside from (length buf.old) result }
    ensures buf_unchanged { take from buf.new ≡ take from buf.old }
{
    let count = input.read(&mut buf[from..])?;
    if count == 0 {
        return Ok(None);
    }
    Ok(Some(count))
}

// Fills the buffer, or reads to the end of the input where it comes first; gives how many bytes were read.
pub fn fill(input: &mut Stdin, buf: &mut [u8]) -> io::Result<usize>
    ensures { Filled (length buf.old) result }
{
    let mut filled = 0;
    while filled < buf.len() {
        let Some(count) = read_more(input, buf, filled)? else {
            break;
        };
        filled += count;
    }
    Ok(filled)
}

// Reads what is left of the input, in as many turns as `skip_rest_plain`.
pub fn skip_rest(input: &mut Stdin) -> io::Result<()> {
    let mut skipped = [0u8; 4096];
    for _ in 0..u64::MAX {
        if read_more(input, &mut skipped, 0)?.is_none() {
            break;
        }
    }
    Ok(())
}

// Reads all of the input, and keeps what fits the buffer; gives how many bytes it holds.
pub fn read_front(input: &mut Stdin, buf: &mut [u8]) -> io::Result<usize>
    ensures { Filled (length buf.old) result }
{
    let kept = fill(input, buf)?;
    skip_rest(input)?;
    Ok(kept)
}
