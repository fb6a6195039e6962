// The listing of a file.
#![tactic(auto)]

ghost use Rattle.std.specs.Prelude.{length};
ghost use Rattle.listing.specs.Listing.{ListedAs, AnsweredAs};

use file::take_lines;
use file_check::put_checked;
use listing_refusal::{FileAnswer, put_refusal};

// The listing of a file, from the start of the buffer on, and its answer in numbers. The six lists are lent where they stand: `read_file` would hand them on by value.
pub fn answer_file(file: &[u8], out: &mut [u8; 32768]) -> FileAnswer
    ensures { AnsweredAs file.now out.old out.new result }
{
    let mut matrix = [0i64; 1024];
    let mut right = [0i64; 32];
    let mut tolerance = [0i64; 32];
    let mut guess = [0i64; 32];
    let mut inverse = [0i64; 1024];
    let mut weights = [0i64; 32];
    let taken = take_lines(
        file,
        &mut matrix,
        &mut right,
        &mut tolerance,
        &mut guess,
        &mut inverse,
        &mut weights,
    );
    match taken.outcome {
        Err(refusal) => put_refusal(out, refusal, taken.line),
        Ok(()) => put_checked(
            out,
            taken.loader,
            &matrix,
            &right,
            &tolerance,
            &guess,
            &inverse,
            &weights,
        ),
    }
}

// The listing of a file, from the start of the buffer on; gives its length.
pub fn listing(file: &[u8], out: &mut [u8; 32768]) -> usize
    ensures { ListedAs file.now out.old out.new result }
{
    answer_file(file, out).length
}
