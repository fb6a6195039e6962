// The converter: a file as one that offices on the old edition can read (document 02, Paper 14).
#![tactic(auto)]

ghost use Rattle.std.specs.Prelude.{length};
ghost use Rattle.convert_spec.specs.Converted.{Delivered, ConvertedAs, ConvertedAt};
ghost use Rattle.convert_spec.specs.File.{old_file};
ghost use Rattle.convert_writer.specs.Written.{held_by};
ghost use Rattle.converter.specs.Held.{InRangeAtEnd, unfit, held_answer};

use convert_spec::{Conversion, ConversionRefusal};
use convert_writer::{has_tolerance, put_file};
use file::{Collected, read_file};
use listing_text::put_bytes;
use rules::Refusal;

// The text at the start of the buffer, or 22 where there is a tolerance or the buffer is shorter than the text.
fn hand_over(out: &mut [u8], text: &[u8], tolerance: bool) -> Result<usize, ConversionRefusal>
    ensures { Delivered (unfit tolerance (length out.old) (length text.now)) text.now out.old out.new result }
{
    if tolerance || out.len() < text.len() {
        return Err(ConversionRefusal::NotConvertible);
    }
    Ok(put_bytes(out, 0, text))
}

// The new file of the numbers that a file's lines gave; it is written whole before any of it is handed over. 15 where the file stopped before an end.
fn deliver(out: &mut [u8], collected: Collected) -> Result<usize, ConversionRefusal>
    requires { InRangeAtEnd collected }
    ensures { Delivered (held_answer collected (length out.old)) (old_file (held_by collected)) out.old out.new result }
{
    if !collected.loader.has_ended() {
        return Err(ConversionRefusal::Refused(Refusal::NotEnded));
    }
    let mut buffer = [0u8; 32768];
    let length = put_file(&mut buffer, collected);
    hand_over(out, &buffer[..length], has_tolerance(collected))
}

// The same file for the old edition, from the start of the buffer on, and the number of the line where one is refused.
pub fn convert_file(file: &[u8], out: &mut [u8]) -> Conversion
    ensures { ConvertedAt file.now out.old out.new result }
{
    let collected = read_file(file);
    match collected.outcome {
        Err(refusal) => Conversion {
            answer: Err(ConversionRefusal::Refused(refusal)),
            line: collected.line,
        },
        Ok(()) => Conversion {
            answer: deliver(out, collected),
            line: 0,
        },
    }
}

// The same file for the old edition, from the start of the buffer on; gives its length.
pub fn convert(file: &[u8], out: &mut [u8]) -> Result<usize, ConversionRefusal>
    ensures { ConvertedAs file.now out.old out.new result }
{
    convert_file(file, out).answer
}
