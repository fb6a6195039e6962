// Files for offices on the old edition (document 02, Paper 14).
ghost use Rattle.calls_spec.specs.Conversion.{ConvertExported, ConvertLineExported};

use converter::{convert, convert_file};
use reply::conversions::{converted_reply, length_or};
use reply::write_reply;

// A file as one of the old edition: `converter::convert`.
#[unsafe(no_mangle)]
pub extern "C" fn kodarfi_convert(
    file: &[u8],
    out: &mut [u8],
    written: &mut usize,
    places: &mut [u64; 2],
) -> u32
    ensures { ConvertExported file.now out.old written.old result places.new out.new written.new }
{
    let converted = convert(file, out);
    *written = length_or(converted, *written);
    write_reply(converted_reply(converted), places)
}

// The same, and the number of the line where one is refused: `converter::convert_file`.
#[unsafe(no_mangle)]
pub extern "C" fn kodarfi_convert_line(
    file: &[u8],
    out: &mut [u8],
    written: &mut usize,
    places: &mut [u64; 2],
    line: &mut u64,
) -> u32
    ensures { ConvertLineExported file.now out.old written.old result places.new out.new written.new line.new }
{
    let conversion = convert_file(file, out);
    let answer = conversion.answer;
    *line = conversion.line;
    *written = length_or(answer, *written);
    write_reply(converted_reply(answer), places)
}
