// The program: a file on standard input, the same file for offices on the old edition on standard output, or the line of a refusal.
#![tactic(auto)]

ghost use Rattle.std.specs.Prelude.{◌≡◌, length, take};
ghost use Rattle.convert_spec.specs.Converted.{converted_text};

use convert_spec::ConversionRefusal;
use converter::convert_file;
use listing_refusal::put_refusal;
use listing_text::put_list;
use program_input::read_front_plain;
use std::io::Stderr;

fn report(errors: Stderr, text: &[u8]) {
    let _ = errors.write_all(text);
}

// The one place that writes to standard output: what it is handed is the new file, or the line of a refusal.
fn write_text(rt: &HostRuntime, file: &[u8], bytes: &[u8])
    requires { bytes.now ≡ converted_text file.now }
{
    if rt.stdout().write_all(bytes).is_err() {
        report(rt.stderr(), b"convert: the file could not be written\n");
    }
}

// The new file, or the line of a refusal, from the start of the buffer on; gives its length.
fn put_text(file: &[u8], out: &mut [u8; 32768]) -> usize
    ensures { (result ≡ length (converted_text file.now)) × (take result out.new ≡ converted_text file.now) }
{
    let conversion = convert_file(file, out);
    match conversion.answer {
        Ok(length) => length,
        Err(error) => match error {
            ConversionRefusal::Refused(refusal) => put_refusal(
                out,
                refusal,
                conversion.line,
            ).length,
            ConversionRefusal::NotConvertible => {
                let shown = [conversion.line];
                put_list(out, 0, b"(refused ", 22, &shown, 0, 1)
            }
        },
    }
}

// The text of the bytes read, which decide the whole file.
fn print_text(rt: &HostRuntime, file: &[u8]) {
    let mut out = [0u8; 32768];
    let k = put_text(file, &mut out);
    write_text(rt, file, &out[..k]);
}

fn main(rt: HostRuntime) {
    let mut text = [0u8; 65536];
    match read_front_plain(&mut rt.stdin(), &mut text) {
        Ok(n) => print_text(&rt, &text[..n]),
        Err(_) => report(rt.stderr(), b"convert: the input could not be read\n"),
    }
}
