// The program: a file on standard input, its listing on standard output.
#![tactic(auto)]

ghost use Rattle.std.specs.Prelude.{◌≡◌};
ghost use Rattle.listing.specs.Listing.{listing_of};

use program_input::read_front_plain;
use std::io::Stderr;

fn report(errors: Stderr, text: &[u8]) {
    let _ = errors.write_all(text);
}

// The one place that writes to standard output: what it is handed is the listing of the file.
fn write_listing(rt: &HostRuntime, file: &[u8], bytes: &[u8])
    requires { bytes.now ≡ listing_of file.now }
{
    if rt.stdout().write_all(bytes).is_err() {
        report(rt.stderr(), b"register: the listing could not be written\n");
    }
}

// The listing of the bytes read, which decide the whole file.
fn print_listing(rt: &HostRuntime, file: &[u8]) {
    let mut out = [0u8; 32768];
    let k = listing::listing(file, &mut out);
    write_listing(rt, file, &out[..k]);
}

fn main(rt: HostRuntime) {
    let mut text = [0u8; 65536];
    match read_front_plain(&mut rt.stdin(), &mut text) {
        Ok(n) => print_listing(&rt, &text[..n]),
        Err(_) => report(rt.stderr(), b"register: the input could not be read\n"),
    }
}
