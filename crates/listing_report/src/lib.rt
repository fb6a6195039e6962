// The report of an accepted proposal, written into a buffer.
#![tactic(auto)]

ghost use Rattle.std.specs.Prelude.{◌+◌, ◌*◌, ◌≤◌, ◌<◌, ◌^◌, nat_abs, length};
ghost use Rattle.line_form.specs.Form.{bytes};
ghost use Rattle.listing_text.specs.Wrote.{Wrote};
ghost use Rattle.entry.specs.Entry.{entry_value, entry_bound};
ghost use Rattle.listing_text.specs.Line.{each, pair_line};
ghost use Rattle.listing_report.specs.Report.{bounds_line};
ghost use Rattle.listing_report.specs.ShownReport.{line_in};
ghost use Rattle.listing_report.specs.Ready.{Reportable, report_in, most_of};

use listing_text::{put_bytes, put_list, put_natural, put_pair};
use shown_report::ShownReport;

mod shown_report;

// (entry i (V limit))
fn put_entry(out: &mut [u8], at: usize, i: u64, x: i64, e: u64, s: u32) -> usize
    requires { (nat_abs x ≤ 2 ^ 36) × ((s ≤ 20) × (at + 76 ≤ length out.old)) }
    ensures { Wrote 76 out.old at (pair_line (bytes "(entry ") i (entry_value s x) (entry_bound s x e)) out.new result }
{
    let value = integer::round_scaled(x, s);
    let bound = entry::entry_bound(x, e, s);
    put_pair(out, at, b"(entry ", i, value, bound)
}

// The three blocks of a report, a line for each row. An enum and no closure: `line_in` says of a block which line is written, and a closure that writes
// into the buffer would need that contract at each of its three calls.
#[derive(Clone, Copy)]
pub enum Block {
    Solution,
    Entry,
    Inverse,
}

impl<'a> ShownReport<'a> {
    // The line of row i in a block.
    fn put_line(self, out: &mut [u8], at: usize, block: Block, i: usize) -> usize
        requires { (i < self.n) × (at + most_of block ≤ length out.old) }
        ensures { Wrote (most_of block) out.old at (line_in block self.entry i) out.new result }
    {
        let number = i as u64 + 1;
        let x = self.guess[i];
        let e = self.solution_bounds[i];
        match block {
            Block::Solution => put_pair(out, at, b"(solution ", number, x, e),
            Block::Entry => put_entry(out, at, number, x, e, self.s),
            Block::Inverse => put_list(
                out,
                at,
                b"(inverse ",
                number,
                self.inverse_bounds,
                i * self.n,
                self.n,
            ),
        }
    }

    // The lines of a block.
    fn put_lines(self, out: &mut [u8], at: usize, block: Block) -> usize
        requires { at + self.n * most_of block ≤ length out.old }
        ensures { Wrote (self.entry.n * most_of block) out.old at (each self.entry.n (line_in block self.entry)) out.new result }
    {
        let mut index = at;
        for i in 0..self.n {
            index = self.put_line(out, index, block, i);
        }
        index
    }
}

// (bounds n)
fn put_bounds(out: &mut [u8], at: usize, n: u64) -> usize
    requires { at + 30 ≤ length out.old }
    ensures { Wrote 30 out.old at (bounds_line n) out.new result }
{
    let a = put_bytes(out, at, b"(bounds ");
    let b = put_natural(out, a, n);
    put_bytes(out, b, b")\n")
}

// The report of an accepted proposal, from the start of the buffer on.
pub fn put_report(
    out: &mut [u8],
    n: usize,
    s: u32,
    guess: &[i64],
    solution_bounds: &[u64],
    inverse_bounds: &[u64],
) -> usize
    requires reportable { Reportable n s guess.now solution_bounds.now inverse_bounds.now }
    requires in_bounds { 32768 ≤ length out.old }
    ensures { Wrote 32768 out.old 0
        (report_in n s guess.now solution_bounds.now inverse_bounds.now) out.new result }
{
    let shown = ShownReport {
        n,
        s,
        guess,
        solution_bounds,
        inverse_bounds,
    };
    let a = put_bounds(out, 0, n as u64);
    let b = shown.put_lines(out, a, Block::Solution);
    let c = shown.put_lines(out, b, Block::Entry);
    let d = shown.put_lines(out, c, Block::Inverse);
    put_bytes(out, d, b"(end)\n")
}
