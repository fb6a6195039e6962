// What a report shows of an accepted proposal: its size and scale, its guess, and the limits that were found.
ghost use Rattle.listing_report.specs.Ready.{Reportable};

#[derive(Clone, Copy)]
pub struct ShownReport<'a> {
    pub n: usize,
    pub s: u32,
    pub guess: &'a [i64],
    pub solution_bounds: &'a [u64],
    pub inverse_bounds: &'a [u64],
    ghost reportable: { Reportable n s guess.now solution_bounds.now inverse_bounds.now },
}
