// What a converter answers (document 02, Paper 14). Its code stands in the crates convert_writer and converter.
#![tactic(auto)]

use rules::Refusal;

// Why no new file is written. No `From<Refusal>`: the one call that meets a refusal of a line answers a `Conversion`, so there is no `?`.
#[derive(Clone, Copy)]
pub enum ConversionRefusal {
    // a refusal of a line, or 15
    Refused(Refusal),
    // 22: a tolerance is above 0, or the buffer is shorter than the new file
    NotConvertible,
}

// The length of the new file, or why there is none; and the number of the line that is refused, from 1, 0 where every line is accepted: the second is what
// kodarfi_convert_line gives to C beside the answer, on acceptance too.
#[derive(Clone, Copy)]
pub struct Conversion {
    pub answer: Result<usize, ConversionRefusal>,
    pub line: u64,
}
