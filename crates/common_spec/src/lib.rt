// What is answered of two proposals for the same equations (document 02, Paper 13). The code stands in the crates common_ends and common_interval.
#![tactic(auto)]

use rules::Refusal;

// Why no common intervals are written.
#[derive(Clone, Copy)]
pub enum CommonRefusal {
    // 8 for an interval list, of neither proposal
    TooShort,
    // a refusal of the first proposal
    First(Refusal),
    // a refusal of the second
    Second(Refusal),
    // 20: the two are not of the same equations
    Different,
    // 21: a solution limit is above 2^36
    TooWide,
}
