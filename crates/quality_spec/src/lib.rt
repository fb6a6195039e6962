// What a call for the factor of the limits answers. Its code stands in the crate quality.
#![tactic(auto)]

// The largest (T·w_m + load_m) / margin_m, as it stands in the lowest row where it is largest.
#[derive(Clone, Copy)]
pub struct Fraction {
    pub numerator: u64,
    pub denominator: u64,
}
