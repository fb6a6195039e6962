// What the check of two nets, the second dependent on the first, answers (document 02, Paper 8). Its code stands in the crates dependent_coupling, dependent_net, check_held
// and dependent_check.
#![tactic(auto)]

use rules::Refusal;

// Which of the two nets is refused, and why.
#[derive(Clone, Copy)]
pub enum NetsRefusal {
    // the main net is refused: 8, 3, 5, 6 or 7
    Main(Refusal),
    // the main net is accepted, and the dependent net is refused: 8, 3, 5, 6 or 7
    Dependent(Refusal),
}
