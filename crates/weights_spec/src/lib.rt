// What a search for weights answers (document 02, Paper 7). Its code stands in the crates weights_steps and weights_search.
#![tactic(auto)]

ghost use Rattle.std.specs.Prelude.{◌≡◌};
ghost use Rattle.weights_spec.specs.declared.SearchRefusal.TheVariants.{Refused};

use rules::Refusal;

// Why no list of weights was found. Where one was, the answer is its number in the sequence, from 1: so many lists were tried.
#[derive(Clone, Copy)]
pub enum SearchRefusal {
    // 8 or 3
    Refused(Refusal),
    // 18: none of the allowed lists is good
    NoneGood,
}

impl From<Refusal> for SearchRefusal {
    ghost from_gives = { λ r e. e ≡ Refused r };

    fn from(r: Refusal) -> SearchRefusal {
        SearchRefusal::Refused(r)
    }
}
