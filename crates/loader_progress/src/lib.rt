// How far a loader has come (01: desk): the stage it is at and, for each part, the set of the forms it was given.
#![tactic(auto)]

ghost use Rattle.std.specs.Prelude.{◌≡◌, true, false, cond, [], ◌∷◌, ◌≤◌};
ghost use Rattle.rules.specs.Refusal.{code};
ghost use Rattle.loader_values.specs.Item.{placed};
ghost use Rattle.loader_progress.specs.Progress.{set_of, given, marked, missing, sized, scaled, ended, early, misplaced, repeated, incomplete, stage_number, stage_of};

use loader_values::{Item, Part};
use rules::{Kind, Refusal};

// Nothing given yet, problem given, scale given, end accepted.
#[derive(Clone, Copy)]
pub enum Stage {
    Start,
    Sized,
    Scaled,
    Ended,
}

// The number of a stage, one of the nine in which kodarfi_loader_new and kodarfi_loader_take give a loader to C.
pub fn stage_number(stage: Stage) -> u32
    ensures { result ≡ stage_number stage }
{
    match stage {
        Stage::Start => 0,
        Stage::Sized => 1,
        Stage::Scaled => 2,
        Stage::Ended => 3,
    }
}

// The stage of a number; one above 3 is that of no stage, and stands for nothing given.
pub fn stage_of(number: u32) -> Stage
    ensures { result ≡ stage_of number }
{
    match number {
        1 => Stage::Sized,
        2 => Stage::Scaled,
        3 => Stage::Ended,
        _ => Stage::Start,
    }
}

fn is_sized(stage: Stage) -> bool
    ensures { result ≡ sized stage }
{
    !matches!(stage, Stage::Start)
}

fn is_scaled(stage: Stage) -> bool
    ensures { result ≡ scaled stage }
{
    matches!(stage, Stage::Scaled | Stage::Ended)
}

// 14: whether the end was accepted.
pub fn is_ended(stage: Stage) -> bool
    ensures { result ≡ ended stage }
{
    matches!(stage, Stage::Ended)
}

// 11: whether a form comes before problem, or before scale.
pub fn is_early(stage: Stage, item: Item) -> bool
    ensures { result ≡ early stage item }
{
    match item {
        Item::Problem(_) => false,
        Item::Scale(_, _) => !is_sized(stage),
        Item::Of(_, _) | Item::End => !is_scaled(stage),
    }
}

// 3 for the place: whether i is not 1 to n, or n itself is out of range.
#[tactic(auto, unfolding(crate::specs::Progress::misplaced))]
pub fn is_misplaced(stage: Stage, n: u32, item: Item) -> bool
    ensures { result ≡ misplaced stage n item }
{
    (is_sized(stage) && !rules::is_in_range(Kind::Size, i64::from(n)))
        || !loader_values::is_placed(item, n)
}

// The set of a part.
pub fn set_of(sets: [u32; 5], part: Part) -> u32
    ensures { result ≡ set_of sets part }
{
    sets[part as usize]
}

// Whether the form of a part for the number i, from 1, was given.
fn has(sets: [u32; 5], part: Part, i: u32) -> bool
    requires { (1 ≤ i) × (i ≤ 32) }
    ensures { result ≡ given sets part i }
{
    loader_bit_set::has_place(set_of(sets, part), i - 1)
}

// The sets with that form, by a loop over the five, in which each index is a constant once it is unrolled: at an index that is worked out the sets stand in memory, and
// whatever copies the loader next waits for that store.
pub fn with(mut sets: [u32; 5], part: Part, i: u32) -> [u32; 5]
    requires { (1 ≤ i) × (i ≤ 32) }
    ensures { result ≡ marked sets part i }
{
    let index = part as usize;
    for (k, set) in sets.iter_mut().enumerate() {
        if k == index {
            *set = loader_bit_set::with_place(*set, i - 1);
        }
    }
    sets
}

// 12: whether a form was given already.
pub fn is_repeated(stage: Stage, sets: [u32; 5], item: Item) -> bool
    requires { placed 32 item ≡ true }
    ensures { result ≡ repeated stage sets item }
{
    match item {
        Item::Problem(_) => is_sized(stage),
        Item::Scale(_, _) => is_scaled(stage),
        Item::Of(part, i) => has(sets, part, loader_values::place_of(i)),
        Item::End => false,
    }
}

// How many forms are still missing out of 4n: rows, right sides, guesses and inverse rows.
// The four are named: in a chain over sets[..4] what `sum` and count_lacking require of each step was tried and not proved.
#[tactic(auto, unfolding(crate::specs::Progress::missing))]
fn count_missing(sets: [u32; 5], n: u32) -> u32
    requires { (1 ≤ n) × (n ≤ 32) }
    ensures { result ≡ missing n sets }
{
    loader_bit_set::count_lacking(sets[0], n)
        + loader_bit_set::count_lacking(sets[1], n)
        + loader_bit_set::count_lacking(sets[2], n)
        + loader_bit_set::count_lacking(sets[3], n)
}

// 13: end with forms outstanding, and their count. Any other form is accepted here.
#[tactic(auto, using(crate::proofs::Progress::end_size))]
pub fn judge_end(stage: Stage, n: u32, sets: [u32; 5], item: Item) -> Result<(), Refusal>
    requires { (early stage item ≡ false) × (misplaced stage n item ≡ false) }
    ensures { code result ≡ cond (incomplete n sets item) (13 ∷ missing n sets ∷ []) [] }
{
    if let Item::End = item {
        let count = count_missing(sets, n);
        if 0 < count {
            return Err(Refusal::Missing(count));
        }
    }
    Ok(())
}
