// The loader (01: desk): it collects the forms of a file, line by line.
#![tactic(auto)]

ghost use Rattle.std.specs.Prelude.{◌≡◌, true, cond, [], ◌∷◌};
ghost use Rattle.rules.specs.Refusal.{code};
ghost use Rattle.check_spec.specs.Input.{input};
ghost use Rattle.loader_lists.specs.Lists.{lists};
ghost use Rattle.loader_progress.specs.Progress.{ended};
ghost use Rattle.loader_order.specs.Through.{CheckedThrough};
ghost use Rattle.loader.specs.Taken.{fresh, after, TakenAs, numbers_of_loader, loader_of};
ghost use Rattle.loader.specs.Decided.{code_in, fits, DecidedIn, DecidedAs};

use line_form::Numbers;
use line_parts::CappedForm;
use loader_progress::Stage;
use loader_values::{Item, Part};
use rules::Refusal;

// n, s and t once given, how far the loader has come, and for each part the set of the forms it was given.
#[derive(Clone, Copy)]
pub struct Loader {
    n: u32,
    s: u32,
    t: u32,
    stage: Stage,
    sets: [u32; 5],
}

// What taking a line gives back. The loader stands beside the outcome, since TakenAs says of both what they are on a refusal too: the loader as before.
#[derive(Clone, Copy)]
pub struct Taken {
    pub loader: Loader,
    pub outcome: Result<(), Refusal>,
}

// What an accepted form gives before anything is written: the loader then, and the form to write.
#[derive(Clone, Copy)]
struct AcceptedForm {
    loader: Loader,
    item: Item,
}

impl Loader {
    // A loader that was given nothing yet.
    pub fn new() -> Loader
        ensures { result ≡ fresh }
    {
        Loader {
            n: 0,
            s: 0,
            t: 0,
            stage: Stage::Start,
            sets: [0; 5],
        }
    }

    // The loader in nine numbers, for callers that cannot hold the struct: kodarfi_loader_new and kodarfi_loader_take give them to C.
    pub fn numbers(self) -> [u32; 9]
        ensures { result ≡ numbers_of_loader self }
    {
        let sets = self.sets;
        [
            loader_progress::stage_number(self.stage),
            self.n,
            self.s,
            self.t,
            sets[0],
            sets[1],
            sets[2],
            sets[3],
            sets[4],
        ]
    }

    // The loader that nine numbers stand for, whatever they are.
    pub fn from_numbers(numbers: [u32; 9]) -> Loader
        ensures { result ≡ loader_of numbers }
    {
        Loader {
            n: numbers[1],
            s: numbers[2],
            t: numbers[3],
            stage: loader_progress::stage_of(numbers[0]),
            sets: [numbers[4], numbers[5], numbers[6], numbers[7], numbers[8]],
        }
    }

    // n, once given.
    pub fn size(self) -> u32
        ensures { result ≡ self.n }
    {
        self.n
    }

    // s, once given.
    pub fn solution_scale(self) -> u32
        ensures { result ≡ self.s }
    {
        self.s
    }

    // t, once given.
    pub fn inverse_scale(self) -> u32
        ensures { result ≡ self.t }
    {
        self.t
    }

    // Whether an end was accepted.
    pub fn has_ended(self) -> bool
        ensures { result ≡ ended self.stage }
    {
        loader_progress::is_ended(self.stage)
    }

    // The answer to a form: 11, 3 for i, 12, 3 for values, 4 and 13, in this order.
    #[tactic(auto, unfolding(crate::specs::Decided::code_in))]
    fn judge_form(self, form: CappedForm, count: usize, inside: bool) -> Result<(), Refusal>
        ensures { code result ≡ code_in self form count inside }
    {
        let item = loader_values::item_of(form);
        if loader_progress::is_early(self.stage, item) {
            return Err(Refusal::TooEarly);
        }
        if loader_progress::is_misplaced(self.stage, self.n, item) {
            return Err(Refusal::OutOfRange);
        }
        if loader_progress::is_repeated(self.stage, self.sets, item) {
            return Err(Refusal::Repeated);
        }
        if loader_values::is_outside(form, inside) {
            return Err(Refusal::OutOfRange);
        }
        if loader_values::is_miscounted(form, count, self.n as usize) {
            return Err(Refusal::WrongCount);
        }
        loader_progress::judge_end(self.stage, self.n, self.sets, item)
    }

    // The loader after an accepted form.
    fn advance(self, item: Item) -> Loader
        requires { fits item ≡ true }
        ensures { result ≡ after self item }
    {
        match item {
            Item::Problem(n) => Loader {
                n: loader_values::natural(n),
                stage: Stage::Sized,
                ..self
            },
            Item::Scale(s, t) => Loader {
                s: loader_values::natural(s),
                t: loader_values::natural(t),
                stage: Stage::Scaled,
                ..self
            },
            Item::Of(part, i) => Loader {
                sets: loader_progress::with(self.sets, part, loader_values::place_of(i)),
                ..self
            },
            Item::End => Loader {
                stage: Stage::Ended,
                ..self
            },
        }
    }

    // What is decided of a form.
    fn decide_form(self, form: CappedForm, numbers: Numbers) -> Result<AcceptedForm, Refusal>
        ensures { DecidedIn self form numbers result }
    {
        self.judge_form(form, numbers.count, numbers.inside)?;
        let item = loader_values::item_of(form);
        Ok(AcceptedForm {
            loader: self.advance(item),
            item,
        })
    }

    // What is decided of a line; short: whether a lent list is too short. The numbers of its form go into a lent array, and not into the Result, which would be
    // copied with them at each return: a take of one number then takes 1.4 times as long.
    fn decide(
        self,
        short: bool,
        line: &[u8],
        values: &mut [i64; 32],
    ) -> Result<AcceptedForm, Refusal>
        ensures { DecidedAs self short line.now values.new result }
    {
        if short {
            return Err(Refusal::TooShort);
        }
        if loader_progress::is_ended(self.stage) {
            return Err(Refusal::AfterEnd);
        }
        let read = line::read_line(line);
        let form = read.answer?;
        let listed = read.numbers.values;
        *values = listed;
        loader_values::put_values(form, values);
        self.decide_form(form, read.numbers)
    }

    // One line without its line feed, and the lists that its numbers go into: six, as kodarfi_loader_take is lent them.
    pub fn take(
        self,
        line: &[u8],
        matrix: &mut [i64],
        right: &mut [i64],
        tolerance: &mut [i64],
        guess: &mut [i64],
        inverse: &mut [i64],
        weights: &mut [i64],
    ) -> Taken
        ensures { TakenAs self line.now
            (lists matrix.old right.old tolerance.old guess.old inverse.old
            weights.old)
            result
            (lists matrix.new right.new tolerance.new guess.new inverse.new
            weights.new) }
    {
        let short = loader_lists::is_short(
            matrix.len(),
            right.len(),
            tolerance.len(),
            guess.len(),
            inverse.len(),
            weights.len(),
        );
        let mut values = [0i64; 32];
        match self.decide(short, line, &mut values) {
            Err(refusal) => Taken {
                loader: self,
                outcome: Err(refusal),
            },
            Ok(accepted) => {
                let given = loader_progress::set_of(self.sets, Part::Weight);
                loader_lists::write_all(
                    accepted.item,
                    &values,
                    given,
                    self.n as usize,
                    matrix,
                    right,
                    tolerance,
                    guess,
                    inverse,
                    weights,
                );
                Taken {
                    loader: accepted.loader,
                    outcome: Ok(()),
                }
            }
        }
    }

    // The check of what was collected, on the lists as they are now. After an accepted end it is the check on lists.
    pub fn check(
        self,
        matrix: &[i64],
        right: &[i64],
        tolerance: &[i64],
        guess: &[i64],
        inverse: &[i64],
        weights: &[i64],
        solution_bounds: &mut [u64],
        inverse_bounds: &mut [u64],
    ) -> Result<(), Refusal>
        ensures { CheckedThrough self.stage
            (input self.n self.s self.t matrix.now right.now tolerance.now guess.now
            inverse.now weights.now solution_bounds.old inverse_bounds.old)
            result solution_bounds.new inverse_bounds.new }
    {
        let short = check_ranges::is_short(
            matrix.len(),
            right.len(),
            tolerance.len(),
            guess.len(),
            inverse.len(),
            weights.len(),
            solution_bounds.len(),
            inverse_bounds.len(),
        );
        if loader_progress::is_ended(self.stage) {
            return check_lists::check(
                self.n,
                self.s,
                self.t,
                matrix,
                right,
                tolerance,
                guess,
                inverse,
                weights,
                solution_bounds,
                inverse_bounds,
            );
        }
        not_ended(short)
    }
}

// The answer to a check before an accepted end; short: whether a lent list is too short.
fn not_ended(short: bool) -> Result<(), Refusal>
    ensures { code result ≡ cond short (8 ∷ []) (15 ∷ []) }
{
    Err(if short {
        Refusal::TooShort
    } else {
        Refusal::NotEnded
    })
}
