// The answers of calls, told to a host as a number and two values.
ghost use Rattle.std.specs.Prelude.{◌≡◌, ℕ, List, [], ◌∷◌, get_or};
ghost use Rattle.refusal.specs.Refusal.{answer_number, answer_values};
ghost use Rattle.compare.specs.Agreeing.{same_or_differs};
ghost use Rattle.duplicates.specs.Answers.{groups_values};
ghost use Rattle.join.specs.Answers.{joint_values};
ghost use Rattle.table.specs.Extent.{extent_values};
ghost use Rattle.table.specs.Survey.{held_values, size_values};

use duplicates::Groups;
use join::Joint;
use refusal::Refusal;
use table::Used;

// A result as a host is told it: at most two values, 0 for each that is not there.
pub trait Told {
    ghost shown: { Self → List ℕ };

    fn told(self) -> (u64, u64)
        ensures first { result.0 ≡ get_or (shown self) 0 0 }
        ensures second { result.1 ≡ get_or (shown self) 1 0 };
}

impl Told for u32 {
    ghost shown = { size_values };

    #[tactic(auto, unfolding(table::specs::Survey::size_values))]
    fn told(self) -> (u64, u64) {
        (u64::from(self), 0)
    }
}

impl Told for u64 {
    ghost shown = { λ n. n ∷ [] };

    fn told(self) -> (u64, u64) {
        (self, 0)
    }
}

impl Told for usize {
    ghost shown = { λ n. n ∷ [] };

    fn told(self) -> (u64, u64) {
        (self as u64, 0)
    }
}

// 0 no, 1 yes.
impl Told for bool {
    ghost shown = { held_values };

    #[tactic(auto, unfolding(table::specs::Survey::held_values, table::specs::Survey::yes_or_no))]
    fn told(self) -> (u64, u64) {
        (u64::from(self), 0)
    }
}

// What `same` answers.
#[derive(Clone, Copy)]
pub struct Sameness(pub bool);

// 0 same, 1 differs.
impl Told for Sameness {
    ghost shown = { λ s. same_or_differs s.0 };

    #[tactic(auto, unfolding(compare::specs::Agreeing::same_or_differs))]
    fn told(self) -> (u64, u64) {
        (u64::from(!self.0), 0)
    }
}

impl Told for Used {
    ghost shown = { extent_values };

    #[tactic(auto, unfolding(table::specs::Extent::extent_values))]
    fn told(self) -> (u64, u64) {
        (self.rows as u64, self.bytes as u64)
    }
}

impl Told for Groups {
    ghost shown = { groups_values };

    #[tactic(auto, unfolding(duplicates::specs::Answers::groups_values))]
    fn told(self) -> (u64, u64) {
        (self.records, self.distinct)
    }
}

impl Told for Joint {
    ghost shown = { joint_values };

    #[tactic(auto, unfolding(join::specs::Answers::joint_values))]
    fn told(self) -> (u64, u64) {
        (self.bytes as u64, self.records)
    }
}

// The answer of `same`, as a host is told it.
#[tactic(auto, unfolding(refusal::specs::Refusal::answer_number, refusal::specs::Refusal::answer_values))]
pub fn comparison(answer: Result<bool, Refusal>) -> Result<Sameness, Refusal>
    ensures number { answer_number result ≡ answer_number answer }
    ensures values { answer_values (λ s. same_or_differs s.0) result ≡ answer_values same_or_differs answer }
{
    answer.map(Sameness)
}

// Puts an answer's values, the result's or the refusal's, where a host finds them, and returns its number.
#[tactic(auto, unfolding(refusal::specs::Refusal::answer_number, refusal::specs::Refusal::answer_values))]
pub fn tell<T: Told>(answer: Result<T, Refusal>, first: &mut u64, second: &mut u64) -> u32
    ensures number { result ≡ answer_number answer }
    ensures first { first.new ≡ get_or (answer_values T.shown answer) 0 0 }
    ensures second { second.new ≡ get_or (answer_values T.shown answer) 1 0 }
{
    match answer {
        Ok(told) => {
            (*first, *second) = told.told();
            0
        }
        Err(refusal) => {
            let values = refusal::values(refusal);
            *first = values.first.unwrap_or(0);
            *second = values.second.unwrap_or(0);
            refusal::number(refusal)
        }
    }
}
