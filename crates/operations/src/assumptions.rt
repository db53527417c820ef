// The exact test of two assumptions.
ghost use Rattle.std.specs.Prelude.{◌≡◌, true, ◌↔◌};
ghost use Rattle.operations.specs.Assumptions.{Operands, NeverHolds, Means, ExactlyOne};
ghost use Rattle.operations.specs.Operations.{is_assumption};
ghost use Rattle.operations.specs.Trials.{never, never_holds, exclusive, implication};

use crate::inner::opposed::opposed;
use crate::inner::trials::{follows, independent, possible, sought};
use crate::{Operation, is_assumption_code};

// What the test of two assumptions answers.
#[derive(Clone, Copy, Debug, PartialEq, Eq)]
pub enum Implication {
    // No values meet the first.
    Never,
    // All values that meet the first meet the second.
    Implied,
    NotImplied,
}

// Whether no values meet f.
#[tactic(auto, using(crate::proofs::Exact::never_tested))]
pub fn never(f: Operation) -> bool
    ensures is { result ≡ never f }
    ensures means { Operands f → (result ≡ true) ↔ NeverHolds f }
{
    !possible(f, true)
}

// Whether the row of an operation can never be taken: o is an assumption, and no values meet it. Both are worked out,
// so that no jump depends on o.
#[tactic(auto, unfolding(crate::specs::Trials::never_holds))]
pub fn never_holds(o: Operation) -> bool
    ensures is { result ≡ never_holds o }
    ensures means { Operands o → (result ≡ true) ↔ ((is_assumption o ≡ true) × NeverHolds o) }
{
    is_assumption_code(o.code) & never(o)
}

// The test of two assumptions: the first never holds, else it implies the second or does not. What it says holds of
// all 64 values, both ways.
pub fn implies(f: Operation, g: Operation) -> Implication
    ensures is { result ≡ implication f g }
    ensures means { Operands f → Operands g → Means result f g }
{
    if never(f) {
        return Implication::Never;
    }
    if follows(f, g) {
        return Implication::Implied;
    }
    Implication::NotImplied
}

// Whether exactly one of two assumptions holds, for all values.
pub fn exactly_one(f: Operation, g: Operation) -> bool
    ensures is { result ≡ exclusive f g }
    ensures means { Operands f → Operands g → (result ≡ true) ↔ ExactlyOne f g }
{
    if opposed(f, g) {
        return true;
    }
    if independent(f, g) {
        return !(possible(f, true) & possible(g, true))
            & !(possible(f, false) & possible(g, false));
    }
    !sought(f, true, g, true) && !sought(f, false, g, false)
}
