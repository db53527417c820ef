// The first row of a place that is as sought, in table order. `rows` is the part of a table that leaves the place.
ghost use Rattle.std.specs.Prelude.{◌≡◌, false, ◌&&◌, ℕ, ◌<◌, eqb};
ghost use Rattle.operations.specs.Operations.{same, is_assignment, is_assumption};
ghost use Rattle.operations.specs.Trials.{never, implication};
ghost use Rattle.chart.specs.Charts.{size, operation};
ghost use Rattle.align.specs.Steps.{find, is_implied};

use chart::inner::rows::{a_at, is_assignment_at, operation_at, same_operation};
use operations::inner::trials::follows;
use operations::{Operation, assumptions};

// The row whose operation is equal to that of row j of another part.
pub fn same(rows: &[u32], part: &[u32], j: usize) -> Option<usize>
    requires { j < size part.now }
    ensures { result ≡ find rows.now (λ o. same o (operation part.now j)) }
{
    (0..rows.len() / 6).find(|&k| same_operation(rows, k, part, j))
}

// The assignment of a place, which can only be its first row: where a place has two, both are assumptions.
pub fn assignment(rows: &[u32]) -> Option<usize>
    requires { (k : ℕ) → 0 < k → k < size rows.now → is_assignment (operation rows.now k) ≡ false }
    ensures { result ≡ find rows.now is_assignment }
{
    if rows.len() < 6 {
        return None;
    }
    if is_assignment_at(rows, 0) {
        return Some(0);
    }
    None
}

// The assignment of a place, if it writes variable a.
pub fn writing(rows: &[u32], a: u32) -> Option<usize>
    requires { (k : ℕ) → 0 < k → k < size rows.now → is_assignment (operation rows.now k) ≡ false }
    ensures { result ≡ find rows.now (λ o. is_assignment o && eqb o.a a) }
{
    assignment(rows).filter(|&k| a_at(rows, k) == a)
}

// Whether o2 is an assumption that o implies, o being one that some values meet.
fn implies(o: Operation, o2: Operation) -> bool
    requires { never o ≡ false }
    ensures { result ≡ is_assumption o2 && is_implied (implication o o2) }
{
    if !operations::is_assumption(o2) {
        return false;
    }
    follows(o, o2)
}

// The assumption that o implies. Whether some values meet o is asked once, for all rows.
pub fn implied(rows: &[u32], o: Operation) -> Option<usize>
    ensures { result ≡ find rows.now (λ o2. is_assumption o2 && is_implied (implication o o2)) }
{
    if assumptions::never(o) {
        return None;
    }
    (0..rows.len() / 6).find(|&k| implies(o, operation_at(rows, k)))
}
