// One operation on 64 lent values: what an assignment writes, and whether an assumption is met.
ghost use Rattle.std.specs.Prelude.{◌≡◌, cond};
ghost use Rattle.std.specs.Result.{result_err};
ghost use Rattle.operations.specs.Answers.{operation_fault, written_by, met_by};
ghost use Rattle.operations.specs.Operations.{is_assignment, is_assumption};

use crate::inner::meaning::{holds, value};
use crate::{Operation, is_assignment, is_assumption, operands_fit};
use base::{Reason, Refusal};

// The sorts of operations.
const ASSIGNMENT: bool = true;

const ASSUMPTION: bool = false;

// Whether an operation is of the sort.
fn of_sort<const SORT: bool>(o: Operation) -> bool
    ensures { result ≡ cond SORT (is_assignment o) (is_assumption o) }
{
    if SORT {
        is_assignment(o)
    } else {
        is_assumption(o)
    }
}

// Refused: 21 other than 64 values, 6 an operation of another sort than is asked for, 7 an operand that does not fit.
// The sort is asked for after the length, and for each sort apart, so that no test is made that is not due.
fn judge<const SORT: bool>(o: Operation, values: &[u32]) -> Result<(), Refusal>
    ensures { result_err result ≡ operation_fault (cond SORT (is_assignment o) (is_assumption o)) o values.now }
{
    if values.len() != 64 {
        return Err(Refusal::sole(Reason::WrongCall, 0));
    }
    if !of_sort::<SORT>(o) {
        return Err(Refusal::sole(Reason::UnknownCode, 0));
    }
    if !operands_fit(o) {
        return Err(Refusal::sole(Reason::WrongOperand, 0));
    }
    Ok(())
}

// The value that an assignment writes, from 64 lent values; refused: 21 other than 64 values, 6 no assignment, 7 an
// operand that does not fit.
pub fn value_written(o: Operation, values: &[u32]) -> Result<u32, Refusal>
    ensures { result ≡ written_by o values.now }
{
    judge::<ASSIGNMENT>(o, values)?;
    Ok(value(o, values.as_array().unwrap()))
}

// Whether 64 lent values meet an assumption; refused: 21 other than 64 values, 6 no assumption, 7 an operand that does
// not fit.
pub fn meets(o: Operation, values: &[u32]) -> Result<bool, Refusal>
    ensures { result ≡ met_by o values.now }
{
    judge::<ASSUMPTION>(o, values)?;
    Ok(holds(o, values.as_array().unwrap()))
}
