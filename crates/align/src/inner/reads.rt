// The variables that an operation reads, as sets.
ghost use Rattle.std.specs.Prelude.{◌≡◌, true};
ghost use Rattle.operations.specs.Operations.{is_assignment, is_assumption, fits, if_variable, operands_fit};
ghost use Rattle.sets.specs.Sets.{meets, set_of};
ghost use Rattle.align.specs.Reads.{read_set};

use operations::inner::trials::partner;
use operations::{Operand, Operation};
use sets::inner::bits::{alone, joined, meets};

// The variable in an operand's place, if it is one.
fn if_variable(operand: Operand, x: u32) -> u64
    requires { fits operand x ≡ true }
    ensures { result ≡ set_of (if_variable operand x) }
{
    match operand {
        Operand::Variable => alone(x),
        Operand::Constant => 0,
        Operand::Unused => 0,
    }
}

// The variables that an assignment reads: those on its right.
fn right(o: Operation) -> u64
    requires { (is_assignment o ≡ true) × (operands_fit o ≡ true) }
    ensures { result ≡ read_set o }
{
    joined(
        if_variable(operations::operand_b(o), o.b),
        if_variable(operations::operand_c(o), o.c),
    )
}

// Whether some variable that an assignment reads is in s. Nothing is in an empty set, as most are.
pub fn meets_right(s: u64, o: Operation) -> bool
    requires { (is_assignment o ≡ true) × (operands_fit o ≡ true) }
    ensures { result ≡ meets s (read_set o) }
{
    if s == 0 {
        return false;
    }
    meets(s, right(o))
}

// Whether some variable that an assumption compares is in s. One that compares with a constant has its variable for
// both, so that no jump tells the kinds apart.
pub fn meets_compared(s: u64, o: Operation) -> bool
    requires { (is_assumption o ≡ true) × (operands_fit o ≡ true) }
    ensures { result ≡ meets s (read_set o) }
{
    meets(s, joined(alone(o.a), alone(partner(o))))
}
