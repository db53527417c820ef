// What an operation does with values: the value that an assignment writes, and whether an assumption holds.
ghost use Rattle.std.specs.Prelude.{◌≡◌, ◌<◌, true};
ghost use Rattle.operations.specs.Operations.{is_assignment, operands_fit, plus, minus, monus, value};
ghost use Rattle.operations.specs.Operations.{key, related, related_in, right, holds};
ghost use Rattle.operations.specs.Values.{var};

use crate::{Operation, Values, order_of, with_constant};

// The value of variable k.
fn held(values: &Values, k: u32) -> u32
    requires { k < 64 }
    ensures { result ≡ var values.now k }
{
    values[k as usize]
}

// The sum, which wraps.
pub fn plus(x: u32, y: u32) -> u32
    ensures { result ≡ plus x y }
{
    x.wrapping_add(y)
}

// The difference that wraps.
pub fn minus(x: u32, y: u32) -> u32
    ensures { result ≡ minus x y }
{
    x.wrapping_sub(y)
}

// The difference that stops at nought.
fn monus(x: u32, y: u32) -> u32
    ensures { result ≡ monus x y }
{
    x.saturating_sub(y)
}

#[tactic(auto, using(crate::proofs::Codes::fitting), unfolding(crate::specs::Operations::value))]
pub fn value(o: Operation, values: &Values) -> u32
    requires { (is_assignment o ≡ true) × (operands_fit o ≡ true) }
    ensures { result ≡ value o (var values.now) }
{
    match o.code {
        0 => o.c,
        1 => held(values, o.b),
        2 => plus(held(values, o.b), o.c),
        3 => plus(held(values, o.b), held(values, o.c)),
        4 => monus(held(values, o.b), held(values, o.c)),
        _ => minus(0, held(values, o.b)),
    }
}

// Whether the relation r holds of a number and one above it, as of 0 and 1.
#[tactic(auto, unfolding(crate::specs::Operations::related))]
pub fn when_below(r: u32) -> bool
    ensures { result ≡ related r 0 1 }
{
    matches!(r, 1 | 2 | 3)
}

// Whether the relation r holds of equal numbers.
#[tactic(auto, unfolding(crate::specs::Operations::related))]
pub fn when_equal(r: u32) -> bool
    ensures { result ≡ related r 1 1 }
{
    matches!(r, 0 | 3 | 5)
}

// Whether the relation r holds of a number and one below it, as of 1 and 0. It has an arm for each relation, since
// `matches!` would compile to two comparisons here, and not to one shift.
#[tactic(auto, unfolding(crate::specs::Operations::related))]
pub fn when_above(r: u32) -> bool
    ensures { result ≡ related r 1 0 }
{
    match r {
        0 => false,
        1 => true,
        2 => false,
        3 => false,
        4 => true,
        5 => true,
        _ => false,
    }
}

// The relation r between two numbers: 0 =, 1 ≠, 2 <, 3 ≤, 4 >, 5 ≥. All of it is worked out, so that no jump depends
// on r.
pub fn related(r: u32, x: u32, y: u32) -> bool
    ensures { result ≡ related r x y }
{
    (x < y) & when_below(r) | (x == y) & when_equal(r) | (y < x) & when_above(r)
}

// Where x stands in the order from `least` on.
pub fn key(least: u32, x: u32) -> u32
    ensures { result ≡ key least x }
{
    minus(x, least)
}

// The relation r between two values in the order from `least` on.
pub fn related_in(least: u32, r: u32, x: u32, y: u32) -> bool
    ensures { result ≡ related_in least r x y }
{
    related(r, key(least, x), key(least, y))
}

// What va is compared with.
#[tactic(auto, using(crate::proofs::Codes::fitting))]
fn right(o: Operation, values: &Values) -> u32
    requires { operands_fit o ≡ true }
    ensures { result ≡ right o (var values.now) }
{
    if with_constant(o) {
        return o.c;
    }
    held(values, o.b)
}

#[tactic(auto, using(crate::proofs::Codes::fitting), unfolding(crate::specs::Operations::holds))]
pub fn holds(o: Operation, values: &Values) -> bool
    requires { operands_fit o ≡ true }
    ensures { result ≡ holds o (var values.now) }
{
    related_in(order_of(o), o.code % 8, held(values, o.a), right(o, values))
}
