// Operations: their kinds and operands. `values` has the entry points that evaluate one and refuse bad input
// themselves, `assumptions` those of the test of two assumptions; `inner` is what the crates above may call once an
// operation is known to be right. All of these use this file, and it uses none of them.
#![tactic(auto)]

ghost use Rattle.std.specs.Prelude.{◌≡◌, ℕ, ◌^◌, ◌<◌, ◌&&◌, nat_lt};
ghost use Rattle.operations.specs.Operations.{kind, is_known, is_assignment, is_assumption, with_constant, order, operand_b, assigned_c, operand_c, fits, operands_fit};

pub mod assumptions; // assumptions.rt: the exact test of two assumptions
pub mod inner; // inner.rt: for the crates above
pub mod values; // values.rt: one operation on 64 lent values

// The operation of a row: its code "op" and the operands.
#[derive(Clone, Copy, Debug, PartialEq, Eq)]
pub struct Operation {
    pub code: u32,
    pub a: u32,
    pub b: u32,
    pub c: u32,
}

#[derive(Clone, Copy, Debug, PartialEq, Eq)]
pub enum Kind {
    Assignment,
    ConstantComparison,
    VariableComparison,
    Unknown,
}

// The values of all variables.
pub type Values = [u32; 64];

// What an operand is to its operation.
#[derive(Clone, Copy, Debug, PartialEq, Eq)]
pub enum Operand {
    Variable,
    Constant,
    Unused,
}

// Kinds of codes are told apart by ranges here alone; with_constant and is_assumption_code reckon with the code, and
// the tables of limit_b, limit_c and opposite (inner/opposed.rt) go by the codes themselves.
#[tactic(auto, unfolding(crate::specs::Operations::kind))]
pub fn kind_of(code: u32) -> Kind
    ensures { result ≡ kind code }
{
    match code {
        0..=5 => Kind::Assignment,
        16..=21 | 24..=29 => Kind::ConstantComparison,
        32..=37 | 40..=45 => Kind::VariableComparison,
        _ => Kind::Unknown,
    }
}

pub fn is_known(o: Operation) -> bool
    ensures { result ≡ is_known o }
{
    !matches!(kind_of(o.code), Kind::Unknown)
}

// Whether the operations with this code are assignments: for whoever has a row in a table, which need not be copied to
// ask.
pub fn is_assignment_code(code: u32) -> bool
    ensures { (o : Operation) → o.code ≡ code → result ≡ is_assignment o }
{
    matches!(kind_of(code), Kind::Assignment)
}

pub fn is_assignment(o: Operation) -> bool
    ensures { result ≡ is_assignment o }
{
    is_assignment_code(o.code)
}

// Whether the operations with this code are assumptions. It is reckoned, so that no jump depends on the code.
#[tactic(auto, unfolding(crate::specs::Operations::kind))]
pub fn is_assumption_code(code: u32) -> bool
    ensures { (o : Operation) → o.code ≡ code → result ≡ is_assumption o }
{
    (code % 8 < 6) & (15 < code) & (code < 48)
}

pub fn is_assumption(o: Operation) -> bool
    ensures { result ≡ is_assumption o }
{
    is_assumption_code(o.code)
}

// Whether it compares with its constant: reckoned with the code, so that the step, which asks it of every assumption,
// takes no jump.
#[tactic(auto, unfolding(crate::specs::Operations::kind))]
pub fn with_constant(o: Operation) -> bool
    ensures { result ≡ with_constant o }
{
    // The code that this one repeats, if it repeats one.
    let code = o.code / 16 * 16 + o.code % 8;
    code.wrapping_sub(16) < 6
}

// The least value of the order in which it compares: 0, or that of two's complement.
pub fn order_of(o: Operation) -> u32
    ensures { result ≡ order o }
{
    if o.code / 8 % 2 == 1 { 2147483648 } else { 0 }
}

// What b is to an operation.
#[tactic(auto, unfolding(crate::specs::Operations::operand_b))]
pub fn operand_b(o: Operation) -> Operand
    ensures { result ≡ operand_b o }
{
    match kind_of(o.code) {
        Kind::Assignment => if o.code == 0 {
            Operand::Unused
        } else {
            Operand::Variable
        },
        Kind::VariableComparison => Operand::Variable,
        Kind::ConstantComparison | Kind::Unknown => Operand::Unused,
    }
}

// What c is to an assignment.
#[tactic(auto, unfolding(crate::specs::Operations::assigned_c))]
fn assigned_c(code: u32) -> Operand
    ensures { result ≡ assigned_c code }
{
    match code {
        0 | 2 => Operand::Constant,
        3 | 4 => Operand::Variable,
        _ => Operand::Unused,
    }
}

// What c is to an operation.
#[tactic(auto, unfolding(crate::specs::Operations::operand_c))]
pub fn operand_c(o: Operation) -> Operand
    ensures { result ≡ operand_c o }
{
    match kind_of(o.code) {
        Kind::Assignment => assigned_c(o.code),
        Kind::ConstantComparison => Operand::Constant,
        Kind::VariableComparison | Kind::Unknown => Operand::Unused,
    }
}

// Whether a number can stand in an operand's place.
fn fits(operand: Operand, x: u32) -> bool
    ensures { result ≡ fits operand x }
{
    match operand {
        Operand::Variable => x <= 63,
        Operand::Constant => true,
        Operand::Unused => x == 0,
    }
}

// Whether every operand is as the code wants it.
#[tactic(auto, unfolding(crate::specs::Operations::operands_fit))]
pub fn operands_fit(o: Operation) -> bool
    ensures { result ≡ operands_fit o }
{
    o.a <= 63 && fits(operand_b(o), o.b) && fits(operand_c(o), o.c)
}

// The least number that cannot stand in the place of b; 0 for a code that is not known. By a table of codes and not by
// their kinds, so that judging a row takes no jump. Each code has an arm: arms of ranges would be tested by jumps.
#[tactic(auto, unfolding(crate::specs::Operations::kind, crate::specs::Operations::operand_b))]
fn limit_b(code: u32) -> u32
    ensures { (o : Operation) → o.code ≡ code → (b : ℕ) → nat_lt b result ≡ is_known o && fits (operand_b o) b }
{
    match code {
        0 => 1,
        1 => 64,
        2 => 64,
        3 => 64,
        4 => 64,
        5 => 64,
        16 => 1,
        17 => 1,
        18 => 1,
        19 => 1,
        20 => 1,
        21 => 1,
        24 => 1,
        25 => 1,
        26 => 1,
        27 => 1,
        28 => 1,
        29 => 1,
        32 => 64,
        33 => 64,
        34 => 64,
        35 => 64,
        36 => 64,
        37 => 64,
        40 => 64,
        41 => 64,
        42 => 64,
        43 => 64,
        44 => 64,
        45 => 64,
        _ => 0,
    }
}

// Likewise for c, of which a constant may be any u32. No code that is known has the 0 of the others, so that the table
// has them all.
#[tactic(auto, unfolding(crate::specs::Operations::kind, crate::specs::Operations::operand_c, crate::specs::Operations::assigned_c))]
fn limit_c(code: u32) -> u64
    ensures { (o : Operation) → o.code ≡ code → (c : ℕ) → c < 2 ^ 32
        → nat_lt c result ≡ is_known o && fits (operand_c o) c }
{
    match code {
        0 => 4294967296,
        1 => 1,
        2 => 4294967296,
        3 => 64,
        4 => 64,
        5 => 1,
        16 => 4294967296,
        17 => 4294967296,
        18 => 4294967296,
        19 => 4294967296,
        20 => 4294967296,
        21 => 4294967296,
        24 => 4294967296,
        25 => 4294967296,
        26 => 4294967296,
        27 => 4294967296,
        28 => 4294967296,
        29 => 4294967296,
        32 => 1,
        33 => 1,
        34 => 1,
        35 => 1,
        36 => 1,
        37 => 1,
        40 => 1,
        41 => 1,
        42 => 1,
        43 => 1,
        44 => 1,
        45 => 1,
        _ => 0,
    }
}

// Whether the code is known and every operand is as it wants it.
#[tactic(auto, unfolding(crate::specs::Operations::operands_fit))]
pub fn is_right(o: Operation) -> bool
    ensures { result ≡ is_known o && operands_fit o }
{
    (o.a <= 63) & (o.b < limit_b(o.code)) & (u64::from(o.c) < limit_c(o.code))
}
