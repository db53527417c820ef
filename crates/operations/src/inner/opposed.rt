// Two assumptions that compare the same in opposite ways.
ghost use Rattle.std.specs.Prelude.{◌≡◌, true, ◌≢◌};
ghost use Rattle.operations.specs.Operations.{is_assumption};
ghost use Rattle.operations.specs.inner.Opposed.{OppositeCodes, Opposed};

use crate::Operation;

// The code that compares in the opposite way, in the same order; 6, which is no code, where there is none.
#[tactic(auto, using(crate::proofs::Opposed::opposite_relations), unfolding(crate::specs::Operations::kind))]
fn opposite(code: u32) -> u32
    ensures { (result ≢ 6) → OppositeCodes code result }
{
    match code {
        16 => 17,
        17 => 16,
        18 => 21,
        19 => 20,
        20 => 19,
        21 => 18,
        24 => 25,
        25 => 24,
        26 => 29,
        27 => 28,
        28 => 27,
        29 => 26,
        32 => 33,
        33 => 32,
        34 => 37,
        35 => 36,
        36 => 35,
        37 => 34,
        40 => 41,
        41 => 40,
        42 => 45,
        43 => 44,
        44 => 43,
        45 => 42,
        _ => 6,
    }
}

// Whether f and g are assumptions that compare the same in opposite ways, as the two rows of most places do: no trial
// is needed then.
#[tactic(auto, using(crate::proofs::Opposed::opposed_codes))]
pub fn opposed(f: Operation, g: Operation) -> bool
    ensures { result ≡ true → (is_assumption f ≡ true) × (is_assumption g ≡ true) × Opposed f g }
{
    // 6, the answer that there is no opposite, is no code of an assumption, so a code of at least 16 is asked for.
    let s = opposite(f.code);
    (f.a == g.a) & (f.b == g.b) & (f.c == g.c) & (s == g.code) & (15 < g.code)
}
