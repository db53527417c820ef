// What the tests outside Rattle call of the crates `operations` and `chart`: numbers and slices in, one number out.
#![tactic(auto)]

ghost use Rattle.std.specs.Prelude.{◌≡◌};
ghost use Rattle.operations.specs.Answers.{written_by, met_by};
ghost use Rattle.operations.specs.Trials.{implication, exclusive};
ghost use Rattle.chart.specs.Charts.{charted};
ghost use Rattle.chart.specs.Faults.{refusal};
ghost use Rattle.testing.specs.Numbers.{operation, implication_number, bit, fault_number, fault_position, written_number, met_number};

use chart::charts::Head;
use operations::Operation;
use operations::assumptions::Implication;

// 0 never, 1 implied, 2 not implied.
#[unsafe(no_mangle)]
pub extern "C" fn testing_implies(
    code: u32,
    a: u32,
    b: u32,
    c: u32,
    code2: u32,
    a2: u32,
    b2: u32,
    c2: u32,
) -> u32
    ensures { result ≡ implication_number (implication (operation code a b c) (operation code2 a2 b2 c2)) }
{
    let f = Operation { code, a, b, c };
    let g = Operation {
        code: code2,
        a: a2,
        b: b2,
        c: c2,
    };
    match operations::assumptions::implies(f, g) {
        Implication::Never => 0,
        Implication::Implied => 1,
        Implication::NotImplied => 2,
    }
}

// 1 where exactly one of two assumptions holds, for all values, else 0.
#[unsafe(no_mangle)]
pub extern "C" fn testing_exactly_one(
    code: u32,
    a: u32,
    b: u32,
    c: u32,
    code2: u32,
    a2: u32,
    b2: u32,
    c2: u32,
) -> u32
    ensures { result ≡ bit (exclusive (operation code a b c) (operation code2 a2 b2 c2)) }
{
    let f = Operation { code, a, b, c };
    let g = Operation {
        code: code2,
        a: a2,
        b: b2,
        c: c2,
    };
    u32::from(operations::assumptions::exactly_one(f, g))
}

// The number of a chart's refusal, 0 where there is none.
#[unsafe(no_mangle)]
pub extern "C" fn testing_fault(places: u32, alarm: u32, rows: &[u32]) -> u32
    ensures { result
        ≡ fault_number (refusal (charted (record { places = places; alarm = alarm }) rows.now)) }
{
    match chart::judge(Head { places, alarm }, rows) {
        Ok(()) => 0,
        Err(r) => r.number,
    }
}

// The position of a chart's refusal, 0 where there is none.
#[unsafe(no_mangle)]
pub extern "C" fn testing_fault_position(places: u32, alarm: u32, rows: &[u32]) -> usize
    ensures { result
        ≡ fault_position (refusal (charted (record { places = places; alarm = alarm }) rows.now)) }
{
    match chart::judge(Head { places, alarm }, rows) {
        Ok(()) => 0,
        Err(r) => r.position,
    }
}

// The value that an assignment writes, or 2^32 and a refusal's number.
#[unsafe(no_mangle)]
pub extern "C" fn testing_written(code: u32, a: u32, b: u32, c: u32, values: &[u32]) -> u64
    ensures { result ≡ written_number (written_by (operation code a b c) values.now) }
{
    match operations::values::value_written(Operation { code, a, b, c }, values) {
        Ok(x) => u64::from(x),
        Err(r) => 4294967296 + u64::from(r.number),
    }
}

// 1 where the values meet an assumption, 0 where they do not, or 2^32 and a refusal's number.
#[unsafe(no_mangle)]
pub extern "C" fn testing_meets(code: u32, a: u32, b: u32, c: u32, values: &[u32]) -> u64
    ensures { result ≡ met_number (met_by (operation code a b c) values.now) }
{
    match operations::values::meets(Operation { code, a, b, c }, values) {
        Ok(met) => u64::from(met),
        Err(r) => 4294967296 + u64::from(r.number),
    }
}
