// One aligned step by a new row. `part` is the part of the new table that leaves a place, and j the row's number in it.
ghost use Rattle.std.specs.Prelude.{◌≡◌, true, ◌<◌, Some};
ghost use Rattle.base.specs.Says.{bool};
ghost use Rattle.operations.specs.Operations.{is_known, is_assignment, is_assumption, same, operands_fit};
ghost use Rattle.chart.specs.Charts.{size, to, operation};
ghost use Rattle.chart.specs.inner.Comparisons.{charts_of};
ghost use Rattle.align.specs.Steps.{find, rewritten, writing_row, unequal, assigned, matched, counterpart, assumed, moved, fair, rescued, arrived, rows_at, step};
ghost use Rattle.align.specs.declared.spots.Spot.{Spot};

use crate::inner::follow::follow;
use crate::inner::{reads, seek};
use crate::spots::Spot;
use chart::charts::Heads;
use chart::inner::comparison::Comparison;
use chart::inner::rows::{a_at, is_assignment_at, new_to, old_to, operation_at};
use chart::places::{NewPlace, OldPlace};
use operations::Operation;
use sets::inner::bits;

// The set after an assignment that both charts take.
fn rewritten(set: u64, o: Operation) -> u64
    requires { (is_assignment o ≡ true) × (operands_fit o ≡ true) }
    ensures { result ≡ rewritten set o }
{
    if reads::meets_right(set, o) {
        return bits::with(set, o.a);
    }
    bits::without(set, o.a)
}

// By a new assignment to variable a that no old row of the place equals. In edition 2 the old chart moves too, where
// the place has an assignment to a.
fn unequal(charts: &Comparison<'_>, h: Spot, a: u32) -> Spot
    requires place_bound { h.place.0 < 64 }
    requires a_bound { a < 64 }
    ensures { result ≡ unequal (charts_of charts.now) h a
        (writing_row (charts_of charts.now) h.place a) }
{
    let p = h.place;
    let set = bits::with(h.set, a);
    if charts.heads.edition != 2 {
        return Spot { place: p, set };
    }
    let rows = charts.old_part(p);
    match seek::writing(rows, a) {
        Some(k) => Spot {
            place: old_to(rows, k),
            set,
        },
        None => Spot { place: p, set },
    }
}

// By a new assignment: together with the equal old row, if there is one.
fn assigned(charts: &Comparison<'_>, h: Spot, part: &[u32], j: usize) -> Spot
    requires place_bound { h.place.0 < 64 }
    requires j_bound { (j < size part.now) × (is_assignment (operation part.now j) ≡ true)
        × (operands_fit (operation part.now j) ≡ true) }
    ensures { result ≡ assigned (charts_of charts.now) h
        (operation part.now j)
        (find (rows_at (charts_of charts.now) h.place)
        (λ o. same o (operation part.now j))) }
{
    let p = h.place;
    let rows = charts.old_part(p);
    match seek::same(rows, part, j) {
        Some(k) => Spot {
            place: old_to(rows, k),
            set: rewritten(h.set, operation_at(part, j)),
        },
        None => unequal(charts, h, a_at(part, j)),
    }
}

// By an assumption and row k of the old place, which is matched with it.
fn matched(set: u64, rows: &[u32], k: usize, o: Operation) -> Option<Spot>
    requires k_bound { (k < size rows.now) × (is_assumption (operation rows.now k) ≡ true)
        × (operands_fit (operation rows.now k) ≡ true) }
    requires o_value { (is_assumption o ≡ true) × (operands_fit o ≡ true) }
    ensures { result ≡ matched set rows.now k o }
{
    if reads::meets_compared(set, o) {
        return None;
    }
    if reads::meets_compared(set, operation_at(rows, k)) {
        return None;
    }
    Some(Spot {
        place: old_to(rows, k),
        set,
    })
}

// By an assumption whose operation is that of row `equal`: what either row reads is asked for once.
fn matched_same(set: u64, rows: &[u32], equal: usize) -> Option<Spot>
    requires { (equal < size rows.now) × (is_assumption (operation rows.now equal) ≡ true)
        × (operands_fit (operation rows.now equal) ≡ true) }
    ensures { result ≡ matched set rows.now equal (operation rows.now equal) }
{
    if reads::meets_compared(set, operation_at(rows, equal)) {
        return None;
    }
    Some(Spot {
        place: old_to(rows, equal),
        set,
    })
}

// By a new assumption, once old assignments have been followed.
fn assumed(charts: &Comparison<'_>, h: Spot, part: &[u32], j: usize) -> Option<Spot>
    requires place_bound { h.place.0 < 64 }
    requires j_bound { (j < size part.now) × (is_assumption (operation part.now j) ≡ true)
        × (operands_fit (operation part.now j) ≡ true) }
    ensures { result ≡ assumed (charts_of charts.now) h
        (operation part.now j)
        (counterpart (charts_of charts.now) h.place
        (operation part.now j)) }
{
    let p = h.place;
    if p == charts.heads.old.alarm {
        return Some(h);
    }
    let rows = charts.old_part(p);
    match seek::same(rows, part, j) {
        Some(k) => matched_same(h.set, rows, k),
        None => match seek::implied(rows, operation_at(part, j)) {
            Some(k) => matched(h.set, rows, k, operation_at(part, j)),
            None => Some(h),
        },
    }
}

// The step up to the rule of the new alarm.
fn moved(charts: &Comparison<'_>, h: Spot, part: &[u32], j: usize) -> Option<Spot>
    requires place_bound { h.place.0 < 64 }
    requires j_bound { (j < size part.now) × (is_known (operation part.now j) ≡ true)
        × (operands_fit (operation part.now j) ≡ true) }
    ensures { result ≡ moved (charts_of charts.now) h (operation part.now j) }
{
    if is_assignment_at(part, j) {
        return Some(assigned(charts, h, part, j));
    }
    let next = follow(charts, h)?;
    assumed(charts, next, part, j)
}

// Whether the old place is the old alarm if the new one is the new alarm.
pub fn fair(heads: Heads, p: OldPlace, q: NewPlace) -> bool
    ensures { result ≡ bool (fair heads p q) }
{
    (q != heads.new.alarm) | (p == heads.old.alarm)
}

// A step that comes to the new alarm without the old one. In edition 2 old assignments are followed first: where they
// meet the old alarm, it goes to both.
fn rescued(charts: &Comparison<'_>, h: Spot) -> Option<Spot>
    requires { h.place.0 < 64 }
    ensures { result ≡ rescued (charts_of charts.now) h }
{
    if charts.heads.edition != 2 {
        return None;
    }
    let next = follow(charts, h)?;
    if next.place == charts.heads.old.alarm {
        return Some(next);
    }
    None
}

// The rule of the new alarm, of what the step has come to.
fn arrived(charts: &Comparison<'_>, q: NewPlace, came: Option<Spot>) -> Option<Spot>
    requires { (h : Spot) → came ≡ Some h → h.place.0 < 64 }
    ensures { result ≡ arrived (charts_of charts.now) q came }
{
    let h = came?;
    if fair(charts.heads, h.place, q) {
        return Some(h);
    }
    rescued(charts, h)
}

// The aligned step from an old place and its set by row j of the part. The place and the set come apart: as a spot they
// would be written narrow and read back wide, which stalls.
pub fn step(charts: &Comparison<'_>, p: OldPlace, set: u64, part: &[u32], j: usize) -> Option<Spot>
    requires p_bound { p.0 < 64 }
    requires j_bound { (j < size part.now) × (is_known (operation part.now j) ≡ true)
        × (operands_fit (operation part.now j) ≡ true) }
    ensures { result ≡ step (charts_of charts.now) (record { place = p; set = set }) (operation part.now j)
        (record { 0 = to part.now j }) }
{
    let h = Spot { place: p, set };
    arrived(charts, new_to(part, j), moved(charts, h, part, j))
}
