// Following old assignments to the old alarm or the next assumption.
ghost use Rattle.std.specs.Prelude.{◌≡◌, true, ◌<◌, Some};
ghost use Rattle.operations.specs.Operations.{operands_fit};
ghost use Rattle.chart.specs.Charts.{size, operation};
ghost use Rattle.chart.specs.inner.Comparisons.{charts_of};
ghost use Rattle.align.specs.Steps.{along, onward, followed};

use crate::inner::seek;
use crate::spots::Spot;
use chart::inner::comparison::Comparison;
use chart::inner::pairs::bit;
use chart::inner::rows::{a_at, old_to};
use sets::inner::bits;

// By row k of a place: what it writes joins the set.
fn along(set: u64, rows: &[u32], k: usize) -> Spot
    requires { (k < size rows.now) × (operands_fit (operation rows.now k) ≡ true) }
    ensures { Some result ≡ along set rows.now (Some k) }
{
    Spot {
        place: old_to(rows, k),
        set: bits::with(set, a_at(rows, k)),
    }
}

// By the assignment that leaves the place, unless it is the old alarm or none does.
fn onward(charts: &Comparison<'_>, h: Spot) -> Option<Spot>
    requires { h.place.0 < 64 }
    ensures { result ≡ onward (charts_of charts.now) h }
{
    let p = h.place;
    if p == charts.heads.old.alarm {
        return None;
    }
    let rows = charts.old_part(p);
    let k = seek::assignment(rows)?;
    Some(along(h.set, rows, k))
}

// All of them, from a place that counts as come to: a walk that comes to no place twice follows no more than 64. None
// where it comes to one twice.
pub fn follow(charts: &Comparison<'_>, h: Spot) -> Option<Spot>
    requires { h.place.0 < 64 }
    ensures { result ≡ followed (charts_of charts.now) h }
{
    let mut at = h;
    let mut met = bit(h.place);
    for _ in 0..64usize {
        let Some(next) = onward(charts, at) else {
            return Some(at);
        };
        let q = next.place;
        if bits::meets(met, bit(q)) {
            return None;
        }
        met = bits::joined(met, bit(q));
        at = next;
    }
    None
}
