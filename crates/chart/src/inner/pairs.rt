// The numbers of nodes: a pair, where alone an old and a new place are joined, and a kept new place; and sets of old
// places.
ghost use Rattle.std.specs.Prelude.{◌≡◌, ◌^◌, ◌<◌};
ghost use Rattle.chart.specs.Places.{pair_number, kept_number, old_of, new_of, start_pair, start_kept};

use crate::charts::Heads;
use crate::places::{NewPlace, OldPlace};

pub fn pair(p: OldPlace, q: NewPlace) -> usize
    requires { (p.0 < 64) × (q.0 < 64) }
    ensures { result ≡ pair_number p q }
{
    (64 * p.0 + q.0) as usize
}

pub fn kept(q: NewPlace) -> usize
    requires { q.0 < 64 }
    ensures { result ≡ kept_number q }
{
    4096 + q.0 as usize
}

pub fn old_of(pair: usize) -> OldPlace
    requires { pair < 4096 }
    ensures { result ≡ old_of pair }
{
    OldPlace((pair / 64) as u32)
}

pub fn new_of(pair: usize) -> NewPlace
    ensures { result ≡ new_of pair }
{
    NewPlace((pair % 64) as u32)
}

// The pair of both starts.
pub fn start_pair(heads: Heads) -> usize
    ensures { result ≡ start_pair heads }
{
    0
}

// The new start, kept.
pub fn start_kept(heads: Heads) -> usize
    ensures { result ≡ start_kept heads }
{
    4096
}

// The set of an old place alone, as a bit of a set of old places.
pub fn bit(p: OldPlace) -> u64
    requires { p.0 < 64 }
    ensures { result ≡ 2 ^ p.0 }
{
    1u64 << p.0
}
