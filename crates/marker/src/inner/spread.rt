// Open marks along chains of pairs, in rounds: each looks only at the new places from which a row leads to a new place
// where the round before opened a pair. Which places these are changes no mark: it is each opening that has to be
// right.
ghost use Rattle.std.specs.Prelude.{◌≡◌, ◌*◌, ◌<◌, length};
ghost use Rattle.marker.specs.inner.Spans.{each};
ghost use Rattle.marker.specs.inner.Seen.{HoldsBeyond};
ghost use Rattle.marker.specs.inner.Spreads.{Spread, led_to, led_from};

use crate::inner::openings::open_if;
use records::{Marks, Targets};
use sets::inner::bits::{alone, joined, meets, with};
use words::inner::members::{Bits, UPWARDS};

// For each new place a set of new places.
type Leads = [u64; 64];

// New place q leads to the new place of a target that is a pair.
fn lead(leads: &mut Leads, q: usize, target: u16)
    requires { q < 64 }
    ensures { leads.new ≡ led_to leads.old q target }
{
    if target < 4096 {
        leads[q] = with(leads[q], (target % 64) as u32);
    }
}

// Likewise the targets of pair i, if it is beyond.
fn lead_from(marks: &Marks, targets: &Targets, leads: &mut Leads, i: usize)
    requires { i < 4096 }
    ensures { leads.new ≡ led_from targets.now marks.now leads.old i }
{
    if marks[i] == 4 {
        let at = 2 * i;
        lead(leads, i % 64, targets[at]);
        lead(leads, i % 64, targets[at + 1]);
    }
}

// Likewise the pairs of word p. All of these that are beyond are members of rest.
fn lead_word(marks: &Marks, targets: &Targets, rest: &[u64], leads: &mut Leads, p: usize)
    requires { HoldsBeyond rest.now marks.now × (p < length rest.now) }
    ensures { leads.new ≡ each (led_from targets.now marks.now) (64 * p) 64
        leads.old }
{
    for q in Bits::<UPWARDS>(rest[p]) {
        lead_from(marks, targets, leads, 64 * p + q);
    }
}

// For each new place the set of those to which pairs beyond lead.
fn lead_all(marks: &Marks, targets: &Targets, rest: &[u64], leads: &mut Leads)
    requires { HoldsBeyond rest.now marks.now }
    ensures { leads.new ≡ each (led_from targets.now marks.now) 0 4096
        leads.old }
{
    for p in 0..rest.len() {
        lead_word(marks, targets, rest, leads, p);
    }
}

// Opens the pairs with new place q that are to be opened, and says how many that were.
fn open_place(marks: &mut Marks, targets: &Targets, q: usize) -> usize
    requires { q < 64 }
    ensures { Spread targets.now marks.old result marks.new }
{
    let mut n = 0;
    for p in 0..64 {
        n += open_if(marks, targets, 64 * p + q);
    }
    n
}

// The same, if q leads to one of the places; and the set of q alone, if one was opened.
fn spread_to(marks: &mut Marks, targets: &Targets, leads: u64, places: u64, q: usize) -> u64
    requires { q < 64 }
    ensures { Spread targets.now marks.old result marks.new }
{
    if !meets(leads, places) {
        return 0;
    }
    if open_place(marks, targets, q) == 0 {
        return 0;
    }
    alone(q as u32)
}

// A round: the new places where it opened a pair.
fn spread_once(marks: &mut Marks, targets: &Targets, leads: &Leads, places: u64) -> u64
    ensures { Spread targets.now marks.old result marks.new }
{
    let mut next = 0;
    for (q, led) in leads.iter().enumerate() {
        let found = spread_to(marks, targets, *led, places, q);
        next = joined(next, found);
    }
    next
}

// Rounds, until one opens nothing. The first looks at every new place that leads to one.
pub fn spread(marks: &mut Marks, targets: &Targets, rest: &[u64])
    requires { HoldsBeyond rest.now marks.old }
    ensures { Spread targets.now marks.old 0 marks.new }
{
    let mut leads = [0u64; 64];
    lead_all(&*marks, targets, rest, &mut leads);
    let mut places = 18446744073709551615;
    loop {
        places = spread_once(marks, targets, &leads, places);
        if places == 0 {
            return;
        }
    }
}
