// The rules for the targets of a present pair (refusal 32): k is a row's number in the part of the new table that
// leaves the pair's new place, t its target.
ghost use Rattle.std.specs.Prelude.{◌≡◌, ◌<◌};
ghost use Rattle.base.specs.Says.{bool, Says};
ghost use Rattle.chart.specs.Charts.{size, to, operation};
ghost use Rattle.align.specs.Steps.{step};
ghost use Rattle.checker.specs.Rules.{target_fits, keeps, joins, joins_step, rests_at, ranked, leads, row_fits, spot};
ghost use Rattle.checker.specs.Checks.{target_fault, rows_fault};
ghost use Rattle.checker.specs.inner.Examinations.{graph_in};
ghost use Rattle.checker.specs.inner.Presences.{charts_at, graph_at};

use crate::inner::examined::Examined;
use crate::inner::present::Present;
use align::inner::step::step;
use align::spots::Spot;
use chart::inner::pairs::{kept, new_of, old_of, pair};
use chart::inner::rows::{can_be_taken, new_to};
use chart::places::NewPlace;
use sets::inner::bits::holds_all;

impl<'a> Examined<'a> {
    // Whether the target is kept q, marked 2.
    fn keeps(&self, q: NewPlace, t: usize) -> bool
        requires { q.0 < 64 }
        ensures { result ≡ bool (keeps (graph_in self.now).marks q t) }
    {
        if t != kept(q) {
            return false;
        }
        self.marks[t] == 2
    }

    // Whether the target is the pair of the spot and q, present, its set holding the spot's.
    fn joins(&self, q: NewPlace, t: usize, h: Spot) -> bool
        requires { (q.0 < 64) × (h.place.0 < 64) }
        ensures { result ≡ bool (joins (graph_in self.now).marks (graph_in self.now).sets q t h) }
    {
        let p = h.place;
        if t != pair(p, q) {
            return false;
        }
        if self.marks[t] == 0 {
            return false;
        }
        holds_all(self.sets[t], h.set)
    }

    // Whether the target is as it may be at the old alarm.
    fn rests_at(&self, q: NewPlace, t: usize) -> bool
        requires { q.0 < 64 }
        ensures { result ≡ bool (rests_at (graph_in self.now).marks q t) }
    {
        if t == 65535 {
            return true;
        }
        if self.keeps(q, t) {
            return true;
        }
        if 4096 <= t {
            return false;
        }
        (new_of(t) == q) & (self.marks[t] != 0)
    }

    // Whether the target's mark may follow the pair's.
    fn ranked(&self, m: usize, t: usize) -> bool
        requires { (m < 4096) × Says (target_fits t) }
        ensures { result ≡ bool (ranked (graph_in self.now).marks m t) }
    {
        if t == 65535 {
            return true;
        }
        let x = self.marks[t];
        if self.marks[m] == 1 {
            return (1..=3).contains(&x);
        }
        (3..=4).contains(&x)
    }
}

impl<'a> Present<'a> {
    // Whether the target is the pair that the aligned step under the pair's set gives.
    fn joins_step(&self, k: usize, t: usize) -> bool
        requires { k < size self.now.rows.now }
        ensures { result ≡ joins_step (graph_at self.now).marks (graph_at self.now).sets
            (record { 0 = to self.now.rows.now k }) t
            (step (charts_at self.now) (spot (graph_at self.now) self.now.m) (operation self.now.rows.now k)
            (record { 0 = to self.now.rows.now k })) }
    {
        let e = self.examined;
        match step(&e.charts, old_of(self.m), e.sets[self.m], self.rows, k) {
            Some(h) => e.joins(new_to(self.rows, k), t, h),
            None => false,
        }
    }

    // Whether the target is where the row may lead from the pair.
    fn leads(&self, k: usize, t: usize) -> bool
        requires { k < size self.now.rows.now }
        ensures { result ≡ bool (leads (charts_at self.now) (graph_at self.now) self.now.m
            (operation self.now.rows.now k) (record { 0 = to self.now.rows.now k }) t) }
    {
        let e = self.examined;
        let q = new_to(self.rows, k);
        if old_of(self.m) == e.charts.heads.old.alarm {
            return e.rests_at(q, t);
        }
        if e.keeps(q, t) {
            return true;
        }
        self.joins_step(k, t)
    }

    // Whether the target of row k keeps the rules.
    fn row_fits(&self, k: usize) -> bool
        requires { (k < size self.now.rows.now) × (k < 2) }
        ensures { result ≡ bool (row_fits (charts_at self.now) (graph_at self.now) self.now.m self.now.rows.now k) }
    {
        let at = 2 * self.m + k;
        let t = self.examined.targets[at] as usize;
        if !self.leads(k, t) {
            return false;
        }
        self.examined.ranked(self.m, t)
    }

    // The rules for the target of row k, if there is such a row and it can be taken.
    fn target_fault(&self, k: usize) -> Option<usize>
        requires { k < 2 }
        ensures { result ≡ target_fault (charts_at self.now) (graph_at self.now) self.now.m self.now.rows.now k }
    {
        let n = self.rows.len() / 6;
        if n <= k {
            return None;
        }
        if self.row_fits(k) {
            return None;
        }
        // Asked last: of a record that was built it is asked only where a row never holds.
        if !can_be_taken(self.rows, k) {
            return None;
        }
        Some(2 * self.m + k)
    }

    // The rules for the targets of the first and second row. One call in a loop, not two: the compiler then has it in
    // place.
    pub fn rows_fault(&self) -> Option<usize>
        ensures { result ≡ rows_fault (charts_at self.now) (graph_at self.now) self.now.m self.now.rows.now }
    {
        for k in 0..2 {
            if let Some(at) = self.target_fault(k) {
                return Some(at);
            }
        }
        None
    }
}
