// How two assumptions are tested: at once where they have nothing to do with each other, else by a few values that
// stand for all.
ghost use Rattle.std.specs.Prelude.{◌≡◌, true, false};
ghost use Rattle.base.specs.Lists.{any};
ghost use Rattle.operations.specs.Operations.{with_constant, right, holds};
ghost use Rattle.operations.specs.Trials.{alike, partner, compares, inside, own, joint, seats, trial, bound, points, shown, shown_by, together, never, implies};
ghost use Rattle.operations.specs.inner.ShortWays.{paired, fixed, disjoint, independent, can_be_below, can_be_above, repeated, meets_both};

use crate::inner::meaning::{key, minus, plus, related_in, when_above, when_below, when_equal};
use crate::{Operation, order_of, with_constant};

// The variables to which a trial gives its two values, and what it gives to the others, where each of two assumptions
// has a variable of its own; else these have the second value too.
#[derive(Clone, Copy)]
pub struct Seats {
    pub first: u32,
    pub second: u32,
    pub rest: Option<u32>,
}

// The first value for this variable, and the second for all others.
fn joint(first: u32) -> Seats
    ensures { result ≡ joint first }
{
    Seats {
        first,
        second: first,
        rest: None,
    }
}

// The value that a trial with x and y gives to variable k.
#[tactic(auto, unfolding(crate::specs::Trials::trial))]
fn trial(s: Seats, x: u32, y: u32, k: u32) -> u32
    ensures { result ≡ trial s x y k }
{
    if k == s.first {
        x
    } else if k == s.second {
        y
    } else {
        s.rest.unwrap_or(y)
    }
}

// What va is compared with in a trial.
fn right(f: Operation, s: Seats, x: u32, y: u32) -> u32
    ensures { result ≡ right f (trial s x y) }
{
    if with_constant(f) {
        f.c
    } else {
        trial(s, x, y, f.b)
    }
}

// Whether a trial meets f.
#[tactic(auto, unfolding(crate::specs::Operations::holds))]
fn holds(f: Operation, s: Seats, x: u32, y: u32) -> bool
    ensures { result ≡ holds f (trial s x y) }
{
    related_in(
        order_of(f),
        f.code % 8,
        trial(s, x, y, f.a),
        right(f, s, x, y),
    )
}

// The second variable that f compares, if any, else the first.
pub fn partner(f: Operation) -> u32
    ensures { result ≡ partner f }
{
    if with_constant(f) { f.a } else { f.b }
}

fn compares(f: Operation, k: u32) -> bool
    ensures { result ≡ compares f k }
{
    (k == f.a) | (k == partner(f))
}

// Whether f compares only variables that g compares.
fn inside(f: Operation, g: Operation) -> bool
    ensures { result ≡ inside f g }
{
    compares(g, f.a) && compares(g, partner(f))
}

// Where f is not inside g: a variable that f compares and g does not.
fn own(f: Operation, g: Operation) -> u32
    ensures { result ≡ own f g }
{
    if compares(g, f.a) { partner(f) } else { f.a }
}

#[tactic(auto, unfolding(crate::specs::Trials::seats))]
fn seats_of(f: Operation, g: Operation) -> Seats
    ensures { result ≡ seats f g }
{
    if inside(f, g) {
        joint(f.a)
    } else if inside(g, f) {
        joint(g.a)
    } else {
        Seats {
            first: own(f, g),
            second: own(g, f),
            rest: Some(plus(order_of(f), 1)),
        }
    }
}

fn alike(a: bool, b: bool) -> bool
    ensures { result ≡ alike a b }
{
    a == b
}

// Whether the trial with x and y meets f as p says, and g as q says.
#[tactic(auto, unfolding(crate::specs::Trials::shown))]
fn shown(s: Seats, f: Operation, p: bool, g: Operation, q: bool, x: u32, y: u32) -> bool
    ensures { result ≡ shown s f p g q x y }
{
    alike(p, holds(f, s, x, y)) && alike(q, holds(g, s, x, y))
}

fn shown_by(s: Seats, f: Operation, p: bool, g: Operation, q: bool, l: &[u32], x: u32) -> bool
    ensures { result ≡ shown_by s f p g q l.now x }
{
    l.iter().any(|&y| shown(s, f, p, g, q, x, y))
}

fn shown_by_some(s: Seats, f: Operation, p: bool, g: Operation, q: bool, l: &[u32]) -> bool
    ensures { result ≡ any (shown_by s f p g q l.now) l.now }
{
    l.iter().any(|&x| shown_by(s, f, p, g, q, l, x))
}

// The constant that f compares with, if it has one; else the least value of its order.
fn bound(f: Operation) -> u32
    ensures { result ≡ bound f }
{
    if with_constant(f) { f.c } else { order_of(f) }
}

// The values that are tried, of the orders from s and t on and the constants c and d.
fn points(s: u32, t: u32, c: u32, d: u32) -> [u32; 10]
    ensures { result ≡ points s t c d }
{
    [
        minus(s, 1),
        s,
        plus(s, 1),
        t,
        plus(t, 1),
        c,
        plus(c, 1),
        d,
        plus(d, 1),
        minus(t, 1),
    ]
}

// So many points at the front are known to stand again after them: in one order three, and two more for each bound
// that is its least value.
#[tactic(auto, unfolding(crate::specs::inner::ShortWays::repeated))]
fn repeated(s: u32, t: u32, c: u32, d: u32) -> usize
    ensures { result ≡ repeated s t c d }
{
    if s == t {
        3 + 2 * usize::from(c == t) + 2 * usize::from(d == t)
    } else {
        0
    }
}

// The search over all trials, without the points that are known to stand again.
#[tactic(auto, using(crate::proofs::Fewer::few))]
fn by_trials(f: Operation, p: bool, g: Operation, q: bool) -> bool
    ensures { result ≡ together f p g q }
{
    let s = order_of(f);
    let t = order_of(g);
    let c = bound(f);
    let d = bound(g);
    let l = points(s, t, c, d);
    let k = repeated(s, t, c, d);
    shown_by_some(seats_of(f, g), f, p, g, q, &l[k..])
}

// Whether x meets f as p says, and g as q says, both compared with their constants.
fn meets_both(f: Operation, p: bool, g: Operation, q: bool, x: u32) -> bool
    ensures { result ≡ meets_both f p g q x }
{
    alike(p, related_in(order_of(f), f.code % 8, x, f.c))
        && alike(q, related_in(order_of(g), g.code % 8, x, g.c))
}

fn met_by_some(f: Operation, p: bool, g: Operation, q: bool, l: &[u32]) -> bool
    ensures { result ≡ any (meets_both f p g q) l.now }
{
    l.iter().any(|&x| meets_both(f, p, g, q, x))
}

// The search where both compare one variable with constants: one value is tried at a time.
#[tactic(auto, using(crate::proofs::Fewer::few))]
fn by_values(f: Operation, p: bool, g: Operation, q: bool) -> bool
    requires { (with_constant f ≡ true) × (with_constant g ≡ true) × (f.a ≡ g.a) }
    ensures { result ≡ together f p g q }
{
    let s = order_of(f);
    let t = order_of(g);
    let l = points(s, t, f.c, g.c);
    let k = repeated(s, t, f.c, g.c);
    met_by_some(f, p, g, q, &l[k..])
}

// Whether f and g both compare two variables, and f only those that g compares.
fn paired(f: Operation, g: Operation) -> bool
    ensures { result ≡ paired f g }
{
    !with_constant(f) & !with_constant(g) & inside(f, g)
}

// The search where neither has a constant: only the order of the two variables matters, so that one is tried below, at
// and above the other; and, where the two orders differ, below in the one and above in the other.
#[tactic(auto, using(crate::proofs::Orders::orders_is))]
fn by_orders(f: Operation, p: bool, g: Operation, q: bool) -> bool
    requires { paired f g ≡ true }
    ensures { result ≡ together f p g q }
{
    let s = order_of(f);
    let t = order_of(g);
    let e = plus(s, 1);
    let seats = joint(f.a);
    shown(seats, f, p, g, q, s, e)
        || shown(seats, f, p, g, q, s, s)
        || shown(seats, f, p, g, q, e, s)
        || s != t && (shown(seats, f, p, g, q, s, t) || shown(seats, f, p, g, q, t, s))
}

// Whether f compares a variable with itself, so that it makes the same of all values.
fn fixed(f: Operation) -> bool
    ensures { result ≡ fixed f }
{
    !with_constant(f) & (f.a == f.b)
}

// Whether f and g compare no variable in common.
fn disjoint(f: Operation, g: Operation) -> bool
    ensures { result ≡ disjoint f g }
{
    !compares(g, f.a) & !compares(g, partner(f))
}

// Whether what f makes of values has nothing to do with what g makes of them.
#[tactic(auto, unfolding(crate::specs::inner::ShortWays::independent))]
pub fn independent(f: Operation, g: Operation) -> bool
    ensures { result ≡ independent f g }
{
    disjoint(f, g) | fixed(f) | fixed(g)
}

// The search for two that may have to do with each other.
#[tactic(auto, using(crate::proofs::Independent::one_shared))]
pub fn sought(f: Operation, p: bool, g: Operation, q: bool) -> bool
    requires { independent f g ≡ false }
    ensures { result ≡ together f p g q }
{
    if with_constant(f) & with_constant(g) {
        return by_values(f, p, g, q);
    }
    if paired(f, g) {
        return by_orders(f, p, g, q);
    }
    by_trials(f, p, g, q)
}

// Whether va can be below what f compares it with. All of it is worked out, so that no jump depends on f.
fn below(f: Operation) -> bool
    ensures { result ≡ can_be_below f }
{
    let w = with_constant(f);
    w & (0 < key(order_of(f), f.c)) | !w & (f.a != f.b)
}

// Whether va can be above what f compares it with, likewise.
fn above(f: Operation) -> bool
    ensures { result ≡ can_be_above f }
{
    let w = with_constant(f);
    w & (key(order_of(f), f.c) < 4294967295) | !w & (f.a != f.b)
}

// Whether some values meet f if p says so, else not: va is below, at or above what it is compared with, and no trial
// is needed.
pub fn possible(f: Operation, p: bool) -> bool
    ensures { result ≡ together f p f p }
{
    let r = f.code % 8;
    below(f) & alike(p, when_below(r))
        | alike(p, when_equal(r))
        | above(f) & alike(p, when_above(r))
}

// Whether all values that meet f meet g, for an f that some values meet: whoever asks of many g finds that out once.
pub fn follows(f: Operation, g: Operation) -> bool
    ensures { never f ≡ false → result ≡ implies f g }
{
    if independent(f, g) {
        return !possible(g, false);
    }
    !sought(f, true, g, false)
}
