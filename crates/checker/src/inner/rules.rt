// All rules of refusal 32, in order: the start, then the targets by index. What is found is the refusal's position.
ghost use Rattle.std.specs.Prelude.{◌≡◌, ℕ, ◌+◌, ◌<◌, ◌≤◌, length, slice_index};
ghost use Rattle.base.specs.Options.{first_of};
ghost use Rattle.base.specs.Says.{bool};
ghost use Rattle.chart.specs.Compared.{heads_of};
ghost use Rattle.records.specs.Records.{Record};
ghost use Rattle.checker.specs.Rules.{start_fits};
ghost use Rattle.checker.specs.inner.Examinations.{charts_in, graph_in};
ghost use Rattle.checker.specs.inner.Packed.{packed};
ghost use Rattle.checker.specs.Checks.{pair_fault, broken};

use crate::inner::examined::Examined;
use crate::inner::present::Present;
use align::inner::step::fair;
use chart::inner::pairs::{new_of, old_of, start_kept, start_pair};
use records::Marks;
use records::inner::marks::blank;

// Eight marks as one number: the compiler reads them at once.
fn eight(marks: &[u8], n: usize) -> u64
    requires { n + 8 ≤ length marks.now }
    ensures { result ≡ packed marks.now n 8 }
{
    let bytes: &[u8; 8] = marks[n..].first_chunk().unwrap();
    u64::from_le_bytes(*bytes)
}

// How many of the marks from n on are 0: of eight, those before the first that is not, else those up to the next group
// of eight.
fn absent(marks: &[u8], n: usize) -> usize
    requires { n + 8 ≤ length marks.now }
    ensures { (result ≤ 8) × ((i : ℕ) → n ≤ i → i < n + result → slice_index marks.now i ≡ 0) }
{
    let word = eight(marks, n);
    if word == 0 {
        return 8 - n % 8;
    }
    word.trailing_zeros() as usize / 8
}

// How many absent pairs from n on are passed over at once: those of a whole old place, up to eight, or none.
fn gap(marks: &Marks, n: usize) -> usize
    requires { n < 4096 }
    ensures { (result ≤ 64) × ((i : ℕ) → n ≤ i → i < n + result → slice_index marks.now i ≡ 0) }
{
    if n % 64 == 0 {
        if blank(marks, n, 64) {
            return 64;
        }
    }
    absent(marks, n)
}

// The next pair that is present, or 4,096. Most pairs of most records are absent.
fn next_pair(marks: &Marks, m: usize) -> usize
    requires { m < 4096 }
    ensures { (m < result) × (result ≤ 4096) × ((i : ℕ) → m < i → i < result → slice_index marks.now i ≡ 0) }
{
    let mut n = m + 1;
    while n < 4096 {
        let passed = gap(marks, n);
        if passed == 0 {
            return n;
        }
        n += passed;
    }
    4096
}

impl<'a> Examined<'a> {
    // The rule of the start, which is one of the two that can be.
    fn start_fits(&self, start: u32) -> bool
        ensures { result ≡ bool (start_fits (heads_of (charts_in self.now)) start (graph_in self.now).marks) }
    {
        let heads = self.charts.heads;
        let n = start as usize;
        let pair = start_pair(heads);
        if n == pair {
            if self.marks[pair] != 1 {
                return false;
            }
            return fair(heads, old_of(pair), new_of(pair));
        }
        let kept = start_kept(heads);
        if n == kept {
            return self.marks[kept] == 2;
        }
        false
    }

    // The rules for a pair, if it is present.
    fn pair_fault(&self, m: usize) -> Option<usize>
        requires { m < 4096 }
        ensures { result ≡ pair_fault (charts_in self.now) (graph_in self.now) m }
    {
        if self.marks[m] == 0 {
            return None;
        }
        let present = Present {
            examined: self,
            m,
            rows: self.charts.new_part(new_of(m)),
        };
        present.rows_fault()
    }

    // The lowest target index at fault.
    fn first_fault(&self) -> Option<usize>
        ensures { result ≡ first_of 4096 (pair_fault (charts_in self.now) (graph_in self.now)) }
    {
        let mut m = 0;
        while m < 4096 {
            if let Some(at) = self.pair_fault(m) {
                return Some(at);
            }
            m = next_pair(self.marks, m);
        }
        None
    }

    // The position of the first rule that fails: 8,192 for the start, else the lowest target index at fault.
    pub fn broken(&self, start: u32) -> Option<usize>
        ensures { result ≡ broken (charts_in self.now) (record { start = start; graph = graph_in self.now }) }
    {
        if !self.start_fits(start) {
            return Some(8192);
        }
        self.first_fault()
    }
}
