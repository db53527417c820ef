// The members of a set of pairs: pair n is bit n % 64 of word n / 64.
ghost use Rattle.std.specs.Prelude.{◌≡◌, true, ◌↔◌, ◌+◌, ◌*◌, ◌/◌, ◌≤◌, ◌<◌, length};
ghost use Rattle.std.specs.Iterator.{at_most};
ghost use Rattle.words.specs.inner.Words.{Member, added, removed, gathered, listed, LowestFrom, HighestBefore};
ghost use Rattle.words.specs.inner.Taken.{Taken};

use crate::PairList;
use sets::inner::bits::{alone, joined, meets, with, without};

pub fn add(words: &mut [u64], n: usize)
    requires { (64 ≤ length words.old) × (n < 4096) }
    ensures { words.new ≡ added words.old n }
{
    let p = n / 64;
    words[p] = with(words[p], (n % 64) as u32);
}

pub fn remove(words: &mut [u64], n: usize)
    requires { n / 64 < length words.old }
    ensures { words.new ≡ removed words.old n }
{
    let p = n / 64;
    words[p] = without(words[p], (n % 64) as u32);
}

// Whether the pair of bit q of word p is a member. A loop over the words makes the mask of q once.
pub fn has(words: &[u64], p: usize, q: usize) -> bool
    requires { (64 ≤ length words.now) × (p < 64) × (q < 64) }
    ensures { (result ≡ true) ↔ Member words.now (64 * p + q) }
{
    meets(words[p], alone(q as u32))
}

// The bits that some word has. A loop without early end takes many words at once.
pub fn gathered(words: &[u64]) -> u64
    ensures { result ≡ gathered words.now (length words.now) }
{
    let mut all = 0;
    for word in words {
        all = joined(all, *word);
    }
    all
}

// Adds pair n to a list: also the last word, of words that may have a bit, gains one.
pub fn list(words: &mut PairList, n: usize)
    requires { n < 4096 }
    ensures { words.new ≡ listed words.old n }
{
    add(words, n);
    words[64] = with(words[64], (n / 64) as u32);
}

// The lowest bit of a word that has one.
pub fn lowest(word: u64) -> usize
    requires { 0 < word }
    ensures { LowestFrom word 0 result × (result < 64) }
{
    word.trailing_zeros() as usize
}

// One more than the highest bit of a word, or 0.
pub fn highest(word: u64) -> usize
    ensures { HighestBefore word 64 result × (0 < word → 0 < result) }
{
    64 - word.leading_zeros() as usize
}

// The orders in which the bits of a word are gone through.
pub const UPWARDS: bool = false;

pub const DOWNWARDS: bool = true;

// The bits of a word: from the highest down, or from the lowest up.
#[derive(Drop)]
pub struct Bits<const DOWN: bool>(pub u64);

impl<const DOWN: bool> Iterator for Bits<DOWN> {
    type Item = usize;

    ghost next_gives = { λ s r t. Taken DOWN s.0 r t.0 };

    ghost remaining = { λ s. at_most s.0 };

    fn next(&mut self) -> Option<usize> {
        if self.0 == 0 {
            return None;
        }
        let q = if DOWN {
            highest(self.0) - 1
        } else {
            lowest(self.0)
        };
        self.0 = without(self.0, q as u32);
        Some(q)
    }
}
