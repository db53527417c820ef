// Sets of the variables v0 to v63, as the bits of a u64.
ghost use Rattle.std.specs.Prelude.{◌≡◌, ◌<◌};
ghost use Rattle.sets.specs.Sets.{alone, joined, with, without, meets, holds_all};

// The set of v alone.
pub fn alone(v: u32) -> u64
    requires { v < 64 }
    ensures { result ≡ alone v }
{
    1u64 << v
}

pub fn joined(s: u64, t: u64) -> u64
    ensures { result ≡ joined s t }
{
    s | t
}

pub fn with(s: u64, v: u32) -> u64
    requires { v < 64 }
    ensures { result ≡ with s v }
{
    joined(s, alone(v))
}

pub fn without(s: u64, v: u32) -> u64
    requires { v < 64 }
    ensures { result ≡ without s v }
{
    s & !alone(v)
}

// Whether some variable is in both.
pub fn meets(s: u64, t: u64) -> bool
    ensures { result ≡ meets s t }
{
    s & t != 0
}

// Whether s holds all of t.
pub fn holds_all(s: u64, t: u64) -> bool
    ensures { result ≡ holds_all s t }
{
    s | t == s
}
