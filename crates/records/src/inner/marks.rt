// Several marks at once.
ghost use Rattle.std.specs.Prelude.{◌≡◌, ◌+◌, ◌≤◌, length, get_or};
ghost use Rattle.base.specs.Says.{eq, each, bool};

// Whether n marks are all 0. They are joined, which the compiler tests at once; the largest of them would cost it far
// more.
pub fn blank(marks: &[u8], from: usize, n: usize) -> bool
    requires { from + n ≤ length marks.now }
    ensures { result ≡ bool (each n (λ j. eq (get_or marks.now (from + j) 0) 0)) }
{
    let mut all = 0;
    for j in 0..n {
        all = all | marks[from + j];
    }
    all == 0
}
