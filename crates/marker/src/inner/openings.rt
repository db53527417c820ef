// One pair is opened, if it has an open or kept target.
ghost use Rattle.std.specs.Prelude.{◌≡◌, ◌<◌, length, get_or};
ghost use Rattle.marker.specs.Marks.{in_q, opening};
ghost use Rattle.marker.specs.inner.Openings.{Tried};

use records::{Marks, Targets};

// Whether a target is an open or kept node.
fn in_q(marks: &Marks, n: u16) -> bool
    ensures { result ≡ in_q marks.now n }
{
    let at = n as usize;
    at < marks.len() && (marks[at] == 1 || marks[at] == 2)
}

// Whether pair i is beyond and has such a target. Both targets are asked in any case, which spares a jump between them.
fn opens(marks: &Marks, targets: &Targets, i: usize) -> bool
    requires { i < 4096 }
    ensures { result ≡ opening targets.now marks.now i (get_or marks.now i 0) }
{
    if marks[i] != 4 {
        return false;
    }
    let at = 2 * i;
    in_q(marks, targets[at]) | in_q(marks, targets[at + 1])
}

// Opens pair i, if it is to be opened, and says how many that were.
pub fn open_if(marks: &mut Marks, targets: &Targets, i: usize) -> usize
    requires { i < 4096 }
    ensures { Tried targets.now marks.old i result marks.new }
{
    if opens(&*marks, targets, i) {
        marks[i] = 1;
        return 1;
    }
    0
}
