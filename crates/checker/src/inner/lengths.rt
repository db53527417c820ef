// The lengths of a record.
ghost use Rattle.std.specs.Prelude.{◌≡◌};
ghost use Rattle.base.specs.Says.{bool};
ghost use Rattle.records.specs.Records.{graph_of};
ghost use Rattle.checker.specs.Checks.{sized};

// Whether each of the three is the stated one.
pub fn sized(marks: &[u8], targets: &[u16], sets: &[u64]) -> bool
    ensures { result ≡ bool (sized (graph_of marks.now targets.now sets.now)) }
{
    (marks.len() == 4160) & ((targets.len() == 8192) & (sets.len() == 4096))
}
