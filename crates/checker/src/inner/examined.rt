// What the rules are judged upon, once all other refusals have been tested: one value for all who judge, made once.
ghost use Rattle.std.specs.Prelude.{◌≡◌, true};
ghost use Rattle.base.specs.Says.{bool};
ghost use Rattle.checker.specs.Rules.{targets_fit};

use chart::inner::comparison::Comparison;
use records::{Marks, Sets, Targets};

// Both charts and a graph whose targets are nodes or 65535.
#[derive(Drop)]
pub struct Examined<'a> {
    pub charts: Comparison<'a>,
    pub marks: &'a Marks,
    pub targets: &'a Targets,
    pub sets: &'a Sets,
    ghost fitting: { bool (targets_fit targets.now) ≡ true },
}
