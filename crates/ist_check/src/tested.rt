//! The first of some conditions that fails.
ghost use Rattle.std.specs.Prelude.{◌≡◌};
ghost use Rattle.ist_check.specs.Failing.{TellsFirst};

use crate::conditions::Condition;

/// The result of a test of a condition.
#[derive(Clone, Copy, Debug, PartialEq, Eq, Drop)]
pub struct Tested {
    pub holds: bool,
    pub name: Condition,
}

/// Records the result of a test of this condition.
pub(crate) fn test_of(name: Condition, holds: bool) -> Tested
    ensures value { result ≡ record { holds = holds; name = name } }
{
    Tested { holds, name }
}

/// Returns the first condition that fails, if one does.
pub(crate) fn first_failing(tests: &[Tested]) -> Option<Condition>
    ensures exact { TellsFirst tests.now result }
{
    match tests {
        [] => None,
        [test, more @ ..] => {
            if !test.holds {
                return Some(test.name);
            }
            first_failing(more)
        }
    }
}
