//! The station counts that the planner takes.

ghost use Rattle.std.specs.Prelude.{◌≡◌};
ghost use Rattle.cores.specs.Site.{sized};
ghost use Rattle.view.specs.Answers.{counted};

use crate::Refusal;

/// Whether a station count is 1 to 512.
pub fn is_sized(count: usize) -> bool
    ensures { result ≡ sized count }
{
    (1..=512).contains(&count)
}

/// Refuses a station count outside 1 to 512.
pub fn admit(count: usize) -> Result<(), Refusal>
    ensures { result ≡ counted count }
{
    if is_sized(count) {
        Ok(())
    } else {
        Err(Refusal::CountOutOfRange)
    }
}
