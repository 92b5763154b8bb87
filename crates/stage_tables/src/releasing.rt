//! Whether the participant may let go of a part.

ghost use Rattle.std.specs.Prelude.{◌≡◌};
ghost use Rattle.stage_tables.specs.Stages.{stages};

use funding_plans::{Facts, Part};
use ledger_channel::{abandons, settles};
use network::Release;

/// Whether the participant may let go of a part this way.
pub fn releases(facts: &Facts, how: Release, part: &Part) -> bool
    ensures { result ≡ stages.releases facts.now how part.now }
{
    match how {
        Release::Settle => settles(part, facts),
        Release::Abandon => abandons(part, facts),
    }
}
