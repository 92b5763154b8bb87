//! Whether something is still to be done for the last command of a part.

ghost use Rattle.std.specs.Prelude.{◌≡◌};
ghost use Rattle.channel_node.specs.Refusing as refusing;
ghost use Rattle.stage_tables.specs.Stages.{stages};

use call_history::NodeRefusal;
use funding_plans::{Facts, Part};
use stage_tables::{is_unfinished, stage};

fn unfinished_part(facts: &Facts, part: &Part) -> Option<NodeRefusal>
    ensures { result ≡ refusing.unfinished_part stages facts.now part.now }
{
    if is_unfinished(part, facts) {
        Some(NodeRefusal::NotWanted(stage(part, facts)))
    } else {
        None
    }
}

fn unfinished_among(facts: &Facts, parts: &[Part]) -> Option<NodeRefusal>
    ensures { result ≡ refusing.first_fault (refusing.unfinished_part stages facts.now) parts.now }
{
    match parts {
        [] => None,
        [part, others @ ..] => match unfinished_part(facts, part) {
            None => unfinished_among(facts, others),
            refusal => refusal,
        },
    }
}

/// The first part for which something is still to be done.
pub(crate) fn unfinished(facts: &Facts) -> Option<NodeRefusal>
    ensures { result ≡ refusing.unfinished stages facts.now }
{
    unfinished_among(facts, facts.plan.parts.as_slice())
}
