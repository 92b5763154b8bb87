//! The parts of refusals.

ghost use Rattle.std.specs.Prelude.{◌≡◌};
ghost use Rattle.node_lines.specs.Texts.{refusal_number, refusal_name};

use call_history::NodeRefusal;

/// The number of a node's refusal.
pub(crate) fn refusal_number(refusal: &NodeRefusal) -> u8
    ensures { result ≡ refusal_number refusal.now }
{
    match refusal {
        NodeRefusal::BadBytes => 1,
        NodeRefusal::UnknownChannel => 2,
        NodeRefusal::NotOpen(_, _) => 3,
        NodeRefusal::NotNext(_) => 4,
        NodeRefusal::BadSignature => 5,
        NodeRefusal::NotAStep => 6,
        NodeRefusal::NotWanted(_) => 7,
        NodeRefusal::KeySpent(_) => 8,
        NodeRefusal::TooMany(_) => 9,
    }
}

/// The name of a node's refusal.
pub(crate) fn refusal_name(refusal: &NodeRefusal) -> &'static str
    ensures { result.now ≡ refusal_name refusal.now }
{
    match refusal {
        NodeRefusal::BadBytes => "BadBytes",
        NodeRefusal::UnknownChannel => "UnknownChannel",
        NodeRefusal::NotOpen(_, _) => "NotOpen",
        NodeRefusal::NotNext(_) => "NotNext",
        NodeRefusal::BadSignature => "BadSignature",
        NodeRefusal::NotAStep => "NotAStep",
        NodeRefusal::NotWanted(_) => "NotWanted",
        NodeRefusal::KeySpent(_) => "KeySpent",
        NodeRefusal::TooMany(_) => "TooMany",
    }
}
