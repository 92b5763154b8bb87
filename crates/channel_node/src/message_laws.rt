//! Laws alone: what a node answers to bytes that aren't a message, and to a message whose signature doesn't verify.

ghost use Rattle.channel_node.specs.MessageLaws.{FrontsAreRefused, TrailingIsRefused, BadSignaturesAreTold, TakenOnesAreSigned};

/// A node refuses each proper front of a message's bytes, and those bytes with more after them, since they aren't a
/// message. It says so, its journal has one more line, and nothing else changes.
pub fn broken_bytes_are_refused()
    ensures fronts { FrontsAreRefused }
    ensures trailing { TrailingIsRefused }
{}

/// Where a state comes next, a signature on it that doesn't verify is reported, whatever else is wrong with it. So is
/// one in place of the signature of a message that is taken. Such a message leaves one line, and nothing else.
pub fn bad_signatures_are_told()
    ensures next { BadSignaturesAreTold }
    ensures taken { TakenOnesAreSigned }
{}
