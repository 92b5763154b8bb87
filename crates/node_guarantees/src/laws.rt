//! Laws alone: no index of a key signs twice, nobody's share is lowered, whatever happens, and what is sent is in
//! journals.

ghost use Rattle.node_guarantees.specs.Laws.{NoIndexSignsTwice, NobodyLowersAShare, EveryJournalIsHonest, EveryChallengeIsOwn, EveryMessageIsSigned, EverySignatureStays};

use crate::told::ReportedNode;

/// In any journal by the rules each signature carries the index that comes next, so no two messages carry signatures
/// of one index.
pub fn no_index_signs_twice()
    ensures { NoIndexSignsTwice }
{}

/// After any happenings, in any order, each person with a node keeps its share, is paid on its exit, signs fairly and
/// ends well, where its premises hold. Its journal is honest, by the rules, and signs with no index twice. Unless
/// memory failed its node, it called no challenge but one that it signed right before, as itself.
pub fn nobody_lowers_a_share<P: ReportedNode>()
    ensures keeps { NobodyLowersAShare P.ways P.stands P.reported }
    ensures honest { EveryJournalIsHonest P.ways P.stands P.reported }
    ensures challenges { EveryChallengeIsOwn P.ways P.stands P.lost P.reported }
{}

/// Each message that a node sends spells a state that somebody's journal has signed then, where memory failed no
/// node. Whatever happens after that, what the journal of a key signed stays in it.
pub fn messages_are_signed_in_journals<P: ReportedNode>()
    ensures sends { EveryMessageIsSigned P.ways P.reported P.lost }
    ensures stays { EverySignatureStays P.ways P.reported }
{}
