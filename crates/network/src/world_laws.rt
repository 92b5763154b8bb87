//! Laws alone: whatever happens in a world, its history stays legal and its journals honest, and nothing old becomes
//! final for its people with nodes.

ghost use Rattle.std.specs.Prelude.{List};
ghost use Rattle.call_history.specs.declared.entry.Entry.{Entry};
ghost use Rattle.network.specs.Ways.{Ways};
ghost use Rattle.network.specs.Worlds.{WorldOf, happened};
ghost use Rattle.network.specs.declared.happening.Happening.{Happening};
ghost use Rattle.network.specs.Standing.{AreKept, IsWorld, AreHonest};
ghost use Rattle.network.specs.Safe.{NothingOldBecomesFinal};

use crate::party::Party;

/// Whatever happens, a world stays one, and its journals are honest, where its nodes keep what they must.
pub fn every_happening_keeps_the_world<P: Party>()
    ensures stays { AreKept P.ways P.stands
        → (w : WorldOf P) (event : Happening) → IsWorld P.stands w → IsWorld P.stands (happened P.ways event w) }
    ensures honest { AreKept P.ways P.stands → (w : WorldOf P) → IsWorld P.stands w → AreHonest P.ways w }
{}

/// After any happenings, in any order, each person with a node is safe under the three premises.
pub fn nothing_old_becomes_final<P: Party>()
    ensures { NothingOldBecomesFinal P.ways P.stands }
{}
