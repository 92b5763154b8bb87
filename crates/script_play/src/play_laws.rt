//! A law alone: the world of every play has a legal history and honest journals. Its proofs also have that the events
//! of journals stand with the commands of their steps.

ghost use Rattle.network.specs.Standing.{AreKept};
ghost use Rattle.script_play.specs.Plays.{PlaysAreKept};

use network::Party;

/// Where nodes keep what they must, the world of every play of steps within their limits has a legal history and
/// honest journals.
pub fn every_play_keeps_the_world<P: Party>()
    ensures { AreKept P.ways P.stands → PlaysAreKept P.ways P.stands }
{}
