//! What an exit pays.

ghost use Rattle.channel_exits.specs.ExitLaws.{ExitPaysShare};
ghost use Rattle.channel_exits.specs.Fair.{FairExitsPay, FairLeaversArePaid};

/// A person that can exit and enters the calls of its exit is paid at least its share, whatever others enter between.
pub fn exit_pays_the_share()
    ensures { ExitPaysShare }
{}

/// An honest participant that plans and leaves fairly can exit wherever its channels are final.
pub fn fair_exits_pay()
    ensures { FairExitsPay }
{}

/// So it is paid at least the share that it had at any place before, after which it signed no state until its channels
/// were final.
pub fn fair_leavers_are_paid()
    ensures { FairLeaversArePaid }
{}
