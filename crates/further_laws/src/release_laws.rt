//! Laws alone: what a node let go of costs it nothing from then on, and is paid to it.

ghost use Rattle.further_laws.specs.LetGo.{LetGoIsAsWithout, LetGoIsCalledFor, LetGoIsOut};
ghost use Rattle.further_laws.specs.LettingGo.{LetGoStays, ReleasesLetGo, TicksCallForIt};

/// A channel of which the participant let go is closed. What a refusal of a message, a payment, an opening or a
/// closing asks of all parts is asked only of the other parts. Nothing is signed or taken in the channel. Once it is
/// final, what is due to the participant there is among the calls of its stages, for as long as it is due.
pub fn let_go_is_out()
    ensures out { LetGoIsOut }
    ensures others { LetGoIsAsWithout }
    ensures due { LetGoIsCalledFor }
{}

/// Once `settle` or `abandon` of a channel is accepted, the node let go of that channel. That stays so, whatever
/// happens at the node later. The law `let_go_is_out` says that it holds up no other channel then.
pub fn let_go_stays()
    ensures accepted { ReleasesLetGo }
    ensures stays { LetGoStays }
{}

/// Once a channel of which it let go is final, the node calls for what is due to it there, by its own transfer of
/// each asset. It does so at each tick before it leaves, for as long as anything is due.
pub fn ticks_call_for_it()
    ensures { TicksCallForIt }
{}
