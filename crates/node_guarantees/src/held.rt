//! What a participant holds of a channel ends with an outcome with which the channel could end.

ghost use Rattle.node_guarantees.specs.Held.{HeldStatesCanEnd};

/// Nothing is forged and no hashed strings collide. Then each supported chain that an honest participant holds at a
/// place ends with fewer than n steps of others after the state that it signed last. It ends in the outcome of that
/// state or in the one that is proposed there. In a payment channel it may also end in one that is no worse for it.
pub fn held_states_can_end()
    ensures { HeldStatesCanEnd }
{}
