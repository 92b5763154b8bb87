//! Laws alone: where the bytes of a call or of a message are cut off, that is the fault, and its place.

ghost use Rattle.channel_values.specs.Spelled.{FrontsCut};
ghost use Rattle.call_history.specs.Limits.{IsCall, IsMessage};
ghost use Rattle.call_history.specs.Reading.{call_of, message_of};
ghost use Rattle.call_history.specs.Spelling.{call, message};

/// Each proper front of a call's bytes ends too early, and its end is the place of the fault.
pub fn fronts_of_calls_are_cut()
    ensures { FrontsCut call_of call IsCall }
{}

/// Each proper front of a message's bytes ends too early, and its end is the place of the fault.
pub fn fronts_of_messages_are_cut()
    ensures { FrontsCut message_of message IsMessage }
{}
