//! Laws alone: what a store keeps is what is held. Each function is empty: its contract is the law.

ghost use Rattle.channel_store.specs.Laws.{OpeningIsHeld, NotingIsHeld, LinesNoteStates, AdoptingIsHeld, NotingIsAlone, AdoptingIsAlone, KeptAreGood};

/// What is kept of each channel is what is held of it, once the channels of a command are added that isn't refused.
pub fn opening_is_held()
    ensures { OpeningIsHeld }
{}

/// What is kept of each channel is what is held of it, once a state is noted that a line of the journal notes.
pub fn noting_is_held()
    ensures { NotingIsHeld }
{}

/// The line of a state that the participant signs notes that state, and that of a message which isn't refused the
/// message's state.
pub fn lines_note_states()
    ensures { LinesNoteStates }
{}

/// What is kept of each channel is what is held of it, once a chain is adopted that an entry shows of a channel. It
/// is adopted or not by the channel's own fixed part, so no two names need to differ.
pub fn adopting_is_held()
    ensures { AdoptingIsHeld }
{}

/// A noted state changes what is kept of its own channel alone.
pub fn noting_is_alone()
    ensures { NotingIsAlone }
{}

/// An adopted chain changes what is kept of its own channel alone.
pub fn adopting_is_alone()
    ensures { AdoptingIsAlone }
{}

/// Under any rules what is kept of each channel stays its first round so far, each state with its mover's mark, or a
/// supported chain. Then each held chain is supported.
pub fn kept_are_good()
    ensures { KeptAreGood }
{}
