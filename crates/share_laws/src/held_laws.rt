//! Laws alone: what a participant holds of a channel ends with an outcome with which the channel could end, by what it
//! signed last.

ghost use Rattle.share_laws.specs.HeldLaws.{HashedChainsEndPossibly, HashesTellNoted, HeldChainsEndPossibly};

/// Nothing is forged, nothing collides and the rules' steps keep what is possible. Then each supported chain that an
/// honest participant holds at a place ends with fewer than n steps of others after the state that it signed last.
/// Its outcome stands for one that was possible then.
pub fn held_chains_end_possibly()
    ensures { HeldChainsEndPossibly }
{}

/// Where none of the strings that a history and a journal hash collide, the digests of a state that was noted and of
/// one that was signed determine them.
pub fn hashes_tell_noted()
    ensures { HashesTellNoted }
{}

/// `held_chains_end_possibly` where no hashed strings collide.
pub fn hashed_chains_end_possibly()
    ensures { HashedChainsEndPossibly }
{}
