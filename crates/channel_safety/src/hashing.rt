//! The same where names and digests are hashes, as the network's are, and no two of the strings that are hashed have
//! one.

ghost use Rattle.channel_safety.specs.Hashing.{StringsTell, HashedOutcomesAreNotOlder, HashedChainsHaveTheSteps, FewHashedChallengesAreCleared};

/// Where no strings that a history and a journal hash collide, a name determines its fixed part. The digest of a
/// state determines its channel and the state, and the digest of an outcome the outcome.
pub fn strings_tell()
    ensures { StringsTell }
{}

/// `outcomes_are_not_older` where no hashed strings collide.
pub fn hashed_outcomes_are_not_older()
    ensures { HashedOutcomesAreNotOlder }
{}

/// `shown_chains_have_the_steps` likewise.
pub fn hashed_chains_have_the_steps()
    ensures { HashedChainsHaveTheSteps }
{}

/// `few_challenges_are_cleared` likewise.
pub fn few_hashed_challenges_are_cleared()
    ensures { FewHashedChallengesAreCleared }
{}
