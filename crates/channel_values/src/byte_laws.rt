//! Laws of the formats. Each function is empty: its contract is the law.

ghost use Rattle.channel_values.specs.Outcomes.{IsOutcome};
ghost use Rattle.channel_values.specs.Parts.{IsFixed, IsState};
ghost use Rattle.channel_values.specs.Chains.{IsSigned, IsChain};
ghost use Rattle.channel_values.specs.Spelling.{outcome, fixed, state, signed, chain};
ghost use Rattle.channel_values.specs.Reading.{outcome_of, fixed_of, state_of, signed_of, chain_of};
ghost use Rattle.channel_values.specs.Spelled.{SpelledOnce, WrittenBack, ReadAgain, FrontsFail, FrontsCut, TrailingFails};

/// An outcome and its bytes determine each other.
pub fn laws_of_outcomes()
    ensures once { SpelledOnce outcome IsOutcome }
    ensures back { WrittenBack outcome_of outcome }
    ensures again { ReadAgain outcome_of outcome IsOutcome }
    ensures fronts { FrontsFail outcome_of }
    ensures cut { FrontsCut outcome_of outcome IsOutcome }
    ensures trailing { TrailingFails outcome_of outcome IsOutcome }
{}

/// A fixed part and its bytes determine each other.
pub fn laws_of_fixed_parts()
    ensures once { SpelledOnce fixed IsFixed }
    ensures back { WrittenBack fixed_of fixed }
    ensures again { ReadAgain fixed_of fixed IsFixed }
    ensures fronts { FrontsFail fixed_of }
    ensures cut { FrontsCut fixed_of fixed IsFixed }
    ensures trailing { TrailingFails fixed_of fixed IsFixed }
{}

/// A state and its bytes determine each other.
pub fn laws_of_states()
    ensures once { SpelledOnce state IsState }
    ensures back { WrittenBack state_of state }
    ensures again { ReadAgain state_of state IsState }
    ensures fronts { FrontsFail state_of }
    ensures cut { FrontsCut state_of state IsState }
    ensures trailing { TrailingFails state_of state IsState }
{}

/// A signed state and its bytes determine each other.
pub fn laws_of_signed_states()
    ensures once { SpelledOnce signed IsSigned }
    ensures back { WrittenBack signed_of signed }
    ensures again { ReadAgain signed_of signed IsSigned }
    ensures fronts { FrontsFail signed_of }
    ensures cut { FrontsCut signed_of signed IsSigned }
    ensures trailing { TrailingFails signed_of signed IsSigned }
{}

/// A chain and its bytes determine each other.
pub fn laws_of_chains()
    ensures once { SpelledOnce chain IsChain }
    ensures back { WrittenBack chain_of chain }
    ensures again { ReadAgain chain_of chain IsChain }
    ensures fronts { FrontsFail chain_of }
    ensures cut { FrontsCut chain_of chain IsChain }
    ensures trailing { TrailingFails chain_of chain IsChain }
{}
