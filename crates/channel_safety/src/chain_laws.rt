//! Laws alone: what a chain stays as states are added to it. Each function is empty: its contract is the law.

ghost use Rattle.channel_safety.specs.ChainLaws.{GoodChainsGrow};

/// A state that passes the tests is added to the first round so far, each state with its mover's mark, or to a
/// supported chain. The first round stays one or becomes a supported chain, and a supported chain stays one. Its last
/// state is the added one.
pub fn good_chains_grow()
    ensures { GoodChainsGrow }
{}
