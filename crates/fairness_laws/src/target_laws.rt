//! Laws alone: what a ledger sets aside for a channel on it.

ghost use Rattle.fairness_laws.specs.SetAside.{UpSetsAside, DownTakesBack};

/// Where each destination has one item, going up sets aside what comes from the two people, one after the other.
pub fn up_sets_aside()
    ensures { UpSetsAside }
{}

/// And going down gives it back to both, and takes the channel's item away.
pub fn down_takes_back()
    ensures { DownTakesBack }
{}
