//! Whose actions may lower a share, over every history and every journal, under any rules.

ghost use Rattle.share_laws.specs.Finality.{FinalsEndWell, HonestSharesAreKept};
ghost use Rattle.share_laws.specs.Lasting.{HonestJournalsAreInOrder, SharesLast};
ghost use Rattle.share_laws.specs.ShareLaws.{FlowsKeepShares};
ghost use Rattle.share_laws.specs.SigningLines.{SigningsChangeOne};
ghost use Rattle.share_laws.specs.Signed.{FairSharesAreKept, SignedGuaranteesStand};
ghost use Rattle.share_laws.specs.Whole.{LinesKeepShares, NobodyLowersShares, TurnsKeepShares};

/// No deposit, transfer or claim by anybody, and no refused entry, lowers the share of a person whose plan is sound.
pub fn flows_keep_shares()
    ensures { FlowsKeepShares }
{}

/// No other entry lowers it, where each channel that becomes final by it does so with an outcome that is no worse
/// than one that was possible. A channel only starts to count, or goes on as it was.
pub fn turns_keep_shares()
    ensures { TurnsKeepShares }
{}

/// No line of the person's journal lowers its share, but one that signs a state.
pub fn lines_keep_shares()
    ensures { LinesKeepShares }
{}

/// So over a whole history and journal nobody lowers the share, and the person's signatures only as far as they may.
pub fn nobody_lowers_shares()
    ensures { NobodyLowersShares }
{}

/// Watchers are in time, nothing is forged and nothing collides. Then a channel of an honest participant becomes
/// final with the outcome of the last state that it signed, or with the one proposed there. A payment channel may
/// also become final with one that is no worse for it.
pub fn finals_end_well()
    ensures { FinalsEndWell }
{}

/// So nobody lowers the share of an honest participant whose plan is sound and whose signatures are fair.
pub fn honest_shares_are_kept()
    ensures { HonestSharesAreKept }
{}

/// A guarantor in which an honest participant signed guarantees alone ends with one of them, and promises nothing else.
pub fn signed_guarantees_stand()
    ensures { SignedGuaranteesStand }
{}

/// So nobody lowers the share of an honest participant that plans fairly, and its signatures only as far as they may:
/// its plan is then sound at each place.
pub fn fair_shares_are_kept()
    ensures { FairSharesAreKept }
{}

/// A line that signs a state changes what its own channel can end with, and nothing else.
pub fn signings_change_one()
    ensures { SigningsChangeOne }
{}

/// From a place to a later one a share that is kept doesn't fall, where the person signs no state between them.
pub fn shares_last()
    ensures { SharesLast }
{}

/// The journal of an honest participant that opens a channel has its lines, but for looks, in the order of what they
/// had seen.
pub fn honest_journals_are_in_order()
    ensures { HonestJournalsAreInOrder }
{}
