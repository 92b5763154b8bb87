//! Laws alone: what the network's node signs keeps its person's share, and so nobody lowers it. Each function is
//! empty: its contract is the law.

ghost use Rattle.fairness_laws.specs.Guarding.{PartsSignAtPlaces};
ghost use Rattle.fairness_laws.specs.JointKeeping.{EndsKeep, EndsSplit, MiddlesKeep, MiddlesSplit};
ghost use Rattle.fairness_laws.specs.FairLaws.{ChildrenWantFairly, EndsWantFairly, MiddlesWantFairly, NodesPlanFairly, NodesSignFairly, PaymentsAreHeld, PlansKeepShares, RootsWantFairly, WantingPlansFairly, WantingPlansLeave};
ghost use Rattle.fairness_laws.specs.LedgerKeeping.{ClosingsKeep, DriftsKeep, MovesKeep, OpeningsKeep};
ghost use Rattle.fairness_laws.specs.LedgerLaws.{KnownLedgersKeep, LedgersBack, LedgersStandAtPlaces};
ghost use Rattle.fairness_laws.specs.LedgerMoving.{DownIsOutcome, DownIsUpBefore, UpIsOutcome, UpIsUp};
ghost use Rattle.fairness_laws.specs.LedgerPlaces.{LedgersKeepAtPlaces, StepsKeep};
ghost use Rattle.fairness_laws.specs.LedgerWanting.{EndWantsOn, FundedRuns, FundedUnfinished, FundedWants, FundedWantsOn, MiddleWantsOn, WantsMove};
ghost use Rattle.fairness_laws.specs.OpeningChannels.{ChildrenOpenWith, EndsOpenWith, EndsSignGuarantees, MiddlesOpenWith, MiddlesSignGuarantees};
ghost use Rattle.fairness_laws.specs.PaymentLaws.{ChildrenShare, EndedChannelsStay, EndsShare, EndsShareOver};
ghost use Rattle.fairness_laws.specs.PlanLaws.{PartsAreKnown, PlansAreWhole};
ghost use Rattle.fairness_laws.specs.SeatLaws.{FinalsAreFair, MovesAreFair, PassesAreFair, PaymentsAreFair, RepeatsAreFair};

// ---- first rounds

/// What a node signs of a channel on a ledger in the first round, and takes from a message, repeats the amounts of
/// the command that opened it.
pub fn children_open_with()
    ensures { ChildrenOpenWith }
{}

/// At an end of a virtual channel it is so in its guarantor, which opens with the guarantee for that end. It is so in
/// the joint channel, which opens with the amounts for the ends and their total for the intermediary. It is so in the
/// payment channel.
pub fn ends_open_with()
    ensures { EndsOpenWith }
{}

/// At the intermediary it is so in both guarantors and in the joint channel.
pub fn middles_open_with()
    ensures { MiddlesOpenWith }
{}

/// Whatever the turn, an end signs nothing but the guarantee in its guarantor.
pub fn ends_sign_guarantees()
    ensures { EndsSignGuarantees }
{}

/// Nor does the intermediary in both.
pub fn middles_sign_guarantees()
    ensures { MiddlesSignGuarantees }
{}

// ---- plans and parts

/// At each place of a node's journal each part of its plan has the channels, people, applications and amounts of the
/// command that opened it. What the tables of stages know of its channels is what is held of them there.
pub fn parts_are_known()
    ensures { PartsAreKnown }
{}

/// In its plan each channel stands once, each ledger is a root that was opened before, and no part rests on a payment
/// channel.
pub fn plans_are_whole()
    ensures { PlansAreWhole }
{}

// ---- seats

/// A repeated state of the set-up keeps the share of the participant that wants it, where what is held repeats the
/// opening outcome too.
pub fn repeats_are_fair()
    ensures { RepeatsAreFair }
{}

/// So does a final state that repeats the latest outcome.
pub fn finals_are_fair()
    ensures { FinalsAreFair }
{}

/// So does a pass.
pub fn passes_are_fair()
    ensures { PassesAreFair }
{}

/// So does, outside payment channels, a move toward the present outcome, or toward one that moves an asset for a part
/// of the plan.
pub fn moves_are_fair()
    ensures { MovesAreFair }
{}

/// A payment costs its amount, where no part rests on the channel.
pub fn payments_are_fair()
    ensures { PaymentsAreFair }
{}

// ---- payment channels

/// The channel that a ledger funds shares what the ledger set aside between its two people, whatever was paid in it.
pub fn children_share()
    ensures { ChildrenShare }
{}

/// So does the channel of a virtual channel, at its ends, where it is a payment channel.
pub fn ends_share()
    ensures { EndsShare }
{}

/// So does, once it is over, the channel of a virtual channel at its ends, whether it is a payment channel or a
/// ledger.
pub fn ends_share_over()
    ensures { EndsShareOver }
{}

/// Where all that is held of a channel is final, its latest state and the node's last one stay final, with the same
/// outcomes. In a channel of two people all that is held does.
pub fn ended_channels_stay()
    ensures { EndedChannelsStay }
{}

// ---- joint channels

/// What the joint channel of a virtual channel can end with at an end, by the state that it signed last there. In the
/// set-up it pays the ends what they bring. Until Close it pays them that, or all to the payment channel. From Close
/// on it pays all to the payment channel, or to the ends what that ended with.
pub fn ends_keep()
    ensures { EndsKeep }
{}

/// And at the intermediary, where from Close on it pays all to the payment channel, or the ends any amounts that make
/// up the total.
pub fn middles_keep()
    ensures { MiddlesKeep }
{}

/// An end signed nothing in the joint channel but how it is split.
pub fn ends_split()
    ensures { EndsSplit }
{}

/// Nor did the intermediary.
pub fn middles_split()
    ensures { MiddlesSplit }
{}

// ---- ledgers: what goes up and down

/// Going up sets the child's amount aside, and nothing else.
pub fn up_is_up()
    ensures { UpIsUp }
{}

/// Going down is the way back.
pub fn down_is_up_before()
    ensures { DownIsUpBefore }
{}

/// What going up makes is an outcome where it can be read.
pub fn up_is_outcome()
    ensures { UpIsOutcome }
{}

/// And what going down makes.
pub fn down_is_outcome()
    ensures { DownIsOutcome }
{}

// ---- ledgers: what is wanted there

/// A payment channel that a ledger funds wants what its rows say.
pub fn funded_wants()
    ensures { FundedWants }
{}

/// On the ledger it wants to go up before its people signed past the set-up, and, once it closes, to go down.
pub fn funded_wants_on()
    ensures { FundedWantsOn }
{}

/// So does an end, once it closes and the joint channel is settled on what goes back.
pub fn end_wants_on()
    ensures { EndWantsOn }
{}

/// And an intermediary, on both ledgers.
pub fn middle_wants_on()
    ensures { MiddleWantsOn }
{}

/// What is wanted on a ledger of two people moves it.
pub fn wants_move()
    ensures { WantsMove }
{}

/// A payment channel that a ledger funds isn't finished before it is up, nor, once it closes, before it is down.
pub fn funded_unfinished()
    ensures { FundedUnfinished }
{}

/// While it runs it isn't closing, and holds the third turn.
pub fn funded_runs()
    ensures { FundedRuns }
{}

// ---- ledgers: what they can end with

/// Ledgers back what stands on them when what is set aside drifts: parts go up, and may go down.
pub fn drifts_keep()
    ensures { DriftsKeep }
{}

/// When a part is opened on ledgers that afford it, while none is pending.
pub fn openings_keep()
    ensures { OpeningsKeep }
{}

/// When a part that went up begins to close, while none is pending.
pub fn closings_keep()
    ensures { ClosingsKeep }
{}

/// And when a ledger repeats an outcome with which it could end, or goes up or down for a part.
pub fn moves_keep()
    ensures { MovesKeep }
{}

/// So each of these steps keeps it, and a first state, while nothing stands on the ledger.
pub fn steps_keep()
    ensures { StepsKeep }
{}

/// So it is at each place of a journal of which each event and each entry is such a step,
pub fn ledgers_keep_at_places()
    ensures { LedgersKeepAtPlaces }
{}

/// and so at each place of a node's journal.
pub fn ledgers_back()
    ensures { LedgersBack }
{}

/// What is known of each ledger there says so.
pub fn known_ledgers_keep()
    ensures { KnownLedgersKeep }
{}

/// And a ledger that went up for a part stands. It sets the child aside without votes, and isn't commanded to close.
/// So it is while the part isn't opened yet, or closes and the ledger may not go down.
pub fn ledgers_stand_at_places()
    ensures { LedgersStandAtPlaces }
{}

// ---- shares

/// A node whose parts want fairly, and that signs guarantees alone in its guarantors, plans fairly.
pub fn wanting_plans_fairly()
    ensures { WantingPlansFairly }
{}

/// Where a payment waits a chain is held of its channel, which is a payment channel.
pub fn pays_in_held()
    ensures { PaymentsAreHeld }
{}

/// A node whose parts want fairly can leave with its share.
pub fn wanting_plans_leave()
    ensures { WantingPlansLeave }
{}

/// A channel that holds its own funds wants fairly.
pub fn roots_want_fairly()
    ensures { RootsWantFairly }
{}

/// So does one that a ledger funds.
pub fn children_want_fairly()
    ensures { ChildrenWantFairly }
{}

/// And a virtual channel at an end.
pub fn ends_want_fairly()
    ensures { EndsWantFairly }
{}

/// And at its intermediary.
pub fn middles_want_fairly()
    ensures { MiddlesWantFairly }
{}

/// So a node plans fairly, where nothing is forged and no hashed strings collide. Its watchers needn't be in time.
pub fn nodes_plan_fairly()
    ensures { NodesPlanFairly }
{}

/// And nobody's own signatures lower its share there, but by a payment that was commanded right before, or where the
/// plan isn't funded.
pub fn nodes_sign_fairly()
    ensures { NodesSignFairly }
{}

/// With watchers in time nobody lowers the share of a node's person, and it can leave with it.
pub fn plans_keep_shares()
    ensures { PlansKeepShares }
{}

// ---- the guard

/// What a part of a node's plan wants in a channel is signed, while no payment waits: the guard never bites.
pub fn parts_sign_at_places()
    ensures { PartsSignAtPlaces }
{}
