//! Laws alone: a payment is sent again as it was. Each function is empty: its contract is the law.

ghost use Rattle.further_laws.specs.Resending.{MessagesAreTakenOnce, PaymentsAreSentAgain, RefusedMessagesDoNothing, ResendsSignNothing, ResendsStay, ResentPaymentsAreHeld};

/// A payment that a node accepted is sent again by Resend exactly as it was, for as long as nothing more is signed in
/// the channel.
pub fn payments_are_sent_again()
    ensures again { PaymentsAreSentAgain }
    ensures stays { ResendsStay }
{}

/// Resend signs nothing: what the node knows and how often its key signed stay, and its journal says that it was
/// commanded.
pub fn resends_sign_nothing()
    ensures { ResendsSignNothing }
{}

/// A message that comes twice does no harm: a node that takes it holds its state, and refuses it when it comes again.
/// What a node refuses changes nothing that it knows.
pub fn messages_are_taken_once()
    ensures taken { MessagesAreTakenOnce }
    ensures refused { RefusedMessagesDoNothing }
{}

/// Where the message of a payment was lost, payer and payee both hold its state once the payer was commanded to resend
/// it and the payee took the message.
pub fn resent_payments_are_held()
    ensures { ResentPaymentsAreHeld }
{}
