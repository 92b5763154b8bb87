//! What clients know of each other. Each function is empty: its contract is the law.

ghost use Rattle.watchtower.specs.Isolation.{ClientsAreApart, EachIsTold};
ghost use Rattle.watchtower.specs.Laws.{LegalTimesRise};

/// What a client is answered depends on its own admissions and hands and on the entries of all looks. It depends on
/// nothing that other clients do. Where two lists of calls have the same of these, it is answered the same, while
/// memory is left.
pub fn clients_are_apart()
    ensures { ClientsAreApart }
{}

/// The list that a look answers gives each client the calls for its own chains, after any calls of the tower.
pub fn each_is_told()
    ensures { EachIsTold }
{}

/// The entries that come next in a legal history can be followed.
pub fn legal_times_rise()
    ensures { LegalTimesRise }
{}
