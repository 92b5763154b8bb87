//! Laws over the definitions alone. The function is empty: its contract is the law.

ghost use Rattle.funding_plans.specs.Laws.{FoundMeans, AreFound};

/// Amounts for the ends are found in an outcome exactly where it is the one that has them, and they make up the total.
pub fn amounts_are_found()
    ensures means { FoundMeans }
    ensures found { AreFound }
{}
