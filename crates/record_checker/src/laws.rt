//! Laws of verdicts. The function is empty: its contract is the law.

ghost use Rattle.record_checker.specs.Laws.{VerdictsAreOne};

/// No two verdicts hold of one record.
pub fn verdicts_are_one()
    ensures { VerdictsAreOne }
{}
