//! What fits, by examples.

ghost use Rattle.stage_tables.specs.Examples.{Examples};

/// What fits a person with one running ledger, and what doesn't where one condition is reversed.
pub fn examples_hold()
    ensures { Examples }
{}
