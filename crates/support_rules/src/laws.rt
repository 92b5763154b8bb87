//! Laws of the applications.

ghost use Rattle.support_rules.specs.Toward.{WantedIsStep};

/// What is wanted toward an outcome is a step.
pub fn wanted_is_step()
    ensures { WantedIsStep }
{}
