//! A law alone: a load pays what it says.

ghost use Rattle.script_run.specs.LoadLaws.{LoadsPay};

/// Both people of a load finish, and are paid what they have after its payments.
pub fn loads_pay()
    ensures { LoadsPay }
{}
