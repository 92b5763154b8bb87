//! A law alone: no step of a script that the reader passes is passed over.

ghost use Rattle.std.specs.Prelude.{Bool, List, All};
ghost use Rattle.script_reader.specs.Script.{start, AreChecked};
ghost use Rattle.script_reader.specs.step.Step.{Step};
ghost use Rattle.further_laws.specs.Happens.{EachHappens, HasOutcomes};

use network::Party;

/// Each step that the reader passes means something, by what names stand for in the play of the steps before it. That
/// is so whatever the nodes of its people do. Each name stands for something, each state is valid, and no key is
/// spent. Only a state that a step was to catch of a node may be missing.
pub fn every_passed_step_happens<P: Party>()
    ensures { (race : Bool) (steps : List Step) → AreChecked (start race) steps → All HasOutcomes steps
        → EachHappens P.ways steps }
{}
