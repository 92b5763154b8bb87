//! A law alone. The function is empty: its contract is the law.

ghost use Rattle.std.specs.Prelude.{◌≡◌, ℕ, Option};
ghost use Rattle.network.specs.declared.command.Command.{Command};
ghost use Rattle.report_text.specs.declared.report.Load.{Load};
ghost use Rattle.report_text.specs.declared.report.Report.{Report};
ghost use Rattle.script_play.specs.Play.{SceneOf};
ghost use Rattle.play_report.specs.Reported.{Tells};

use network::Party;

/// What a scene came to has one report, by the commands of its steps, with a note of one load or of none.
pub fn a_play_has_one_report<P: Party>()
    ensures { (commands : ℕ → Option Command) (load : Option Load) (r q : Report) (s : SceneOf P)
        → Tells commands P.ways load r s → Tells commands P.ways load q s → r ≡ q }
{}
