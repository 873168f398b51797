//! A law of replays, the contract of a function that does nothing.

ghost use Rattle.std.specs.Prelude.{◌≤◌, length};
ghost use Rattle.fca_model.specs.declared.TheConstants.{FILE_BYTES};
ghost use Rattle.fca_model.specs.Tables.{Text};
ghost use Rattle.basis_report.specs.Explorations.{Spells};
ghost use Rattle.command_io.specs.Explorations.{Exploration, IsExplored};
ghost use Rattle.replay_command.specs.Replayed.{IsFedBack};

/// A text that spells an exploration is a script for it. If it is no longer than a file may be, its replay is exactly this exploration.
pub fn spelled_is_fed_back()
    ensures { (r : Exploration) (text : Text) → IsExplored r → Spells r.opening.table r.opening.settings r.journal text → length text ≤ FILE_BYTES → IsFedBack r text }
{}
