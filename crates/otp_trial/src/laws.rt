//! Laws of trees that are tried.

ghost use Rattle.otp_trial.specs.Again.{EventsKeepTrees, PlantedAreFresh};

/// Whatever happens to a tree, its supervisors are opened with the same at the beginning of the next run.
pub fn trees_are_kept()
    ensures fresh { PlantedAreFresh }
    ensures kept { EventsKeepTrees }
{}
