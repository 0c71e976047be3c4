//! Laws of runs of `apply`.

ghost use Rattle.std.specs.Prelude.{◌≡◌, ◌≢◌};
ghost use Rattle.base.specs.Count.{Rose};
ghost use Rattle.change_apply.specs.Talks.{Bytes};
ghost use Rattle.command_answers.specs.declared.status.Status.TheVariants.{WriteFault};
ghost use Rattle.command_spec.specs.Runs.{Run};
ghost use Rattle.command_words.specs.declared.sessions.SessionWords.{SessionWords};
ghost use Rattle.command_apply.specs.Applying.{AppliesBy};

/// A law of runs of `apply`: WriteFault comes exactly where the sink failed.
pub fn write_faults_of_sessions_are_failed_puts()
    ensures only { (asked : SessionWords) (input : Bytes) (seen : Run) → AppliesBy asked input seen
        → seen.status ≡ WriteFault → Rose seen.faults seen.faults' }
    ensures always { (asked : SessionWords) (input : Bytes) (seen : Run) → AppliesBy asked input seen
        → seen.status ≢ WriteFault → seen.faults' ≡ seen.faults }
{}
