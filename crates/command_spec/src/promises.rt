//! What each command promises, where it isn't refused: each a law of what a run answers.

ghost use Rattle.std.specs.Prelude.{◌≡◌, ◌⊎◌, ℕ, List, Option};
ghost use Rattle.cfg_io.specs.Sink.{with_bytes};
ghost use Rattle.command_answers.specs.declared.status.Status.{Status};
ghost use Rattle.command_words.specs.HelpTexts.{help_text, version_text};
ghost use Rattle.command_words.specs.declared.keywords.Keyword.{Keyword};
ghost use Rattle.command_words.specs.declared.words.Command.TheVariants as commands;
ghost use Rattle.command_words.specs.declared.words.Change.{Change};
ghost use Rattle.command_words.specs.declared.words.Cut.TheVariants as cuts;
ghost use Rattle.command_words.specs.declared.words.TopCall.{TopCall};
ghost use Rattle.report_writing.specs.Reports.{report_text};
ghost use Rattle.watch_lines.specs.Observers.{Watched};
ghost use Rattle.command_spec.specs.Outcomes.{Ends, Flattened, IsRollStatus, IsRunStatus, IsVerdict, Judged, Parted, Planned, Ran, RanShowing, Replayed, Rolled, SummedUp, Upgraded};
ghost use Rattle.command_spec.specs.Runs.{Answered, Run};
ghost use Rattle.command_spec.specs.Schedules.{threads};

use crate::runs_end_by_their_reports;

/// A law: words that ask for help, of all commands or of one, or for the version, write the program's own texts.
pub fn own_texts_are_written()
    ensures helped { (r : Run) (topic : Option Keyword) → Answered (commands.Help topic) r
        → Ends r.status Status.Ok × (r.status ≡ Status.Ok → r.taken' ≡ with_bytes r.taken (help_text topic)) }
    ensures versioned { (r : Run) → Answered commands.Version r
        → Ends r.status Status.Ok × (r.status ≡ Status.Ok → r.taken' ≡ with_bytes r.taken version_text) }
{}

/// A law: `flat` writes the text of the graph.
pub fn flat_promises()
    ensures { (r : Run) (file : List ℕ) (call : TopCall) → Answered (commands.Flat file call) r → r.status ≡ Status.Ok
        → Flattened r.files file call r.taken r.taken' }
{}

/// A law: `plan` writes the text of the plan.
pub fn plan_promises()
    ensures { (r : Run) (change : Change) → Answered (commands.Change cuts.Whole change) r
        → r.status ≡ Status.Ok → Planned r.files change r.taken r.taken' }
{}

/// A law: `parts` writes the text of the parts.
pub fn parts_promises()
    ensures { (r : Run) (change : Change) → Answered (commands.Change cuts.InParts change) r
        → r.status ≡ Status.Ok → Parted r.files change r.taken r.taken' }
{}

/// A law: `roll` writes the text of the parts, and what carrying them out comes to: the graph that is left, and the part
/// that the rounds give up, with which it ends with Pending.
pub fn roll_promises()
    ensures { (r : Run) (run within : ℕ) (change : Change)
        → Answered (commands.Change (cuts.Rolled run within) change) r → IsRollStatus r.status
        → Rolled run within r.files change r.status r.taken r.taken' }
{}

/// A law: `replay` writes the text of what is open and settled; or the first event that is no step is denied, with its
/// first failing rule.
pub fn replay_promises()
    ensures { (r : Run) (file events : List ℕ) → Answered (commands.Replay file events) r
        → (r.status ≡ Status.Ok) ⊎ (r.status ≡ Status.Denied)
        → Replayed r.files file events r.status r.taken r.taken' }
{}

/// A law: `upgrade` writes the text of the report in the version of today.
pub fn upgrade_promises()
    ensures { (r : Run) (file : List ℕ) → Answered (commands.Upgrade file) r → r.status ≡ Status.Ok
        → Upgraded r.files file r.taken r.taken' }
{}

/// A law: `step` writes the text of the report of the script's run, and ends with the status that the report tells. The
/// report is the one of rounds for the statements of the script over the graphs of its descriptions, and it is lawful for
/// them.
pub fn step_promises()
    ensures { (r : Run) (name : List ℕ) → Answered (commands.Step name) r → IsRunStatus r.status
        → Ran r.files name r.status r.taken r.taken' }
{}

/// A law: `live` writes the text of a report that is lawful on threads, for the statements of the script over the graphs
/// of its descriptions, and ends with the status that the report tells. With `--watch` lines of observers stand behind
/// it, each right for its commit.
pub fn live_promises()
    ensures watched { (r : Run) (name : List ℕ) (workers observers : ℕ)
        → Answered (commands.Live name workers observers) r → IsRunStatus r.status
        → RanShowing (threads observers) (λ report bytes. Watched report observers bytes) r.files name r.status r.taken r.taken' }
    ensures unwatched { (r : Run) (name : List ℕ) (workers : ℕ)
        → Answered (commands.Live name workers 0) r → IsRunStatus r.status
        → RanShowing (threads 0) (λ report bytes. bytes ≡ report_text report) r.files name r.status r.taken r.taken' }
{
    runs_end_by_their_reports();
}

/// A law: `check` writes the line that says whether the report can be one of this machine for the statements of the
/// script, by which it ends too.
pub fn check_promises()
    ensures { (r : Run) (name file : List ℕ) → Answered (commands.Check name file) r → IsVerdict r.status
        → Judged r.files name file r.status r.taken r.taken' }
{}

/// A law: `big` writes the summary of the report of such a run as `step` makes, of the script and the description that
/// it makes, which it fetches from nowhere.
pub fn big_promises()
    ensures { (r : Run) (lanes : ℕ) → Answered (commands.Big lanes) r → IsRunStatus r.status
        → SummedUp lanes r.status r.taken r.taken' }
{}
