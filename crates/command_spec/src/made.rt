//! Laws of the description that `big` makes, each as the contract of a function that does nothing.

ghost use Rattle.std.specs.Prelude.{[], ◌∷◌, ◌≤◌, ℕ, Bool, codes, pos};
ghost use Rattle.command_words.specs.BigFiles.{description, made_files, script_name};
ghost use Rattle.command_words.specs.declared.big_texts.TheConstants.{MAX_LANES};
ghost use Rattle.command_spec.specs.Descriptions.{IsChecked};
ghost use Rattle.command_spec.specs.Outcomes.{EndsAs, IsRunStatus};
ghost use Rattle.command_spec.specs.Endings.{RefusesNothing};
ghost use Rattle.command_spec.specs.Scripts.{prepares};
ghost use Rattle.command_spec.specs.Runs.{Run, Runs};
ghost use Rattle.command_spec.specs.Known.{AsksOf};
ghost use Rattle.command_words.specs.declared.words.Command.{Command};
ghost use Rattle.command_words.specs.declared.words.Command.TheVariants as commands;
ghost use Rattle.elaborator.specs.Elaboration.{HasNoFault};
ghost use Rattle.command_spec.specs.MadeTrees.{made_tree};

use crate::{
    made_scripts_are_scripts, runs_answer_their_commands, what_is_not_refused_is_answered,
};
use change_plan::a_plan_or_a_refusal;
use elaborator::a_graph_or_a_fault;

/// A law: the description has a tree, in which no name is at fault.
pub fn made_descriptions_are_checked()
    ensures { IsChecked description made_tree }
{}

/// A law: no fault of its elaboration holds, for each number of lanes, before the change and after it.
pub fn made_descriptions_have_no_fault()
    ensures { (lanes : ℕ) → 1 ≤ lanes → lanes ≤ MAX_LANES → HasNoFault made_tree (codes "Lanes") (pos lanes ∷ pos 1 ∷ [])
        × HasNoFault made_tree (codes "Lanes") (pos lanes ∷ pos 2 ∷ []) }
{}

/// A law: nothing of what is made is refused, neither the script nor a line of it.
pub fn made_lines_are_not_refused()
    ensures { (lanes : ℕ) → 1 ≤ lanes → lanes ≤ MAX_LANES
        → RefusesNothing (made_files lanes) (prepares script_name) }
{
    a_graph_or_a_fault();
    a_plan_or_a_refusal();
    made_scripts_are_scripts();
}

/// A law of runs: what is made is run, and ends by its report, unless memory ran out or the sink failed. So nothing
/// that is made is ever refused.
pub fn made_runs_are_not_refused()
    ensures { (knows : Command → Bool) (r : Run) → Runs knows r
        → (lanes : ℕ) → AsksOf knows r.words (commands.Big lanes) → EndsAs IsRunStatus r.status }
{
    made_lines_are_not_refused();
    runs_answer_their_commands();
    what_is_not_refused_is_answered();
}
