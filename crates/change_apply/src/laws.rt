//! What sessions do to a system.

ghost use Rattle.std.specs.Prelude.{◌-◌, count_by, ◌≡◌, [], ◌∷◌, ◌++◌, ℕ, List, true, false, Some};
ghost use Rattle.cfg_io.specs.Sink.{with_bytes};
ghost use Rattle.change_apply.specs.Applied.{applied, ending_of, heard};
ghost use Rattle.change_apply.specs.Courses.{Course, is_round, scene_after};
ghost use Rattle.change_apply.specs.Sessions.{CanChange, Change, change_in, is_over};
ghost use Rattle.change_apply.specs.Talks.{Bytes, HasEnded};
ghost use Rattle.change_apply.specs.Written.{IsDoneBehind, IsWritten, Line, done_by};
ghost use Rattle.crowd_laws.specs.Acts.{Act, MayGoOn, events_told, world_after};
ghost use Rattle.crowd_laws.specs.Beginning.{IsStart};
ghost use Rattle.crowd_laws.specs.Crowds.{World};
ghost use Rattle.crowd_laws.specs.Quiet.{IsQuiescent};
ghost use Rattle.quiesce_core.specs.Start.{started};
ghost use Rattle.quiesce_laws.specs.Starts.{start_of};
ghost use Rattle.quiesce_core.specs.declared.event.Event.{Event};
ghost use Rattle.quiesce_core.specs.declared.event.Event.TheVariants.{Link, Remove, Unlink};
ghost use Rattle.quiesce_core.specs.Runs.{state_after};
ghost use Rattle.quiesce_core.specs.Settled.{Quiescent};
ghost use Rattle.quiesce_core.specs.State.{owner};

use crate::request::Request;
use crate::said::{Ending, Phase, Said};
use change_plan_laws::{
    commits_can_not_fail, commits_leave_the_new_graph, what_is_frozen_may_be_closed,
    what_is_not_frozen_is_left,
};
use crowd_laws::{changes_find_crowds_quiescent, true_lines_are_allowed};
use quiesce_core::a_started_system_has_its_graph;
use quiesce_laws::{changes_find_nodes_quiescent, started_systems_are_reached};

/// Whatever is said, what has happened is a run: the start, what lines told, and the end. Where the change was made, all
/// was drained, the graph is the new one, and each gate of a live node is open; where it wasn't, the graph is the old one
/// and each gate as it was. Where it waits, something isn't drained yet and rounds are left.
pub fn sessions_keep_their_course()
    ensures { (c : Change) (said : List Said) → CanChange c → Course c (scene_after c said) }
{
    started_systems_are_reached();
    a_started_system_has_its_graph();
    commits_can_not_fail();
    commits_leave_the_new_graph();
    what_is_frozen_may_be_closed();
    what_is_not_frozen_is_left();
}

/// What is written tells the run: it is the text of lines, by which all is said that was done in the run beside what lines of
/// the runtime told, and each line stands where its event is.
pub fn sessions_write_their_run()
    ensures scene { (r : Request) (said : List Said) → (heard r said).scene ≡ scene_after (change_in r) said }
    ensures written { (r : Request) (said : List Said) → IsWritten (heard r said).text (heard r said).scene.events }
    ensures places { (text : List ℕ) (events : List Event) (w : IsWritten text events) (front back : List Line) (l : Line) (e : Event)
        → w.lines ≡ front ++ l ∷ back → done_by l ≡ Some e → IsDoneBehind front e events }
{}

/// At each link and unlink of a session the port's owner is quiescent, and at each removal the node is.
pub fn sessions_find_nodes_quiescent()
    ensures linked { (c : Change) (said : List Said) (before after : List Event) (p n x : ℕ) → CanChange c
        → (scene_after c said).events ≡ before ++ Link p n x ∷ after → Quiescent before (owner (state_after before).config p) }
    ensures unlinked { (c : Change) (said : List Said) (before after : List Event) (p : ℕ) → CanChange c
        → (scene_after c said).events ≡ before ++ Unlink p ∷ after → Quiescent before (owner (state_after before).config p) }
    ensures removed { (c : Change) (said : List Said) (before after : List Event) (n : ℕ) → CanChange c
        → (scene_after c said).events ≡ before ++ Remove n ∷ after → Quiescent before n }
{
    sessions_keep_their_course();
    changes_find_nodes_quiescent();
}

/// The change is made exactly where `go` comes behind `ready`, and a session that is over hears nothing.
pub fn sessions_commit_by_go()
    ensures only { (c : Change) (said : List Said) (x : Said) → is_over (scene_after c said).phase ≡ false
        → (scene_after c (said ++ x ∷ [])).phase ≡ Phase.Committed → (x ≡ Said.Go) × ((scene_after c said).phase ≡ Phase.Ready) }
    ensures always { (c : Change) (said : List Said) → (scene_after c said).phase ≡ Phase.Ready
        → (scene_after c (said ++ Said.Go ∷ [])).phase ≡ Phase.Committed }
    ensures over { (c : Change) (said more_ : List Said) → is_over (scene_after c said).phase ≡ true
        → scene_after c (said ++ more_) ≡ scene_after c said }
{}

/// As long as a session isn't over, as many rounds are left as it has, but for those that were told.
pub fn sessions_count_rounds()
    ensures { (c : Change) (said : List Said) → is_over (scene_after c said).phase ≡ false
        → (scene_after c said).left ≡ c.within - count_by is_round said }
{}

/// One input has one answer: where a session ended, and the input could be read as far as that, what was written and how
/// it ended are told by its bytes alone.
pub fn one_input_has_one_answer()
    ensures { (r : Request) (came : List ℕ) (before taken : Bytes) (e : Ending) → HasEnded r (Some came) before taken e
        → (e ≡ Ending.Unread → ⊥)
        → (taken ≡ with_bytes before (applied r came).text) × (e ≡ ending_of (applied r came).answer) }
{}

/// Where a crowd has the system, and what came of it is what was told, the owner of each port that is linked or unlinked
/// is quiescent there by the four conditions, and each node that is removed.
pub fn sessions_find_crowds_quiescent()
    ensures linked { (c : Change) (said : List Said) (w : World) (acts : List Act) (after : List Event) (p n x : ℕ) → CanChange c
        → IsStart w → w.machine ≡ started c.old → MayGoOn w acts
        → (scene_after c said).events ≡ (start_of c.old ++ events_told w acts) ++ Link p n x ∷ after
        → IsQuiescent (world_after w acts) (owner (world_after w acts).machine.config p) }
    ensures unlinked { (c : Change) (said : List Said) (w : World) (acts : List Act) (after : List Event) (p : ℕ) → CanChange c
        → IsStart w → w.machine ≡ started c.old → MayGoOn w acts
        → (scene_after c said).events ≡ (start_of c.old ++ events_told w acts) ++ Unlink p ∷ after
        → IsQuiescent (world_after w acts) (owner (world_after w acts).machine.config p) }
    ensures removed { (c : Change) (said : List Said) (w : World) (acts : List Act) (after : List Event) (n : ℕ) → CanChange c
        → IsStart w → w.machine ≡ started c.old → MayGoOn w acts
        → (scene_after c said).events ≡ (start_of c.old ++ events_told w acts) ++ Remove n ∷ after
        → IsQuiescent (world_after w acts) n }
{
    sessions_keep_their_course();
    started_systems_are_reached();
    true_lines_are_allowed();
    changes_find_crowds_quiescent();
}
