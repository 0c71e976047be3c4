//! What is promised of a session, in one place.

ghost use Rattle.std.specs.Prelude.{◌≡◌, ◌↔◌, ◌∷◌, ◌++◌, ℕ, List, Some};
ghost use Rattle.cfg_io.specs.Sink.{with_bytes};
ghost use Rattle.change_apply.specs.Applied.{Place, applied, ending_of, heard};
ghost use Rattle.change_apply.specs.Promises.{FindsQuiet, SaysGo, StandsBehind};
ghost use Rattle.change_apply.specs.Sessions.{CanChange, change_in};
ghost use Rattle.change_apply.specs.Talks.{Bytes, HasEnded, Reached};
ghost use Rattle.change_apply.specs.Written.{IsDoneBehind, IsWritten, Line, done_by};
ghost use Rattle.quiesce_core.specs.declared.event.Event.{Event};
ghost use Rattle.quiesce_core.specs.Runs.{IsRun};

use crate::laws::{
    one_input_has_one_answer, sessions_find_crowds_quiescent, sessions_find_nodes_quiescent,
    sessions_keep_their_course, sessions_write_their_run,
};
use crate::request::Request;
use crate::said::{Answer, Ending, Said};
use crowd_laws::true_lines_are_allowed;
use quiesce_laws::started_systems_are_reached;

/// What `apply` promises, of each place that a session comes to and of each end.
pub fn apply_promises()
    // What has happened is a run of the machine's rules, and the lines that were written say what was done in it.
    ensures run { (r : Request) (came : Bytes) (at : Place) → CanChange (change_in r) → Reached r came at
        → IsRun at.scene.events × IsWritten at.text at.scene.events }
    // Where such a line says that a port is linked or unlinked, its owner is quiescent, and so is a node that is removed.
    ensures quiescent { (r : Request) (came : Bytes) (at : Place) (w : IsWritten at.text at.scene.events) (front back : List Line) (l : Line)
        (e : Event) → CanChange (change_in r) → Reached r came at → w.lines ≡ front ++ l ∷ back → done_by l ≡ Some e
        → (is : IsDoneBehind front e at.scene.events) × FindsQuiet r.from.graph is.before e }
    // Behind `commit` the new graph stands, and behind any other end the old one. No gate stays closed.
    ensures stands { (r : Request) (came before taken : Bytes) (e : Ending) → CanChange (change_in r)
        → (h : HasEnded r came before taken e) → StandsBehind e (change_in r) h.place.scene.events }
    // It is committed exactly by `go` behind `ready`.
    ensures committed { (r : Request) (said : List Said) → ((heard r said).answer ≡ Answer.Committed) ↔ SaysGo r said }
    // One input has one answer.
    ensures one { (r : Request) (came : List ℕ) (before taken : Bytes) (e : Ending) → HasEnded r (Some came) before taken e
        → (e ≡ Ending.Unread → ⊥)
        → (taken ≡ with_bytes before (applied r came).text) × (e ≡ ending_of (applied r came).answer) }
{
    started_systems_are_reached();
    true_lines_are_allowed();
    sessions_keep_their_course();
    sessions_write_their_run();
    sessions_find_nodes_quiescent();
    sessions_find_crowds_quiescent();
    one_input_has_one_answer();
}
