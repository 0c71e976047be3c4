//! Laws of what was sighted of lines: the earlier nodes whose state a node took over, one from the other, and itself.

ghost use Rattle.std.specs.Prelude.{◌≡◌, ℕ, true, List, [], ◌∷◌, ◌++◌, map, Option, Some, None};
ghost use Rattle.std.specs.List.{AllByRecursion, list_any};
ghost use Rattle.change_board.specs.Sights.{fold_seen, is_seen_done, seen_in};
ghost use Rattle.component_trait.specs.Moves as moves;
ghost use Rattle.component_trait.specs.States.{NodeState};
ghost use Rattle.config_graph.specs.declared.kind.Kind.{Kind};
ghost use Rattle.live_hall.specs.Lines.{line_words, seen_word};
ghost use Rattle.live_hall.specs.Sighting.{IsMadeIn};
ghost use Rattle.live_board.specs.Lines.{AreOfLiveNodes, IsMadeLine, LineSight, WholeLine, is_in_slot, line_node, line_nodes, line_place, line_sight, line_sights};
ghost use Rattle.node_host.specs.Lines.{line_state};
ghost use Rattle.quiesce_core.specs.State.{Configuration, is_live};
ghost use Rattle.quiesce_core.specs.declared.event.Event.{Event};
ghost use Rattle.txn_spec.specs.declared.view.NodeView.{NodeView};
ghost use Rattle.txn_records.specs.Entries.{config_of};
ghost use Rattle.txn_records.specs.Records.{IsRecord};
ghost use Rattle.txn_records.specs.declared.entry.Entry.{Entry};

/// What the seats of a line tell, where the configuration made their nodes so, says that it made the line.
pub fn seats_tell_of_their_line()
    ensures made { (c : Configuration) (k : Kind) (line : List LineSight) (seats : List NodeView)
        → map seen_word seats ≡ line_words k None (map line_place line) → AllByRecursion (IsMadeIn c) seats
        → IsMadeLine c k None line }
{}

/// What was seen of a line that a record made folds to the state of its last node.
pub fn lines_have_folds()
    ensures folds { (r : List Entry) (seen : ℕ → Option (List Event)) (k : Kind) (past : List LineSight)
        (last : LineSight) → IsRecord r → IsMadeLine (config_of r) k None (past ++ last ∷ [])
        → AllByRecursion (λ (x : LineSight). seen x.slot ≡ Some x.log) (past ++ last ∷ [])
        → fold_seen (config_of r) seen last.slot ≡ line_state k None (map line_node past) (line_node last) }
{}

/// A node that was sighted with its line, and has done what it is made for, is seen as done.
pub fn done_nodes_are_seen_as_done()
    ensures done { (r : List Entry) (k : Kind) (past : List LineSight) (last : LineSight) (state : NodeState)
        → IsRecord r → IsMadeLine (config_of r) k None (past ++ last ∷ [])
        → line_state k None (map line_node past) (line_node last) ≡ Some state → moves.is_done state ≡ true
        → is_seen_done (config_of r) (seen_in (map line_sight (past ++ last ∷ []))) last.slot ≡ true }
{}

/// Where the lines of two live nodes have a node in common, they are the line of one node: no two nodes took over from
/// one, and who took over from a live one there is none.
pub fn lines_share_no_node()
    ensures apart { (r : List Entry) (k j : Kind) (past other : List LineSight) (last final : LineSight) (n : ℕ)
        → IsRecord r → IsMadeLine (config_of r) k None (past ++ last ∷ [])
        → IsMadeLine (config_of r) j None (other ++ final ∷ []) → is_live (config_of r) last.slot ≡ true
        → is_live (config_of r) final.slot ≡ true → list_any (is_in_slot n) (past ++ last ∷ []) ≡ true
        → list_any (is_in_slot n) (other ++ final ∷ []) ≡ true → last.slot ≡ final.slot }
{}

/// Who took over from a live node there is none, so in each line in which a live node stands it is the last.
pub fn live_nodes_end_their_lines()
    ensures ends { (r : List Entry) (k : Kind) (past : List LineSight) (last : LineSight) (n : ℕ)
        → IsRecord r → IsMadeLine (config_of r) k None (past ++ last ∷ [])
        → list_any (is_in_slot n) (past ++ last ∷ []) ≡ true → is_live (config_of r) n ≡ true → last.slot ≡ n }
{}

/// So among the sights of whole lines, one of each live node, the first sight of a node is that of its own line.
pub fn first_sights_are_of_own_lines()
    ensures first { (r : List Entry) (lines : List WholeLine) → IsRecord r → AreOfLiveNodes (config_of r) lines
        → AllByRecursion (λ (l : WholeLine). AllByRecursion (λ (x : LineSight).
        seen_in (line_sights lines) x.slot ≡ Some x.log) (line_nodes l)) lines }
{}
