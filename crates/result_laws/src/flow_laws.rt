//! What becomes of items in each lawful report.

ghost use Rattle.std.specs.Prelude.{◌≡◌, ℕ, ◌+◌, true, false, List, [], ◌∷◌, ◌++◌, length, All, Some};
ghost use Rattle.report_types.specs.declared.report.Report.{Report};
ghost use Rattle.change_spec.specs.Lawful.{Lawful};
ghost use Rattle.change_spec.specs.Statements.{Statement};
ghost use Rattle.change_spec.specs.Members.{events};
ghost use Rattle.quiesce_core.specs.Runs.{IsRun, state_after};
ghost use Rattle.quiesce_core.specs.declared.event.Event.{Event};
ghost use Rattle.result_laws.specs.Holding.{AreFree, AreHeldOnce, AreLent, AreTables, NoneSpent, NothingIsOpenAt, forks_not_free, forks_serve_places, holds};
ghost use Rattle.result_laws.specs.Carrying.{amount, carried};
ghost use Rattle.result_laws.specs.WorkedPlaces.{asked_to_pay, between_accounts, counted, given, paid, put, taken, with_fork};
ghost use Rattle.result_laws.specs.WorkedFlows.{mixed, report, with_philosopher_at_fork, with_teller_at_sink};
ghost use Rattle.result_laws.specs.UnderWay.{of_nodes, spent, stock, under_way};
ghost use Rattle.result_laws.specs.Flows.{AddsNothing, AreApart, AreFlows, IsOfFlows, KeepsWeight, held, one, only, same_side, sent};
ghost use Rattle.result_laws.specs.Describing.{LinksAre};

use change_spec::{a_moved_state_is_the_last_one, nothing_is_open_at_the_end};

/// Where each node that was made is a source, a map, a buffer or a sink, no item is lost and none doubled, however these
/// were linked and whatever was changed: buffers and sinks hold at the end, live or not, as many items as sources have sent.
pub fn items_are_kept()
    ensures items { (statements : List Statement) (report : Report) → Lawful statements report → IsOfFlows report.history
        → held one report ≡ sent one report }
    ensures apart { (statements : List Statement) (report : Report) → Lawful statements report → AreApart statements
        → held one report ≡ sent one report }
    ensures flows { (statements : List Statement) → AreFlows statements → AreApart statements }
    ensures described { (statements : List Statement) (report : Report) → Lawful statements report → AreFlows statements
        → IsOfFlows report.history }
{
    nothing_is_open_at_the_end();
    a_moved_state_is_the_last_one();
}

/// The same for any weight that no map changes by what it adds.
pub fn weighed_items_are_kept()
    ensures weighed { (weight : ℕ → ℕ) (statements : List Statement) (report : Report) → Lawful statements report
        → IsOfFlows report.history → All (KeepsWeight weight) report.history
        → held weight report ≡ sent weight report }
    ensures apart { (weight : ℕ → ℕ) (statements : List Statement) (report : Report) → Lawful statements report
        → AreApart statements → All (KeepsWeight weight) report.history → held weight report ≡ sent weight report }
    ensures values { (statements : List Statement) (report : Report) → Lawful statements report → IsOfFlows report.history
        → All AddsNothing report.history → (value : ℕ) → held (only value) report ≡ sent (only value) report }
    ensures values_apart { (statements : List Statement) (report : Report) → Lawful statements report
        → AreApart statements → All AddsNothing report.history → (value : ℕ)
        → held (only value) report ≡ sent (only value) report }
{
    nothing_is_open_at_the_end();
    a_moved_state_is_the_last_one();
}

/// And not at the end alone: at each place of the run behind a report, what buffers and sinks hold is what sources have
/// sent by then, with what is under way.
pub fn items_are_kept_at_each_place()
    ensures items { (statements : List Statement) (report : Report) → (l : Lawful statements report)
        → IsOfFlows report.history → (before after : List Event) → events l.members ≡ before ++ after
        → of_nodes (stock one) before ≡ of_nodes (spent one) before + under_way one before }
    ensures apart { (statements : List Statement) (report : Report) → (l : Lawful statements report) → AreApart statements
        → (before after : List Event) → events l.members ≡ before ++ after
        → of_nodes (stock one) before ≡ of_nodes (spent one) before + under_way one before }
    ensures weighed { (weight : ℕ → ℕ) (statements : List Statement) (report : Report) → (l : Lawful statements report)
        → IsOfFlows report.history → All (KeepsWeight weight) report.history
        → (before after : List Event) → events l.members ≡ before ++ after
        → of_nodes (stock weight) before ≡ of_nodes (spent weight) before + under_way weight before }
    ensures weighed_apart { (weight : ℕ → ℕ) (statements : List Statement) (report : Report)
        → (l : Lawful statements report) → AreApart statements → All (KeepsWeight weight) report.history
        → (before after : List Event) → events l.members ≡ before ++ after
        → of_nodes (stock weight) before ≡ of_nodes (spent weight) before + under_way weight before }
{
    nothing_is_open_at_the_end();
    a_moved_state_is_the_last_one();
}

/// Where places alone lead to forks, each fork is held by one place at most, at each place of the run behind a report: two
/// ports that hold one fork are the same port. One that isn't free is lent: the owner of a port that leads there has it, or
/// is granted it. So where nothing is open, each is free.
pub fn forks_are_held_once()
    ensures once { (statements : List Statement) (report : Report) → (l : Lawful statements report) → AreTables statements
        → (before after : List Event) → events l.members ≡ before ++ after → AreHeldOnce before }
    ensures lent { (statements : List Statement) (report : Report) → (l : Lawful statements report) → AreTables statements
        → (before after : List Event) → events l.members ≡ before ++ after → NoneSpent (state_after before)
        → AreLent before }
    ensures free { (statements : List Statement) (report : Report) → (l : Lawful statements report) → AreTables statements
        → (before after : List Event) → events l.members ≡ before ++ after → NoneSpent (state_after before)
        → NothingIsOpenAt before → AreFree before }
    ensures none_at_the_end { (statements : List Statement) (report : Report) → (l : Lawful statements report) → (p : ℕ)
        → holds (events l.members) p ≡ false }
    ensures free_at_the_end { (statements : List Statement) (report : Report) → (l : Lawful statements report)
        → AreTables statements → NoneSpent (state_after (events l.members)) → forks_not_free report ≡ 0 }
{
    nothing_is_open_at_the_end();
    a_moved_state_is_the_last_one();
}

/// The definitions on small systems. One with forks and places beside sources, a map, buffers and a sink has links as both
/// laws want them, and one whose teller leads to a sink, or whose philosopher leads to a fork, has not. And a report in
/// which a source sent three items: the buffer that took over at last has the one that the sink lacks, and no other value.
pub fn flows_are_told_from_others()
    ensures apart { LinksAre same_side mixed }
    ensures teller { LinksAre same_side with_teller_at_sink → ⊥ }
    ensures table { LinksAre forks_serve_places mixed }
    ensures philosopher { LinksAre forks_serve_places with_philosopher_at_fork → ⊥ }
    ensures items { (held one (report (3 ∷ [])) ≡ 3) × (sent one (report (3 ∷ [])) ≡ 3) }
    ensures short { (xs : List ℕ) → held one (report xs) ≡ sent one (report xs) → length xs ≡ 1 }
    ensures another { (x : ℕ) → held (only 3) (report (x ∷ [])) ≡ sent (only 3) (report (x ∷ [])) → x ≡ 3 }
{}

/// And at places of small runs. A place that has heard that its fork was given holds it, by the port that leads there and
/// no other; before that it doesn't. An item that a sink took in is under way until its source has heard of it. A branch
/// carries what one account took off until the other has put it on.
pub fn places_are_told_from_others()
    ensures fork { IsRun with_fork × (holds with_fork 0 ≡ true) }
    ensures others { (holds given 0 ≡ false) × (holds with_fork 1 ≡ false) }
    ensures item { IsRun counted × (of_nodes (stock one) taken ≡ 1) × (of_nodes (spent one) taken ≡ 0)
        × (under_way one taken ≡ 1) }
    ensures counted { (of_nodes (stock one) counted ≡ 1) × (of_nodes (spent one) counted ≡ 1)
        × (under_way one counted ≡ 0) }
    ensures paid { IsRun put × (of_nodes amount asked_to_pay ≡ 100) × (carried asked_to_pay 2 ≡ 0)
        × (of_nodes amount paid ≡ 99) × (carried paid 2 ≡ 1) }
    ensures put { (of_nodes amount between_accounts ≡ 99) × (carried between_accounts 2 ≡ 1)
        × (of_nodes amount put ≡ 100) × (carried put 2 ≡ 0) }
{}
