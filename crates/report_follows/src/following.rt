//! A history read along its script: statement by statement, and line by line.

ghost use Rattle.std.specs.Prelude.{◌≡◌, ◌↔◌, ◌^◌, ◌<◌, ◌∷◌, ◌++◌, List, [], false, true, length, map, IfNone, IfOk, IfSome, IsTrue, MatchOption, None, Some};
ghost use Rattle.std.specs.List.{list_all};
ghost use Rattle.std.specs.List.Sorted.{IsStrictlyIncreasing};
ghost use Rattle.change_spec.specs.Asked as asked;
ghost use Rattle.change_spec.specs.Asked.{Above, CanChange, CanDoAll, CanStart, statement_of, statements_of};
ghost use Rattle.change_spec.specs.Follows.{Follows, IsRight, IsStop, start_lines};
ghost use Rattle.change_spec.specs.declared.steps.Step.TheVariants as to_do;
ghost use Rattle.change_lists.specs.Lists.{closed_by, commit_by, places_after, ports_after};
ghost use Rattle.merge_laws.specs.Reading.{IsChangeSo};
ghost use Rattle.report_types.specs.declared.report.HistoryLine.{HistoryLine as Line};
ghost use Rattle.report_follows.specs.Fronts.{HasNoFront, LeadsTo};
ghost use Rattle.report_follows.specs.Readers.{CanGo, EndsSo, IsBehind, IsEndedSo, IsReadSo, IsStill, tried};
ghost use Rattle.report_follows.specs.Testing.{is_tellable};

use crate::laws::{what_is_expected_may_be_read, what_is_read_stands};
use crate::reading::{
    after_committed, after_finish, after_given_up, after_opening, after_run, after_show,
    after_skipped, after_start, is_stop,
};
use change_lists::{Commit, Layout, PlanIndex, list_start};
use change_spec::{Replacement, Start, Step};
use config_graph::{Graph, NoMemory};
use merge_laws::readers_have_no_choice;
use quiesce_core::Event;
use report_types::HistoryLine;
use std::alloc::Global;

/// What is expected of a change that is tried.
#[derive(Drop)]
struct Expected {
    closed: Vec<u32>,
    commit: Commit,
}

fn list_by(
    alloc: Global,
    layout: &Layout,
    old: &Graph,
    change: &Replacement,
    plan: &PlanIndex<'_>,
) -> Result<Expected, NoMemory>
    requires here { (above : Above) × (before : List Line) × CanChange above change.now
        × IsBehind above before old.now layout.now false × (plan.now ≡ change.now.plan) }
    ensures closed { IfOk result (λ x. x.closed.items
        ≡ closed_by layout.now.places.items layout.now.ports.items plan.now.freeze) }
    ensures events { IfOk result (λ x. x.commit.events.items
        ≡ commit_by old.now change.now.graph plan.now layout.now.places.items layout.now.ports.items) }
    ensures places { IfOk result (λ x. x.commit.next.places.items
        ≡ places_after old.now change.now.graph plan.now layout.now.places.items) }
    ensures ports { IfOk result (λ x. x.commit.next.ports.items
        ≡ ports_after change.now.graph plan.now layout.now.places.items layout.now.ports.items) }
{
    let closed = layout.list_closed(alloc, plan)?;
    let commit = layout.list_commit(alloc, old, &change.graph, plan)?;
    Ok(Expected { closed, commit })
}

/// What is expected of a change from the graph of this layout.
fn list_change(
    alloc: Global,
    layout: &Layout,
    old: &Graph,
    change: &Replacement,
) -> Result<Expected, NoMemory>
    requires here { (above : Above) × (before : List Line) × CanChange above change.now
        × IsBehind above before old.now layout.now false }
    ensures closed { IfOk result (λ x. x.closed.items
        ≡ closed_by layout.now.places.items layout.now.ports.items change.now.plan.freeze) }
    ensures events { IfOk result (λ x. x.commit.events.items
        ≡ commit_by old.now change.now.graph change.now.plan layout.now.places.items layout.now.ports.items) }
    ensures places { IfOk result (λ x. x.commit.next.places.items
        ≡ places_after old.now change.now.graph change.now.plan layout.now.places.items) }
    ensures ports { IfOk result (λ x. x.commit.next.ports.items
        ≡ ports_after change.now.graph change.now.plan layout.now.places.items layout.now.ports.items) }
{
    let plan = PlanIndex::of(
        alloc,
        old.node_count(),
        change.graph.node_count(),
        &change.plan,
    )?;
    list_by(alloc, layout, old, change, &plan)
}

/// What is left behind the lines of a change, and which end it had.
#[derive(Clone, Copy)]
struct Ended<'l> {
    left: &'l [HistoryLine],
    given_up: bool,
}

/// What is left behind the lines of a change that stand behind its closes.
fn after_end<'l>(
    alloc: Global,
    lines: &'l [HistoryLine],
    within: u32,
    closed: &[u32],
    events: &[Event],
) -> Result<Option<Ended<'l>>, NoMemory>
    requires rise { IsStrictlyIncreasing closed.now }
    requires tellable { IsTrue (list_all is_tellable events.now) }
    ensures found { IfOk result (λ o. IfSome o
        (λ ended. LeadsTo (EndsSo ended.given_up within closed.now events.now) lines.now ended.left.now)) }
    ensures committed { IfOk result
        (λ o. IfNone o (HasNoFront (EndsSo false within closed.now events.now) lines.now)) }
    ensures given_up { IfOk result
        (λ o. IfNone o (HasNoFront (EndsSo true within closed.now events.now) lines.now)) }
{
    if let Some(left) = after_committed(alloc, lines, within, closed, events)? {
        return Ok(Some(Ended {
            left,
            given_up: false,
        }));
    }
    match after_given_up(alloc, lines, within, closed)? {
        Some(left) => Ok(Some(Ended {
            left,
            given_up: true,
        })),
        None => Ok(None),
    }
}

/// What is left of lines behind those of a change of which this is expected.
fn after_change<'l>(
    alloc: Global,
    lines: &'l [HistoryLine],
    change: &Replacement,
    closed: &[u32],
    events: &[Event],
) -> Result<Option<Ended<'l>>, NoMemory>
    requires rise { IsStrictlyIncreasing closed.now }
    requires tellable { IsTrue (list_all is_tellable events.now) }
    ensures found { IfOk result (λ o. IfSome o (λ ended. LeadsTo
        (IsEndedSo ended.given_up change.now.name change.now.args change.now.within closed.now events.now) lines.now
        ended.left.now)) }
    ensures none { IfOk result (λ o. IfNone o (HasNoFront
        (IsChangeSo change.now.name change.now.args change.now.within closed.now events.now) lines.now)) }
{
    match after_opening(lines, change.name.as_bytes(), change.args.items(), closed) {
        Some(rest) => after_end(alloc, rest, change.within, closed, events),
        None => Ok(None),
    }
}

/// What is left of lines behind those of a step that tries no change.
fn after_still<'l>(lines: &'l [HistoryLine], step: &Step) -> Option<&'l [HistoryLine]>
    ensures found { IfSome result (λ rest. LeadsTo (IsStill step.now) lines.now rest.now) }
    ensures none { IfNone result (HasNoFront (IsStill step.now) lines.now) }
{
    match step {
        Step::Run { k } => after_run(lines, *k),
        Step::Change(change) => {
            after_skipped(lines, change.name.as_bytes(), change.args.items())
        }
        Step::Finish { n } => after_finish(lines, *n),
        Step::Show => after_show(lines),
    }
}

/// A reader between two statements.
#[derive(Drop)]
struct Reader<'a> {
    alloc: Global,
    /// The lines that aren't read yet.
    left: &'a [HistoryLine],
    /// The graph of the last commit, and where its nodes and ports were made.
    graph: &'a Graph,
    layout: Layout,
    /// Whether a change was given up.
    given_up: bool,
}

impl<'a> Reader<'a> {
    /// Behind the lines of the start, where the history begins with them.
    fn begin(
        alloc: Global,
        start: &'a Start,
        history: &'a [HistoryLine],
    ) -> Result<Option<Reader<'a>>, NoMemory>
        requires start { CanStart start.now }
        ensures found { IfOk result (λ o. IfSome o (λ r. LeadsTo (λ (ls : List Line).
            (ls ≡ start_lines start.now.name start.now.args start.now.graph)
            × IsBehind (asked.after_start start.now) ls r.graph.now r.layout r.given_up) history.now r.left.now)) }
        ensures none { IfOk result (λ o. IfNone o (HasNoFront
            (λ (ls : List Line). ls ≡ start_lines start.now.name start.now.args start.now.graph) history.now)) }
    {
        what_is_expected_may_be_read();
        what_is_read_stands();
        let events = list_start(alloc, &start.graph)?;
        let layout = Layout::of(alloc, &start.graph)?;
        match after_start(history, start.name.as_bytes(), start.args.items(), &events) {
            Some(left) => Ok(Some(Reader {
                alloc,
                left,
                graph: &start.graph,
                layout,
                given_up: false,
            })),
            None => Ok(None),
        }
    }

    /// The change that a step tries, if it does.
    fn change_to_try(&self, step: &'a Step) -> Option<&'a Replacement>
        ensures { MatchOption result (tried self.now.given_up step.now ≡ None)
            (λ change. tried self.now.given_up step.now ≡ Some change.now) }
    {
        if self.given_up {
            return None;
        }
        match step {
            Step::Change(change) => Some(change),
            _ => None,
        }
    }

    /// Reads a step that tries no change, where what is left begins with its lines.
    fn pass(&mut self, step: &Step) -> bool
        ensures found { result ≡ true → LeadsTo (IsStill step.now) self.old.left.now self.new.left.now }
        ensures none { result ≡ false → HasNoFront (IsStill step.now) self.old.left.now }
        ensures graph { self.new.graph.now ≡ self.old.graph.now }
        ensures layout { self.new.layout ≡ self.old.layout }
        ensures given_up { self.new.given_up ≡ self.old.given_up }
    {
        match after_still(self.left, step) {
            Some(left) => {
                self.left = left;
                true
            }
            None => false,
        }
    }

    /// Goes on behind a change, to the graph and the layout that its commit leaves, where it was committed.
    fn settle(&mut self, ended: Ended<'a>, graph: &'a Graph, next: Layout)
        ensures left { self.new.left.now ≡ ended.entry.left.now }
        ensures committed { ended.entry.given_up ≡ false → (self.new.graph.now ≡ graph.now) × (self.new.layout ≡ next)
            × (self.new.given_up ≡ self.old.given_up) }
        ensures given_up { ended.entry.given_up ≡ true → (self.new.graph.now ≡ self.old.graph.now)
            × (self.new.layout ≡ self.old.layout) × (self.new.given_up ≡ true) }
    {
        self.left = ended.left;
        if ended.given_up {
            self.given_up = true;
        } else {
            self.graph = graph;
            self.layout = next;
        }
    }

    /// Reads a change that is tried, where what is left begins with its lines.
    fn replace(&mut self, change: &'a Replacement) -> Result<bool, NoMemory>
        requires here { (above : Above) × (before : List Line) × CanChange above change.now
            × IsBehind above before self.old.graph.now self.old.layout false }
        requires tries { self.old.given_up ≡ false }
        ensures found { IfOk result (λ b. b ≡ true → (above : Above) (before : List Line)
            (can : CanChange above change.now)
            → IsBehind above before self.old.graph.now self.old.layout false
            → LeadsTo (IsReadSo above (to_do.Change change.now) can before self.new.graph.now self.new.layout
            self.new.given_up) self.old.left.now self.new.left.now) }
        ensures none { IfOk result (λ b. b ≡ false → (above : Above) (before : List Line)
            → CanChange above change.now
            → IsBehind above before self.old.graph.now self.old.layout false
            → HasNoFront (IsRight before (statement_of (to_do.Change change.now))) self.old.left.now) }
    {
        what_is_expected_may_be_read();
        what_is_read_stands();
        let Expected { closed, commit } = list_change(
            self.alloc,
            &self.layout,
            self.graph,
            change,
        )?;
        match after_change(self.alloc, self.left, change, &closed, &commit.events)? {
            Some(ended) => {
                self.settle(ended, &change.graph, commit.next);
                Ok(true)
            }
            None => Ok(false),
        }
    }

    /// Reads the next step, where what is left begins with its lines.
    fn read(&mut self, step: &'a Step) -> Result<bool, NoMemory>
        requires here { (above : Above) × (before : List Line) × CanGo above step.now
            × IsBehind above before self.old.graph.now self.old.layout self.old.given_up }
        ensures found { IfOk result (λ b. b ≡ true → (above : Above) (before : List Line)
            (can : CanGo above step.now)
            → IsBehind above before self.old.graph.now self.old.layout self.old.given_up
            → LeadsTo (IsReadSo above step.now can before self.new.graph.now self.new.layout self.new.given_up)
            self.old.left.now self.new.left.now) }
        ensures none { IfOk result (λ b. b ≡ false → (above : Above) (before : List Line)
            → CanGo above step.now
            → IsBehind above before self.old.graph.now self.old.layout self.old.given_up
            → HasNoFront (IsRight before (statement_of step.now)) self.old.left.now) }
    {
        match self.change_to_try(step) {
            Some(change) => self.replace(change),
            None => Ok(self.pass(step)),
        }
    }

    /// Whether what is left is the stop.
    fn is_at_stop(&self) -> Result<bool, NoMemory>
        requires here { (above : Above) × (before : List Line)
            × IsBehind above before self.now.graph.now self.now.layout self.now.given_up }
        ensures { IfOk result (λ b. (above : Above) (before : List Line)
            → IsBehind above before self.now.graph.now self.now.layout self.now.given_up
            → IsTrue b ↔ IsStop before self.now.left.now) }
    {
        let live = self.layout.live_ports(self.alloc)?;
        is_stop(self.alloc, self.left, &live)
    }
}

/// Whether a history follows a script: the start, and the steps behind it, each with the graph and the plan that were
/// made for it. It is read line by line and without a choice, after Kramer and Magee (1990): what a change must close and
/// commit follows from the lines before.
pub fn follows_so(
    alloc: Global,
    start: &Start,
    steps: &[Step],
    history: &[HistoryLine],
) -> Result<bool, NoMemory>
    requires start { CanStart start.now }
    requires steps { CanDoAll (asked.after_start start.now) steps.now }
    ensures { IfOk result (λ b. IsTrue b ↔ Follows (statements_of start.now steps.now) history.now) }
{
    readers_have_no_choice();
    let Some(mut reader) = Reader::begin(alloc, start, history)? else {
        return Ok(false);
    };
    for step in steps {
        if !reader.read(step)? {
            return Ok(false);
        }
    }
    reader.is_at_stop()
}
