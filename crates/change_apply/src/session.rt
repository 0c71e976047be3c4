//! A session with a system that runs elsewhere: one change of it.

ghost use Rattle.std.specs.Prelude.{◌≡◌, ◌==◌, ◌<◌, ◌^◌, ◌≤◌, ◌+◌, ◌++◌, ◌∷◌, [], ℤ, ℕ, List, None, Some, true, false, IfOk, OnOk, IsTrue, length, map, nat_lt};
ghost use Rattle.std.specs.List.{list_all, list_any, flat_map};
ghost use Rattle.change_lists.specs.Layouts.{IsLayoutOf};
ghost use Rattle.change_lists.specs.Lists.{closed_by};
ghost use Rattle.change_plan.specs.declared.plan_data.Move.{Move};
ghost use Rattle.config_graph.specs.Graph.{IsGraph};
ghost use Rattle.change_apply.specs.Sessions as sessions;
ghost use Rattle.change_apply.specs.Sessions.{CanChange, change_in};
ghost use Rattle.change_apply.specs.Standing.{CanDo, HasDone, IsGroundOf, IsListed, IsPlanned, IsTurned, Stands, after_told, change_of, is_leaving, scene_of};
ghost use Rattle.change_apply.specs.Replies.{opening};
ghost use Rattle.change_spec.specs.Follows.{start_lines};
ghost use Rattle.quiesce_laws.specs.Starts.{start_of};
ghost use Rattle.quiesce_core.specs.Rules.{denial, is_open};
ghost use Rattle.quiesce_core.specs.State as state;
ghost use Rattle.quiesce_core.specs.State.{Configuration};
ghost use Rattle.quiesce_core.specs.Doers.{is_make};
ghost use Rattle.quiesce_core.specs.declared.event.Event.{Event};
ghost use Rattle.quiesce_core.specs.Runs.{state_after};
ghost use Rattle.quiesce_laws.specs.Drained as drained;

use crate::request::{Called, Request};
use crate::said::{Answer, Phase, Said};
use crate::telling::push_lines;
use change_lists::{Commit, Layout, PlanIndex, layouts_tell_commits, list_start};
use change_plan::{Move, Plan};
use change_plan_laws::{
    commits_can_not_fail, commits_leave_the_new_graph, what_is_frozen_may_be_closed,
};
use config_graph::{Graph, List, NoMemory, Text};
use quiesce_core::{Core, Event, a_started_system_has_its_graph};
use quiesce_laws::started_systems_are_reached;
use quiesce_replay::apply_all;
use report_types::HistoryLine;
use std::alloc::Global;

/// What is there of a system that was started.
#[derive(Drop)]
struct Ground {
    core: Core,
    /// What was made.
    layout: Layout,
    /// The ports whose gates are to be closed.
    asked: Vec<u32>,
}

/// One change of a system that runs elsewhere, by what was told of it.
#[derive(Drop)]
pub struct Session {
    request: Request,
    core: Core,
    /// What was made.
    layout: Layout,
    /// The ports whose gates are to be closed.
    asked: Vec<u32>,
    /// How many of the rounds are left that the ports have to drain.
    left: u32,
    phase: Phase,
}

/// Whether a port is closed, and idle or in a consequent transaction.
fn is_drained(core: &Core, port: u32) -> bool
    ensures { result ≡ drained.is_drained core.now.state port }
{
    let exchange = core.exchange(port);
    core.gate(port).closed && (exchange.phase.is_idle() || exchange.within.is_some())
}

fn are_drained(core: &Core, ports: &[u32]) -> bool
    ensures { result ≡ list_all (drained.is_drained core.now.state) ports.now }
{
    ports.iter().all(|port| is_drained(core, *port))
}

/// Tells of the root at a port, where the port isn't drained.
fn push_root(core: &Core, port: u32, told: &mut Vec<HistoryLine>) -> Result<(), NoMemory>
    ensures { OnOk result (told.new.items ≡ told.old.items ++ sessions.root_at core.now.state port) }
{
    if !is_drained(core, port) {
        told.push(HistoryLine::Root {
            port,
            serial: core.exchange(port).serial,
        })?;
    }
    Ok(())
}

fn push_roots(core: &Core, ports: &[u32], told: &mut Vec<HistoryLine>) -> Result<(), NoMemory>
    ensures { OnOk result (told.new.items ≡ told.old.items ++ flat_map (sessions.root_at core.now.state) ports.now) }
{
    for port in ports {
        push_root(core, *port, told)?;
    }
    Ok(())
}

/// The events that open these ports.
fn list_reopens(alloc: Global, ports: &[u32]) -> Result<Vec<Event>, NoMemory>
    ensures { IfOk result (λ events. events.items ≡ map Event.Reopen ports.now) }
{
    let mut events = Vec::with_capacity(alloc, ports.len())?;
    for port in ports {
        events.push(Event::Reopen { port: *port })?;
    }
    Ok(events)
}

/// Tells which gates to close.
fn push_closes(ports: &[u32], told: &mut Vec<HistoryLine>) -> Result<(), NoMemory>
    ensures { OnOk result (told.new.items ≡ told.old.items ++ map HistoryLine.Close ports.now) }
{
    for port in ports {
        told.push(HistoryLine::Close { port: *port })?;
    }
    Ok(())
}

fn is_among(ports: &[u32], port: u32) -> bool
    ensures { result ≡ list_any (λ q. q == port) ports.now }
{
    ports.iter().any(|it| *it == port)
}

/// What the commit of a plan does, and the layout behind it.
fn list_commit(
    alloc: Global,
    layout: &Layout,
    old: &Graph,
    new: &Graph,
    plan: &Plan,
) -> Result<Commit, NoMemory>
    requires planned { (c : Configuration) × (moves : List Move) × IsGraph old.now × IsLayoutOf layout.now c old.now
        × IsPlanned old.now new.now moves plan.now c }
    ensures { IfOk result (IsListed old.now new.now plan.now layout.now) }
{
    let index = PlanIndex::of(alloc, old.node_count(), new.node_count(), plan)?;
    list_commit_by(alloc, layout, old, new, &index)
}

fn list_commit_by(
    alloc: Global,
    layout: &Layout,
    old: &Graph,
    new: &Graph,
    plan: &PlanIndex<'_>,
) -> Result<Commit, NoMemory>
    requires planned { (c : Configuration) × (moves : List Move) × IsGraph old.now × IsLayoutOf layout.now c old.now
        × IsPlanned old.now new.now moves plan.now c }
    ensures { IfOk result (IsListed old.now new.now plan.now layout.now) }
{
    layout.list_commit(alloc, old, new, plan)
}

/// The ports that a plan closes.
fn list_closed(
    alloc: Global,
    layout: &Layout,
    old: &Graph,
    new: &Graph,
    plan: &Plan,
) -> Result<Vec<u32>, NoMemory>
    requires planned { (c : Configuration) × (moves : List Move) × IsGraph old.now × IsLayoutOf layout.now c old.now
        × IsPlanned old.now new.now moves plan.now c }
    requires few { length layout.now.ports.items < 2 ^ 32 }
    ensures { IfOk result
        (λ list. list.items ≡ closed_by layout.now.places.items layout.now.ports.items plan.now.freeze) }
{
    let index = PlanIndex::of(alloc, old.node_count(), new.node_count(), plan)?;
    layout.list_closed(alloc, &index)
}

/// Does these events, in order, each of which is allowed behind those before it.
fn do_all(core: &mut Core, events: &[Event]) -> Result<(), NoMemory>
    requires { CanDo core.old.state events.now }
    ensures { OnOk result (HasDone core.old.state events.now core.new.state) }
{
    match apply_all(core, events)? {
        None => Ok(()),
        Some(_) => unreachable!(),
    }
}

/// Tells which ports are drained.
fn push_drained(core: &Core, ports: &[u32], told: &mut Vec<HistoryLine>) -> Result<(), NoMemory>
    ensures { OnOk result (told.new.items ≡ told.old.items ++ map (sessions.drained_at core.now.state) ports.now) }
{
    for port in ports {
        told.push(HistoryLine::Drained {
            port: *port,
            serial: core.exchange(*port).serial,
        })?;
    }
    Ok(())
}

/// The serial of the port's next transaction.
fn next_serial(core: &Core, port: u32) -> u32
    ensures { result ≡ (state.exchange core.now.state port).serial + 1 }
{
    let _ = core.made();
    core.exchange(port).serial + 1
}

/// Lets an event happen, or says by which rule it is denied.
fn do_one(core: &mut Core, event: &Event) -> Option<u32>
    requires { is_make event.now ≡ false }
    ensures answer { result ≡ denial core.old.state event.now }
    ensures done { core.new.state ≡ after_told core.old.state (event.now ∷ []) }
{
    if let Some(rule) = core.denial(event) {
        return Some(rule);
    }
    core.perform(event);
    None
}

/// Lets the transaction at a port be taken, answered and ended.
fn do_idle(core: &mut Core, port: u32) -> Option<u32>
    ensures answer { result ≡ sessions.denied core.old.state (sessions.events_told core.old.state (Said.Idle port)) }
    ensures done { core.new.state ≡ after_told core.old.state (sessions.events_told core.old.state (Said.Idle port)) }
{
    let serial = core.exchange(port).serial;
    let value = 0;
    if let Some(rule) = do_one(
        core,
        &Event::Take {
            port,
            serial,
            value,
        },
    ) {
        return Some(rule);
    }
    if let Some(rule) = do_one(
        core,
        &Event::Give {
            port,
            serial,
            value,
        },
    ) {
        return Some(rule);
    }
    do_one(
        core,
        &Event::End {
            port,
            serial,
            value,
        },
    )
}

/// Lets happen what a line tells.
fn do_told(core: &mut Core, said: Said) -> Option<u32>
    ensures answer { result ≡ sessions.denied core.old.state (sessions.events_told core.old.state said) }
    ensures done { core.new.state ≡ after_told core.old.state (sessions.events_told core.old.state said) }
{
    match said {
        Said::Busy { port } => {
            let serial = next_serial(core, port);
            do_one(
                core,
                &Event::Begin {
                    port,
                    serial,
                    value: 0,
                },
            )
        }
        Said::Closed { port } => do_one(core, &Event::Close { port }),
        Said::Idle { port } => do_idle(core, port),
        _ => None,
    }
}

fn clone_args(alloc: Global, args: &List<i32>) -> Result<List<i32>, NoMemory>
    ensures { IfOk result (λ list. list ≡ args.now) }
{
    Ok(List::of(Vec::from_slice(alloc, args.items())?))
}

/// Tells how the system comes to be.
fn push_start(alloc: Global, from: &Called, told: &mut Vec<HistoryLine>) -> Result<(), NoMemory>
    ensures { OnOk result (told.new.items ≡ told.old.items ++ start_lines from.now.name from.now.args from.now.graph) }
{
    told.push(HistoryLine::Start {
        name: from.name.try_clone()?,
        args: clone_args(alloc, &from.args)?,
    })?;
    let events = list_start(alloc, &from.graph)?;
    push_lines(told, &events)?;
    told.push(HistoryLine::Commit)?;
    Ok(())
}

/// Tells what it is to become, and which gates to close.
fn push_change(
    alloc: Global,
    to: &Called,
    asked: &[u32],
    told: &mut Vec<HistoryLine>,
) -> Result<(), NoMemory>
    ensures { OnOk result (told.new.items
        ≡ told.old.items ++ HistoryLine.Change to.now.name to.now.args ∷ map HistoryLine.Close asked.now) }
{
    told.push(HistoryLine::Change {
        name: to.name.try_clone()?,
        args: clone_args(alloc, &to.args)?,
    })?;
    push_closes(asked, told)
}

impl Ground {
    fn of(alloc: Global, request: &Request) -> Result<Ground, NoMemory>
        requires { CanChange (change_in request.now) }
        ensures { IfOk result (IsGroundOf request.now) }
    {
        layouts_tell_commits();
        let graph = &request.from.graph;
        let core = Core::of(alloc, graph)?;
        let layout = Layout::of(alloc, graph)?;
        let asked = list_closed(alloc, &layout, graph, &request.to.graph, &request.plan)?;
        Ok(Ground {
            core,
            layout,
            asked,
        })
    }
}

/// What is there, once it is told how it comes to be and what is to become of it.
fn tell_opening(
    alloc: Global,
    request: &Request,
    told: &mut Vec<HistoryLine>,
) -> Result<Ground, NoMemory>
    requires { CanChange (change_in request.now) }
    ensures ground { IfOk result (IsGroundOf request.now) }
    ensures lines { OnOk result (told.new.items ≡ told.old.items ++ opening request.now) }
{
    started_systems_are_reached();
    a_started_system_has_its_graph();
    layouts_tell_commits();
    push_start(alloc, &request.from, told)?;
    let ground = Ground::of(alloc, request)?;
    push_change(alloc, &request.to, &ground.asked, told)?;
    Ok(ground)
}

impl Session {
    /// A session begins: it is told how the system comes to be, what it is to become, and which gates to close.
    pub fn begin(
        alloc: Global,
        request: Request,
        told: &mut Vec<HistoryLine>,
    ) -> Result<Session, NoMemory>
        requires { CanChange (change_in request) }
        ensures request { IfOk result (λ d. d.request ≡ request) }
        ensures scene { IfOk result (λ d. scene_of d (start_of request.from.graph) ≡ sessions.first_scene (change_in request)) }
        ensures stands { IfOk result (λ d. Stands d (start_of request.from.graph)) }
        ensures lines { OnOk result (told.new.items ≡ told.old.items ++ opening request) }
    {
        started_systems_are_reached();
        a_started_system_has_its_graph();
        layouts_tell_commits();
        let ground = tell_opening(alloc, &request, told)?;
        let left = request.within;
        Ok(Session {
            request,
            core: ground.core,
            layout: ground.layout,
            asked: ground.asked,
            left,
            phase: Phase::Waiting,
        })
    }

    /// Whether a line makes sense.
    fn may_say(&self, said: Said) -> bool
        requires { (es : List Event) × Stands self.now es }
        ensures { (es : List Event) → Stands self.now es → result ≡ sessions.may_say (change_of self.now) (scene_of self.now es) said }
    {
        match said {
            Said::Busy { port } | Said::Idle { port } => port < self.core.made().ports,
            Said::Closed { port } => is_among(&self.asked, port) && !self.core.gate(port).closed,
            Said::Go => matches!(self.phase, Phase::Ready),
            Said::Senseless => false,
            Said::Round | Said::Stop | Said::Over | Said::Broken | Said::Silent => true,
        }
    }

    /// What a line does, and what is answered.
    pub fn hear(
        &mut self,
        alloc: Global,
        said: Said,
        told: &mut Vec<HistoryLine>,
    ) -> Result<Answer, NoMemory>
        requires { (es : List Event) × Stands self.old es }
        ensures { IfOk result (λ answer. (es : List Event) → Stands self.old es
            → IsTurned (change_of self.old) (sessions.turn (change_of self.old) (scene_of self.old es) said)
            self.new answer told.old.items told.new.items) }
    {
        if !self.may_say(said) {
            let left = self.leave(alloc, Answer::Bad, told)?;
            return Ok(left);
        }
        match said {
            Said::Round => {
                self.left = self.left.saturating_sub(1);
                self.go_on(alloc, told)
            }
            Said::Stop | Said::Over => self.give_up(alloc, told),
            Said::Broken => self.leave(alloc, Answer::Unread, told),
            Said::Go => self.commit(alloc, told),
            Said::Silent => Ok(Answer::Waits),
            _ => self.tell(alloc, said, told),
        }
    }

    /// Lets happen what a line tells.
    fn tell(
        &mut self,
        alloc: Global,
        said: Said,
        told: &mut Vec<HistoryLine>,
    ) -> Result<Answer, NoMemory>
        requires stands { (es : List Event) × Stands self.old es }
        ensures { IfOk result (λ answer. (es : List Event) → Stands self.old es
            → IsTurned (change_of self.old) (sessions.tells (change_of self.old) (scene_of self.old es)
            (sessions.events_told (state_after es) said))
            self.new answer told.old.items told.new.items) }
    {
        if let Some(rule) = do_told(&mut self.core, said) {
            let left = self.leave(alloc, Answer::Denied { rule }, told)?;
            return Ok(left);
        }
        let given = self.go_on(alloc, told)?;
        Ok(given)
    }

    /// Goes on: it is ready where all ports are drained, and given up where no round is left.
    pub fn go_on(&mut self, alloc: Global, told: &mut Vec<HistoryLine>) -> Result<Answer, NoMemory>
        requires { (es : List Event) × Stands self.old es }
        ensures { IfOk result (λ answer. (es : List Event) → Stands self.old es
            → IsTurned (change_of self.old) (sessions.goes_on (change_of self.old) (scene_of self.old es))
            self.new answer told.old.items told.new.items) }
    {
        match self.phase {
            Phase::Waiting => {
                let given = self.settle(alloc, told)?;
                Ok(given)
            }
            _ => Ok(Answer::Waits),
        }
    }

    fn settle(&mut self, alloc: Global, told: &mut Vec<HistoryLine>) -> Result<Answer, NoMemory>
        requires stands { (es : List Event) × Stands self.old es }
        requires waiting { self.old.phase ≡ Phase.Waiting }
        ensures { IfOk result (λ answer. (es : List Event) → Stands self.old es
            → IsTurned (change_of self.old) (sessions.settles (change_of self.old) (scene_of self.old es))
            self.new answer told.old.items told.new.items) }
    {
        if are_drained(&self.core, &self.asked) {
            push_drained(&self.core, &self.asked, told)?;
            self.phase = Phase::Ready;
            return Ok(Answer::Ready);
        }
        if self.left == 0 {
            let given = self.give_up(alloc, told)?;
            return Ok(given);
        }
        Ok(Answer::Waits)
    }

    /// Carries the plan out.
    fn commit(&mut self, alloc: Global, told: &mut Vec<HistoryLine>) -> Result<Answer, NoMemory>
        requires stands { (es : List Event) × Stands self.old es }
        requires ready { self.old.phase ≡ Phase.Ready }
        ensures { IfOk result (λ answer. (es : List Event) → Stands self.old es
            → IsTurned (change_of self.old) (sessions.commits (change_of self.old) (scene_of self.old es))
            self.new answer told.old.items told.new.items) }
    {
        layouts_tell_commits();
        commits_can_not_fail();
        commits_leave_the_new_graph();
        what_is_frozen_may_be_closed();
        let commit = list_commit(
            alloc,
            &self.layout,
            &self.request.from.graph,
            &self.request.to.graph,
            &self.request.plan,
        )?;
        push_lines(told, &commit.events)?;
        told.push(HistoryLine::Commit)?;
        do_all(&mut self.core, &commit.events)?;
        self.phase = Phase::Committed;
        Ok(Answer::Committed)
    }

    /// Gives the change up.
    fn give_up(&mut self, alloc: Global, told: &mut Vec<HistoryLine>) -> Result<Answer, NoMemory>
        requires { (es : List Event) × Stands self.old es }
        ensures { IfOk result (λ answer. (es : List Event) → Stands self.old es
            → IsTurned (change_of self.old) (sessions.gives_up (change_of self.old) (scene_of self.old es))
            self.new answer told.old.items told.new.items) }
    {
        told.push(HistoryLine::Pending {
            rounds: self.request.within,
        })?;
        push_roots(&self.core, &self.asked, told)?;
        let given = self.leave(alloc, Answer::GivenUp, told)?;
        Ok(given)
    }

    /// Opens each gate that was to be closed. The change isn't made.
    fn leave(
        &mut self,
        alloc: Global,
        answer: Answer,
        told: &mut Vec<HistoryLine>,
    ) -> Result<Answer, NoMemory>
        requires stands { (es : List Event) × Stands self.old es }
        requires ends { is_leaving answer ≡ true }
        ensures { IfOk result (λ given. (es : List Event) → Stands self.old es
            → IsTurned (change_of self.old) (sessions.leaves (change_of self.old) (scene_of self.old es) answer [])
            self.new given told.old.items told.new.items) }
    {
        layouts_tell_commits();
        let events = list_reopens(alloc, &self.asked)?;
        push_lines(told, &events)?;
        told.push(HistoryLine::Abandon)?;
        do_all(&mut self.core, &events)?;
        self.phase = Phase::Left;
        Ok(answer)
    }
}
