//! How many events can still happen before what is open has ended. Sums stand still at the greatest number of 128 bits.

ghost use Rattle.std.specs.Prelude.{◌≡◌, ◌<◌, ◌≤◌, false, length};
ghost use Rattle.quiesce_core.specs.Reach.{can_walk};
ghost use Rattle.quiesce_core.specs.Reach as reach;
ghost use Rattle.quiesce_core.specs.State as state;
ghost use Rattle.quiesce_core.specs.Rest as rest;
ghost use Rattle.quiesce_core.specs.Counted.{capped, events_within, AreCounted};
ghost use Rattle.quiesce_core.specs.WellFormed.{IsSound, LeadsToProvision};
ghost use Rattle.quiesce_core.specs.Tables.{state_of};

use crate::state::{Phase, Service};
use crate::tables::Tables;
use config_graph::{MAX_NODES, Target};

const NODES: usize = MAX_NODES as usize;

impl Tables {
    /// The events of a transaction with the target's provision, at most. They are noted in `known`; no walk has
    /// `depth` steps.
    #[cycle(filling)]
    fn full(&self, target: Target, depth: u32, known: &mut [Option<u128>]) -> u128
        requires sound { IsSound (state_of self.now).config }
        requires there { LeadsToProvision (state_of self.now).config target }
        requires deep { can_walk (state_of self.now).config depth target.node ≡ false }
        requires room { length (state_of self.now).config.slots ≤ length known.old }
        requires known { AreCounted (state_of self.now).config known.old }
        ensures value { result ≡ capped (rest.full (state_of self.now).config target.node target.provide) }
        ensures known { AreCounted (state_of self.now).config known.new }
    {
        if let Some(events) = known[target.node as usize] {
            return events;
        }
        let calls = self.links.calls_allowed(target.node, target.provide) as u128;
        let replies = 3 + 3 * self.links.mores_allowed(target.node, target.provide) as u128;
        let events = self
            .call_events(target, depth, known)
            .saturating_mul(calls)
            .saturating_add(replies);
        known[target.node as usize] = Some(events);
        events
    }

    /// The events of one call in a service by the target's provision, at most.
    #[cycle(filling)]
    fn call_events(&self, target: Target, depth: u32, known: &mut [Option<u128>]) -> u128
        requires sound { IsSound (state_of self.now).config }
        requires deep { can_walk (state_of self.now).config depth target.node ≡ false }
        requires room { length (state_of self.now).config.slots ≤ length known.old }
        requires known { AreCounted (state_of self.now).config known.old }
        ensures value { result ≡ capped (rest.call_events (state_of self.now).config target.node target.provide) }
        ensures known { AreCounted (state_of self.now).config known.new }
    {
        let ports = self.links.ports_of(target.node);
        let mut most = 0;
        for port in ports.start..ports.end {
            most = self.events_within(target, port, depth, known).max(most);
        }
        most
    }

    /// The events of one call of the port in a service by the target's provision.
    #[cycle(filling)]
    fn events_within(
        &self,
        target: Target,
        port: u32,
        depth: u32,
        known: &mut [Option<u128>],
    ) -> u128
        requires sound { IsSound (state_of self.now).config }
        requires owned { reach.IsPortOf (state_of self.now).config target.node port }
        requires deep { can_walk (state_of self.now).config depth target.node ≡ false }
        requires room { length (state_of self.now).config.slots ≤ length known.old }
        requires known { AreCounted (state_of self.now).config known.old }
        ensures value { result ≡ capped (events_within (state_of self.now).config target port) }
        ensures known { AreCounted (state_of self.now).config known.new }
    {
        if !self.links.depends(target.node, target.provide, port) {
            return 0;
        }
        match self.links.gate(port).target {
            Some(next) => self.full(next, depth - 1, known).saturating_add(1),
            None => 1,
        }
    }

    /// What is left of the service that the target is in, of a transaction in this phase.
    fn service_rest(
        &self,
        target: Target,
        service: &Service,
        phase: Phase,
        known: &mut [Option<u128>],
    ) -> u128
        requires sound { IsSound (state_of self.now).config }
        requires there { LeadsToProvision (state_of self.now).config target }
        requires room { length (state_of self.now).config.slots ≤ length known.old }
        requires known { AreCounted (state_of self.now).config known.old }
        ensures value { result ≡ capped
            (rest.service_rest (state_of self.now).config target.node target.provide service.now phase) }
        ensures known { AreCounted (state_of self.now).config known.new }
    {
        let depth = self.links.walk_bound();
        let calls = self
            .links
            .calls_allowed(target.node, target.provide)
            .saturating_sub(service.calls);
        let mores = self
            .links
            .mores_allowed(target.node, target.provide)
            .saturating_sub(service.mores);
        self.call_events(target, depth, known)
            .saturating_mul(calls as u128)
            .saturating_add(3 * mores as u128 + messages_due(service, phase))
    }

    /// What is left of the transaction of a port that is asked or in more and leads there.
    fn asked_rest(&self, port: u32, target: Target, known: &mut [Option<u128>]) -> u128
        requires sound { IsSound (state_of self.now).config }
        requires there { LeadsToProvision (state_of self.now).config target }
        requires room { length (state_of self.now).config.slots ≤ length known.old }
        requires known { AreCounted (state_of self.now).config known.old }
        ensures value { result ≡ capped (rest.asked_rest (state_of self.now) port target) }
        ensures known { AreCounted (state_of self.now).config known.new }
    {
        if !self.is_taken(port) {
            let depth = self.links.walk_bound();
            return self.full(target, depth, known);
        }
        match self.service(target.node) {
            Some(service) => self.service_rest(target, &service, self.exchange(port).phase, known),
            None => 0,
        }
    }

    /// What is left of the transaction of the port.
    fn port_rest(&self, port: u32, known: &mut [Option<u128>]) -> u128
        requires sound { IsSound (state_of self.now).config }
        requires room { length (state_of self.now).config.slots ≤ length known.old }
        requires known { AreCounted (state_of self.now).config known.old }
        ensures value { result ≡ capped
            (rest.port_rest (state_of self.now) port (state.exchange (state_of self.now) port).phase) }
        ensures known { AreCounted (state_of self.now).config known.new }
    {
        match self.exchange(port).phase {
            Phase::Idle => 0,
            Phase::Answered => 1,
            Phase::Asked | Phase::More => match self.links.gate(port).target {
                Some(target) => self.asked_rest(port, target, known),
                None => 0,
            },
        }
    }

    /// The sum over the transactions that have not ended.
    pub fn rest(&self) -> u128
        requires { IsSound (state_of self.now).config }
        ensures { result ≡ capped (rest.rest (state_of self.now)) }
    {
        let mut known = [None; NODES];
        self.rest_with(&mut known)
    }

    fn rest_with(&self, known: &mut [Option<u128>]) -> u128
        requires sound { IsSound (state_of self.now).config }
        requires room { length (state_of self.now).config.slots ≤ length known.old }
        requires known { AreCounted (state_of self.now).config known.old }
        ensures { result ≡ capped (rest.rest (state_of self.now)) }
    {
        let ports = self.links.gates.len() as u32;
        let mut total = 0u128;
        for port in 0..ports {
            total = total.saturating_add(self.port_rest(port, known));
        }
        total
    }
}

/// The replies and messages still due in a service.
fn messages_due(service: &Service, phase: Phase) -> u128
    ensures due { result ≡ rest.messages_due service.now phase }
    ensures few { result ≤ 4 }
{
    if service.heard {
        2
    } else if phase.is_in_more() {
        4
    } else {
        3
    }
}
