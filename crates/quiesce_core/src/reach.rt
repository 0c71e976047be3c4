//! Which ports reach a node, and with it whether a node is settled and whether a link closes a cycle.

ghost use Rattle.std.specs.Prelude.{◌≡◌, ℕ, Bool, ◌-◌, ◌<◌, ◌≤◌, ◌==◌, ◌&&◌, ◌||◌, not, true, false, Some, is_none, length};
ghost use Rattle.std.specs.Option.{option_map_or};
ghost use Rattle.std.specs.List.{list_all, range_with_len};
ghost use Rattle.config_graph.specs.declared.node.Target.{Target};
ghost use Rattle.quiesce_core.specs.State as state;
ghost use Rattle.quiesce_core.specs.Reach as reach;
ghost use Rattle.quiesce_core.specs.Rules as rules;
ghost use Rattle.quiesce_core.specs.WellFormed.{IsSound};
ghost use Rattle.quiesce_core.specs.Searched.{AreKnown, reaches_from, leads_up};
ghost use Rattle.quiesce_core.specs.Effect.{with_target};
ghost use Rattle.config_graph.specs.declared.TheConstants.{MAX_PORTS};
ghost use Rattle.quiesce_core.specs.Links.{config_in};
ghost use Rattle.quiesce_core.specs.Tables.{state_of};

use crate::links::Links;
use crate::tables::Tables;
use config_graph::{MAX_PORTS, Target};
use std::ops::Range;

const PLACES: usize = MAX_PORTS as usize;

impl Links {
    /// The ports of a node.
    pub fn ports_of(&self, node: u32) -> Range<u32>
        requires { IsSound (config_in self.now) }
        ensures ports { range_with_len result.start (result.end - result.start) ≡ state.ports_of
            (config_in self.now) node }
        ensures order { result.start ≤ result.end }
        ensures made { result.end ≤ length (config_in self.now).gates }
    {
        match self.slot(node) {
            Some(slot) => slot.first_port..slot.first_port + slot.node.kind.requires_(),
            None => 0..0,
        }
    }

    /// No walk has so many steps.
    pub fn walk_bound(&self) -> u32
        requires { IsSound (config_in self.now) }
        ensures { (n : ℕ) → reach.can_walk (config_in self.now) result n ≡ false }
    {
        self.slots.len() as u32 + 1
    }

    /// Whether the port reaches the node. What is found out about ports is noted in `known`; no walk has `depth` steps.
    #[cycle(reaching)]
    fn reaches(&self, node: u32, port: u32, depth: u32, known: &mut [Option<bool>]) -> bool
        requires sound { IsSound (config_in self.now) }
        requires deep { (t : Target) → state.target (config_in self.now) port ≡ Some t
            → reach.can_walk (config_in self.now) depth t.node ≡ false }
        requires made { port < length known.old }
        requires room { length (config_in self.now).gates ≤ length known.old }
        requires known { AreKnown (config_in self.now) node known.old }
        ensures value { result ≡ reach.reaches (config_in self.now) node port }
        ensures known { AreKnown (config_in self.now) node known.new }
    {
        let Some(target) = self.gate(port).target else {
            return false;
        };
        if let Some(answer) = known[port as usize] {
            return answer;
        }
        let answer = self.reaches_from(node, target, depth, known);
        known[port as usize] = Some(answer);
        answer
    }

    /// Whether what is linked to the target reaches the node.
    #[cycle(reaching)]
    fn reaches_from(
        &self,
        node: u32,
        target: Target,
        depth: u32,
        known: &mut [Option<bool>],
    ) -> bool
        requires sound { IsSound (config_in self.now) }
        requires deep { reach.can_walk (config_in self.now) depth target.node ≡ false }
        requires room { length (config_in self.now).gates ≤ length known.old }
        requires known { AreKnown (config_in self.now) node known.old }
        ensures value { result ≡ reaches_from (config_in self.now) node target }
        ensures known { AreKnown (config_in self.now) node known.new }
    {
        if target.node == node {
            return true;
        }
        let ports = self.ports_of(target.node);
        for port in ports.start..ports.end {
            if self.depends(target.node, target.provide, port)
                && self.reaches(node, port, depth - 1, known)
            {
                return true;
            }
        }
        false
    }

    /// Whether the port passed, or doesn't reach the node.
    fn passed_or_apart(
        &self,
        passed: bool,
        node: u32,
        port: u32,
        depth: u32,
        known: &mut [Option<bool>],
    ) -> bool
        requires sound { IsSound (config_in self.now) }
        requires deep { (t : Target) → state.target (config_in self.now) port ≡ Some t
            → reach.can_walk (config_in self.now) depth t.node ≡ false }
        requires made { port < length known.old }
        requires room { length (config_in self.now).gates ≤ length known.old }
        requires known { AreKnown (config_in self.now) node known.old }
        ensures value { result ≡ (passed || not (reach.reaches (config_in self.now) node port)) }
        ensures known { AreKnown (config_in self.now) node known.new }
    {
        if passed {
            return true;
        }
        !self.reaches(node, port, depth, known)
    }

    /// Whether each port that reaches the node passes the test: a search from each port that doesn't pass. Each port is
    /// searched from once.
    pub fn all_reaching<F: Fn(u32) -> bool>(&self, node: u32, passes: F) -> bool
        requires sound { IsSound (config_in self.now) }
        requires test { F.IsAlwaysCallable passes }
        ensures { (test : ℕ → Bool) → ((p : ℕ) (b : Bool) → p < MAX_PORTS → F.post passes p b → b ≡ test p)
            → result ≡ list_all (λ p. test p || not (reach.reaches (config_in self.now) node p))
            (range_with_len 0 (length (config_in self.now).gates)) }
    {
        let mut known = [None; PLACES];
        let depth = self.walk_bound();
        let ports = self.gates.len() as u32;
        for port in 0..ports {
            let passed = passes(port);
            if !self.passed_or_apart(passed, node, port, depth, &mut known) {
                return false;
            }
        }
        true
    }

    /// Whether some provision of the node depends on the port. No kind has a provision past the first.
    #[tactic(auto, using(config_graph::proofs::KindLaws::depended_by_first))]
    fn is_depended(&self, node: u32, port: u32) -> bool
        ensures { result ≡ state.is_depended (config_in self.now) node port }
    {
        match self.kind(node) {
            Some(kind) => kind.depends(0, self.gate(port).require),
            None => false,
        }
    }

    /// Whether a provision of the node depends on the port, and the port reaches another node.
    fn leads_through(
        &self,
        node: u32,
        port: u32,
        other: u32,
        depth: u32,
        known: &mut [Option<bool>],
    ) -> bool
        requires sound { IsSound (config_in self.now) }
        requires deep { (t : Target) → state.target (config_in self.now) port ≡ Some t
            → reach.can_walk (config_in self.now) depth t.node ≡ false }
        requires made { port < length known.old }
        requires room { length (config_in self.now).gates ≤ length known.old }
        requires known { AreKnown (config_in self.now) other known.old }
        ensures value { result ≡ (state.is_depended (config_in self.now) node port && reach.reaches
            (config_in self.now) other port) }
        ensures known { AreKnown (config_in self.now) other known.new }
    {
        if !self.is_depended(node, port) {
            return false;
        }
        self.reaches(other, port, depth, known)
    }

    /// Whether the node leads to another, in any number of steps.
    #[tactic(auto, using(crate::proofs::ReachLaws::searched))]
    fn leads_to(&self, node: u32, other: u32) -> bool
        requires { IsSound (config_in self.now) }
        ensures { result ≡ leads_up (config_in self.now) other node }
    {
        if node == other {
            return true;
        }
        let mut known = [None; PLACES];
        let depth = self.walk_bound();
        let ports = self.ports_of(node);
        for port in ports.start..ports.end {
            if self.leads_through(node, port, other, depth, &mut known) {
                return true;
            }
        }
        false
    }

    /// Whether there is no cycle once the port is linked to the target.
    pub fn stays_without_cycle(&self, port: u32, target: Target) -> bool
        requires sound { IsSound (config_in self.now) }
        requires made { port < length (config_in self.now).gates }
        ensures { result ≡ reach.has_no_cycle (with_target (config_in self.now) port (Some target)) }
    {
        let owner = self.gate(port).owner;
        !(self.is_depended(owner, port) && self.leads_to(target.node, owner))
    }

    fn are_unlinked(&self, ports: &Range<u32>) -> bool
        ensures { result ≡ list_all (λ p. is_none (state.target (config_in self.now) p))
            (range_with_len ports.now.start (ports.now.end - ports.now.start)) }
    {
        (ports.start..ports.end).all(|port| !self.is_linked(port))
    }

    fn leads_at(&self, port: u32, node: u32) -> bool
        ensures { not result ≡ option_map_or (λ t. not (t.node == node))
            (state.target (config_in self.now) port) true }
    {
        match self.gate(port).target {
            Some(target) => target.node == node,
            None => false,
        }
    }

    fn is_led_to_by_none(&self, node: u32) -> bool
        requires { IsSound (config_in self.now) }
        ensures { result ≡ list_all
            (λ p. option_map_or (λ t. not (t.node == node)) (state.target (config_in self.now) p) true)
            (range_with_len 0 (length (config_in self.now).gates)) }
    {
        let ports = self.gates.len() as u32;
        (0..ports).all(|port| !self.leads_at(port, node))
    }

    /// Whether no port leads to the node, and none of its own to another.
    pub fn is_apart(&self, node: u32) -> bool
        requires { IsSound (config_in self.now) }
        ensures { result ≡ rules.is_apart (config_in self.now) node }
    {
        self.are_unlinked(&self.ports_of(node)) && self.is_led_to_by_none(node)
    }
}

impl Tables {
    /// Whether each port that reaches the node is closed and idle. Where all ports are, none is searched for.
    fn reaching_ports_are_quiet(&self, node: u32) -> bool
        requires { IsSound (state_of self.now).config }
        ensures { result ≡ list_all
            (λ p. rules.is_quiet (state_of self.now) p || not (reach.reaches (state_of self.now).config node p))
            (range_with_len 0 (length (state_of self.now).config.gates)) }
    {
        let ports = self.links.gates.len() as u32;
        if self.are_quiet(&(0..ports)) {
            return true;
        }
        self.links.all_reaching(node, |port| self.is_quiet(port))
    }

    fn are_quiet(&self, ports: &Range<u32>) -> bool
        ensures { result ≡ list_all (λ p. rules.is_quiet (state_of self.now) p)
            (range_with_len ports.now.start (ports.now.end - ports.now.start)) }
    {
        (ports.start..ports.end).all(|port| self.is_quiet(port))
    }

    pub fn is_settled(&self, node: u32) -> bool
        requires { IsSound (state_of self.now).config }
        ensures { result ≡ rules.is_settled (state_of self.now) node }
    {
        self.links.is_live(node)
            && self.are_quiet(&self.links.ports_of(node))
            && self.service(node).is_none()
            && self.reaching_ports_are_quiet(node)
    }

    /// Whether none of these ports has a transaction that belongs to the port's service.
    fn have_ended(&self, port: u32, ports: &Range<u32>) -> bool
        ensures { result ≡ list_all (λ q. not (rules.is_called_within (state_of self.now) port q))
            (range_with_len ports.now.start (ports.now.end - ports.now.start)) }
    {
        (ports.start..ports.end).all(|own| !self.is_called_within(port, own))
    }

    pub fn calls_have_ended(&self, port: u32) -> bool
        requires { IsSound (state_of self.now).config }
        ensures { result ≡ rules.calls_have_ended (state_of self.now) port }
    {
        match self.links.gate(port).target {
            Some(target) => self.have_ended(port, &self.links.ports_of(target.node)),
            None => true,
        }
    }
}
