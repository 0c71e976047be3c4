//! What the events change.

ghost use Rattle.std.specs.Prelude.{◌≡◌, ◌+◌, ◌<◌, true, false, option_map, length};
ghost use Rattle.quiesce_core.specs.State as state;
ghost use Rattle.quiesce_core.specs.Rules as rules;
ghost use Rattle.quiesce_core.specs.Effect as effect;
ghost use Rattle.quiesce_core.specs.Legal as legal;
ghost use Rattle.quiesce_core.specs.Doers.{is_make, is_of_owner, is_of_change};
ghost use Rattle.quiesce_core.specs.WellFormed.{IsWellFormed};
ghost use Rattle.quiesce_core.specs.Tables.{KeepsRoom};
ghost use Rattle.quiesce_core.specs.Tables.{state_of};
ghost use Rattle.quiesce_core.specs.declared.event.Event.TheVariants as event;
ghost use Rattle.quiesce_core.specs.declared.state.Service.{Service};

use crate::event::Event;
use crate::state::{Exchange, Phase, Service};
use crate::tables::Tables;
use config_graph::Target;

impl Tables {
    fn put_exchange(&mut self, port: u32, exchange: Exchange)
        requires { port < length self.old.exchanges.items }
        ensures state { state_of self.new ≡ effect.with_exchange (state_of self.old) port exchange }
        ensures room { KeepsRoom self.old self.new }
    {
        self.exchanges[port as usize] = exchange;
    }

    fn put_service(&mut self, node: u32, service: Option<Service>)
        requires { node < length self.old.services.items }
        ensures state { state_of self.new ≡ effect.with_service (state_of self.old) node service }
        ensures room { KeepsRoom self.old self.new }
    {
        self.services[node as usize] = service;
    }

    /// The node to which the port is linked services this.
    #[tactic(auto, using(crate::proofs::TableLaws::places))]
    fn put_target_service(&mut self, port: u32, service: Option<Service>)
        requires { IsWellFormed (state_of self.old) }
        ensures state { state_of self.new ≡ effect.with_target_service (state_of self.old) port service }
        ensures room { KeepsRoom self.old self.new }
    {
        if let Some(target) = self.links.gate(port).target {
            self.put_service(target.node, service);
        }
    }

    /// One more call was made in the service of the port's owner.
    #[tactic(auto, using(crate::proofs::TableLaws::places))]
    fn count_call(&mut self, port: u32)
        requires well_formed { IsWellFormed (state_of self.old) }
        requires live { rules.is_live_port (state_of self.old).config port ≡ true }
        requires left { rules.has_calls_left (state_of self.old) (state.owner (state_of self.old).config port) ≡ true }
        ensures state { state_of self.new ≡ effect.with_call (state_of self.old)
            (state.owner (state_of self.old).config port) }
        ensures room { KeepsRoom self.old self.new }
    {
        let owner = self.links.gate(port).owner;
        if let Some(service) = self.service(owner) {
            let counted = Service {
                calls: service.calls + 1,
                ..service
            };
            self.put_service(owner, Some(counted));
        }
    }

    #[tactic(auto, using(crate::proofs::TableLaws::places))]
    pub fn begin(&mut self, port: u32, serial: u32, value: u32)
        requires well_formed { IsWellFormed (state_of self.old) }
        requires legal { legal.CanBegin (state_of self.old) port serial value }
        ensures state { state_of self.new ≡ effect.effect (state_of self.old) (event.Begin port serial value) }
        ensures room { KeepsRoom self.old self.new }
    {
        let exchange = Exchange {
            phase: Phase::Asked,
            serial,
            value,
            within: None,
        };
        self.put_exchange(port, exchange);
    }

    #[tactic(auto, using(crate::proofs::TableLaws::places))]
    pub fn call(&mut self, port: u32, serial: u32, value: u32)
        requires well_formed { IsWellFormed (state_of self.old) }
        requires legal { legal.CanCall (state_of self.old) port serial value }
        ensures state { state_of self.new ≡ effect.effect (state_of self.old) (event.Call port serial value) }
        ensures room { KeepsRoom self.old self.new }
    {
        let within = match self.service(self.links.gate(port).owner) {
            Some(service) => Some(service.port),
            None => None,
        };
        self.count_call(port);
        let exchange = Exchange {
            phase: Phase::Asked,
            serial,
            value,
            within,
        };
        self.put_exchange(port, exchange);
    }

    #[tactic(auto, using(crate::proofs::TableLaws::places))]
    pub fn miss(&mut self, port: u32)
        requires well_formed { IsWellFormed (state_of self.old) }
        requires legal { legal.CanMiss (state_of self.old) port }
        ensures state { state_of self.new ≡ effect.effect (state_of self.old) (event.Miss port) }
        ensures room { KeepsRoom self.old self.new }
    {
        self.count_call(port);
    }

    #[tactic(auto, using(crate::proofs::TableLaws::places))]
    pub fn take(&mut self, port: u32, serial: u32, value: u32)
        requires well_formed { IsWellFormed (state_of self.old) }
        requires legal { legal.CanTake (state_of self.old) port serial value }
        ensures state { state_of self.new ≡ effect.effect (state_of self.old) (event.Take port serial value) }
        ensures room { KeepsRoom self.old self.new }
    {
        let service = Service {
            port,
            calls: 0,
            mores: 0,
            heard: true,
        };
        self.put_target_service(port, Some(service));
    }

    #[tactic(auto, using(crate::proofs::TableLaws::places))]
    pub fn give(&mut self, port: u32, serial: u32, value: u32)
        requires well_formed { IsWellFormed (state_of self.old) }
        requires legal { legal.CanGive (state_of self.old) port serial value }
        ensures state { state_of self.new ≡ effect.effect (state_of self.old) (event.Give port serial value) }
        ensures room { KeepsRoom self.old self.new }
    {
        let exchange = Exchange {
            phase: Phase::Answered,
            value,
            ..self.exchange(port)
        };
        self.put_target_service(port, None);
        self.put_exchange(port, exchange);
    }

    #[tactic(auto, using(crate::proofs::TableLaws::places))]
    pub fn more(&mut self, port: u32, serial: u32, value: u32)
        requires well_formed { IsWellFormed (state_of self.old) }
        requires legal { legal.CanMore (state_of self.old) port serial value }
        ensures state { state_of self.new ≡ effect.effect (state_of self.old) (event.More port serial value) }
        ensures room { KeepsRoom self.old self.new }
    {
        let exchange = Exchange {
            phase: Phase::More,
            value,
            ..self.exchange(port)
        };
        self.count_more(port);
        self.put_exchange(port, exchange);
    }

    #[tactic(auto, using(crate::proofs::TableLaws::places))]
    pub fn ask(&mut self, port: u32, serial: u32, value: u32)
        requires well_formed { IsWellFormed (state_of self.old) }
        requires legal { legal.CanAsk (state_of self.old) port serial value }
        ensures state { state_of self.new ≡ effect.effect (state_of self.old) (event.Ask port serial value) }
        ensures room { KeepsRoom self.old self.new }
    {
        let exchange = Exchange {
            phase: Phase::Asked,
            value,
            ..self.exchange(port)
        };
        self.put_exchange(port, exchange);
    }

    #[tactic(auto, using(crate::proofs::TableLaws::places))]
    pub fn hear(&mut self, port: u32, serial: u32, value: u32)
        requires well_formed { IsWellFormed (state_of self.old) }
        requires legal { legal.CanHear (state_of self.old) port serial value }
        ensures state { state_of self.new ≡ effect.effect (state_of self.old) (event.Hear port serial value) }
        ensures room { KeepsRoom self.old self.new }
    {
        if let Some(service) = self.target_service(port) {
            let service = Service {
                heard: true,
                ..service
            };
            self.put_target_service(port, Some(service));
        }
    }

    #[tactic(auto, using(crate::proofs::TableLaws::places))]
    pub fn end(&mut self, port: u32, serial: u32, value: u32)
        requires well_formed { IsWellFormed (state_of self.old) }
        requires legal { legal.CanEnd (state_of self.old) port serial value }
        ensures state { state_of self.new ≡ effect.effect (state_of self.old) (event.End port serial value) }
        ensures room { KeepsRoom self.old self.new }
    {
        let exchange = Exchange {
            phase: Phase::Idle,
            value: 0,
            within: None,
            ..self.exchange(port)
        };
        self.put_exchange(port, exchange);
    }

    #[tactic(auto, using(crate::proofs::TableLaws::places))]
    fn count_more(&mut self, port: u32)
        requires well_formed { IsWellFormed (state_of self.old) }
        requires left { rules.has_mores_left (state_of self.old) port ≡ true }
        ensures state { state_of self.new ≡ effect.with_target_service (state_of self.old)
            port (option_map (λ (w : Service). record w { mores = w.mores + 1; heard = false })
            (state.target_service (state_of self.old) port)) }
        ensures room { KeepsRoom self.old self.new }
    {
        if let Some(service) = self.target_service(port) {
            let counted = Service {
                mores: service.mores + 1,
                heard: false,
                ..service
            };
            self.put_target_service(port, Some(counted));
        }
    }

    #[tactic(auto, using(crate::proofs::TableLaws::places))]
    pub fn set_closed(&mut self, port: u32, closed: bool)
        requires { rules.is_live_port (state_of self.old).config port ≡ true }
        ensures state { state_of self.new ≡ record (state_of self.old)
            { config = effect.with_closed (state_of self.old).config port closed } }
        ensures room { KeepsRoom self.old self.new }
    {
        self.links.set_closed(port, closed);
    }

    #[tactic(auto, using(crate::proofs::TableLaws::places))]
    pub fn set_target(&mut self, port: u32, target: Option<Target>)
        requires { rules.is_live_port (state_of self.old).config port ≡ true }
        ensures state { state_of self.new ≡ record (state_of self.old)
            { config = effect.with_target (state_of self.old).config port target } }
        ensures room { KeepsRoom self.old self.new }
    {
        self.links.set_target(port, target);
    }

    pub fn remove(&mut self, node: u32)
        requires { state.is_live (state_of self.old).config node ≡ true }
        ensures state { state_of self.new ≡ effect.effect (state_of self.old) (event.Remove node) }
        ensures room { KeepsRoom self.old self.new }
    {
        self.links.remove(node);
    }

    /// Lets the event happen. Nodes are added elsewhere, since that takes memory.
    #[tactic(auto, using(crate::proofs::LegalLaws::legal))]
    pub fn perform(&mut self, event: &Event)
        requires well_formed { IsWellFormed (state_of self.old) }
        requires allowed { rules.denial (state_of self.old) event.now ≡ None }
        requires no_make { is_make event.now ≡ false }
        ensures state { state_of self.new ≡ effect.effect (state_of self.old) event.now }
        ensures room { KeepsRoom self.old self.new }
    {
        match event {
            Event::Begin {
                port,
                serial,
                value,
            } => self.begin(*port, *serial, *value),
            Event::Call {
                port,
                serial,
                value,
            } => self.call(*port, *serial, *value),
            Event::Miss { port } => self.miss(*port),
            Event::Ask {
                port,
                serial,
                value,
            } => self.ask(*port, *serial, *value),
            Event::End {
                port,
                serial,
                value,
            } => self.end(*port, *serial, *value),
            _ => self.perform_of_others(event),
        }
    }

    /// The same of what a port's owner doesn't do.
    #[tactic(auto, using(crate::proofs::LegalLaws::legal))]
    fn perform_of_others(&mut self, event: &Event)
        requires well_formed { IsWellFormed (state_of self.old) }
        requires allowed { rules.denial (state_of self.old) event.now ≡ None }
        requires no_make { is_make event.now ≡ false }
        requires others { is_of_owner event.now ≡ false }
        ensures state { state_of self.new ≡ effect.effect (state_of self.old) event.now }
        ensures room { KeepsRoom self.old self.new }
    {
        match event {
            Event::Take {
                port,
                serial,
                value,
            } => self.take(*port, *serial, *value),
            Event::Give {
                port,
                serial,
                value,
            } => self.give(*port, *serial, *value),
            Event::More {
                port,
                serial,
                value,
            } => self.more(*port, *serial, *value),
            Event::Hear {
                port,
                serial,
                value,
            } => self.hear(*port, *serial, *value),
            _ => self.perform_of_change(event),
        }
    }

    /// The same of what the change does.
    #[tactic(auto, using(crate::proofs::LegalLaws::legal))]
    fn perform_of_change(&mut self, event: &Event)
        requires well_formed { IsWellFormed (state_of self.old) }
        requires allowed { rules.denial (state_of self.old) event.now ≡ None }
        requires no_make { is_make event.now ≡ false }
        requires change { is_of_change event.now ≡ true }
        ensures state { state_of self.new ≡ effect.effect (state_of self.old) event.now }
        ensures room { KeepsRoom self.old self.new }
    {
        match event {
            Event::Close { port } => self.set_closed(*port, true),
            Event::Reopen { port } => self.set_closed(*port, false),
            Event::Link {
                port,
                node,
                provide,
            } => {
                let target = Target {
                    node: *node,
                    provide: *provide,
                };
                self.set_target(*port, Some(target));
            }
            Event::Unlink { port } => self.set_target(*port, None),
            Event::Remove { node } => self.remove(*node),
            _ => unreachable!(),
        }
    }
}
