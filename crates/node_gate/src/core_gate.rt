//! The gate over the change machine's state.

ghost use Rattle.std.specs.Prelude.{◌≡◌, ◌≢◌, ◌<◌, ◌^◌, ℕ, slice_index_or, [], ◌∷◌, true, false, Some, None};
ghost use Rattle.quiesce_word.specs.Phases.{is_idle};
ghost use Rattle.quiesce_word.specs.Words.{FitsWord, is_missing};
ghost use Rattle.node_gate.specs.Looks.{WordShows};
ghost use Rattle.quiesce_core.specs.Traffic.{IsConsistent};
ghost use Rattle.quiesce_core.specs.WellFormed.{IsWellFormed};
ghost use Rattle.quiesce_core.specs.Knowledge as knowledge;
ghost use Rattle.quiesce_core.specs.Doers.{is_of_change};
ghost use Rattle.quiesce_core.specs.Rules.{denial};
ghost use Rattle.quiesce_core.specs.Runs.{is_doer};
ghost use Rattle.quiesce_core.specs.State.{is_live};
ghost use Rattle.quiesce_core.specs.Fields.{fields_of};
ghost use Rattle.quiesce_core.specs.declared.known.Known.{Known as Knows};
ghost use Rattle.node_gate.specs.Core.{FitsCore, node_at, within_limits};
ghost use Rattle.node_gate.specs.Moves.{Does, events_of_call};
ghost use Rattle.node_gate.specs.Noting.{CanCount};
ghost use Rattle.node_gate.specs.Answers.{CallSays};
ghost use Rattle.node_gate.specs.Seats.{MayCallAt, serial_served};

use crate::answers::{BeginAnswer, CallAnswer, HearAnswer, SeeAnswer, TakeAnswer};
use crate::gate::{GateSeat, PortGate};
use crate::noting::{note, note_reply, unknown};
use quiesce_core::{Core, Event, Known, PortKnown};
use quiesce_word::{LAST_SERIAL, Phase, Word};

/// A node's seat at the core: its slot and what the node knows. It tells no events.
#[derive(Drop)]
pub struct CoreSeat {
    pub slot: u32,
    pub known: Known,
}

impl CoreSeat {
    /// The seat of a node that has done nothing.
    pub fn new(slot: u32) -> CoreSeat
        ensures slot { result.slot ≡ slot }
        ensures known { result.known ≡ knowledge.nothing_known }
    {
        CoreSeat {
            slot,
            known: unknown(),
        }
    }

    /// The serial of the transaction that the node services, 0 where it services none.
    fn serial_served(&self) -> u32
        ensures { result ≡ serial_served self.now.known }
    {
        match self.known.service {
            Some(served) => served.serial,
            None => 0,
        }
    }

    /// What is known of the port of this requirement.
    fn port_known(&self, require: u32) -> PortKnown
        requires { require < 2 }
        ensures { result ≡ slice_index_or self.now.known.ports require knowledge.port_at_start }
    {
        self.known.ports[require as usize]
    }
}

impl GateSeat for CoreSeat {
    ghost slot_of = { λ s. s.slot };

    ghost known = { λ s. s.known };

    ghost tells = { λ s. None };

    ghost loads = { λ s. None };

    fn slot(&self) -> u32 {
        self.slot
    }
}

/// The gate over a core. Each call that is an event is one step of the core's state, so it never answers `Again`.
#[derive(Drop)]
pub struct CoreGate {
    pub core: Core,
}

impl CoreGate {
    pub fn new(core: Core) -> CoreGate
        ensures { result.core ≡ core }
    {
        CoreGate { core }
    }

    pub fn core(&self) -> &Core
        ensures { result.now ≡ self.now.core }
    {
        &self.core
    }

    /// What holds of the state of every core.
    fn holds(&self)
        ensures well_formed { IsWellFormed self.now.core.state }
        ensures consistent { IsConsistent self.now.core.state }
    {
        let _ = self.core.made();
    }

    /// The fields of a port's word.
    #[tactic(auto, using(crate::proofs::AllowedLaws::fields_fit))]
    #[inline(always)]
    pub fn fields(&self, port: u32) -> Word
        ensures fields { result ≡ fields_of self.now.core.state port }
        ensures fits { FitsWord result }
    {
        self.holds();
        let gate = self.core.gate(port);
        let exchange = self.core.exchange(port);
        Word {
            closed: gate.closed,
            phase: exchange.phase,
            consequent: exchange.within.is_some(),
            target: gate.target,
            serial: exchange.serial,
            value: exchange.value,
        }
    }

    /// The first port of the node in a slot.
    #[tactic(auto, using(crate::proofs::CoreLemmas::first_small))]
    fn first_port(&self, slot: u32) -> u32
        requires { is_live self.now.core.state.config slot ≡ true }
        ensures first { result ≡ (node_at self.now.core.state.config slot).first }
        ensures small { result < 2 ^ 31 }
    {
        self.holds();
        match self.core.slot(slot) {
            Some(made) => made.first_port,
            None => 0,
        }
    }

    /// The node at the seat does an event that no rule denies.
    #[inline(always)]
    #[tactic(auto, using(crate::proofs::AllowedLaws::config_then))]
    fn act(&mut self, seat: &mut CoreSeat, event: &Event)
        requires fits { FitsCore self.old.core.state seat.old.slot seat.old.known }
        requires allowed { denial self.old.core.state event.now ≡ None }
        requires by_node { is_of_change event.now ≡ false }
        requires doer { is_doer self.old.core.state seat.old.slot event.now ≡ true }
        requires count { CanCount seat.old.known.service event.now }
        ensures fits { FitsCore self.new.core.state seat.new.slot seat.new.known }
        ensures slot { seat.new.slot ≡ seat.old.slot }
        ensures config { self.new.core.state.config ≡ self.old.core.state.config }
        ensures spare { self.new.core.spare ≡ self.old.core.spare }
        ensures others { (n : ℕ) (w : Knows) → n ≢ seat.old.slot → FitsCore self.old.core.state n w
            → FitsCore self.new.core.state n w }
        ensures does { Does (node_at self.old.core.state.config seat.old.slot) (event.now ∷ []) seat.old.known
            seat.new.known None None (Some self.old.core.state) (Some self.new.core.state) }
    {
        self.holds();
        let first_port = self.first_port(seat.slot);
        self.core.perform(event);
        note(&mut seat.known, first_port, event);
    }

    /// The node at the seat counts a call that it can't make.
    #[tactic(auto, using(crate::proofs::AllowedLaws::miss_by_word, crate::proofs::AllowedLaws::miss_doer, crate::proofs::AllowedLaws::few_calls_known, crate::proofs::AllowedLaws::has_word))]
    fn miss(&mut self, seat: &mut CoreSeat, port: u32, word: Word) -> CallAnswer
        requires fits { FitsCore self.old.core.state seat.old.slot seat.old.known }
        requires may { ((v : ℕ) × MayCallAt (node_at self.old.core.state.config seat.old.slot) seat.old.known port v) }
        requires word { word ≡ fields_of self.old.core.state port }
        requires fits_word { FitsWord word }
        requires missing { is_missing word ≡ true }
        ensures fits { FitsCore self.new.core.state seat.new.slot seat.new.known }
        ensures slot { seat.new.slot ≡ seat.old.slot }
        ensures config { self.new.core.state.config ≡ self.old.core.state.config }
        ensures spare { self.new.core.spare ≡ self.old.core.spare }
        ensures others { (n : ℕ) (w : Knows) → n ≢ seat.old.slot → FitsCore self.old.core.state n w
            → FitsCore self.new.core.state n w }
        ensures does { Does (node_at self.old.core.state.config seat.old.slot) (events_of_call port 0 result)
            seat.old.known seat.new.known None None (Some self.old.core.state) (Some self.new.core.state) }
        ensures says { CallSays (Some self.old.core.state) port result }
    {
        self.holds();
        self.act(seat, &Event::Miss { port });
        CallAnswer::Missed { word: word.pack() }
    }
}

impl PortGate for CoreGate {
    type Seat = CoreSeat;

    ghost fits = { λ g s. FitsCore g.core.state s.slot s.known };

    ghost node = { λ g s. node_at g.core.state.config s.slot };

    ghost state = { λ g. Some g.core.state };

    ghost spare = { λ g. g.core.spare };

    #[tactic(auto, using(crate::proofs::AllowedLaws::begin_by_word, crate::proofs::AllowedLaws::begin_doer, crate::proofs::AllowedLaws::has_word, crate::proofs::AllowedLaws::target_at, crate::proofs::AllowedLaws::spent_at))]
    fn begin(&mut self, seat: &mut CoreSeat, port: u32, value: u32) -> BeginAnswer {
        self.holds();
        let word = self.fields(port);
        if word.closed {
            return BeginAnswer::Closed { word: word.pack() };
        }
        let Some(target) = word.target else {
            return BeginAnswer::Unlinked { word: word.pack() };
        };
        if word.serial >= LAST_SERIAL {
            return BeginAnswer::Spent {
                serial: word.serial,
            };
        }
        let serial = word.serial + 1;
        self.act(
            seat,
            &Event::Begin {
                port,
                serial,
                value,
            },
        );
        BeginAnswer::Begun {
            serial,
            target: target.node,
        }
    }

    #[tactic(auto, using(crate::proofs::AllowedLaws::call_by_word, crate::proofs::AllowedLaws::call_doer, crate::proofs::AllowedLaws::few_calls_known, crate::proofs::AllowedLaws::target_at))]
    fn call(&mut self, seat: &mut CoreSeat, port: u32, value: u32) -> CallAnswer {
        self.holds();
        let word = self.fields(port);
        let Some(target) = word.target else {
            return self.miss(seat, port, word);
        };
        if word.serial >= LAST_SERIAL {
            return self.miss(seat, port, word);
        }
        let serial = word.serial + 1;
        self.act(
            seat,
            &Event::Call {
                port,
                serial,
                value,
            },
        );
        CallAnswer::Called {
            serial,
            target: target.node,
        }
    }

    #[tactic(auto, using(crate::proofs::AllowedLaws::take_by_word, crate::proofs::AllowedLaws::take_doer_by_word, crate::proofs::AllowedLaws::take_provides, crate::proofs::AllowedLaws::has_word))]
    fn take(&mut self, seat: &mut CoreSeat, port: u32) -> TakeAnswer {
        self.holds();
        let word = self.fields(port);
        let Some(target) = word.target else {
            return TakeAnswer::Stale { word: word.pack() };
        };
        if !word.phase.is_asked() || target.node != seat.slot {
            return TakeAnswer::Stale { word: word.pack() };
        }
        let serial = word.serial;
        let value = word.value;
        self.act(
            seat,
            &Event::Take {
                port,
                serial,
                value,
            },
        );
        TakeAnswer::Taken {
            provide: target.provide,
            serial,
            value,
        }
    }

    #[tactic(auto, using(crate::proofs::AllowedLaws::give_allowed, crate::proofs::AllowedLaws::give_doer))]
    fn give(&mut self, seat: &mut CoreSeat, port: u32, value: u32) {
        self.holds();
        let serial = seat.serial_served();
        self.act(
            seat,
            &Event::Give {
                port,
                serial,
                value,
            },
        );
    }

    #[tactic(auto, using(crate::proofs::AllowedLaws::own_require, crate::proofs::AllowedLaws::sees_busy, crate::proofs::AllowedLaws::says_seen, crate::proofs::AllowedLaws::fits_seen))]
    fn see(&mut self, seat: &mut CoreSeat, port: u32) -> SeeAnswer {
        self.holds();
        let word = self.fields(port);
        let answer = look(word);
        let require = port - self.first_port(seat.slot);
        note_reply(&mut seat.known.ports[require as usize], answer);
        answer
    }

    #[tactic(auto, using(crate::proofs::AllowedLaws::end_allowed, crate::proofs::AllowedLaws::end_doer, crate::proofs::AllowedLaws::own_require))]
    fn end(&mut self, seat: &mut CoreSeat, port: u32) {
        self.holds();
        let known = seat.port_known(port - self.first_port(seat.slot));
        let value = known.seen.unwrap_or(0);
        let serial = known.serial;
        self.act(
            seat,
            &Event::End {
                port,
                serial,
                value,
            },
        );
    }

    #[tactic(auto, using(crate::proofs::AllowedLaws::more_allowed, crate::proofs::AllowedLaws::more_doer, crate::proofs::AllowedLaws::few_mores_known))]
    fn more(&mut self, seat: &mut CoreSeat, port: u32, value: u32) {
        self.holds();
        let serial = seat.serial_served();
        self.act(
            seat,
            &Event::More {
                port,
                serial,
                value,
            },
        );
    }

    #[tactic(auto, using(crate::proofs::AllowedLaws::ask_allowed, crate::proofs::AllowedLaws::ask_doer, crate::proofs::AllowedLaws::own_require))]
    fn ask(&mut self, seat: &mut CoreSeat, port: u32, value: u32) {
        self.holds();
        let serial = seat.port_known(port - self.first_port(seat.slot)).serial;
        self.act(
            seat,
            &Event::Ask {
                port,
                serial,
                value,
            },
        );
    }

    #[tactic(auto, using(crate::proofs::AllowedLaws::hear_by_word, crate::proofs::AllowedLaws::hear_doer, crate::proofs::AllowedLaws::not_yet_by_word, crate::proofs::AllowedLaws::has_word))]
    fn hear(&mut self, seat: &mut CoreSeat, port: u32) -> HearAnswer {
        self.holds();
        let word = self.fields(port);
        if !word.phase.is_asked() {
            return HearAnswer::NotYet { word: word.pack() };
        }
        let serial = seat.serial_served();
        let value = word.value;
        self.act(
            seat,
            &Event::Hear {
                port,
                serial,
                value,
            },
        );
        HearAnswer::Heard { value }
    }

    ghost within = { λ gate seat fits. within_limits gate.core.state seat.slot seat.known fits };
}

/// What the word of a port that isn't idle shows to its owner.
fn look(word: Word) -> SeeAnswer
    requires busy { is_idle word.phase ≡ false }
    requires fits { FitsWord word }
    ensures { WordShows word result }
{
    match word.phase {
        Phase::Answered => SeeAnswer::Answer { value: word.value },
        Phase::More => SeeAnswer::More { value: word.value },
        _ => SeeAnswer::NotYet { word: word.pack() },
    }
}
