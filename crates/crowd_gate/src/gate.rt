//! The gate of a port: whether it is closed, and how many transactions are under way that its owner began there.

ghost use Rattle.std.specs.Prelude.{◌≡◌, ◌<◌, ◌+◌, ℕ, Bool, true, false, List, [], ◌∷◌, not, ◌&&◌, nat_lt, IsTrue};
ghost use Rattle.config_graph.specs.declared.node.Target.{Target};
ghost use Rattle.quiesce_core.specs.declared.event.Event.TheVariants.{Reopen};
ghost use Rattle.quiesce_core.specs.Rules.{is_linked};
ghost use Rattle.std.specs.List.{list_any};
ghost use Rattle.crowd_laws.specs.Crowds.{Crowd, Transaction, World, is_named};
ghost use Rattle.crowd_laws.specs.Acts.{begins, changed};
ghost use Rattle.crowd_laws.specs.Beginning.{untold};
ghost use Rattle.crowd_gate.specs.Gates.{EndsRoot, IsGateOf, IsOpenPort, LeadTo, acts_of_close, acts_of_leave, is_shut_by, roots_at, roots_by};
ghost use Rattle.quiesce_core.specs.State.{State};

/// What the number of a closed gate has more than that of an open one.
const CLOSED: u32 = 1 << 31;

/// So many transactions at most are under way at a gate.
pub const MAX_ROOTS: u32 = CLOSED - 1;

/// A gate. Its number is the whole of it, so that one atomic step, or one lock, does each of its acts.
#[derive(Clone, Copy, PartialEq, Eq)]
pub struct Gate {
    /// The transactions under way, and more where the gate is closed.
    pub number: u32,
}

impl Gate {
    /// The closed gate of a port that was made just now.
    pub fn new() -> Gate
        ensures { (w : Crowd) (p : ℕ) → w.is_shut p ≡ true → w.is_said p ≡ true → w.is_up p ≡ false → roots_at w p ≡ 0
            → IsGateOf w p result.number }
    {
        Gate { number: CLOSED }
    }

    /// Lets a transaction begin, unless the gate is closed or [`MAX_ROOTS`] are under way. Says whether it does.
    pub fn enter(&mut self) -> bool
        ensures entered { result ≡ (not (is_shut_by self.old.number) && nat_lt (roots_by self.old.number) MAX_ROOTS) }
        ensures begins { result ≡ true → (w : World) (p name : ℕ) → IsGateOf w.crowd p self.old.number
            → list_any (is_named name) w.crowd.opened ≡ false → IsTrue (is_linked w.machine.config p)
            → LeadTo w p (begins name p ∷ []) self.new.number }
        ensures stays { result ≡ false → self.new ≡ self.old }
    {
        let enters = self.number < MAX_ROOTS;
        if enters {
            self.number += 1;
        }
        enters
    }

    /// A transaction has ended that was begun here, and all that was done for it. Says whether `idle` is to be told.
    pub fn leave(&mut self) -> bool
        requires { 0 < roots_by self.old.number }
        ensures { (w : World) (p name : ℕ) → IsGateOf w.crowd p self.old.number → EndsRoot w.crowd name p
            → LeadTo w p (acts_of_leave name p result) self.new.number }
    {
        self.number -= 1;
        self.number == CLOSED
    }

    /// Closes the gate. `closed` is to be told, and `busy` before where this says that a transaction is under way.
    pub fn close(&mut self) -> bool
        requires { is_shut_by self.old.number ≡ false }
        ensures { (w : World) (p : ℕ) → IsGateOf w.crowd p self.old.number → IsOpenPort w.machine.config w.crowd p
            → LeadTo w p (acts_of_close p result) self.new.number }
    {
        self.number += CLOSED;
        self.number > CLOSED
    }

    /// Opens the gate again: behind a commit, where none is under way, and before the next session of a change.
    pub fn reopen(&mut self)
        requires { is_shut_by self.old.number ≡ true }
        ensures committed { (s : State) (w : Crowd) (p : ℕ) → IsGateOf w p self.old.number → roots_by self.old.number ≡ 0
            → IsGateOf (changed s w (Reopen p)) p self.new.number }
        ensures anew { (w : Crowd) (p : ℕ) (shut : ℕ → Bool) → IsGateOf w p self.old.number → shut p ≡ false
            → IsGateOf (untold w.opened shut) p self.new.number }
    {
        self.number -= CLOSED;
    }
}
