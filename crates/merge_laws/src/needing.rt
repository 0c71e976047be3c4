//! What each guard is needed for.

ghost use Rattle.std.specs.Prelude.{◌≡◌, ℕ, false};
ghost use Rattle.merge_laws.specs.Guarded.{Left, may_go};
ghost use Rattle.merge_laws.specs.Guards.{Misleads, all_guards, may_go_by};

/// Each guard is needed. Without it there are a history and logs from which one way leads to the end, and another
/// goes on no more before it: so what is found hangs on which member is let come first.
/// The histories follow no script. In the two of `open` lines a root is told before any close of its port, so they
/// aren't told as `going_decides_merges` asks.
pub fn each_guard_is_needed()
    ensures all { (x : Left) (c : ℕ) → may_go_by all_guards x c ≡ may_go x c }
    ensures close_waits { Misleads (record all_guards { close_waits = false }) }
    ensures begin_waits { Misleads (record all_guards { begin_waits = false }) }
    ensures call_waits { Misleads (record all_guards { call_waits = false }) }
    ensures begin_is_apart { Misleads (record all_guards { begin_is_apart = false }) }
    ensures end_waits { Misleads (record all_guards { end_waits = false }) }
    ensures open_is_closed { Misleads (record all_guards { open_is_closed = false }) }
    ensures open_is_apart { Misleads (record all_guards { open_is_apart = false }) }
{}
