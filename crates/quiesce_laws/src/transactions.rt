//! In which order the events of a transaction come, and how many there are.

ghost use Rattle.std.specs.Prelude.{◌≡◌, ℕ, Bool, ◌+◌, ◌≤◌, true, not, ◌&&◌, ◌||◌, ◌==◌, nat_lt, nat_le, List, length, Some, sum_by, if◌then◌else◌};
ghost use Rattle.std.specs.List.{count_by, range_with_len};
ghost use Rattle.quiesce_core.specs.declared.event.Event.{Event};
ghost use Rattle.quiesce_core.specs.Open.{open_txns};
ghost use Rattle.quiesce_word.specs.Phases.{is_idle};
ghost use Rattle.quiesce_core.specs.Runs.{Begun, IsRun, Step, doer, done_by, initiator, is_begin_of, is_end_of, is_open_after, state_after, target_at_begin};
ghost use Rattle.quiesce_core.specs.State.{State, exchange};
ghost use Rattle.quiesce_core.specs.Traffic.{IsConsistent};
ghost use Rattle.quiesce_core.specs.WellFormed.{IsWellFormed};
ghost use Rattle.quiesce_laws.specs.Courses.{course_after, course_at};
ghost use Rattle.quiesce_core.specs.Doers.{is_end_at};
ghost use Rattle.quiesce_laws.specs.Events.{is_take_of, is_give_of, is_more_of, is_ask_of, is_hear_of, is_of_initiator, is_of_target, ends_transaction};

/// In every run the events of a transaction come in the order of its course: a begin or a call, the take, any number of
/// intermediate replies each with a further message and its hearing, the last reply, the end. None comes twice or where
/// it mustn't. The state tells how far each has come: those up to the port's serial were begun, and all but the last
/// have ended.
pub fn transactions_keep_their_course()
    ensures { (es : List Event) (p k : ℕ) → IsRun es → course_after p k es ≡ Some (course_at (state_after es) p k) }
{}

/// As many transactions of a port have ended as its serial says, less one where it isn't idle. So as many have ended in
/// all as the serials of all ports say, less those that are open.
pub fn ends_make_the_serial()
    ensures of_a_port { (es : List Event) (p : ℕ) → IsRun es
        → count_by (is_end_at p) es + (if is_idle (exchange (state_after es) p).phase then 0 else 1)
        ≡ (exchange (state_after es) p).serial }
    ensures of_all_ports { (es : List Event) → IsRun es
        → count_by ends_transaction es + length (open_txns (state_after es))
        ≡ sum_by (λ p. (exchange (state_after es) p).serial) (range_with_len 0 (length (state_after es).config.gates)) }
{}

/// No event lets the serial of a port fall.
pub fn serials_never_fall()
    ensures { (s t : State) (e : Event) → IsWellFormed s → IsConsistent s → Step s e t → (p : ℕ)
        → (exchange s p).serial ≤ (exchange t p).serial }
{}

/// Of each transaction there is at most one take, one last reply and one end, each behind the one before. Exactly those
/// up to the port's serial have a begin or a call, and all of them have their end, but for the last where the port
/// isn't idle. Each intermediate reply is followed by one further message and its hearing, before the next reply. Since
/// each front of a run is a run, this says in which order they stand.
pub fn transactions_come_in_order()
    ensures begun { (es : List Event) (p k : ℕ) → IsRun es →
        count_by (is_begin_of p k) es ≡ (if nat_le 1 k && nat_le k (exchange (state_after es) p).serial then 1 else 0) }
    ensures taken { (es : List Event) (p k : ℕ) → IsRun es
        → count_by (is_take_of p k) es ≤ count_by (is_begin_of p k) es }
    ensures given { (es : List Event) (p k : ℕ) → IsRun es
        → count_by (is_give_of p k) es ≤ count_by (is_take_of p k) es }
    ensures ended { (es : List Event) (p k : ℕ) → IsRun es
        → count_by (is_end_of p k) es ≤ count_by (is_give_of p k) es }
    ensures ended_exactly { (es : List Event) (p k : ℕ) → IsRun es →
        count_by (is_end_of p k) es
        ≡ (if nat_le 1 k && (nat_lt k (exchange (state_after es) p).serial
        || (k == (exchange (state_after es) p).serial && is_idle (exchange (state_after es) p).phase)) then 1 else 0) }
    ensures once { (es : List Event) (p k : ℕ) → IsRun es → count_by (is_end_of p k) es ≡ 1
        → (count_by (is_begin_of p k) es ≡ 1) × (count_by (is_take_of p k) es ≡ 1)
        × (count_by (is_give_of p k) es ≡ 1) }

    ensures replied { (es : List Event) (p k : ℕ) → IsRun es
        → count_by (is_more_of p k) es ≤ count_by (is_hear_of p k) es + 1 }
    ensures asked { (es : List Event) (p k : ℕ) → IsRun es
        → count_by (is_ask_of p k) es ≤ count_by (is_more_of p k) es }
    ensures heard { (es : List Event) (p k : ℕ) → IsRun es
        → count_by (is_hear_of p k) es ≤ count_by (is_ask_of p k) es }

    // Once the last reply was given, all that was asked and heard is all that was replied before.
    ensures all_asked { (es : List Event) (p k : ℕ) → IsRun es → count_by (is_give_of p k) es ≡ 1
        → count_by (is_ask_of p k) es ≡ count_by (is_more_of p k) es }
    ensures all_heard { (es : List Event) (p k : ℕ) → IsRun es → count_by (is_give_of p k) es ≡ 1
        → count_by (is_hear_of p k) es ≡ count_by (is_more_of p k) es }
{}

/// A transaction engages two nodes (one, where a buffer is linked to itself): as long as it is open, each further step
/// of it is done by the node that began or called it or by the one to which the port led then.
pub fn two_nodes_do_all()
    ensures by_initiator { (es : List Event) (e : Event) (p k : ℕ) (b : Begun es p k) → IsRun es
        → is_open_after es p k ≡ true → is_of_initiator p k e ≡ true
        → doer (state_after es) e ≡ Some (initiator es p k b) }
    ensures by_target { (es : List Event) (e : Event) (p k : ℕ) (b : Begun es p k) → IsRun es
        → is_open_after es p k ≡ true → is_of_target p k e ≡ true
        → doer (state_after es) e ≡ target_at_begin es p k b }
{}

/// So the events of a transaction stand in the logs of these two nodes and in no other: however some of those that its
/// initiator does are told, all of them are in that node's log, and none in another's, and the same of those that its
/// target does. With `transactions_come_in_order` this counts them in each log.
pub fn two_logs_have_all()
    ensures of_the_initiator { (es : List Event) (p k : ℕ) (b : Begun es p k) (n : ℕ) (test : Event → Bool) → IsRun es
        → ((e : Event) → test e ≡ true → (is_begin_of p k e || is_of_initiator p k e) ≡ true)
        → count_by test (done_by n es) ≡ (if initiator es p k b == n then count_by test es else 0) }
    ensures of_the_target { (es : List Event) (p k : ℕ) (b : Begun es p k) (m n : ℕ) (test : Event → Bool) → IsRun es
        → target_at_begin es p k b ≡ Some m
        → ((e : Event) → test e ≡ true → is_of_target p k e ≡ true)
        → count_by test (done_by n es) ≡ (if m == n then count_by test es else 0) }
{}

/// A transaction of a run is open exactly where its port isn't idle and has its serial.
pub fn open_transactions_are_seen()
    ensures { (es : List Event) (p k : ℕ) → IsRun es →
        is_open_after es p k
        ≡ (not (is_idle (exchange (state_after es) p).phase) && (exchange (state_after es) p).serial == k) }
{}
