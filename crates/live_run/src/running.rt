//! The script, carried out by one thread beside its workers.

ghost use Rattle.std.specs.Prelude.{◌≡◌, ◌≤◌, ◌<◌, ◌+◌, ◌^◌, [], All, IfOk, length};
ghost use Rattle.change_spec.specs.Asked.{CanDoAll, CanStart, after_start, statements_of};
ghost use Rattle.live_board.specs.Ended.{AgreesWith};
ghost use Rattle.live_run.specs.Carried.{CarriedOut, IsReady};
ghost use Rattle.report_writing.specs.Reports.{LogsAreMade};
ghost use Rattle.txn_gate.specs.Seats.{IsChangeSeatOf, change_in, collected_in, record_of};
ghost use Rattle.txn_spec.specs.Views.{nothing_done};
ghost use Rattle.watch_lines.specs.Observers.{AreToldOf};
ghost use Rattle.watch_view.specs.Hearing.{HasHeard};

use crate::ending::look_last;
use crate::working::{Flags, Share, work};
use change_board::Board;
use change_runner::run_statements;
use change_spec::{Start, Step};
use config_graph::{List, NoMemory};
use live_board::{LiveBoard, Turnstile, scripts_leave_all_taken_in};
use live_hall::{Door, Hall, Named};
use live_hands::{Hand, Inboxes};
use report_types::Report;
use std::alloc::{AllocError, Global};
use std::marker::Brand;
use std::sync::Wait;
use std::sync::atomic::Ordering;
use std::thread;
use std::thread::Threads;
use txn_gate::{ChangeSeat, Gates};
use watch_lines::{Sighting, what_was_seen_is_told};
use watch_view::{Observers, Watch};

/// What a run leaves: its report, the lines of each observer, and the seat of the change.
pub type Ran = (Report, Vec<List<Sighting>>, ChangeSeat);

/// Carries the script out on a board over the gates, and publishes each commit. Gives the report, the lines of so many
/// observers, and the seat of the change.
fn run_watched<'g, J: Named, R: Threads + Wait + Copy + Send, T: Turnstile>(
    alloc: Global,
    board: LiveBoard<'g, J, R, T>,
    start: Start,
    steps: Vec<Step>,
    watch: Watch<R>,
    observers: u32,
) -> Result<Ran, NoMemory>
    requires fresh { ⟦<LiveBoard<'g, J, R, T> as Board>⟧.stands_for board [] }
    requires start { CanStart start }
    requires steps { CanDoAll (after_start start) steps.items }
    requires heard { HasHeard watch [] }
    ensures carried { IfOk result (λ x. CarriedOut J.gates (statements_of start steps.items) x.0 x.2) }
    ensures observers { IfOk result (λ x. length x.1.items ≡ observers) }
    ensures seen { IfOk result (λ x. All (AreToldOf x.0.history) x.1.items) }
{
    scripts_leave_all_taken_in::<J, R, T>();
    what_was_seen_is_told();
    let (report, board, watch) = run_statements(alloc, board, start, steps, watch)?;
    let seen = watch.end(alloc, observers)?;
    Ok((report, seen, board.into_seat()))
}

/// The way in of the thread of the change, which is the last of them.
fn own_way<W>(ways: &mut Vec<W>) -> W
    requires { 1 ≤ length ways.old.items }
{
    let Some(way) = ways.pop() else {
        unreachable!()
    };
    way
}

/// Carries the script out beside observers, and beside workers, one for each of these doors and hands but the last. A worker
/// that can't be started is left out: the scans of the board give its turns. All have ended when this returns.
fn carry_out_beside<J, R, T>(
    rt: R,
    alloc: Global,
    gates: &Gates,
    seat: ChangeSeat,
    stile: &T,
    mut doors: Vec<Door<J, R>>,
    mut hands: Vec<Hand<R>>,
    observers: &Observers,
    start: Start,
    steps: Vec<Step>,
    told: &Flags,
) -> Result<Ran, NoMemory>
where
    J: Named + Send + Sync,
    R: Threads + Wait + Copy + Send + Sync,
    T: Turnstile + Sync,
    requires named { J.gates ≡ gates.now.words.shared.table_id }
    requires ready { IsReady gates.now seat observers.now.count start steps.items }
    requires doors { 1 ≤ length doors.items }
    requires hands { 1 ≤ length hands.items }
    ensures carried { IfOk result (λ x. CarriedOut gates.now.words.shared.table_id (statements_of start steps.items)
        x.0 x.2) }
    ensures observers { IfOk result (λ x. length x.1.items ≡ observers.now.count) }
    ensures seen { IfOk result (λ x. All (AreToldOf x.0.history) x.1.items) }
{
    let door = own_way(&mut doors);
    let hand = own_way(&mut hands);
    let workers = u32::try_from(doors.len()).unwrap_or(u32::MAX);
    thread::scope(
        thread::scope_env(),
        &rt,
        move |scope| -> Result<Ran, NoMemory>
            requires named { J.gates ≡ gates.now.words.shared.table_id }
            requires ready { IsReady gates.now seat observers.now.count start steps.items }
            ensures carried { IfOk result (λ x. CarriedOut J.gates (statements_of start steps.items) x.0 x.2) }
            ensures observers { IfOk result (λ x. length x.1.items ≡ observers.entry.now.count) }
            ensures seen { IfOk result (λ x. All (AreToldOf x.0.history) x.1.items) }
        {
            let watch = Watch::begin(scope, rt, alloc, observers)?;
            let mut worker = 0_u32;
            for (door, hand) in doors.into_iter().zip(hands) {
                worker = worker.wrapping_add(1);
                let share = Share { worker, workers };
                let _ = scope.spawn(move || work(
                    &rt, alloc, gates, door, hand, told, stile, share,
                ));
            }
            let board = LiveBoard::new(rt, alloc, gates, seat, door, hand, stile, &told.signs);
            let ran = run_watched(alloc, board, start, steps, watch, observers.count);
            told.stop.store(true, Ordering::SeqCst);
            ran
        },
    )
}

/// The same with doors and hands for so many workers, in a hall of its own, at whose end the seat has its last look.
fn run_beside<J, R, T>(
    rt: R,
    alloc: Global,
    gates: &Gates,
    seat: ChangeSeat,
    stile: &T,
    workers: u32,
    observers: &Observers,
    start: Start,
    steps: Vec<Step>,
) -> Result<Ran, NoMemory>
where
    J: Named + Send + Sync,
    R: Threads + Wait + Copy + Send + Sync,
    T: Turnstile + Sync,
    requires named { J.gates ≡ gates.now.words.shared.table_id }
    requires here { IsChangeSeatOf seat gates.now }
    requires fresh { (change_in seat ≡ nothing_done) × (collected_in seat ≡ []) × (seat.spare ≡ 0) }
    requires workers { workers + 1 < 2 ^ 32 }
    requires observers { observers.now.count ≤ 4 }
    requires start { CanStart start }
    requires steps { CanDoAll (after_start start) steps.items }
    ensures here { IfOk result (λ x. IsChangeSeatOf x.2 gates.now) }
    ensures agrees { IfOk result (λ x. AgreesWith (statements_of start steps.items) x.0 (record_of x.2)
        (collected_in x.2)) }
    ensures logs { IfOk result (λ x. LogsAreMade x.0) }
    ensures observers { IfOk result (λ x. length x.1.items ≡ observers.now.count) }
    ensures seen { IfOk result (λ x. All (AreToldOf x.0.history) x.1.items) }
{
    let doors = Hall::with_doors::<J, R>(rt, alloc, workers + 1)?;
    let hands = Inboxes::with_hands(rt, alloc, workers + 1)?;
    let flags = Flags::new(alloc)?;
    let (report, seen, mut seat) = carry_out_beside(
        rt, alloc, gates, seat, stile, doors, hands, observers, start, steps, &flags,
    )?;
    // no scan may have come behind a worker's want of memory
    if flags.signs.is_short() {
        return Err(AllocError);
    }
    look_last(gates, &mut seat);
    Ok((report, seen, seat))
}

/// Carries a script out on these gates: this thread changes the system, so many workers beside it give nodes their turns,
/// and observers look at the graph of each commit. The turnstile is called before each turn. A worker that can't be started
/// is left out. Gives the report, the lines of each observer, which tell of its history, and the seat, which agrees with
/// it: the report is lawful on threads, the seat's record bears it, and its logs are what the seat took in, slot by slot.
/// It may wait for nodes, and a `run` may never end where some node is never done.
pub fn run_on_threads<R, T>(
    rt: R,
    alloc: Global,
    gates: &Gates,
    seat: ChangeSeat,
    stile: &T,
    workers: u32,
    observers: &Observers,
    start: Start,
    steps: Vec<Step>,
) -> Result<Ran, NoMemory>
where
    R: Threads + Wait + Copy + Send + Sync,
    T: Turnstile + Sync,
    requires here { IsChangeSeatOf seat gates.now }
    requires fresh { (change_in seat ≡ nothing_done) × (collected_in seat ≡ []) × (seat.spare ≡ 0) }
    requires workers { workers + 1 < 2 ^ 32 }
    requires observers { observers.now.count ≤ 4 }
    requires start { CanStart start }
    requires steps { CanDoAll (after_start start) steps.items }
    ensures here { IfOk result (λ x. IsChangeSeatOf x.2 gates.now) }
    ensures agrees { IfOk result (λ x. AgreesWith (statements_of start steps.items) x.0 (record_of x.2)
        (collected_in x.2)) }
    ensures logs { IfOk result (λ x. LogsAreMade x.0) }
    ensures observers { IfOk result (λ x. length x.1.items ≡ observers.now.count) }
    ensures seen { IfOk result (λ x. All (AreToldOf x.0.history) x.1.items) }
{
    run_beside::<Brand, R, T>(
        rt, alloc, gates, seat, stile, workers, observers, start, steps,
    )
}
