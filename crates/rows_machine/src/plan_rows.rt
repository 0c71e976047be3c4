//! Rows of `plan` with what no command tells: the moves of a plan, and ports that were made before. Refusals of moves are
//! rows of `step`, in rows_runs.

ghost use Rattle.change_plan.specs.PlanWithin.{IsPlanWithin};

use crate::systems::{LINE, graph_after};
use change_plan::{Move, Plan, PlanError, Shift, plan, plan_text};
use config_graph::{Graph, Made, NoMemory, Text};
use std::alloc::Global;
use std::process::Abort;
use std::str;
use std::test::Fail;

/// The line with another map.
const OTHER_LINE: &str = "make 0 m map(20)
make 1 s source(3)
make 2 t sink()
link 0 2 0
link 1 0 0
";

/// The nodes and links of a teller, a branch and two accounts, but for the first account.
const BANK: &str = "make 1 b account(0)
make 2 r branch()
make 3 w teller(3)
link 0 0 0
link 1 1 0
link 2 2 0
";

/// Accounts.
const A_100: &str = "make 0 a account(100)\n";

const A_7: &str = "make 0 a account(7)\n";

const OTHER_MAP: &str =
    "freeze m\nfreeze s\nunlink m.next\nunlink s.out\nremove m\ncreate m map(20)\nlink m.next t.in\nlink s.out m.in\n";

const OTHER_MAP_MOVED: &str =
    "freeze m\nfreeze s\nunlink m.next\nunlink s.out\nremove m\ncreate m map(20)\nlink m.next t.in\nlink s.out m.in\nmove 0 0\n";

const ACCOUNT_MOVED: &str =
    "freeze a\nfreeze r\nfreeze w\nunlink r.from\nremove a\ncreate a account(7)\nlink r.from a.post\nmove 0 0\n";

/// Two systems, moves between them by paths, the nodes and ports that were made, and what comes of it.
pub type Planned = (
    &'static [&'static str],
    &'static [&'static str],
    &'static [(&'static str, &'static str)],
    (u32, u32),
    &'static str,
);

static PLANS: [Planned; 3] = [
    (&[LINE], &[OTHER_LINE], &[], (1022, 4095), OTHER_MAP),
    (
        &[LINE],
        &[OTHER_LINE],
        &[("m", "m")],
        (3, 2),
        OTHER_MAP_MOVED,
    ),
    (
        &[A_100, BANK],
        &[A_7, BANK],
        &[("a", "a")],
        (4, 3),
        ACCOUNT_MOVED,
    ),
];

// no run makes as many ports: none of its nodes has more than two
static REFUSALS: [Planned; 1] = [(
    &[LINE],
    &[OTHER_LINE],
    &[],
    (1022, 4096),
    "PortsFull 4096 1",
)];

fn move_of(alloc: Global, from: &str, to: &str) -> Result<Move, NoMemory> {
    let from = Text::from_bytes(alloc, from.as_bytes())?;
    let to = Text::from_bytes(alloc, to.as_bytes())?;
    Ok(Move { from, to })
}

pub fn push_moves(
    alloc: Global,
    moves: &mut Vec<Move>,
    pairs: &[(&str, &str)],
) -> Result<(), NoMemory> {
    for (from, to) in pairs {
        moves.push(move_of(alloc, from, to)?)?;
    }
    Ok(())
}

fn shown(text: &Text) -> &str {
    str::from_utf8(text.as_bytes()).unwrap_or("?")
}

/// A refusal's name and what it carries.
pub fn refusal(alloc: Global, error: &PlanError) -> Result<String, NoMemory> {
    match error {
        PlanError::NotRemoved(path) => format!(in alloc; "NotRemoved {}", shown(path)),
        PlanError::NotCreated(path) => format!(in alloc; "NotCreated {}", shown(path)),
        PlanError::KindsDiffer(from, to) => {
            format!(in alloc; "KindsDiffer {} {}", shown(from), shown(to))
        }
        PlanError::MovedTwice(path) => format!(in alloc; "MovedTwice {}", shown(path)),
        PlanError::NodesFull { made, wanted } => format!(in alloc; "NodesFull {made} {wanted}"),
        PlanError::PortsFull { made, wanted } => format!(in alloc; "PortsFull {made} {wanted}"),
        PlanError::NoMemory => format!(in alloc; "NoMemory"),
    }
}

fn push_shifts(alloc: Global, out: &mut String, shifts: &[Shift]) -> Result<(), NoMemory> {
    for shift in shifts {
        let line = format!(in alloc; "move {} {}\n", shift.old, shift.new)?;
        out.push_str(line.as_str())?;
    }
    Ok(())
}

/// The text of a plan with a line for each of its moves.
pub fn planned(alloc: Global, old: &Graph, new: &Graph, plan: &Plan) -> Result<String, NoMemory>
    requires { IsPlanWithin old.now new.now plan.now }
{
    let text = plan_text(alloc, old, new, plan)?;
    let mut out = String::from_str(alloc, str::from_utf8(&text).unwrap_or("?"))?;
    push_shifts(alloc, &mut out, plan.moves.items())?;
    Ok(out)
}

/// The text of a plan with a line for each of its moves, or its refusal.
fn outcome(
    alloc: Global,
    old: &Graph,
    new: &Graph,
    moves: &[Move],
    made: Made,
) -> Result<String, NoMemory> {
    match plan(alloc, old, new, moves, made) {
        Ok(plan) => planned(alloc, old, new, &plan),
        Err(error) => refusal(alloc, &error),
    }
}

fn assert_between(
    rt: &impl Abort,
    alloc: Global,
    old: &Graph,
    new: &Graph,
    (_, _, pairs, (nodes, ports), wanted): &Planned,
) -> Result<(), NoMemory> {
    let mut moves = Vec::new(alloc);
    push_moves(alloc, &mut moves, pairs)?;
    let made = Made {
        nodes: *nodes,
        ports: *ports,
    };
    let found = outcome(alloc, old, new, &moves, made)?;
    assert!(rt; found.as_str() == *wanted);
    Ok(())
}

fn assert_outcome(rt: &impl Abort, alloc: Global, row: &Planned) -> Result<(), Fail> {
    let old = graph_after(rt, alloc, row.0)?;
    let new = graph_after(rt, alloc, row.1)?;
    assert_between(rt, alloc, &old, &new, row)?;
    Ok(())
}

fn assert_outcomes(rt: &impl Abort, alloc: Global, rows: &[Planned]) -> Result<(), Fail> {
    for row in rows {
        assert_outcome(rt, alloc, row)?;
    }
    Ok(())
}

#[test]
fn plans_between_systems(rt: HostRuntime) -> Result<(), Fail> {
    assert_outcomes(&rt, rt.alloc(), &PLANS)
}

#[test]
fn plans_are_refused(rt: HostRuntime) -> Result<(), Fail> {
    assert_outcomes(&rt, rt.alloc(), &REFUSALS)
}
