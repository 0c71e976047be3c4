//! What a script says.

use change_plan::Move;
use config_graph::{List, Text};

/// The statements of a script, in order.
#[derive(Drop)]
pub struct Script {
    pub lines: List<ScriptLine>,
}

/// A statement, and the number of its line, from 1 over all lines.
#[derive(Drop)]
pub struct ScriptLine {
    pub number: u32,
    pub body: Body,
}

/// A statement.
#[derive(Drop)]
pub enum Body {
    /// `use FILE`: from now on components are looked up in this file. The name is UTF-8.
    File(Text),
    /// `start C(ARGS)`: the system of this component is started.
    Start {
        name: Text,
        args: List<i32>,
    },
    /// `run NUM`: rounds of turns are made until at least so many transactions ended, or one moves nothing.
    Run(u32),
    /// `change to C(ARGS) within NUM moving PATH -> PATH, ..`: the system becomes that of this component, after so
    /// many rounds at most; removed nodes hand their state to created ones.
    Change {
        name: Text,
        args: List<i32>,
        within: u32,
        moves: List<Move>,
    },
    /// `finish within NUM`: rounds are made until the system is at rest, or one moves nothing, so many at most.
    Finish(u32),
    /// `show`: the graph at this place is written.
    Show,
    /// `end`, the last statement.
    Stop,
}
