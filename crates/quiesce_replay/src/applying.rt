//! Events in order.

ghost use Rattle.std.specs.Prelude.{IfOk, IfSome, IfNone};
ghost use Rattle.quiesce_core.specs.Runs.{Steps};
ghost use Rattle.quiesce_replay.specs.Replay.{IsDenied};

use config_graph::NoMemory;
use quiesce_core::{Core, CoreError, Event};
use std::alloc::AllocError;

/// The first event that is denied, counted from 1, and the first of its rules that fails.
#[derive(Clone, Copy)]
pub struct Denial {
    pub number: usize,
    pub rule: u32,
}

/// Lets the events happen in order, up to the first that is denied.
pub fn apply_all(core: &mut Core, events: &[Event]) -> Result<Option<Denial>, NoMemory>
    ensures denied { IfOk result (λ denial. IfSome denial (λ d. IsDenied core.old.state events.now d.number d.rule)) }
    ensures leads { IfOk result (λ denial. IfNone denial (Steps core.old.state events.now core.new.state)) }
{
    for (index, event) in events.iter().enumerate() {
        match core.apply(event) {
            Ok(()) => {}
            Err(CoreError::Denied { rule }) => {
                return Ok(Some(Denial {
                    number: index + 1,
                    rule,
                }));
            }
            Err(CoreError::NoMemory) => return Err(AllocError),
        }
    }
    Ok(None)
}
