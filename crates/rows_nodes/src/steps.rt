//! Nodes led by steps, which the rows write short.

ghost use Rattle.std.specs.Prelude.{◌≤◌};
ghost use Rattle.component_trait.specs.Following.{value_of};

use component_trait::{Component, VALUE_LIMIT, follow};
use config_graph::Kind;
use quiesce_core::Event;
use state_handover::{AnyNode, make};
use std::alloc::Global;
use std::process::Abort;
use std::test::Fail;

/// The first port of each node of the rows. Its second is the next one; ports 3 and 4 are others' and lead to it.
pub const FIRST_PORT: u32 = 7;

/// A node's event.
#[derive(Clone, Copy)]
pub enum Does {
    Begin,
    Call,
    Take,
    Give,
    End,
    More,
    Ask,
    Hear,
    Miss,
}

/// What is done, at which port and with which value.
pub type Step = (Does, u32, u32);

/// Steps after which the state has these numbers; where there are none, a node of the kind doesn't do the last of the
/// steps.
pub type Row = (Kind, Option<u32>, &'static [Step], Option<&'static [u64]>);

fn event_of(does: Does, port: u32, value: u32) -> Event
    ensures { value_of result ≤ value }
{
    let serial = 1;
    match does {
        Does::Take => Event::Take {
            port,
            serial,
            value,
        },
        Does::Give => Event::Give {
            port,
            serial,
            value,
        },
        Does::More => Event::More {
            port,
            serial,
            value,
        },
        Does::Hear => Event::Hear {
            port,
            serial,
            value,
        },
        Does::Begin | Does::Call | Does::End | Does::Ask | Does::Miss => asking_event_of(
            does, port, value,
        ),
    }
}

/// An event of a transaction that the node begins or its service calls: a begin, a call, an end or an ask, else a miss.
fn asking_event_of(does: Does, port: u32, value: u32) -> Event
    ensures { value_of result ≤ value }
{
    let serial = 1;
    match does {
        Does::Begin => Event::Begin {
            port,
            serial,
            value,
        },
        Does::Call => Event::Call {
            port,
            serial,
            value,
        },
        Does::End => Event::End {
            port,
            serial,
            value,
        },
        Does::Ask => Event::Ask {
            port,
            serial,
            value,
        },
        _ => Event::Miss { port },
    }
}

/// A node of this kind, with its argument where its kind has one.
pub fn node_of(rt: &impl Abort, alloc: Global, kind: Kind, arg: Option<u32>) -> AnyNode {
    assert!(rt; arg.is_some() == kind.has_arg());
    assert!(rt; arg.is_none_or(|arg| arg < VALUE_LIMIT));
    make(alloc, kind, arg)
}

/// Leads a node by steps, up to the first that a node of its kind doesn't do, and says how many it did.
pub fn lead(rt: &impl Abort, node: &mut AnyNode, steps: &[Step]) -> Result<usize, Fail> {
    for (done, &(does, port, value)) in steps.iter().enumerate() {
        assert!(rt; value < VALUE_LIMIT);
        if !follow(node, FIRST_PORT, &event_of(does, port, value))? {
            return Ok(done);
        }
    }
    Ok(steps.len())
}

/// The node's state has these numbers.
pub fn shows(rt: &impl Abort, node: &AnyNode, numbers: &[u64]) {
    assert!(rt; node.state_len() == numbers.len());
    for (index, number) in numbers.iter().enumerate() {
        assert!(rt; index < node.state_len());
        assert!(rt; node.state_word(index) == *number);
    }
}

/// Each row holds.
pub fn all_hold(rt: &impl Abort, alloc: Global, rows: &[Row]) -> Result<(), Fail> {
    for (kind, arg, steps, numbers) in rows {
        let mut node = node_of(rt, alloc, *kind, *arg);
        let done = lead(rt, &mut node, steps)?;
        match numbers {
            Some(numbers) => {
                assert!(rt; done == steps.len());
                shows(rt, &node, numbers);
            }
            None => {
                assert!(rt; done < steps.len());
                assert!(rt; done == steps.len() - 1);
            }
        }
    }
    Ok(())
}
