//! The rule of the copies: there is one list of published graphs, which begins with each list that is known.

use crate::Seen;
use config_graph::Graph;
use crossbeam_utils::rule::{Outcome, Protocol};
use left_right::reader::{Reader, Reading};
use left_right::writer::Writer;
use std::collections::LinkedList;

/// What a reader or the writer knows of the list. No value of it is made.
pub type Known = LinkedList<Graph>;

/// There is one list, which only grows.
pub struct OneList;

impl Protocol<Seen, Known> for OneList {
    ghost use Rattle.std.specs.Prelude.{[]};
    ghost use Rattle.watch_view.specs.Rule.{Keeps};

    ghost holds = { Keeps };

    ghost first = { [] };
}

/// A look sees the whole list.
pub struct Looking;

impl Outcome<Seen, Known> for Looking {
    ghost use Rattle.watch_view.specs.Rule.{Looks};

    ghost then = { λ before shown _ after. Looks before shown after };
}

/// A graph is published.
pub struct Publishing;

impl Outcome<Seen, Known> for Publishing {
    ghost use Rattle.watch_view.specs.Rule.{Publishes};

    ghost then = { λ before _ next after. Publishes before next after };
}

pub type GraphReader = Reader<Seen, Known, OneList>;

pub type GraphReading = Reading<Seen, Known, OneList>;

pub type GraphWriter = Writer<Seen, Seen, Known, OneList>;
