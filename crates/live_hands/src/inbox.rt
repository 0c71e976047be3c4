//! One inbox: a ruled queue of hints.

ghost use Rattle.std.specs.Prelude.{◌≡◌, ◌<◌, [], ◌∷◌, ◌++◌, IfErr, IfOk, MatchOption, MatchResult};
ghost use Rattle.config_graph.specs.declared.TheConstants.{MAX_PORTS};
ghost use Rattle.crossbeam_queue.specs.Fifo.{Held};
ghost use Rattle.crossbeam_queue.specs.Passes.{IsPassOf, IsSamePass, ruled_capacity, view};
ghost use Rattle.live_hands.specs.Inbox.{HeldFor, known};
ghost use Rattle.port_queue.specs.declared.TheConstants.{MAX_HINTS};

use crate::known::Known;
use config_graph::NoMemory;
use crossbeam_queue::protocol::{Lesson, Outcome, Protocol, Split};
use crossbeam_queue::{Pass, RuledArrayQueue};
use port_queue::MAX_HINTS;
use std::alloc::Global;
use std::sync::Wait;

/// The rule of an inbox: it is a list, and each hand's own hints stand in it in the hand's order, each once.
pub struct Listed;

impl Protocol<u32, Known> for Listed {
    ghost use Rattle.std.specs.Prelude.{[]};
    ghost use Rattle.live_hands.specs.Inbox.{IsInbox, known};

    ghost holds = { IsInbox };

    ghost first = { known [] [] };
}

/// How another hand comes in: it has posted nothing and taken nothing.
pub struct NewHand;

impl Split<Known> for NewHand {
    ghost use Rattle.std.specs.Prelude.{[]};
    ghost use Rattle.live_hands.specs.Inbox.{known};

    ghost left = { λ v. v };

    ghost right = { λ v. known [] [] };
}

/// A hand posts.
pub struct Posts;

impl Outcome<u32, Known> for Posts {
    ghost then = { λ v x w. w ≡ known (v.posted ++ x ∷ []) v.taken };
}

impl Lesson<u32, Known> for Posts {
    ghost fact = { HeldFor };
}

/// A hand takes.
pub struct Takes;

impl Outcome<u32, Known> for Takes {
    ghost then = { λ v x w. (x < MAX_PORTS) × (w ≡ known v.posted (v.taken ++ x ∷ [])) };
}

impl Lesson<u32, Known> for Takes {
    ghost fact = { HeldFor };
}

pub type Inbox = RuledArrayQueue<u32, Known, Listed>;

/// What one hand knows of one inbox. It has no bytes.
pub type Way = Pass<u32, Known>;

/// An empty inbox, and the first way in to it.
pub fn inbox(alloc: Global) -> Result<(Inbox, Way), NoMemory>
    ensures { IfOk result (λ r. (ruled_capacity r.0 ≡ MAX_HINTS) × IsPassOf r.0 r.1 × (view r.1 ≡ known [] [])) }
{
    Inbox::ruled(alloc, MAX_HINTS as usize)
}

/// Another way in to the same inbox.
pub fn another(inbox: &Inbox, way: &mut Way) -> Way
    requires { IsPassOf inbox.now way.old }
    ensures way { IsSamePass way.old way.new × IsPassOf inbox.now result }
    ensures knows { (view way.new ≡ view way.old) × (view result ≡ known [] []) }
{
    inbox.another::<NewHand>(way)
}

/// Puts a hint at the end. It comes back only where the inbox was full.
pub fn post<R: Wait>(rt: &R, inbox: &Inbox, way: &mut Way, port: u32) -> Result<(), u32>
    requires way { IsPassOf inbox.now way.old × (ruled_capacity inbox.now ≡ MAX_HINTS) }
    requires port { port < MAX_PORTS }
    ensures way { IsSamePass way.old way.new }
    ensures knows { MatchResult result
        (λ _. view way.new ≡ known ((view way.old).posted ++ port ∷ []) (view way.old).taken)
        (λ _. view way.new ≡ view way.old) }
    ensures full { IfErr result (λ _. Held MAX_HINTS (HeldFor (view way.old))) }
{
    inbox.push_as::<Posts, R>(rt, way, port)
}

/// Takes the hint at the front. There is none only where the inbox was empty.
pub fn next<R: Wait>(rt: &R, inbox: &Inbox, way: &mut Way) -> Option<u32>
    requires { IsPassOf inbox.now way.old }
    ensures way { IsSamePass way.old way.new }
    ensures knows { MatchOption result (view way.new ≡ view way.old)
        (λ x. (x < MAX_PORTS) × (view way.new ≡ known (view way.old).posted ((view way.old).taken ++ x ∷ []))) }
    ensures empty { MatchOption result (Held 0 (HeldFor (view way.old))) (λ _. Unit {0}) }
{
    inbox.pop_as::<Takes, R>(rt, way)
}
