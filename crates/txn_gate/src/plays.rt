//! What each kind of step tells its caller, and how a new node's seat is given out.

use atomic_table::{Play, Split};
use std::marker::{Brand, PhantomData};
use txn_spec::View;

/// Names an event whose parts a step's operands don't have.
pub trait Names {
    ghost use Rattle.quiesce_core.specs.declared.event.Event.{Event};

    ghost event: { Event };
}

/// A call that passes `Brand` picks the event that it names; this one is never meant.
impl Names for Brand {
    ghost use Rattle.quiesce_core.specs.declared.event.Event.TheVariants.{Miss};

    ghost event = { Miss 0 };
}

/// Names what the mark of a scan says, which no step's operands have.
pub trait Marks {
    ghost use Rattle.std.specs.Prelude.{Bool};

    ghost begins: { Bool };

    ghost moved: { Bool };
}

/// A call that passes `Brand` picks the mark that it names; this one is never meant.
impl Marks for Brand {
    ghost use Rattle.std.specs.Prelude.{true};

    ghost begins = { true };

    ghost moved = { true };
}

/// A load by a node's seat.
pub struct Loading;

impl Play<(), View> for Loading {
    ghost use Rattle.txn_spec.specs.Steps.{LoadsWord};

    ghost then = { LoadsWord };
}

/// An exchange by which a node begins what `E` names.
pub struct Beginning<E> {
    of: PhantomData<E>,
}

impl<E: Names> Play<(), View> for Beginning<E> {
    ghost use Rattle.txn_spec.specs.Steps.{ExchangesFor};

    ghost then = { ExchangesFor E.event };
}

/// A load by which a node takes a request up.
pub struct Taking;

impl Play<(), View> for Taking {
    ghost use Rattle.txn_spec.specs.Steps.{Takes};

    ghost then = { Takes };
}

/// A load by which an owner looks for a reply.
pub struct Seeing;

impl Play<(), View> for Seeing {
    ghost use Rattle.txn_spec.specs.Steps.{Sees};

    ghost then = { Sees };
}

/// A load by which a service hears its further message.
pub struct Hearing;

impl Play<(), View> for Hearing {
    ghost use Rattle.txn_spec.specs.Steps.{Hears};

    ghost then = { Hears };
}

/// A load that goes before a call, or by which the call is missed.
pub struct LookingToCall;

impl Play<(), View> for LookingToCall {
    ghost use Rattle.txn_spec.specs.Steps.{LooksToCall};

    ghost then = { LooksToCall };
}

/// The event of a node that `E` names.
pub struct Acting<E> {
    of: PhantomData<E>,
}

impl<E: Names> Play<(), View> for Acting<E> {
    ghost use Rattle.std.specs.Prelude.{◌≡◌};
    ghost use Rattle.txn_spec.specs.Steps.{did};

    ghost then = { λ st me found new. new ≡ did me E.event };
}

/// A load by which a new node's seat reads its slot's word.
pub struct Adopting;

impl Play<(), View> for Adopting {
    ghost use Rattle.txn_spec.specs.Steps.{Adopts};

    ghost then = { Adopts };
}

/// The event of the change that `E` names.
pub struct Changing<E> {
    of: PhantomData<E>,
}

impl<E: Names> Play<(), View> for Changing<E> {
    ghost use Rattle.std.specs.Prelude.{◌≡◌};
    ghost use Rattle.txn_records.specs.declared.entry.Entry.TheVariants.{Did};
    ghost use Rattle.txn_spec.specs.Steps.{noted};

    ghost then = { λ st me found new. new ≡ noted me (Did E.event) };
}

/// A look of the change.
pub struct Looking;

impl Play<(), View> for Looking {
    ghost use Rattle.txn_spec.specs.Steps.{LooksAt};

    ghost then = { LooksAt };
}

/// A load by which the change marks a scan, as `M` says.
pub struct Marking<M> {
    of: PhantomData<M>,
}

impl<M: Marks> Play<(), View> for Marking<M> {
    ghost use Rattle.txn_spec.specs.Steps.{MarksScan};

    ghost then = { MarksScan M.begins M.moved };
}

/// The seat of a new node is given out.
pub struct NewSeat;

impl Split<View> for NewSeat {
    ghost use Rattle.txn_spec.specs.Views.{new_seat, without_seat};

    ghost left = { without_seat };

    ghost right = { new_seat };
}
