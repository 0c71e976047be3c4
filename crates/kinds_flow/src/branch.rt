//! A branch takes an amount from one account and, where that had it, puts it into another.

ghost use Rattle.std.specs.Prelude.{◌≡◌, ℕ, ◌<◌, false, IsSome, None};
ghost use Rattle.config_graph.specs.declared.kind.Kind.TheVariants as kind;
ghost use Rattle.component_trait.specs.Bounds.{FitsNext};
ghost use Rattle.component_trait.specs.Fold.{asked_by};
ghost use Rattle.component_trait.specs.Moves as moves;
ghost use Rattle.component_trait.specs.Serving.{WaitsForNoMore};
ghost use Rattle.component_trait.specs.States.{at_rest, nothing};
ghost use Rattle.component_trait.specs.Tables.{next_of};
ghost use Rattle.config_graph.specs.declared.TheConstants.{VALUE_LIMIT};
ghost use Rattle.component_trait.specs.declared.next.Next.TheVariants as next;

use component_trait::{AMOUNT_LIMIT, Next, Serving, hand, services_are_bounded};

/// A branch: its service.
#[derive(Drop)]
pub struct Branch {
    service: Option<Serving>,
    ghost goes_on: { WaitsForNoMore service },
}

impl Branch {
    ghost use Rattle.kinds_flow.specs.Nodes.{branch_state};

    /// A branch in no service.
    pub fn new() -> Branch
        ensures { branch_state result ≡ at_rest kind.Branch 0 nothing }
    {
        Branch { service: None }
    }

    /// Takes a value up.
    pub fn serve(&mut self, value: u32)
        requires rests { (branch_state self.old).service ≡ None }
        requires small { value < VALUE_LIMIT }
        ensures { branch_state self.new ≡ moves.after_take (branch_state self.old) value }
    {
        self.service = Some(Serving::of(value, 0));
    }

    /// What its service does next.
    pub fn next(&self) -> Next
        requires goes_on { IsSome (moves.next (branch_state self.now)) }
        ensures next { moves.next (branch_state self.now) ≡ Some result }
        ensures fits { FitsNext kind.Branch result }
    {
        match &self.service {
            Some(service) => transfer(service),
            None => unreachable!(),
        }
    }

    /// The call that its service made ended with this answer. A call that was missed is answered with 0.
    pub fn answered(&mut self, value: u32)
        requires asked { IsSome (asked_by (moves.next (branch_state self.old))) }
        requires small { value < VALUE_LIMIT }
        ensures { branch_state self.new ≡ moves.after_answer (branch_state self.old) value }
    {
        services_are_bounded();
        hand(&mut self.service, value);
    }

    /// Its service gave its answer.
    pub fn given(&mut self)
        requires gave { ((v : ℕ) × (moves.next (branch_state self.old) ≡ Some (next.Give v))) }
        ensures { branch_state self.new ≡ moves.after_give (branch_state self.old) }
    {
        self.service = None;
    }

    /// Whether it is in a service.
    pub fn in_service(&self) -> bool
        ensures { result ≡ moves.in_service (branch_state self.now) }
    {
        self.service.is_some()
    }
}

/// What comes next where a branch serves.
fn transfer(service: &Serving) -> Next
    requires { service.now.waits ≡ false }
    ensures next { next_of kind.Branch 0 service.now.value service.now.reply service.now.answers ≡ result }
    ensures fits { FitsNext kind.Branch result }
{
    let amount = service.value();
    if amount >= AMOUNT_LIMIT {
        return Next::Give(0);
    }
    let Some(taken) = service.answer(0) else {
        return Next::ask(0, 2 * amount + 1);
    };
    if service.answer(1).is_some() {
        return Next::Give(1);
    }
    if taken == 1 {
        Next::ask(1, 2 * amount)
    } else {
        Next::Give(0)
    }
}
