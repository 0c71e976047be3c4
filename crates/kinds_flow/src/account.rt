//! An account pays amounts out and takes amounts in.

ghost use Rattle.std.specs.Prelude.{◌≡◌, ℕ, ◌<◌, IfSome, IsSome, length, slice_get, None};
ghost use Rattle.config_graph.specs.declared.kind.Kind.TheVariants as kind;
ghost use Rattle.component_trait.specs.Bounds.{FitsNext};
ghost use Rattle.component_trait.specs.Moves as moves;
ghost use Rattle.component_trait.specs.Serving.{WaitsForNoMore};
ghost use Rattle.component_trait.specs.States.{at_rest, with_total};
ghost use Rattle.component_trait.specs.Tables.{serve};
ghost use Rattle.config_graph.specs.declared.TheConstants.{VALUE_LIMIT};
ghost use Rattle.component_trait.specs.declared.next.Next.TheVariants as next;

use component_trait::{Next, Serving, reply};

/// An account: its argument, with which a new one opens; its balance; and its service.
#[derive(Drop)]
pub struct Account {
    b: u32,
    balance: u64,
    service: Option<Serving>,
    ghost b_small: { b < VALUE_LIMIT },
    ghost goes_on: { WaitsForNoMore service },
}

impl Account {
    ghost use Rattle.kinds_flow.specs.Nodes.{account_state};

    /// An account whose balance is `b`.
    pub fn new(b: u32) -> Account
        requires { b < VALUE_LIMIT }
        ensures { account_state result ≡ at_rest kind.Account b (with_total b) }
    {
        Account {
            b,
            balance: b as u64,
            service: None,
        }
    }

    /// The same account, whose balance stays.
    pub fn with_arg(self, b: u32) -> Account
        requires { b < VALUE_LIMIT }
        ensures { account_state result ≡ record (account_state self) { arg = b } }
    {
        Account {
            b,
            balance: self.balance,
            service: self.service,
        }
    }

    /// Its argument.
    pub fn arg(&self) -> u32
        ensures arg { result ≡ (account_state self.now).arg }
        ensures small { result < VALUE_LIMIT }
    {
        self.b
    }

    /// Takes a value up.
    pub fn serve(&mut self, value: u32)
        requires rests { (account_state self.old).service ≡ None }
        requires small { value < VALUE_LIMIT }
        ensures { account_state self.new ≡ moves.after_take (account_state self.old) value }
    {
        let after = post(self.balance, value);
        let reply = if after.is_some() { 1 } else { 0 };
        self.balance = after.unwrap_or(self.balance);
        self.service = Some(Serving::of(value, reply));
    }

    /// What its service does next.
    pub fn next(&self) -> Next
        requires goes_on { IsSome (moves.next (account_state self.now)) }
        ensures next { moves.next (account_state self.now) ≡ Some result }
        ensures fits { FitsNext kind.Account result }
    {
        Next::Give(reply(&self.service))
    }

    /// Its service gave its answer.
    pub fn given(&mut self)
        requires gave { ((v : ℕ) × (moves.next (account_state self.old) ≡ Some (next.Give v))) }
        ensures { account_state self.new ≡ moves.after_give (account_state self.old) }
    {
        self.service = None;
    }

    /// Whether it is in a service.
    pub fn in_service(&self) -> bool
        ensures { result ≡ moves.in_service (account_state self.now) }
    {
        self.service.is_some()
    }

    /// The number of its state at a place.
    pub fn state_word(&self, index: usize) -> u64
        requires { index < length (moves.numbers (account_state self.now)) }
        ensures { slice_get (moves.numbers (account_state self.now)) index ≡ Some result }
    {
        self.balance
    }
}

/// The balance after 2a+1, which pays a out, or 2a, which takes a in; none where that can't be.
fn post(balance: u64, value: u32) -> Option<u64>
    ensures paid { IfSome result (λ after. serve kind.Account 0 (with_total balance) value ≡
        record { kept = with_total after; reply = 1 }) }
    ensures refused { result ≡ None → serve kind.Account 0 (with_total balance) value ≡
        record { kept = with_total balance; reply = 0 } }
{
    let amount = (value / 2) as u64;
    if value % 2 == 1 {
        balance.checked_sub(amount)
    } else {
        balance.checked_add(amount)
    }
}
