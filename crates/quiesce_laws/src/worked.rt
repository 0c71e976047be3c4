//! The definitions on small runs.

ghost use Rattle.std.specs.Prelude.{◌≡◌, [], ◌∷◌, ◌++◌, None};
ghost use Rattle.quiesce_core.specs.declared.event.Event.TheVariants.{Begin, Call, Take};
ghost use Rattle.quiesce_core.specs.Rest.{full};
ghost use Rattle.quiesce_core.specs.Runs.{state_after};
ghost use Rattle.quiesce_laws.specs.Belongs.{open_in, singleton};
ghost use Rattle.quiesce_laws.specs.Drain.{count_of, rest_of};
ghost use Rattle.quiesce_laws.specs.Worked.{adding, called, chain, denials, missed, pair, replied, rests, served, unlinked};

/// A source and a sink: a Begin adds the three events of a transaction, each of them takes one away, and so the bound
/// is reached; the next transaction isn't counted. A source, a map and a sink: a call that is missed is one event, and
/// a call that is made is one and the three of the sink's provision, counted with the transaction for which it is made
/// and with the call's own. A Link adds to what a further transaction has. An asker and an adder: an intermediate reply
/// adds three events.
pub fn worked_drains()
    ensures pair_allowed { denials (state_after []) (pair ++ Begin 0 1 7 ∷ served)
        ≡ None ∷ None ∷ None ∷ None ∷ None ∷ None ∷ None ∷ None ∷ [] }
    ensures pair_rests { rests (state_after pair) (Begin 0 1 7 ∷ served) ≡ 3 ∷ 2 ∷ 1 ∷ 0 ∷ [] }
    ensures pair_counts { count_of (open_in (state_after (pair ++ Begin 0 1 7 ∷ [])))
        (state_after (pair ++ Begin 0 1 7 ∷ [])) (served ++ Begin 0 2 7 ∷ Take 0 2 7 ∷ []) ≡ 3 }
    ensures missed_rests { rests (state_after unlinked) missed ≡ 4 ∷ 3 ∷ 2 ∷ 1 ∷ 0 ∷ [] }
    ensures missed_counts { count_of (singleton 1 1) (state_after unlinked) missed ≡ 4 }
    ensures chain_rests { rests (state_after chain) (Begin 1 1 7 ∷ called) ≡ 7 ∷ 6 ∷ 5 ∷ 4 ∷ 3 ∷ 2 ∷ 1 ∷ 0 ∷ [] }
    ensures chain_counts { count_of (singleton 1 1) (state_after (chain ++ Begin 1 1 7 ∷ [])) called ≡ 7 }
    ensures call_counts { count_of (singleton 0 1) (state_after (chain ++ Begin 1 1 7 ∷ [])) called ≡ 3 }
    ensures chain_part { rest_of (singleton 1 1) (state_after (chain ++ Begin 1 1 7 ∷ Take 1 1 7 ∷ Call 0 1 8 ∷ []))
        ≡ 5 }
    ensures call_part { rest_of (singleton 0 1) (state_after (chain ++ Begin 1 1 7 ∷ Take 1 1 7 ∷ Call 0 1 8 ∷ []))
        ≡ 3 }
    ensures link_adds { full (state_after unlinked).config 1 0 ∷ full (state_after chain).config 1 0 ∷ [] ≡ 4 ∷ 7 ∷ [] }
    ensures replied_rests { rests (state_after adding) replied ≡ 6 ∷ 5 ∷ 4 ∷ 3 ∷ 2 ∷ 1 ∷ 0 ∷ [] }
{}
