//! The bindings of all instances, as an index from sources to targets.

ghost use Rattle.std.specs.Prelude.{◌≡◌, ℕ, ◌<◌, List, [], ◌∷◌, ◌++◌, length, slice_get, MatchOption, Some};
ghost use Rattle.base.specs.Answers.{Answers};
ghost use Rattle.darwin_parser.specs.Tree.{port_of};
ghost use Rattle.darwin_walk.specs.Walked.{walked_end, binding_of};
ghost use Rattle.darwin_walk.specs.declared.fault.Fault.TheVariants as shown;
ghost use Rattle.elaborator.specs.Instances.{Instance};
ghost use Rattle.elaborator.specs.Bindings.{Pair as PurePair, resolve, pair_of, pairs_in, bindings_in};
ghost use Rattle.elaborator.specs.Numbering.{Expanded, Numbered};
ghost use Rattle.elaborator.specs.Expansion.{expanded_of, IsNumbering};
ghost use Rattle.elaborator.specs.Paths.{end_bytes};
ghost use Rattle.elaborator.specs.Faults.{named_index_faults};
ghost use Rattle.elaborator.specs.Ports.{ResolvesTo, named_of, NotesDifferIn};
ghost use Rattle.elaborator.specs.PortIndex.{IsPair, FaultOf, IsLawful, AreLawful, IsIndex, IsIndexed, AreBefore, Clashes, BindingFault};
ghost use Rattle.elaborator.specs.declared.error.ElabError.TheVariants.{NoMemory, BoundTwice, BadBinding, BadIndex, Annotation};

use crate::ElabError;
use crate::chains::{PortId, Targets};
use crate::instance::Expansion;
use crate::paths::name_of_end;
use crate::ports::{Named, find_named};
use darwin_walk::{Binding, End};
use std::alloc::Global;

/// Two ports that are bound, and the source as it was written.
#[derive(Clone, Copy)]
pub struct Pair<'a> {
    pub end: End<'a>,
    pub source: PortId,
    pub target: PortId,
}

/// Indexes the bindings of all instances.
pub fn index_bindings(alloc: Global, expansion: &Expansion) -> Result<Targets, ElabError>
    requires { IsNumbering expansion.now }
    ensures { Answers NoMemory (λ targets. IsIndexed (expanded_of expansion.now) targets)
        (BindingFault (expanded_of expansion.now)) result }
{
    let mut targets = Targets::new(alloc);
    for number in 0..expansion.len() {
        index_instance(alloc, expansion, number, &mut targets)?;
    }
    Ok(targets)
}

/// Adds the bindings of an instance.
fn index_instance(
    alloc: Global,
    expansion: &Expansion,
    number: u32,
    targets: &mut Targets,
) -> Result<(), ElabError>
    requires within { number < length (expanded_of expansion.now).made }
    requires kept { IsNumbering expansion.now }
    ensures { (i : Instance) (pairs : List PurePair) → Numbered (expanded_of expansion.now) number i
        → IsIndex (expanded_of expansion.now) pairs targets.old → AreBefore (expanded_of expansion.now) number pairs
        → Answers NoMemory
        (λ _. IsIndex (expanded_of expansion.now) (pairs ++ pairs_in (expanded_of expansion.now).tree i) targets.new
        × AreLawful (expanded_of expansion.now).tree i (bindings_in i)) (BindingFault (expanded_of expansion.now))
        result }
{
    let instance = expansion.instance(number);
    for binding in &instance.bindings {
        let pair = pair_of_binding(alloc, expansion, number, binding)?;
        bind_pair(alloc, expansion, number, &pair, targets)?;
    }
    Ok(())
}

/// Adds a pair. One that is stated before changes nothing.
fn bind_pair(
    alloc: Global,
    expansion: &Expansion,
    number: u32,
    pair: &Pair,
    targets: &mut Targets,
) -> Result<(), ElabError>
    requires within { number < length (expanded_of expansion.now).made }
    requires kept { IsNumbering expansion.now }
    ensures { (i : Instance) (p : PurePair) (pairs : List PurePair) → Numbered (expanded_of expansion.now) number i
        → IsPair (expanded_of expansion.now) pair.now p → IsIndex (expanded_of expansion.now) pairs targets.old
        → Answers NoMemory (λ _. IsIndex (expanded_of expansion.now) (pairs ++ p ∷ []) targets.new)
        (λ f. Clashes pairs p × (f ≡ BoundTwice i.path (end_bytes p.end))) result }
{
    let Some(before) = targets.bind(pair.source, pair.target)? else {
        return Ok(());
    };
    if before == pair.target {
        return Ok(());
    }
    let path = expansion.instance(number).path.try_clone()?;
    let end = name_of_end(alloc, pair.end)?;
    Err(ElabError::BoundTwice(path, end))
}

/// The pair that a binding of an instance gives.
fn pair_of_binding<'a>(
    alloc: Global,
    expansion: &Expansion<'a>,
    number: u32,
    binding: &Binding<'a>,
) -> Result<Pair<'a>, ElabError>
    requires within { number < length (expanded_of expansion.now).made }
    requires kept { IsNumbering expansion.now }
    ensures { (i : Instance) → Numbered (expanded_of expansion.now) number i
        → Answers NoMemory (λ x. (p : PurePair) × IsLawful (expanded_of expansion.now).tree i (binding_of binding.now)
        p × IsPair (expanded_of expansion.now) x p)
        (FaultOf (expanded_of expansion.now).tree i (binding_of binding.now)) result }
{
    let Some(left) = find_named(alloc, expansion, number, binding.left)? else {
        return bad_binding(expansion, number, binding);
    };
    let Some(right) = find_named(alloc, expansion, number, binding.right)? else {
        return bad_binding(expansion, number, binding);
    };
    let Some(pair) = pair_of_ports(binding, &left, &right) else {
        return bad_binding(expansion, number, binding);
    };
    check_index(expansion, number, binding, &left)?;
    check_index(expansion, number, binding, &right)?;
    check_notes(expansion, number, binding, &left, &right)?;
    Ok(pair)
}

/// The pair of two ports that a binding binds, in either order.
fn pair_of_ports<'a>(binding: &Binding<'a>, left: &Named, right: &Named) -> Option<Pair<'a>>
    ensures { (e : Expanded) (n : ℕ) (i : Instance)
        → ResolvesTo e n (resolve e.tree i (walked_end binding.now.left)) (Some left.now)
        → ResolvesTo e n (resolve e.tree i (walked_end binding.now.right)) (Some right.now)
        → MatchOption result (pair_of e.tree i (binding_of binding.now) ≡ [])
        (λ x. (p : PurePair) × (pair_of e.tree i (binding_of binding.now) ≡ p ∷ []) × IsPair e x p) }
{
    if left.may_lead(right) {
        Some(Pair {
            end: binding.left,
            source: left.id,
            target: right.id,
        })
    } else if right.may_lead(left) {
        Some(Pair {
            end: binding.right,
            source: right.id,
            target: left.id,
        })
    } else {
        None
    }
}

/// The refusal of a binding that gives no pair.
fn bad_binding<T>(expansion: &Expansion, number: u32, binding: &Binding) -> Result<T, ElabError>
    requires within { number < length (expanded_of expansion.now).made }
    requires kept { IsNumbering expansion.now }
    ensures { (i : Instance) → Numbered (expanded_of expansion.now) number i
        → Answers NoMemory (λ _. ⊥) (λ f. f ≡ BadBinding i.path binding.now.at) result }
{
    let path = expansion.instance(number).path.try_clone()?;
    Err(ElabError::BadBinding(path, binding.at))
}

/// The index of a port is one of its array's.
fn check_index(
    expansion: &Expansion,
    number: u32,
    binding: &Binding,
    port: &Named,
) -> Result<(), ElabError>
    requires within { number < length (expanded_of expansion.now).made }
    requires port_within { port.now.id.instance < length (expanded_of expansion.now).made }
    requires kept { IsNumbering expansion.now }
    ensures { (i j : Instance) → Numbered (expanded_of expansion.now) number i
        → Numbered (expanded_of expansion.now) port.now.id.instance j
        → slice_get j.component.ports port.now.id.port ≡ Some (port_of port.now.decl.now)
        → Answers NoMemory (λ _. named_index_faults binding.now.at (named_of j port.now) ≡ [])
        (λ f. (named_index_faults binding.now.at (named_of j port.now) ≡ shown.BadIndex binding.now.at ∷ [])
        × (f ≡ BadIndex i.path binding.now.at)) result }
{
    if port.has_bad_index(expansion) {
        let path = expansion.instance(number).path.try_clone()?;
        return Err(ElabError::BadIndex(path, binding.at));
    }
    Ok(())
}

/// Notes that stand at both ports are the same.
fn check_notes(
    expansion: &Expansion,
    number: u32,
    binding: &Binding,
    left: &Named,
    right: &Named,
) -> Result<(), ElabError>
    requires within { number < length (expanded_of expansion.now).made }
    requires kept { IsNumbering expansion.now }
    ensures { (i : Instance) → Numbered (expanded_of expansion.now) number i
        → Answers NoMemory (λ _. ¬ NotesDifferIn (port_of left.now.decl.now) (port_of right.now.decl.now))
        (λ f. NotesDifferIn (port_of left.now.decl.now) (port_of right.now.decl.now)
        × (f ≡ Annotation i.path binding.now.at)) result }
{
    if left.differs_in_note(right) {
        let path = expansion.instance(number).path.try_clone()?;
        return Err(ElabError::Annotation(path, binding.at));
    }
    Ok(())
}
