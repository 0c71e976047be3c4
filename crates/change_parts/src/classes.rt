//! Classes of numbers that are tied. Each number has the least number of its class.

ghost use Rattle.std.specs.Prelude.{◌≡◌, ◌<◌, ◌^◌, ◌++◌, ◌∷◌, [], ℕ, List, All, EachIndex, IfOk, length, slice_index, take};
ghost use Rattle.std.specs.List.{range_with_len};
ghost use Rattle.change_parts.specs.Classes.{AreClasses, IsTieBelow, renamed};

use config_graph::NoMemory;
use std::alloc::Global;

/// The least number of the class of each number below the count, where these are tied.
pub(crate) fn list_least(
    alloc: Global,
    count: u32,
    ties: &[(u32, u32)],
) -> Result<Vec<u32>, NoMemory>
    requires { All (IsTieBelow count) ties.now }
    ensures classes { IfOk result (λ least. AreClasses ties.now least.items) }
    ensures long { IfOk result (λ least. length least.items ≡ count) }
{
    let mut least = list_alone(alloc, count)?;
    tie_all(&mut least, ties);
    Ok(least)
}

/// Ties the numbers of each pair.
fn tie_all(least: &mut [u32], ties: &[(u32, u32)])
    requires { All (IsTieBelow (length least.old)) ties.now }
    ensures classes { AreClasses [] least.old → AreClasses ties.now least.new }
{
    for pair in ties {
        tie(least, pair.0, pair.1);
    }
}

/// Each number alone.
fn list_alone(alloc: Global, count: u32) -> Result<Vec<u32>, NoMemory>
    ensures numbers { IfOk result (λ least. least.items ≡ range_with_len 0 count) }
    ensures classes { IfOk result (λ least. AreClasses [] least.items) }
{
    let mut least = Vec::with_capacity(alloc, count as usize)?;
    for k in 0..count {
        least.push(k)?;
    }
    Ok(least)
}

/// Ties two numbers: their classes are one.
fn tie(least: &mut [u32], a: u32, b: u32)
    requires a { a < length least.old }
    requires b { b < length least.old }
    ensures classes { (ties : List (ℕ × ℕ)) → AreClasses ties least.old → AreClasses (ties ++ (a, b) ∷ []) least.new }
{
    let first = least[a as usize];
    let second = least[b as usize];
    if first < second {
        rename(least, second, first);
    } else if second < first {
        rename(least, first, second);
    }
}

/// Puts one number in another's place throughout.
fn rename(list: &mut [u32], from: u32, to: u32)
    ensures { EachIndex list.old (λ k. slice_index list.new k ≡ renamed from to (slice_index list.old k)) }
{
    for item in list.iter_mut() {
        if *item == from {
            *item = to;
        }
    }
}
