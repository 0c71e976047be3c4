//! Whether two scans in a row saw the same.

ghost use Rattle.std.specs.Prelude.{◌≡◌, [], IfOk, length, option_map};
ghost use Rattle.std.specs.List.{list_all};
ghost use Rattle.change_board.specs.Scans.{live_nodes};
ghost use Rattle.live_board.specs.Lengths.{AreLengths, is_alike, is_as_last, length_at};
ghost use Rattle.txn_gate.specs.Seats.{record_of};
ghost use Rattle.txn_records.specs.Entries.{config_of};

use config_graph::NoMemory;
use std::alloc::Global;
use txn_gate::ChangeSeat;

/// Of nothing that was seen, for so many slots.
pub fn no_lengths(alloc: Global, slots: u32) -> Result<Vec<Option<usize>>, NoMemory>
    ensures lengths { IfOk result (λ v. AreLengths [] v.items) }
    ensures count { IfOk result (λ v. length v.items ≡ slots) }
{
    let lengths: Vec<Option<usize>> = vec![in alloc; None; slots as usize]?;
    Ok(lengths)
}

fn length_of(lengths: &Vec<Option<usize>>, slot: u32) -> Option<usize>
    ensures { result ≡ length_at lengths.now.items slot }
{
    let at = slot as usize;
    if at < lengths.len() {
        lengths[at]
    } else {
        None
    }
}

fn is_same(one: Option<usize>, other: Option<usize>) -> bool
    ensures { result ≡ is_alike one other }
{
    match one {
        Some(one) => match other {
            Some(other) => one == other,
            None => false,
        },
        None => false,
    }
}

/// Whether of each live node there is a length in both, and the same.
fn are_same(seat: &ChangeSeat, first: &Vec<Option<usize>>, lengths: &Vec<Option<usize>>) -> bool
    ensures { result ≡ list_all (λ n. is_alike (length_at first.now.items n) (length_at lengths.now.items n))
        (live_nodes (config_of (record_of seat.now))) }
{
    for slot in 0..seat.made().nodes {
        if seat.is_live(slot) && !is_same(length_of(first, slot), length_of(lengths, slot)) {
            return false;
        }
    }
    true
}

/// Whether what is kept of the last scan has the same lengths for all live nodes.
pub fn is_as_before(
    seat: &ChangeSeat,
    last: &Option<Vec<Option<usize>>>,
    lengths: &Vec<Option<usize>>,
) -> bool
    ensures { result ≡ is_as_last (config_of (record_of seat.now)) (option_map (λ v. v.items) last.now)
        (length_at lengths.now.items) }
{
    match last {
        Some(first) => are_same(seat, first, lengths),
        None => false,
    }
}
