//! Which node took over the state of each, by slot.

ghost use Rattle.std.specs.Prelude.{◌≡◌, ℕ, ◌≤◌, length, OnOk};
ghost use Rattle.live_board.specs.Heirs.{with_heir};
ghost use Rattle.live_board.specs.Lengths.{length_at};

use config_graph::NoMemory;

/// Makes a place for each slot below this, in which nothing is noted.
pub fn make_heir_places(heirs: &mut Vec<Option<u32>>, slots: u32) -> Result<(), NoMemory>
    ensures kept { (n : ℕ) → length_at heirs.new.items n ≡ length_at heirs.old.items n }
    ensures longer { length heirs.old.items ≤ length heirs.new.items }
    ensures enough { OnOk result (slots ≤ length heirs.new.items) }
{
    for _ in heirs.len()..slots as usize {
        heirs.push(None)?;
    }
    Ok(())
}

/// Notes that the node in this slot took over the state of the source, if there is one.
pub fn note_heir(heirs: &mut Vec<Option<u32>>, source: Option<u32>, slot: u32)
    ensures { heirs.new.items ≡ with_heir heirs.old.items source slot }
{
    if let Some(source) = source {
        let source = source as usize;
        if source < heirs.len() && heirs[source].is_none() {
            heirs[source] = Some(slot);
        }
    }
}

pub fn heir_at(heirs: &Vec<Option<u32>>, slot: u32) -> Option<u32>
    ensures { result ≡ length_at heirs.now.items slot }
{
    let at = slot as usize;
    if at < heirs.len() { heirs[at] } else { None }
}
