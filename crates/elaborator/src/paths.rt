//! Paths of instances, and ends of bindings as faults name them.

ghost use Rattle.std.specs.Prelude.{◌≡◌, ◌++◌, IfOk, OnOk};
ghost use Rattle.elaborator.specs.Paths.{index_bytes, segment_bytes, within, end_bytes};
ghost use Rattle.darwin_walk.specs.Walked.{segment_of, walked_end};

use config_graph::Text;
use darwin_walk::{End, Segment};
use itoa::Buffer;
use std::alloc::{AllocError, Global};

/// So many bytes the longest index in brackets takes.
const INDEX_ROOM: usize = 13;

/// Adds an index in brackets, where there is one.
fn push_index(out: &mut Vec<u8>, index: Option<i32>) -> Result<(), AllocError>
    ensures { OnOk result (out.new.items ≡ out.old.items ++ index_bytes index) }
{
    if let Some(index) = index {
        let mut digits = Buffer::new();
        out.extend_from_slice(b"[")?;
        out.extend_from_slice(digits.format(index).as_bytes())?;
        out.extend_from_slice(b"]")?;
    }
    Ok(())
}

/// Adds the segment of a path.
fn push_segment(out: &mut Vec<u8>, segment: Segment) -> Result<(), AllocError>
    ensures { OnOk result (out.new.items ≡ out.old.items ++ segment_bytes (segment_of segment.entry)) }
{
    out.extend_from_slice(segment.name.as_bytes())?;
    push_index(out, segment.index)
}

/// The most bytes of such a path, so that it is made in one piece.
fn room_within(path: &[u8], segment: Segment) -> usize {
    let index_room = if segment.index.is_some() {
        INDEX_ROOM
    } else {
        0
    };
    let names = path.len() + segment.name.as_bytes().len();
    names.saturating_add(1 + index_room)
}

/// The path of the instance of a segment within the instance of a path.
pub fn path_within(alloc: Global, path: &[u8], segment: Segment) -> Result<Vec<u8>, AllocError>
    ensures { IfOk result (λ made. made.items ≡ within path.now (segment_of segment.entry)) }
{
    let mut made = Vec::with_capacity(alloc, room_within(path, segment))?;
    made.extend_from_slice(path)?;
    if !path.is_empty() {
        made.push(b'.')?;
    }
    push_segment(&mut made, segment)?;
    Ok(made)
}

/// An end of a binding, as a fault names it.
pub fn name_of_end(alloc: Global, end: End) -> Result<Text, AllocError>
    ensures { IfOk result (λ name. name ≡ end_bytes (walked_end end.entry)) }
{
    let mut name = Vec::new(alloc);
    if let Some(segment) = end.inner {
        push_segment(&mut name, segment)?;
        name.push(b'.')?;
    }
    name.extend_from_slice(end.port.as_bytes())?;
    push_index(&mut name, end.index)?;
    Text::from_bytes(alloc, name.as_slice())
}
