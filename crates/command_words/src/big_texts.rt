//! The texts of the files.

ghost use Rattle.std.specs.Prelude.{◌≡◌, ◌++◌, IfOk, OnOk};
ghost use Rattle.command_words.specs.BigFiles.{around, script};

use cfg_io::NoMemory;
use itoa::Buffer;
use std::alloc::Global;

/// The most lanes of a system that is made.
pub const MAX_LANES: u32 = 40;

/// The name of the script.
pub const SCRIPT_NAME: &str = "big";

/// A lane is a source, a map, a buffer, a map and a sink, in a row; `k` is what the first map adds.
pub const DESCRIPTION: &str =
    "component source(int n) { require out; }\ncomponent map(int k) { provide in; require next; }\ncomponent buffer(int cap) { provide in; require next; }\ncomponent sink { provide in; }\n\ncomponent Lanes(int n, int k) {\n  array s[n]:source(20); m[n]:map(k); b[n]:buffer(2); w[n]:map(3); t[n]:sink;\n  forall i:0..n-1 {\n    inst s[i]; m[i]; b[i]; w[i]; t[i];\n    bind s[i].out -- m[i].in; m[i].next -- b[i].in;\n         b[i].next -- w[i].in; w[i].next -- t[i].in;\n  }\n}\n";

/// The script of a run of so many lanes, of which each source gives 20 values.
pub fn script_text(alloc: Global, lanes: u32) -> Result<Vec<u8>, NoMemory>
    ensures { IfOk result (λ text. text.items ≡ script lanes) }
{
    let mut text = Vec::from_slice(alloc, b"use big.dar\n")?;
    push_around(&mut text, b"start Lanes(", u64::from(lanes), b",1)\n")?;
    push_around(&mut text, b"run ", 20 * u64::from(lanes), b"\n")?;
    push_around(
        &mut text,
        b"change to Lanes(",
        u64::from(lanes),
        b",2) within 100000\n",
    )?;
    text.extend_from_slice(b"finish within 100000\nend\n")?;
    Ok(text)
}

/// Writes a number between two texts.
fn push_around(text: &mut Vec<u8>, before: &[u8], number: u64, after: &[u8]) -> Result<(), NoMemory>
    ensures { OnOk result (text.new.items ≡ text.old.items ++ around before.now number after.now) }
{
    let mut digits = Buffer::new();
    text.extend_from_slice(before)?;
    text.extend_from_slice(digits.format(number).as_bytes())?;
    text.extend_from_slice(after)
}
