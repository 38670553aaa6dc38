// Request §3's program: reads and refuses as `declares` does, and prints the text of the declarations: the transform, then its output's text into 393,216
// bytes; a refusal of either is a line, as there.
#![tactic(auto)]

use console::{DIAGNOSTICS_ROOM, OUTPUT_ROOM, Stop, UNRESOLVED};
use std::io;

// "text into 393,216 bytes".
const TEXT_ROOM: usize = 393216;

fn show(rt: &impl Print, tree: &[u8]) -> Result<(), Stop> {
    let mut out = [0u8; TEXT_ROOM];
    let length = declaration_text::text(tree, &mut out)?;
    rt.write_all(&out[..length])?;
    Ok(())
}

fn declare(rt: &impl Print, tree: &[u8]) -> Result<(), Stop> {
    let mut out = [0u8; OUTPUT_ROOM];
    let mut diagnostics = [0u8; DIAGNOSTICS_ROOM];
    let done = transform_dts::transform(tree, b"", UNRESOLVED, &mut out, &mut diagnostics)?;
    show(rt, &out[..done.length])
}

fn main(rt: HostRuntime) -> io::Result<()> {
    console::run(&rt, |tree| declare(&rt, tree))
}
