// The declarations themselves: reads a tree as `declares` does, with the same list and context, and writes the output tree to standard output; a
// refusal is a line, as there.
#![tactic(auto)]

use console::{DIAGNOSTICS_ROOM, OUTPUT_ROOM, Stop, UNRESOLVED};
use std::io;

fn declare(rt: &impl Print, tree: &[u8]) -> Result<(), Stop> {
    let mut out = [0u8; OUTPUT_ROOM];
    let mut diagnostics = [0u8; DIAGNOSTICS_ROOM];
    let done = transform_dts::transform(tree, b"", UNRESOLVED, &mut out, &mut diagnostics)?;
    rt.write_all(&out[..done.length])?;
    Ok(())
}

fn main(rt: HostRuntime) -> io::Result<()> {
    console::run(&rt, |tree| declare(&rt, tree))
}
