// Document 01's program: reads a tree of at most 32,768 bytes from standard input (else prints `too long`), takes the overload list as empty and 1
// as the unresolved context, and prints what the call answers.
#![tactic(auto)]

use console::shown::Success;
use console::{DIAGNOSTICS_ROOM, OUTPUT_ROOM, Stop, UNRESOLVED};
use records::DIAGNOSTIC_SIZE;
use std::{fmt, io};
use transform_dts::Done;

// A diagnostic's line: "its digit, start, end". Its mark is a `d` and the digit.
#[derive(Clone, Copy)]
struct Diagnostic<'a>(&'a [u8; DIAGNOSTIC_SIZE]);

impl fmt::Display for Diagnostic<'_> {
    fn fmt<W: fmt::Write>(&self, f: &mut fmt::Formatter<W>) -> fmt::Result {
        let [_, digit, s0, s1, s2, s3, e0, e1, e2, e3] = *self.0;
        let start = u32::from_le_bytes([s0, s1, s2, s3]);
        let end = u32::from_le_bytes([e0, e1, e2, e3]);
        write!(f, "{} {start} {end}", char::from(digit))
    }
}

fn declare(rt: &impl Print, tree: &[u8]) -> Result<(), Stop> {
    let mut out = [0u8; OUTPUT_ROOM];
    let mut diagnostics = [0u8; DIAGNOSTICS_ROOM];
    let Done { length, count } = transform_dts::transform(
        tree,
        b"",
        UNRESOLVED,
        &mut out,
        &mut diagnostics,
    )?;
    println!(rt; "{}", Success { length, count })?;
    let (written, _) = diagnostics.as_chunks();
    for diagnostic in &written[..count] {
        println!(rt; "{}", Diagnostic(diagnostic))?;
    }
    Ok(())
}

fn main(rt: HostRuntime) -> io::Result<()> {
    console::run(&rt, |tree| declare(&rt, tree))
}
