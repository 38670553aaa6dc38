// Request §1's program: reads and refuses as `declares` does, else prints how many of each diagnostic stand at each namespace depth: five lines of 32
// counts, d1 on top, and the total below.
#![tactic(auto)]

use console::{DIAGNOSTICS_ROOM, OUTPUT_ROOM, Stop, UNRESOLVED};
use depth_counts::table::{COLUMNS, ROWS, total};
use std::{fmt, io};

// A row's line: "one space between counts".
#[derive(Clone, Copy)]
struct Row<'a>(&'a [usize]);

impl fmt::Display for Row<'_> {
    fn fmt<W: fmt::Write>(&self, f: &mut fmt::Formatter<W>) -> fmt::Result {
        let mut counts = self.0.iter();
        if let Some(first) = counts.next() {
            write!(f, "{first}")?;
        }
        for count in counts {
            write!(f, " {count}")?;
        }
        Ok(())
    }
}

fn count(rt: &impl Print, tree: &[u8]) -> Result<(), Stop> {
    let mut out = [0u8; OUTPUT_ROOM];
    let mut diagnostics = [0u8; DIAGNOSTICS_ROOM];
    let mut table = [[0usize; COLUMNS]; ROWS];
    depth_counts::depths(
        tree,
        b"",
        UNRESOLVED,
        &mut out,
        &mut diagnostics,
        &mut table,
    )?;
    for row in &table {
        println!(rt; "{}", Row(row))?;
    }
    println!(rt; "{}", total(table))?;
    Ok(())
}

fn main(rt: HostRuntime) -> io::Result<()> {
    console::run(&rt, |tree| count(&rt, tree))
}
