// Demand 3, run: for each module of standard input what the call answers, what it answers on exactly the bytes that it wrote, and whether both
// outputs have the same length and the same bytes. Each module stands behind its length in two bytes; the overload list is empty and 1 the
// unresolved context.
#![tactic(auto)]

use console::shown::{Answer, Success};
use console::{FRAMED_ROOM, UNRESOLVED, front, unwritten};
use std::{fmt, io};
use transform_dts::Done;

// What the first call gave, and what the second answered.
#[derive(Clone, Copy)]
struct Both {
    first: Success,
    second: Answer<Second>,
}

impl fmt::Display for Both {
    fn fmt<W: fmt::Write>(&self, f: &mut fmt::Formatter<W>) -> fmt::Result {
        write!(f, "{}, again {}", self.first, self.second)
    }
}

// What the second call gave, and whether its output is that of the first.
#[derive(Clone, Copy)]
struct Second {
    done: Success,
    same: bool,
}

impl fmt::Display for Second {
    fn fmt<W: fmt::Write>(&self, f: &mut fmt::Formatter<W>) -> fmt::Result {
        write!(
            f,
            "{}, {}",
            self.done,
            if self.same { "the same" } else { "another" }
        )
    }
}

fn success(done: Done) -> Success {
    Success {
        length: done.length,
        count: done.count,
    }
}

fn show_module(rt: &impl Print, number: usize, tree: &[u8]) -> io::Result<()> {
    let mut out = unwritten();
    let mut diagnostics = unwritten();
    let mut again = unwritten();
    let mut others = unwritten();
    let both = transform_dts::twice::transform_twice(
        tree,
        b"",
        UNRESOLVED,
        &mut out,
        &mut diagnostics,
        &mut again,
        &mut others,
    );
    let both = both.map(|twice| Both {
        first: success(twice.first),
        second: Answer(
            twice.second.map(|second| Second {
                done: success(second),
                same: front(&out, twice.first.length) == front(&again, second.length),
            }),
        ),
    });
    println!(rt; "{number} {}", Answer(both))
}

fn main(rt: HostRuntime) -> io::Result<()> {
    let mut buffer = [0u8; FRAMED_ROOM];
    console::for_each_tree(
        &rt,
        &mut buffer,
        |number, tree| show_module(&rt, number, tree),
    )
}
