// The check of one tree: reads a tree of at most 32,768 bytes from standard input (else prints `too long`), takes the overload list as empty, and
// prints `accepted`, or `refused`, the refusal's number, `at` and its place.
#![tactic(auto)]

use std::io;

fn main(rt: HostRuntime) -> io::Result<()> {
    console::run(&rt, |tree| {
        console::print_check(&rt, tree)?;
        Ok(())
    })
}
