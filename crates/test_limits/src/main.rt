// Document 01's limits, which are too large to evaluate in the logic: the longest tree and one byte more, 64 and 65 levels, the longest overload
// list and one entry more. Each line is the check's answer, but the last: the call's on the longest tree.
#![tactic(auto)]

use console::shown::{Answer, Success};
use console::{LIST_TOO_LONG, LONGEST_LIST, LONGEST_TREE, TREE_TOO_LONG, UNRESOLVED, front};
use records::marks::Mark;
use records::writer::Writer;
use records::{DUMMY_SP, ENTRY_SIZE, HEAD_SIZE};
use std::{fmt, io};

// More than the longest tree's declarations take.
const OUTPUT: usize = 524544;

// The mark of an overload list.
const OV: &[u8] = b"ov";

// The bytes of an item that fills a tree, and of its text, behind two heads.
const FILLER: usize = 65534;

const TEXT: usize = FILLER - 2 * HEAD_SIZE;

// The text of the last one: behind the Mo and a default export, which have three heads, and seven items.
const LAST_TEXT: usize = LONGEST_TREE - 3 * HEAD_SIZE - 7 * FILLER - 2 * HEAD_SIZE;

// An Im with an Op of n bytes of text.
fn filler(w: &mut Writer, n: usize) {
    w.put_made_front(Mark::Im, 0, DUMMY_SP, 1);
    w.put_made(Mark::Op, 0, DUMMY_SP, n, 0);
    w.skip(n);
}

// A Mo of 524,288 bytes: `export default [];`, and eight items whose texts fill it.
fn fill(tree: &mut [u8]) {
    let mut w = Writer { out: tree, at: 0 };
    w.put_made_front(Mark::Mo, 0, DUMMY_SP, 9);
    w.put_made_front(Mark::Xe, 0, DUMMY_SP, 1);
    w.put_made_leaf(Mark::Ar, DUMMY_SP, b"");
    for _ in 0..7 {
        filler(&mut w, TEXT);
    }
    filler(&mut w, LAST_TEXT);
}

// A Mo of so many levels and two more: an Xe, so many Pr and an Oe.
fn nest(tree: &mut [u8], levels: usize) {
    let mut w = Writer { out: tree, at: 0 };
    w.put_made_front(Mark::Mo, 0, DUMMY_SP, 1);
    w.put_made_front(Mark::Xe, 0, DUMMY_SP, 1);
    for _ in 0..levels {
        w.put_made_front(Mark::Pr, 0, DUMMY_SP, 1);
    }
    w.put_made_leaf(Mark::Oe, DUMMY_SP, b"");
}

// So many entries of an overload list, each from 0 to 0.
fn entries(list: &mut [u8], count: usize) {
    let mut w = Writer { out: list, at: 0 };
    for _ in 0..count {
        w.put(OV);
        w.skip(ENTRY_SIZE - 2);
    }
}

// The bytes of a tree that the check went over.
#[derive(Clone, Copy)]
struct Accepted(usize);

impl fmt::Display for Accepted {
    fn fmt<W: fmt::Write>(&self, f: &mut fmt::Formatter<W>) -> fmt::Result {
        write!(f, "accepted, {} bytes", self.0)
    }
}

// The check's answer for a tree and a list, behind what they are.
fn show_check(rt: &impl Print, what: &str, tree: &[u8], list: &[u8]) -> io::Result<()> {
    let answer = grammar::check_tree(tree, list);
    println!(rt; "{what}: {}", Answer(answer.map(|end| Accepted(end))))
}

// The call's answer for a tree, with an empty list and no room for diagnostics.
fn show_call(rt: &impl Print, what: &str, tree: &[u8], out: &mut [u8]) -> io::Result<()> {
    let mut diagnostics = [0u8; 0];
    let answer = transform_dts::transform(tree, b"", UNRESOLVED, out, &mut diagnostics);
    let answer = answer.map(|done| Success {
        length: done.length,
        count: done.count,
    });
    println!(rt; "{what}: {}", Answer(answer))
}

fn show_lengths(rt: &impl Print, tree: &[u8], list: &[u8]) -> io::Result<()> {
    let longest = front(tree, LONGEST_TREE);
    show_check(rt, "524,288 bytes", longest, b"")?;
    show_check(rt, "524,289 bytes", tree, b"")?;
    show_check(
        rt,
        "40,960 bytes of list",
        longest,
        front(list, LONGEST_LIST),
    )?;
    show_check(rt, "40,970 bytes of list", longest, list)
}

fn run(rt: &impl Print, tree: &mut [u8], list: &mut [u8]) -> io::Result<()> {
    entries(list, 4097);
    fill(tree);
    show_lengths(rt, tree, list)?;
    nest(tree, 61);
    show_check(rt, "64 levels", front(tree, 64 * HEAD_SIZE), b"")?;
    nest(tree, 62);
    show_check(rt, "65 levels", front(tree, 65 * HEAD_SIZE), b"")
}

fn main(rt: HostRuntime) -> io::Result<()> {
    let mut list = [0u8; LIST_TOO_LONG];
    let mut tree = [0u8; TREE_TOO_LONG];
    run(&rt, tree.as_mut_slice(), &mut list)?;
    let mut out = [0u8; OUTPUT];
    fill(tree.as_mut_slice());
    show_call(
        &rt,
        "524,288 bytes through the call",
        front(tree.as_slice(), LONGEST_TREE),
        out.as_mut_slice(),
    )
}
