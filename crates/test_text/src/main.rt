// Replays texts of the oracle: for each case in standard input the buffer is filled with noise, the call is made, and its number, place or length and
// every byte of the buffer, those behind the text and those of a refusal too, are compared with what the oracle gave. A case is five numbers of four
// bytes (the tree's bytes that follow and its length, the length of the buffer; the answer: 0 and the bytes of the text, or the refusal's number and its
// place), then the tree and the text. Where a length is more than the bytes that follow, any bytes do. `oracle text-answers` makes the cases.
#![tactic(auto)]

use console::replay::{Told, expected, fill, holds, is_answer, read_numbers, replay};
use console::{ROOM, TREE_TOO_LONG, front, front_mut, read_bytes};
use std::io;

// Whether the call on a tree, with a buffer of so many bytes, gives what is expected, and the buffer then holds the text.
fn gives(tree: &[u8], room: usize, expected: Result<usize, Told>, text: &[u8]) -> bool {
    let mut buffer = [0u8; ROOM];
    let out = front_mut(&mut buffer, room);
    fill(out);
    let answer = declaration_text::text(tree, out);
    is_answer(answer, expected) && holds(out, text, expected.unwrap_or(0))
}

// The next case of the input: whether it gave what the oracle gave; `None` where there is no case.
fn replay_one(rt: &impl Input, tree: &mut [u8]) -> io::Result<Option<bool>> {
    let Some(numbers) = read_numbers::<5>(rt)? else {
        return Ok(None);
    };
    let [tree_bytes, length, room, number, first] = numbers.map(|n| n as usize);
    let expected = expected(number, first, first);
    let mut text = [0u8; ROOM];
    if read_bytes(rt, tree, tree_bytes)?.is_err() {
        return Ok(None);
    }
    if read_bytes(rt, &mut text, expected.unwrap_or(0))?.is_err() {
        return Ok(None);
    }
    let fits = length <= tree.len() && room <= ROOM;
    Ok(Some(fits && gives(front(tree, length), room, expected, &text)))
}

fn main(rt: HostRuntime) -> io::Result<()> {
    let mut tree = [0u8; TREE_TOO_LONG];
    replay(&rt, || replay_one(&rt, tree.as_mut_slice()))
}
