// Records: numbers, heads, marks, a record's end and the part of the tree that it fills, copies and clipped writes.
#![tactic(auto)]

ghost use Rattle.std.specs.Prelude.{◌≡◌, ◌+◌, ◌<◌, ◌≤◌, length, set};
ghost use Rattle.std.proofs.lemmas.List.Edits.{sets};
ghost use Rattle.definition.specs.Tree.{head_size, le2, u16_at, u32_at, mark_at, flags_at, count_at, body_at, text_at, end_at};
ghost use Rattle.definition.specs.Record.{diag_bytes};
ghost use Rattle.records.specs.Marks.{number_of};
ghost use Rattle.records.specs.Fields.{made_fields, fields_at, field_bytes, range_at, diag_of};
ghost use Rattle.records.specs.Texts.{FourBytes};
ghost use Rattle.records.specs.Whole.{Whole, part_at};
ghost use Rattle.records.specs.Wrote.{sat, Put};

use crate::flags::Flags;
use crate::marks::Mark;

pub mod diagnostics;
pub mod flags;
pub mod marks;
pub mod text;
pub mod tree;
pub mod writer;

// "15-byte head"
pub const HEAD_SIZE: usize = COUNT + 2;

// "`Id` (1 optional): 4-byte context, symbol": where the symbol of an Id begins in its text.
pub const CONTEXT_SIZE: usize = 4;

// "depth over 64 (root is 1)": the levels that a tree's root is read with.
pub const DEEPEST: usize = 64;

// The places of a head's fields in it; the mark is at 0.
const FLAGS: usize = 2;

// "flags (1 byte)".
const FLAGS_SIZE: usize = 1;

const START: usize = FLAGS + FLAGS_SIZE;

const END: usize = START + 4;

const LENGTH: usize = END + 4;

const COUNT: usize = LENGTH + 2;

// "10-byte entries `ov`, start, end": the size of an entry of an overload list, and the places of its range; its mark is at 0.
pub const ENTRY_SIZE: usize = 10;

pub const ENTRY_START: usize = 2;

pub const ENTRY_END: usize = 6;

// "A diagnostic is 10 bytes"
pub const DIAGNOSTIC_SIZE: usize = 10;

// The places of a diagnostic's range in it; its mark is at 0.
const DIAGNOSTIC_START: usize = 2;

const DIAGNOSTIC_END: usize = 6;

// "start and end (4 each; what `range()` gives ..)".
#[derive(Clone, Copy)]
pub struct Range {
    pub start: u32,
    pub end: u32,
}

// "0,0 is `DUMMY_SP`".
pub const DUMMY_SP: Range = Range { start: 0, end: 0 };

// A record's head by value: mark, flags, start and end, text length, child count.
#[derive(Clone, Copy)]
pub struct Head {
    pub mark: u16,
    pub flags: Flags,
    pub start: u32,
    pub end: u32,
    pub text: usize,
    pub count: usize,
}

// "Little-endian, unsigned": the number in the two bytes at `at`.
pub fn u16_at(tree: &[u8], at: usize) -> u16
    requires { at + 2 ≤ length tree.now }
    ensures { (result ≡ u16_at tree.now at) × (result < 65536) }
{
    u16::from_le_bytes([tree[at], tree[at + 1]])
}

// The number in the four bytes at `at`.
pub fn u32_at(tree: &[u8], at: usize) -> u32
    requires { at + 4 ≤ length tree.now }
    ensures { (result ≡ u32_at tree.now at) × (result < 4294967296) × FourBytes tree.now at }
{
    u32::from_le_bytes([tree[at], tree[at + 1], tree[at + 2], tree[at + 3]])
}

// The mark of the record at `at`.
pub fn mark_at(tree: &[u8], at: usize) -> u16
    requires { at + head_size ≤ length tree.now }
    ensures { (result ≡ mark_at tree.now at) × (result < 65536) }
{
    u16_at(tree, at)
}

// The flags of the record at `at`.
fn flags_at(tree: &[u8], at: usize) -> Flags
    requires { at + head_size ≤ length tree.now }
    ensures { result ≡ flags_at tree.now at }
{
    tree[at + FLAGS]
}

// The child count of the record at `at`.
pub fn count_at(tree: &[u8], at: usize) -> usize
    requires { at + head_size ≤ length tree.now }
    ensures { (result ≡ count_at tree.now at) × (result < 65536) }
{
    u16_at(tree, at + COUNT) as usize
}

// Where the children of the record at `at` begin, behind its head and its text.
pub fn body_at(tree: &[u8], at: usize) -> usize
    requires { at + head_size ≤ length tree.now }
    ensures { result ≡ body_at tree.now at }
{
    at + HEAD_SIZE + u16_at(tree, at + LENGTH) as usize
}

// The head of the record at `at`.
pub fn read_head(tree: &[u8], at: usize) -> Head
    requires { at + head_size ≤ length tree.now }
    ensures { result ≡ fields_at tree.now at }
{
    let mark = u16_at(tree, at);
    let flags = flags_at(tree, at);
    let start = u32_at(tree, at + START);
    let end = u32_at(tree, at + END);
    let text = u16_at(tree, at + LENGTH) as usize;
    let count = u16_at(tree, at + COUNT) as usize;
    Head {
        mark,
        flags,
        start,
        end,
        text,
        count,
    }
}

// The range of the record at `at`.
pub fn range_at(tree: &[u8], at: usize) -> Range
    requires { at + head_size ≤ length tree.now }
    ensures { result ≡ range_at tree.now at }
{
    let start = u32_at(tree, at + START);
    let end = u32_at(tree, at + END);
    Range { start, end }
}

// The text of the record at `at`, as the part of the tree that it fills.
pub fn text_at(tree: &[u8], at: usize) -> &[u8]
    requires { body_at tree.now at ≤ length tree.now }
    ensures { result.now ≡ text_at tree.now at }
{
    let start = at + HEAD_SIZE;
    let end = body_at(tree, at);
    &tree[start..end]
}

// The offset behind the record at `at`, which is at most `levels` levels deep: behind its head, its text and its children, which take its place
// among the records that are pending.
pub fn record_end(tree: &[u8], at: usize, levels: usize) -> usize
    requires { Whole levels tree.now at }
    ensures { result ≡ end_at levels tree.now at }
{
    let mut end = at;
    let mut pending: usize = 1;
    while 0 < pending {
        pending = pending - 1 + count_at(tree, end);
        end = body_at(tree, end);
    }
    end
}

// "A record read is handed back as the part of the tree it fills."
pub fn record_at(tree: &[u8], at: usize, levels: usize) -> &[u8]
    requires { Whole levels tree.now at }
    ensures { result.now ≡ part_at levels tree.now at }
{
    let end = record_end(tree, at, levels);
    &tree[at..end]
}

// The position n past p, or the largest one.
pub fn advance(p: usize, n: usize) -> usize
    ensures { result ≡ sat p n }
{
    p.saturating_add(n)
}

// One byte at p, dropped past the end.
pub fn put(out: &mut [u8], p: usize, b: u8)
    ensures { out.new ≡ set out.old p b }
{
    if p < out.len() {
        out[p] = b;
    }
}

// A number in two bytes, little-endian.
pub fn two_bytes(v: usize) -> [u8; 2]
    ensures { result ≡ le2 v }
{
    [(v % 256) as u8, (v / 256 % 256) as u8]
}

impl Head {
    // The head of a record that is made, with a text of a length and children of a number.
    #[inline(always)]
    pub fn made(mark: Mark, flags: Flags, range: Range, text: usize, count: usize) -> Head
        ensures { result ≡ made_fields (number_of mark) flags range text count }
    {
        Head {
            mark: u16::from(mark),
            flags,
            start: range.start,
            end: range.end,
            text,
            count,
        }
    }

    // "mark (two ASCII letters), flags (1 byte), start and end (4 each), text length (2), child count (2)".
    #[inline(always)]
    pub fn bytes(self) -> [u8; HEAD_SIZE]
        ensures { result ≡ field_bytes self }
    {
        let [m0, m1] = self.mark.to_le_bytes();
        let [s0, s1, s2, s3] = self.start.to_le_bytes();
        let [e0, e1, e2, e3] = self.end.to_le_bytes();
        let [t0, t1] = two_bytes(self.text);
        let [c0, c1] = two_bytes(self.count);
        [
            m0, m1, self.flags, s0, s1, s2, s3, e0, e1, e2, e3, t0, t1, c0, c1,
        ]
    }
}

// The bytes of a text or of a part of the tree, as far as there is room, and the position behind them.
pub fn put_text(out: &mut [u8], p: usize, text: &[u8]) -> usize
    ensures { Put out.old out.new p text.now result }
{
    let end = advance(p, text.len());
    if end <= out.len() {
        out[p..end].copy_from_slice(text);
        return end;
    }
    if out.len() <= p {
        return end;
    }
    let room = out.len() - p;
    out[p..].copy_from_slice(&text[..room]);
    end
}
