// A record of an accepted tree, and records that stand one after the other: "a struct holding the tree and an offset". What their contracts say is
// said of the tree that is read there, `rec_of` and `recs_of` of specs/Views.antt.
ghost use Rattle.std.specs.Prelude.{◌≡◌, true, ◌+◌, ◌-◌, ◌<◌, ◌≤◌, length};
ghost use Rattle.definition.specs.Tree.{head_size, length_at, text_at, encode, tree_at};
ghost use Rattle.definition.specs.Children.{AcceptedAt, IsAcceptedAt, AreAcceptedAt};
ghost use Rattle.definition.specs.Transform.{texts_fit};

use crate::flags::Flags;
use crate::marks::Mark;
use crate::text::{context_at, is_global, symbol_at};
use crate::{
    Head, Range, body_at, count_at, flags_at, mark_at, range_at, read_head, record_at, record_end,
    text_at,
};

// The record at an offset of a tree, with `levels` levels left for it and what it holds.
#[derive(Clone, Copy)]
pub struct Record<'t> {
    pub tree: &'t [u8],
    pub at: usize,
    pub levels: usize,
    pub ghost accepted: { IsAcceptedAt levels tree.now at },
}

// So many records, from an offset on.
#[derive(Clone, Copy)]
pub struct Records<'t> {
    pub tree: &'t [u8],
    pub at: usize,
    pub levels: usize,
    pub count: usize,
    pub ghost accepted: { AreAcceptedAt levels tree.now count at },
}

// The part of the tree that the record at `at` fills is its encoding, and its texts fit the two bytes of their lengths.
fn encoded_at(tree: &[u8], at: usize, levels: usize) -> &[u8]
    requires { AcceptedAt levels tree.now at }
    ensures part { result.now ≡ encode (tree_at levels tree.now at) }
    ensures fits { texts_fit (tree_at levels tree.now at) ≡ true }
{
    record_at(tree, at, levels)
}

// The text of the record at `at` is as short as its head can say.
fn short_text_at(tree: &[u8], at: usize) -> &[u8]
    requires { at + head_size + length_at tree.now at ≤ length tree.now }
    ensures text { result.now ≡ text_at tree.now at }
    ensures short { length (text_at tree.now at) < 65536 }
{
    text_at(tree, at)
}

impl<'t> Record<'t> {
    ghost use Rattle.definition.specs.Tree.{count, encode};
    ghost use Rattle.definition.specs.Grammar.{mark};
    ghost use Rattle.definition.specs.Record.{head_of, kids_of, mark_of, text_of, symbol_of, context_of};
    ghost use Rattle.records.specs.Texts.{is_global_name};
    ghost use Rattle.records.specs.Fields.{fields_of, range_of};
    ghost use Rattle.records.specs.Marks.{number_of};
    ghost use Rattle.records.specs.Views.{rec_of, recs_of, ChildrenOf};

    #[inline(always)]
    pub fn mark(self) -> Mark
        ensures { number_of result ≡ mark_of (rec_of self.entry) }
    {
        Mark::known(mark_at(self.tree, self.at))
    }

    pub fn flags(self) -> Flags
        ensures { result ≡ (head_of (rec_of self.entry)).flags }
    {
        flags_at(self.tree, self.at)
    }

    pub fn head(self) -> Head
        ensures { result ≡ fields_of (head_of (rec_of self.entry)) (count (kids_of (rec_of self.entry))) }
    {
        read_head(self.tree, self.at)
    }

    pub fn range(self) -> Range
        ensures { result ≡ range_of (head_of (rec_of self.entry)) }
    {
        range_at(self.tree, self.at)
    }

    // Its text, as the part of the tree that it fills: "text length (2)".
    pub fn text(self) -> &'t [u8]
        ensures text { result.now ≡ text_of (rec_of self.entry) }
        ensures short { length (text_of (rec_of self.entry)) < 65536 }
    {
        short_text_at(self.tree, self.at)
    }

    // "A record read is handed back as the part of the tree it fills." Its texts fit the two bytes of their lengths.
    pub fn part(self) -> &'t [u8]
        ensures part { result.now ≡ encode (rec_of self.entry) }
        ensures fits { texts_fit (rec_of self.entry) ≡ true }
    {
        encoded_at(self.tree, self.at, self.levels)
    }

    // The symbol of an Id.
    pub fn symbol(self) -> &'t [u8]
        requires { mark_of (rec_of self) ≡ mark "Id" }
        ensures { result.now ≡ symbol_of (rec_of self.entry) }
    {
        symbol_at(self.tree, self.at)
    }

    // The context of an Id.
    pub fn context(self) -> u32
        requires { mark_of (rec_of self) ≡ mark "Id" }
        ensures { result ≡ context_of (rec_of self.entry) }
    {
        context_at(self.tree, self.at)
    }

    // Whether it is an Id with this symbol and the unresolved context: `ident.sym == name && ident.ctxt == unresolved_context`.
    pub fn is_global(self, unresolved: u32, name: &[u8]) -> bool
        ensures { result ≡ is_global_name unresolved name.now (rec_of self.entry) }
    {
        is_global(self.tree, self.at, self.levels, unresolved, name)
    }

    // How many children it has.
    pub fn count(self) -> usize
        ensures { result ≡ count (kids_of (rec_of self.entry)) }
    {
        count_at(self.tree, self.at)
    }

    // Its children, behind its head and its text.
    pub fn children(self) -> Records<'t>
        ensures { ChildrenOf self.entry result }
    {
        Records {
            tree: self.tree,
            at: body_at(self.tree, self.at),
            levels: self.levels - 1,
            count: count_at(self.tree, self.at),
        }
    }
}

impl<'t> Records<'t> {
    ghost use Rattle.definition.specs.Tree.{count};
    ghost use Rattle.records.specs.Views.{recs_of, FirstOf, RestOf};

    // The first of them.
    pub fn first(self) -> Record<'t>
        requires { 0 < self.count }
        ensures { FirstOf self.entry result }
    {
        Record {
            tree: self.tree,
            at: self.at,
            levels: self.levels,
        }
    }

    // Those behind the first.
    pub fn rest(self) -> Records<'t>
        requires { 0 < self.count }
        ensures { RestOf self.entry result }
    {
        Records {
            tree: self.tree,
            at: record_end(self.tree, self.at, self.levels),
            levels: self.levels,
            count: self.count - 1,
        }
    }
}

// The records one after the other.
impl<'t> Iterator for Records<'t> {
    type Item = Record<'t>;

    ghost use Rattle.std.specs.Iterator.{at_most};
    ghost use Rattle.records.specs.Views.{Step};

    ghost next_gives = { λ before found after. Step before found after };

    ghost remaining = { λ k. at_most k.count };

    fn next(&mut self) -> Option<Record<'t>> {
        if self.count == 0 {
            return None;
        }
        let first = self.first();
        *self = self.rest();
        Some(first)
    }
}
