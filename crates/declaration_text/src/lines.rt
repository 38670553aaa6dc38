// The lines of a module: "two spaces of indent per Ns and one item to a line".
ghost use Rattle.std.specs.Prelude.{◌≡◌, false, None, [], ◌∷◌, ◌+◌, ◌≤◌};
ghost use Rattle.definition.specs.Text.{tokens, indent, item_line, items_lines, block_lines};
ghost use Rattle.records.specs.Views.{rec_of, recs_of};
ghost use Rattle.records.specs.Wrote.{Put};
ghost use Rattle.declaration_text.specs.Lines.{WritesLines, closing, Found};

use crate::asks::{child_at, has_mark};
use crate::table::Tables;
use records::marks::Mark;
use records::tree::{Record, Records};
use records::{advance, put, put_text};
use text_tokens::State;

// "two spaces for each `Ns` around it".
fn put_indent(depth: usize, out: &mut [u8], p: usize) -> usize
    ensures { Put out.old out.new p (indent depth) result }
{
    let mut end = p;
    for _ in 0..depth {
        end = put_text(out, end, b"  ");
    }
    end
}

// The state in which a line's tokens begin, behind its indent.
fn begun(s: State, written: usize) -> State
    ensures { result ≡ record s { written = written; last = None; some = false } }
{
    State {
        written,
        last: None,
        some: false,
        ..s
    }
}

// A line feed.
fn put_end(out: &mut [u8], s: State) -> State
    ensures { Put out.old out.new s.written (10 ∷ []) result.written × (result.place ≡ s.place) }
{
    put(out, s.written, b'\n');
    State {
        written: advance(s.written, 1),
        ..s
    }
}

// The line that closes a block.
fn put_closing(depth: usize, out: &mut [u8], s: State) -> State
    ensures { WritesLines out.old out.new s result (closing depth ∷ []) }
{
    let p = put_indent(depth, out, s.written);
    let next = begun(s, p).put_token(b"}", out);
    put_end(out, next)
}

// The block that an item opens, an Nb: an Ed leads to its declaration, an Ns or an Nd to its body.
fn block_at<'t>(item: Record<'t>) -> Option<Record<'t>>
    ensures { Found item.entry result }
{
    match item.mark() {
        Mark::Nb => Some(item),
        Mark::Ed => block_at(child_at(item, 0)?),
        Mark::Ns | Mark::Nd => block_at(child_at(item, 1)?),
        _ => None,
    }
}

impl Tables {
    // The line of the record.
    pub fn put_line(&self, r: Record, depth: usize, out: &mut [u8], s: State) -> State
        ensures { WritesLines out.old out.new s result
            (record { spaces = depth; tokens = tokens (rec_of r.entry) false r.entry.at } ∷ []) }
    {
        let p = put_indent(depth, out, s.written);
        let next = self.write(r, false, out, begun(s, p));
        put_end(out, next)
    }

    // An item, which `depth` Ns records hold, and the block that it opens.
    #[cycle(item_lines)]
    fn put_item(&self, item: Record, depth: usize, out: &mut [u8], s: State) -> State
        requires { item.levels + depth ≤ 64 }
        ensures { WritesLines out.old out.new s result
            (item_line (rec_of item.entry) depth item.entry.at (block_lines (rec_of item.entry) depth item.entry.at)) }
    {
        if has_mark(item, Mark::St) || has_mark(item, Mark::Op) {
            return s;
        }
        let next = self.put_line(item, depth, out, s);
        match block_at(item) {
            Some(block) => {
                let inner = self.put_items(block.children(), depth + 1, out, next);
                put_closing(depth, out, inner)
            }
            None => next,
        }
    }

    // The items.
    #[cycle(item_lines)]
    pub fn put_items(&self, items: Records, depth: usize, out: &mut [u8], s: State) -> State
        requires { items.levels + depth ≤ 64 }
        ensures { WritesLines out.old out.new s result (items_lines (recs_of items.entry) depth items.entry.at) }
    {
        let mut next = s;
        for item in items {
            next = self.put_item(item, depth, out, next);
        }
        next
    }
}
