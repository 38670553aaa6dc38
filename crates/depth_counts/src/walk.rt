// The walk over the items of a module: an Ns is gone into, every other item is transformed once more, without buffers, to know how many diagnostics
// are its own.
ghost use Rattle.std.specs.Prelude.{◌≡◌, ◌-◌};
ghost use Rattle.definition.specs.Grammar.{mark};
ghost use Rattle.definition.specs.Record.{mark_of, kids_of, kid};
ghost use Rattle.records.specs.Views.{rec_of};
ghost use Rattle.depth_counts.specs.Walks.{FoundBody, FoundSpace};

use crate::table::{Table, count_marks};
use items::module::transform_module_item;
use names::unique::Names;
use output::Output;
use prescan::module_names::Scope;
use records::DIAGNOSTIC_SIZE;
use records::marks::Mark;
use records::tree::{Record, Records};
use records::writer::Writer;

// The Nb in a namespace's body: of an Nd the innermost.
fn block_of<'t>(body: Record<'t>) -> Option<Record<'t>>
    ensures { FoundBody body.entry.levels body.entry (rec_of body.entry) result }
{
    match body.mark() {
        Mark::Nb => Some(body),
        Mark::Nd => block_of(body.children().rest().first()),
        _ => None,
    }
}

// The same of an Ns: its body is its second child.
fn block_in<'t>(space: Record<'t>) -> Option<Record<'t>>
    requires { mark_of (rec_of space) ≡ mark "Ns" }
    ensures { FoundBody (space.entry.levels - 1) space.entry (kid 1 (kids_of (rec_of space.entry))) result }
{
    block_of(space.children().rest().first())
}

// The Ns that an item is, or that an Ed holds; another item has none.
fn space_of<'t>(item: Record<'t>) -> Option<Record<'t>>
    ensures { FoundSpace item.entry result }
{
    match item.mark() {
        Mark::Ns => Some(item),
        Mark::Ed => {
            let decl = item.children().first();
            if decl.mark() != Mark::Ns {
                return None;
            }
            Some(decl)
        }
        _ => None,
    }
}

// A walk: the list of the module, the names in scope, its diagnostics and how many bytes of them are counted, the table of the counts, and the counter
// that names are made of.
#[derive(Drop)]
pub struct Walk<'a> {
    pub list: &'a [u8],
    pub scope: Scope<'a>,
    pub diagnostics: &'a [u8],
    pub at: usize,
    pub table: Table,
    pub id_counter: usize,
}

impl<'a> Walk<'a> {
    ghost use Rattle.definition.specs.Depths.{all_at, what_of};
    ghost use Rattle.records.specs.Views.{recs_of};
    ghost use Rattle.items.specs.InScope.{item_in, items_in};
    ghost use Rattle.depth_counts.specs.Tables.{Small, Holds};
    ghost use Rattle.depth_counts.specs.Walks.{item_from, items_from, Ready, ReadyAll, Counts};

    // An item that is no Ns: a dry run says how many diagnostics are its own.
    fn count_plain(&mut self, item: Record, depth: usize, top: bool)
        requires ready { Ready self.old item depth }
        requires small { Small self.old.table self.old.at }
        requires holds { Holds self.old.diagnostics.now self.old.at
            (item_in self.old.list.now self.old.scope top (rec_of item) self.old.id_counter).1 }
        ensures { Counts self.old self.new
            (all_at depth (item_in self.old.list.now self.old.scope top (rec_of item.entry) self.old.id_counter).1)
            (item_in self.old.list.now self.old.scope top (rec_of item.entry) self.old.id_counter).2 }
    {
        let mut out = Writer {
            out: &mut [],
            at: 0,
        };
        let mut marks = Writer {
            out: &mut [],
            at: self.at,
        };
        let mut o = Output {
            out: &mut out,
            diagnostics: &mut marks,
            names: Names {
                id_counter: self.id_counter,
            },
            fits: true,
        };
        transform_module_item(&mut o, item, self.scope, self.list, top);
        self.id_counter = o.names.id_counter;
        let end = marks.at;
        let n = (end - self.at) / DIAGNOSTIC_SIZE;
        count_marks(self.diagnostics, self.at, n, depth, &mut self.table);
        self.at = end;
    }

    // The items, which `depth` Ns records hold.
    #[cycle(counted_items)]
    pub fn count_items(&mut self, items: Records, depth: usize, top: bool)
        requires ready { ReadyAll self.old items depth }
        requires small { Small self.old.table self.old.at }
        requires holds { Holds self.old.diagnostics.now self.old.at (what_of (items_from self.old (recs_of items) top depth)) }
        ensures { Counts self.old self.new (items_from self.old (recs_of items.entry) top depth)
            (items_in self.old.list.now self.old.scope top (recs_of items.entry) self.old.id_counter).2 }
    {
        for item in items {
            self.count_item(item, depth, top);
        }
    }

    // One of them.
    #[cycle(counted_items)]
    fn count_item(&mut self, item: Record, depth: usize, top: bool)
        requires ready { Ready self.old item depth }
        requires small { Small self.old.table self.old.at }
        requires holds { Holds self.old.diagnostics.now self.old.at (what_of (item_from self.old (rec_of item) top depth)) }
        ensures { Counts self.old self.new (item_from self.old (rec_of item.entry) top depth)
            (item_in self.old.list.now self.old.scope top (rec_of item.entry) self.old.id_counter).2 }
    {
        let Some(space) = space_of(item) else {
            self.count_plain(item, depth, top);
            return;
        };
        let Some(block) = block_in(space) else {
            return;
        };
        self.count_items(block.children(), depth + 1, false);
    }
}
