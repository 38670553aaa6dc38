// What is asked of the names of a module, and what a record of the tree is to the prescan.
ghost use Rattle.std.specs.Prelude.{◌≡◌};
ghost use Rattle.prescan.specs.Table.{Indexed};

use index::Sets;
use records::tree::Record;

// The names that the module in a tree declares: `PrescannedModuleIds`, as an index.
#[derive(Clone, Copy)]
pub struct Index<'t> {
    pub tree: &'t [u8],
    pub entries: &'t [u32],
    pub ghost indexed: { Indexed tree.now entries.now },
}

// In which scope the names stand: those of the module, and the unresolved context.
#[derive(Clone, Copy)]
pub struct Scope<'t> {
    pub names: Index<'t>,
    pub unresolved: u32,
}

impl<'t> Index<'t> {
    ghost use Rattle.definition.specs.Tree.{tree_at};
    ghost use Rattle.definition.specs.Check.{deepest};
    ghost use Rattle.definition.specs.Record.{kids_of, text_of};
    ghost use Rattle.definition.specs.Prescan.{Question, asked};
    ghost use Rattle.records.specs.Views.{rec_of};
    ghost use Rattle.index.specs.Index.{has};

    // The sets to which the items of the module add the name of an Id, its context and its symbol.
    pub fn look_up(self, ident: Record) -> Sets
        ensures { (q : Question) → has q result ≡ asked q (kids_of (tree_at deepest self.entry.tree.now 0)) (text_of (rec_of ident.entry)) }
    {
        match index::find(self.tree, self.entries, ident.text()) {
            Ok(p) => Sets::of(self.entries[p]),
            Err(_) => Sets::default(),
        }
    }
}
