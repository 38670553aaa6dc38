// Texts: whether two are equal, and the context and the symbol of an Id.
ghost use Rattle.std.specs.Prelude.{◌≡◌, ◌≤◌, length, drop};
ghost use Rattle.definition.specs.Tree.{length_at, body_at, text_at, u32_at, tree_at};
ghost use Rattle.definition.specs.Children.{AcceptedAt};
ghost use Rattle.definition.specs.Record.{same_text};
ghost use Rattle.records.specs.Texts.{is_global_name};

use crate::marks::ID;
use crate::{CONTEXT_SIZE, mark_at, text_at, u32_at};

// Whether two texts are equal.
pub fn same_text(a: &[u8], b: &[u8]) -> bool
    ensures { result ≡ same_text a.now b.now }
{
    a == b
}

// The symbol of the Id at `at`, as the part of the tree that it fills.
pub fn symbol_at(tree: &[u8], at: usize) -> &[u8]
    requires { (body_at tree.now at ≤ length tree.now) × (4 ≤ length_at tree.now at) }
    ensures { result.now ≡ drop 4 (text_at tree.now at) }
{
    let text = text_at(tree, at);
    &text[CONTEXT_SIZE..]
}

// The context of the Id at `at`.
pub fn context_at(tree: &[u8], at: usize) -> u32
    requires { (body_at tree.now at ≤ length tree.now) × (4 ≤ length_at tree.now at) }
    ensures { result ≡ u32_at (text_at tree.now at) 0 }
{
    u32_at(text_at(tree, at), 0)
}

// Whether the record at `at` is an Id with this symbol and the unresolved context: `ident.sym == name && ident.ctxt == unresolved_context`.
pub fn is_global(tree: &[u8], at: usize, levels: usize, unresolved: u32, name: &[u8]) -> bool
    requires { AcceptedAt levels tree.now at }
    ensures { result ≡ is_global_name unresolved name.now (tree_at levels tree.now at) }
{
    if mark_at(tree, at) != ID {
        return false;
    }
    if same_text(symbol_at(tree, at), name) {
        return context_at(tree, at) == unresolved;
    }
    false
}
