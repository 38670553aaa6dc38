// Items, declarations and namespaces, as records: `transform_module_items`, `transform_module_stmt`, `decl_to_type_decl` and `transform_ts_ns_body`. What
// makes items tells how many records it made.
ghost use Rattle.std.specs.Prelude.{◌≡◌, ◌&&◌, ◌≤◌, ◌<◌, eqb};
ghost use Rattle.definition.specs.Tree.{count};
ghost use Rattle.definition.specs.Grammar.{mark};
ghost use Rattle.definition.specs.Record.{head_of, kids_of, mark_of, listed};
ghost use Rattle.records.specs.Views.{rec_of, recs_of, ChildrenOf};
ghost use Rattle.output.specs.Outputs.{Keeps, Makes, MakesMaybe, MakesCounted};
ghost use Rattle.typing.specs.Values.{Ready, ReadyAll};
ghost use Rattle.items.specs.InScope.{parts_in, decl_in, stmt_in, export_in, item_in, items_in, body_in};

use crate::declarations::{declared, with_class, with_declarators, with_function, with_members};
use crate::exports::{export_default_decl, export_default_expr};
use classes::overload_list::is_impl_with_overloads;
use output::Output;
use prescan::module_names::Scope;
use records::diagnostics::FastCheckDtsDiagnostic;
use records::flags::Flags;
use records::marks::Mark;
use records::tree::{Record, Records};
use records::{body_at, count_at};

// A record that is kept, as the only one.
fn kept(o: &mut Output, r: Record) -> usize
    ensures { (result ≡ 1) × Keeps o.old o.new (rec_of r.entry) }
{
    o.keep(r);
    1
}

// Whether a declaration is an Fd that goes: "if the range of the outermost of Ed, Xd, Fd is in the overload list", which is that of `outer`.
fn is_overloaded(list: &[u8], outer: Record, decl: Record) -> bool
    ensures { result ≡ (eqb (mark_of (rec_of decl.entry)) (mark "Fd") && listed list.now (head_of (rec_of outer.entry))) }
{
    if decl.mark() != Mark::Fd {
        return false;
    }
    is_impl_with_overloads(list, outer)
}

// The children of an Nb; they are as few as the two bytes of its child count say.
fn items_of<'t>(block: Record<'t>) -> Records<'t>
    ensures items { ChildrenOf block.entry result }
    ensures few { result.count < 65536 }
{
    Records {
        tree: block.tree,
        at: body_at(block.tree, block.at),
        levels: block.levels - 1,
        count: count_at(block.tree, block.at),
    }
}

// `transform_module_items`; `top` is `is_top_level`.
#[cycle(module_items)]
pub fn transform_module_items(
    o: &mut Output,
    items: Records,
    scope: Scope,
    list: &[u8],
    top: bool,
) -> usize
    requires { ReadyAll o.old items scope × (items.count < 65536) }
    ensures { MakesCounted o.old o.new result
        (items_in list.now scope.entry top (recs_of items.entry) o.old.names.id_counter) }
{
    let mut count = 0;
    for item in items {
        count += transform_module_item(o, item, scope, list, top);
    }
    count
}

// One of the items, by its kind.
#[cycle(module_items)]
pub fn transform_module_item(
    o: &mut Output,
    item: Record,
    scope: Scope,
    list: &[u8],
    top: bool,
) -> usize
    requires { Ready o.old item scope }
    ensures { MakesCounted o.old o.new result
        (item_in list.now scope.entry top (rec_of item.entry) o.old.names.id_counter) }
{
    match item.mark() {
        Mark::Im | Mark::Op => kept(o, item),
        Mark::St => 0,
        Mark::Ed => export_decl(o, item, scope, list, top),
        Mark::Xd => export_default_decl(o, item, scope, list),
        Mark::Xe => export_default_expr(o, item, scope),
        _ => transform_module_stmt(o, item, scope, list, top),
    }
}

// `ModuleDecl::ExportDecl`: "Fd goes if the range of the outermost of Ed, Xd, Fd is in the overload list".
#[cycle(module_items)]
fn export_decl(o: &mut Output, export: Record, scope: Scope, list: &[u8], top: bool) -> usize
    requires { Ready o.old export scope × (mark_of (rec_of export) ≡ mark "Ed") }
    ensures { MakesCounted o.old o.new result
        (export_in list.now scope.entry top (rec_of export.entry) o.old.names.id_counter) }
{
    let decl = export.children().first();
    if is_overloaded(list, export, decl) {
        return 0;
    }
    let start = o.start();
    let kids = o.begin(export);
    let Some(()) = decl_to_type_decl(o, decl, scope, list, top) else {
        o.back(start);
        o.mark_diagnostic(export, FastCheckDtsDiagnostic::UnableToInferType);
        return 0;
    };
    o.keep_all(kids.rest());
    1
}

// `transform_module_stmt`: "In, Ty and a bare Us pass".
#[cycle(module_items)]
fn transform_module_stmt(
    o: &mut Output,
    stmt: Record,
    scope: Scope,
    list: &[u8],
    top: bool,
) -> usize
    requires { Ready o.old stmt scope }
    ensures { MakesCounted o.old o.new result
        (stmt_in list.now scope.entry top (rec_of stmt.entry) o.old.names.id_counter) }
{
    if is_overloaded(list, stmt, stmt) {
        return 0;
    }
    match stmt.mark() {
        Mark::Cd | Mark::Fd | Mark::Vd | Mark::En | Mark::Ns => {
            let Some(()) = decl_to_type_decl(o, stmt, scope, list, top) else {
                o.mark_diagnostic(stmt, FastCheckDtsDiagnostic::UnableToInferType);
                return 0;
            };
            1
        }
        _ => kept(o, stmt),
    }
}

// `decl_to_type_decl`: "Exported Us gives d5 at Us".
#[cycle(module_items)]
fn decl_to_type_decl(
    o: &mut Output,
    decl: Record,
    scope: Scope,
    list: &[u8],
    top: bool,
) -> Option<()>
    requires { Ready o.old decl scope }
    ensures { MakesMaybe o.old o.new result
        (decl_in list.now scope.entry top (rec_of decl.entry) o.old.names.id_counter) }
{
    let flags = declared(decl.flags(), top);
    match decl.mark() {
        Mark::Cd => Some(with_class(o, decl, flags, scope, list)),
        Mark::Fd => Some(with_function(o, decl, flags, scope)),
        Mark::Vd => Some(with_declarators(o, decl, flags, scope)),
        Mark::En => Some(with_members(o, decl, flags)),
        Mark::Ns => Some(with_body(o, decl, flags, scope, list)),
        Mark::Us => {
            o.mark_diagnostic(decl, FastCheckDtsDiagnostic::UnsupportedUsing);
            None
        }
        _ => Some(o.keep(decl)),
    }
}

// An Ns or an Nd: its body is the second child.
#[cycle(module_items)]
fn with_body(o: &mut Output, decl: Record, flags: Flags, scope: Scope, list: &[u8])
    requires { Ready o.old decl scope × (2 ≤ count (kids_of (rec_of decl))) }
    ensures { Makes o.old o.new (parts_in list.now scope.entry flags (rec_of decl.entry) o.old.names.id_counter) }
{
    let name = o.begin_with(decl, flags);
    let body = o.keep_next(name);
    transform_ts_ns_body(o, body.first(), scope, list);
    o.keep_all(body.rest());
}

// `transform_ts_ns_body`; "Nd keeps its name and its body is transformed within it" (document 02, §2), where the Rust has its innermost Nb.
#[cycle(module_items)]
fn transform_ts_ns_body(o: &mut Output, body: Record, scope: Scope, list: &[u8])
    requires { Ready o.old body scope }
    ensures { Makes o.old o.new (body_in list.now scope.entry (rec_of body.entry) o.old.names.id_counter) }
{
    match body.mark() {
        Mark::Nb => ns_block(o, body, scope, list),
        Mark::Nd => with_body(o, body, body.flags(), scope, list),
        _ => o.keep(body),
    }
}

// `TsNamespaceBody::TsModuleBlock`: an Nb, whose items are not at the top level. Its front follows them, with their number.
#[cycle(module_items)]
fn ns_block(o: &mut Output, block: Record, scope: Scope, list: &[u8])
    requires { Ready o.old block scope × (mark_of (rec_of block) ≡ mark "Nb") }
    ensures { Makes o.old o.new (body_in list.now scope.entry (rec_of block.entry) o.old.names.id_counter) }
{
    let start = o.start();
    o.skip_front(block);
    let count = transform_module_items(o, items_of(block), scope, list, false);
    o.put_front_at(start, block, count);
}
