// `ModuleDecl::ExportDefaultDecl` and `ModuleDecl::ExportDefaultExpr`, as records. Each tells how many records it made.
ghost use Rattle.std.specs.Prelude.{◌≡◌, ◌+◌, ◌<◌, ◌^◌};
ghost use Rattle.definition.specs.Tree.{rec};
ghost use Rattle.definition.specs.Grammar.{mark};
ghost use Rattle.definition.specs.Record.{dummy_sp, ident, head_of, kids_of, mark_of, kid, set_kid};
ghost use Rattle.definition.specs.Names.{gen_unique_name};
ghost use Rattle.records.specs.Views.{rec_of};
ghost use Rattle.records.specs.Writers.{Writes};
ghost use Rattle.output.specs.Outputs.{Keeps, Makes, MakesCounted};
ghost use Rattle.typing.specs.Values.{Ready};
ghost use Rattle.items.specs.InScope.{const_before, default_class_in, default_fn_of, default_decl_in, default_expr_in};

use crate::declarations::{bodiless, with_class};
use crate::declarators::readonly;
use classes::overload_list::is_impl_with_overloads;
use names::generated::{make_unique_ident, put_unique_ident};
use names::unique::Names;
use output::Output;
use prescan::module_names::Scope;
use records::DUMMY_SP;
use records::flags::{CONST, DECLARE};
use records::marks::Mark;
use records::tree::Record;
use records::writer::Writer;
use typing::exprs::expr_to_ts_type;

// An Xd with a class: the Cx is its first child.
fn default_class(o: &mut Output, export: Record, scope: Scope, list: &[u8])
    requires ready { Ready o.old export scope × (mark_of (rec_of export) ≡ mark "Xd") }
    requires class { mark_of (kid 0 (kids_of (rec_of export))) ≡ mark "Cx" }
    ensures { Makes o.old o.new (default_class_in list.now scope.entry (rec_of export.entry) o.old.names.id_counter) }
{
    let kids = o.begin(export);
    let class = kids.first();
    with_class(o, class, class.flags(), scope, list);
    o.keep_all(kids.rest());
}

// An Xd with a function: "Xd functions lose the body only".
fn default_fn(o: &mut Output, export: Record)
    requires xd { mark_of (rec_of export) ≡ mark "Xd" }
    requires function { mark_of (kid 0 (kids_of (rec_of export))) ≡ mark "Fx" }
    ensures { Keeps o.old o.new (default_fn_of (rec_of export.entry) o.old.names.id_counter).0 }
{
    let function = o.begin(export);
    bodiless(o, function.first());
    o.keep_all(function.rest());
}

// `ModuleDecl::ExportDefaultDecl`.
pub fn export_default_decl(o: &mut Output, export: Record, scope: Scope, list: &[u8]) -> usize
    requires { Ready o.old export scope × (mark_of (rec_of export) ≡ mark "Xd") }
    ensures { MakesCounted o.old o.new result
        (default_decl_in list.now scope.entry (rec_of export.entry) o.old.names.id_counter) }
{
    match export.children().first().mark() {
        Mark::Cx => {
            default_class(o, export, scope, list);
            1
        }
        Mark::Fx => {
            if is_impl_with_overloads(list, export) {
                return 0;
            }
            default_fn(o, export);
            1
        }
        _ => {
            o.keep(export);
            1
        }
    }
}

// "a declared const, named _dts_1 at the first", before its type: the counter is raised.
fn put_const_front(names: &mut Names, w: &mut Writer)
    requires { names.old.id_counter + 1 < 2 ^ 64 }
    ensures counter { names.new.id_counter ≡ names.old.id_counter + 1 }
    ensures written { Writes w.old w.new (const_before (names.old.id_counter + 1)) }
{
    w.put_made_front(Mark::Vd, DECLARE + CONST, DUMMY_SP, 1);
    w.put_made_front(Mark::Vr, 0, DUMMY_SP, 2);
    w.put_made_front(Mark::Bd, 0, DUMMY_SP, 2);
    make_unique_ident(names, w, DUMMY_SP);
}

// An Xe with the generated name for its expression.
fn put_default_name(o: &mut Output, export: Record, counter: usize)
    requires { mark_of (rec_of export) ≡ mark "Xe" }
    ensures { Keeps o.old o.new
        (rec (head_of (rec_of export.entry)) (set_kid 0 (ident dummy_sp (gen_unique_name counter)) (kids_of (rec_of export.entry)))) }
{
    let expr = o.begin(export);
    put_unique_ident(o.out, DUMMY_SP, counter);
    o.keep_all(expr.rest());
}

// `ModuleDecl::ExportDefaultExpr`: "Xe of Id passes. Else the name counter rises (1 first)" and the expression is typed.
pub fn export_default_expr(o: &mut Output, export: Record, scope: Scope) -> usize
    requires { Ready o.old export scope × (mark_of (rec_of export) ≡ mark "Xe") }
    ensures { MakesCounted o.old o.new result
        (default_expr_in scope.entry (rec_of export.entry) o.old.names.id_counter) }
{
    let expr = export.children().first();
    if expr.mark() == Mark::Id {
        o.keep(export);
        return 1;
    }
    let start = o.start();
    put_const_front(&mut o.names, o.out);
    let counter = o.names.id_counter;
    let Some(()) = expr_to_ts_type(o, expr, readonly(scope)) else {
        o.back(start);
        o.keep(export);
        return 1;
    };
    o.out.put_absent();
    put_default_name(o, export, counter);
    2
}
