// The arms of `expr_to_ts_type` that type nothing below them, and `ident_to_ts_type`, each written where a Writer stands.
ghost use Rattle.std.specs.Prelude.{◌≡◌, cond};
ghost use Rattle.std.proofs.Math.Option.{none, some};
ghost use Rattle.definition.specs.Tree.{encode};
ghost use Rattle.definition.specs.Grammar.{mark};
ghost use Rattle.definition.specs.Record.{kids_of, mark_of, text_of, symbol_of, dummy_sp, kid};
ghost use Rattle.definition.specs.Helpers.{ts_type_query};
ghost use Rattle.definition.specs.Typing.{ident_to_ts_type};
ghost use Rattle.records.specs.Views.{rec_of};
ghost use Rattle.records.specs.Writers.{Writes};
ghost use Rattle.swc_helpers.specs.Maybe.{MakesType};
ghost use Rattle.typing.specs.Values.{ids_in};
ghost use Rattle.typing.specs.Parts.{number_name, name_type, class_type, as_type};
ghost use Rattle.typing.specs.Leaves.{leaf_of};

use crate::exprs::Mode;
use crate::readonly_types::readonly_or_same;
use prescan::module_names::Scope;
use records::DUMMY_SP;
use records::marks::Mark;
use records::text::same_text;
use records::tree::Record;
use records::writer::Writer;
use swc_helpers::types::{
    maybe_lit_to_ts_type, minus_lit_to_ts_type, reference_to, some_keyword, tpl_to_ts_type,
    ts_type_query,
};
use swc_helpers::{DeclMutabilityKind, TsKeywordTypeKind};

// `"NaN" | "Infinity" =>` of the `match` in `ident_to_ts_type`, and what follows it.
fn number_name(w: &mut Writer, name: Record) -> Option<()>
    requires { mark_of (rec_of name) ≡ mark "Id" }
    ensures { MakesType w.old w.new (number_name (symbol_of (rec_of name.entry))) result }
{
    let symbol = name.symbol();
    if same_text(symbol, b"NaN") || same_text(symbol, b"Infinity") {
        return some_keyword(w, DUMMY_SP, TsKeywordTypeKind::TsNumberKeyword);
    }
    None
}

// `ident_to_ts_type` of an unresolved name: `match ident.sym.as_str()`.
fn global_type(w: &mut Writer, ident: Record, as_const: bool) -> Option<()>
    requires { mark_of (rec_of ident) ≡ mark "Id" }
    ensures { MakesType w.old w.new (name_type (symbol_of (rec_of ident.entry)) as_const) result }
{
    if as_const && same_text(ident.symbol(), b"undefined") {
        return some_keyword(w, DUMMY_SP, TsKeywordTypeKind::TsUndefinedKeyword);
    }
    number_name(w, ident)
}

// `ident_to_ts_type`.
pub fn ident_to_ts_type(w: &mut Writer, ident: Record, scope: Scope, as_const: bool) -> Option<()>
    requires { mark_of (rec_of ident) ≡ mark "Id" }
    ensures { MakesType w.old w.new
        (ident_to_ts_type (ids_in scope.entry) scope.entry.unresolved (rec_of ident.entry) as_const) result }
{
    if ident.context() == scope.unresolved {
        return global_type(w, ident, as_const);
    }
    if scope.names.look_up(ident).typeof_safe {
        return Some(ts_type_query(w, DUMMY_SP, ident));
    }
    None
}

// `Expr::New`: "of a non-generic class declared in this module".
fn new_type(w: &mut Writer, new: Record, scope: Scope) -> Option<()>
    requires { mark_of (rec_of new) ≡ mark "Ne" }
    ensures { MakesType w.old w.new (class_type (ids_in scope.entry) (kids_of (rec_of new.entry))) result }
{
    let parts = new.children();
    let callee = parts.first();
    if callee.mark() != Mark::Id {
        return None;
    }
    if parts.rest().first().mark() != Mark::No {
        return None;
    }
    if scope.names.look_up(callee).non_generic_class {
        return Some(reference_to(w, DUMMY_SP, callee));
    }
    None
}

// `Expr::TsAs`: its type, copied, or written as `readonly_of` it.
#[inline(never)]
pub fn as_type(w: &mut Writer, expr: Record, frozen: bool)
    requires { mark_of (rec_of expr) ≡ mark "As" }
    ensures { Writes w.old w.new (encode (as_type frozen (kid 1 (kids_of (rec_of expr.entry))))) }
{
    let type_ann = expr.children().rest().first();
    if frozen {
        readonly_or_same(w, type_ann);
        return;
    }
    w.put_record(type_ann);
}

// An array-typed Id that is spread: `Expr::Ident(ident) if self.array_typed_ids.contains(&ident.to_id())`.
pub fn array_ident(w: &mut Writer, ident: Record, scope: Scope) -> Option<()>
    ensures { MakesType w.old w.new
        (cond ((ids_in scope.entry).array_typed (text_of (rec_of ident.entry))) (some (ts_type_query dummy_sp (rec_of ident.entry))) none) result }
{
    if scope.names.look_up(ident).array_typed {
        return Some(ts_type_query(w, DUMMY_SP, ident));
    }
    None
}

// The arms of `expr_to_ts_type` that type nothing below them: `Expr::Lit`, `Expr::Tpl`, `Expr::Ident`, `Expr::Unary`, `Expr::New`, and those that
// give `None`. `readonly_of` knows none of their types, so they are written as they are.
#[inline(never)]
pub fn leaf_type(w: &mut Writer, expr: Record, mode: Mode) -> Option<()>
    ensures { MakesType w.old w.new (leaf_of mode.entry (rec_of expr.entry)) result }
{
    let kind = DeclMutabilityKind::from(mode.as_const);
    match expr.mark() {
        Mark::Ss | Mark::Bl | Mark::Nl | Mark::Nu | Mark::Bi | Mark::Re | Mark::Jt => {
            maybe_lit_to_ts_type(w, expr, kind)
        }
        Mark::Te => Some(tpl_to_ts_type(w, expr, kind)),
        Mark::Id => ident_to_ts_type(w, expr, mode.scope, mode.as_const),
        Mark::Mi => minus_lit_to_ts_type(w, expr.children().first(), kind),
        Mark::Ne => new_type(w, expr, mode.scope),
        _ => None,
    }
}
