// Small types, as the functions of swc_helpers.rs make them, each written where a Writer stands; and the argument of `Object.freeze`. One that makes a
// record around a type which is typed later writes what stands before that type.
ghost use Rattle.std.specs.Prelude.{◌≡◌};
ghost use Rattle.std.proofs.Math.Option.{some};
ghost use Rattle.definition.specs.Tree.{encode};
ghost use Rattle.definition.specs.Grammar.{mark};
ghost use Rattle.definition.specs.Record.{text, kids_of, mark_of};
ghost use Rattle.definition.specs.Helpers.{any_type_ann, ts_keyword_type, type_ref, reference_to, ts_lit_type, regex_type, ts_type_query};
ghost use Rattle.definition.specs.Helpers.{tpl_to_ts_type, no_exprs, lit_kind, maybe_lit_to_ts_type};
ghost use Rattle.definition.specs.Typing.{minus_by};
ghost use Rattle.records.specs.Fields.{span};
ghost use Rattle.records.specs.Views.{rec_of};
ghost use Rattle.records.specs.Writers.{Writes};
ghost use Rattle.swc_helpers.specs.Made.{keyword, ts_readonly_front, ts_tuple_element_front, ts_rest_type_front};
ghost use Rattle.swc_helpers.specs.Found.{is_const, is_object_freeze, is_quasi};
ghost use Rattle.swc_helpers.specs.Maybe.{MakesType, FreezeArg, CookedQuasi, KeptQuasi};

use crate::lit::Literal;
use crate::{DeclMutabilityKind, TsKeywordTypeKind, lit};
use records::flags::{COOKED, has_flag};
use records::marks::Mark;
use records::text::same_text;
use records::tree::Record;
use records::writer::Writer;
use records::{DUMMY_SP, Range};

impl TsKeywordTypeKind {
    // "`Kw` the keyword": its text.
    fn spelled(self) -> &'static [u8]
        ensures { result.now ≡ text (keyword self) }
    {
        match self {
            TsKeywordTypeKind::TsAnyKeyword => b"any",
            TsKeywordTypeKind::TsNumberKeyword => b"number",
            TsKeywordTypeKind::TsBooleanKeyword => b"boolean",
            TsKeywordTypeKind::TsBigIntKeyword => b"bigint",
            TsKeywordTypeKind::TsStringKeyword => b"string",
            TsKeywordTypeKind::TsUndefinedKeyword => b"undefined",
            TsKeywordTypeKind::TsNullKeyword => b"null",
        }
    }
}

// `ts_keyword_type`.
pub fn ts_keyword_type(w: &mut Writer, range: Range, kind: TsKeywordTypeKind)
    ensures { Writes w.old w.new (encode (ts_keyword_type (span range) (keyword kind))) }
{
    w.put_made_leaf(Mark::Kw, range, kind.spelled());
}

// `any_type_ann`.
pub fn any_type_ann(w: &mut Writer, range: Range)
    ensures { Writes w.old w.new (encode (any_type_ann (span range))) }
{
    ts_keyword_type(w, range, TsKeywordTypeKind::TsAnyKeyword);
}

// `ts_readonly`, before its type.
pub fn ts_readonly(w: &mut Writer, range: Range)
    ensures { Writes w.old w.new (ts_readonly_front (span range)) }
{
    w.put_made_front(Mark::Ro, 0, range, 1);
}

// `type_ref`; the Id in it is at `DUMMY_SP`.
pub fn type_ref(w: &mut Writer, range: Range, name: &[u8])
    ensures { Writes w.old w.new (encode (type_ref (span range) name.now)) }
{
    w.put_made_front(Mark::Rf, 0, range, 2);
    w.put_ident(DUMMY_SP, name);
    w.put_absent();
}

// `TsTypeRef` of an Id of the tree, which it names: `type_name: TsEntityName::Ident(ident.clone())`.
pub fn reference_to(w: &mut Writer, range: Range, ident: Record)
    ensures { Writes w.old w.new (encode (reference_to (span range) (rec_of ident.entry))) }
{
    w.put_made_front(Mark::Rf, 0, range, 2);
    w.put_record(ident);
    w.put_absent();
}

// `ts_lit_type` of a literal of the tree.
pub fn ts_lit_type(w: &mut Writer, range: Range, lit: Record)
    ensures { Writes w.old w.new (encode (ts_lit_type (span range) (rec_of lit.entry))) }
{
    w.put_made_front(Mark::Tl, 0, range, 1);
    w.put_record(lit);
}

// `regex_type`.
pub fn regex_type(w: &mut Writer, range: Range)
    ensures { Writes w.old w.new (encode (regex_type (span range))) }
{
    type_ref(w, range, b"RegExp");
}

// `ts_tuple_element`, before its type.
pub fn ts_tuple_element(w: &mut Writer, range: Range)
    ensures { Writes w.old w.new (ts_tuple_element_front (span range)) }
{
    w.put_made_front(Mark::Tm, 0, range, 2);
    w.put_absent();
}

// `TsRestType`, before its type.
pub fn ts_rest_type(w: &mut Writer, range: Range)
    ensures { Writes w.old w.new (ts_rest_type_front (span range)) }
{
    w.put_made_front(Mark::Rt, 0, range, 1);
}

// `TsTypeQuery` of an Id of the tree.
pub fn ts_type_query(w: &mut Writer, range: Range, ident: Record)
    ensures { Writes w.old w.new (encode (ts_type_query (span range) (rec_of ident.entry))) }
{
    w.put_made_front(Mark::Tf, 0, range, 1);
    w.put_record(ident);
}

// The callee of `object_freeze_call_arg`: `Object.freeze`, where `Object` is the global object.
fn is_object_freeze(callee: Record, unresolved: u32) -> bool
    ensures { result ≡ is_object_freeze unresolved (rec_of callee.entry) }
{
    if callee.mark() != Mark::Mb {
        return false;
    }
    let parts = callee.children();
    if !parts.first().is_global(unresolved, b"Object") {
        return false;
    }
    let prop = parts.rest().first();
    prop.mark() == Mark::Ki && same_text(prop.text(), b"freeze")
}

// `object_freeze_call_arg`: the argument of a call of `Object.freeze` with one argument, which is no spread.
pub fn object_freeze_call_arg<'t>(call: Record<'t>, unresolved: u32) -> Option<Record<'t>>
    requires { mark_of (rec_of call) ≡ mark "Ca" }
    ensures { FreezeArg call.entry unresolved result }
{
    let kids = call.children();
    if !is_object_freeze(kids.first(), unresolved) {
        return None;
    }
    if kids.count < 2 {
        return None;
    }
    let args = kids.rest();
    let arg = args.first();
    match arg.mark() {
        Mark::Op | Mark::Sp => return None,
        _ => {}
    }
    if args.count == 1 {
        return Some(arg);
    }
    if args.rest().first().mark() != Mark::Op {
        return None;
    }
    Some(arg)
}

// `tpl.exprs.is_empty()`: whether a Te has only quasis.
fn no_exprs(te: Record) -> bool
    ensures { result ≡ no_exprs (kids_of (rec_of te.entry)) }
{
    let mut kids = te.children();
    while 0 < kids.count {
        if !is_quasi(kids.first()) {
            return false;
        }
        kids = kids.rest();
    }
    true
}

// Whether a child of a Te is no expression: one of `tpl.quasis`, or an Op.
fn is_quasi(kid: Record) -> bool
    ensures { result ≡ is_quasi (mark_of (rec_of kid.entry)) }
{
    matches!(kid.mark(), Mark::Qu | Mark::Op)
}

// `tpl.quasis.first()` where it is cooked.
fn first_cooked<'t>(te: Record<'t>) -> Option<Record<'t>>
    ensures { CookedQuasi te.entry result }
{
    let kids = te.children();
    if kids.count == 0 {
        return None;
    }
    let quasi = kids.first();
    if quasi.mark() == Mark::Qu && has_flag(quasi.flags(), COOKED) {
        return Some(quasi);
    }
    None
}

// `if let DeclMutabilityKind::Const = decl_kind && tpl.exprs.is_empty() && let Some(quasi) = tpl.quasis.first() && let Some(cooked) = &quasi.cooked`.
fn kept_quasi<'t>(te: Record<'t>, kind: DeclMutabilityKind) -> Option<Record<'t>>
    ensures { KeptQuasi te.entry (is_const kind) result }
{
    match kind {
        DeclMutabilityKind::Const if no_exprs(te) => first_cooked(te),
        _ => None,
    }
}

// `tpl_to_ts_type`: a template without expressions is its first quasi, where a literal is kept, and a string elsewhere.
pub fn tpl_to_ts_type(w: &mut Writer, te: Record, kind: DeclMutabilityKind)
    ensures { Writes w.old w.new (encode (tpl_to_ts_type (kids_of (rec_of te.entry)) (is_const kind))) }
{
    let Some(quasi) = kept_quasi(te, kind) else {
        ts_keyword_type(w, DUMMY_SP, TsKeywordTypeKind::TsStringKeyword);
        return;
    };
    w.put_made_front(Mark::Tl, 0, DUMMY_SP, 1);
    w.put_made_leaf(Mark::Ss, DUMMY_SP, quasi.text());
}

// `Some(ts_keyword_type(..))`.
pub fn some_keyword(w: &mut Writer, range: Range, kind: TsKeywordTypeKind) -> Option<()>
    ensures { MakesType w.old w.new (some (ts_keyword_type (span range) (keyword kind))) result }
{
    Some(ts_keyword_type(w, range, kind))
}

// `maybe_lit_to_ts_type`.
pub fn maybe_lit_to_ts_type(w: &mut Writer, lit: Record, kind: DeclMutabilityKind) -> Option<()>
    ensures { MakesType w.old w.new
        (maybe_lit_to_ts_type (lit_kind (mark_of (rec_of lit.entry))) (rec_of lit.entry) (is_const kind)) result }
{
    match kind {
        DeclMutabilityKind::Const => match Literal::of(lit) {
            Literal::Str(_) => Some(ts_lit_type(w, DUMMY_SP, lit)),
            Literal::Bool(_) => Some(ts_lit_type(w, DUMMY_SP, lit)),
            Literal::Null => some_keyword(w, DUMMY_SP, TsKeywordTypeKind::TsNullKeyword),
            Literal::Num(_) => Some(ts_lit_type(w, DUMMY_SP, lit)),
            Literal::BigInt(_) => Some(ts_lit_type(w, DUMMY_SP, lit)),
            Literal::Regex => Some(regex_type(w, DUMMY_SP)),
            Literal::JsxText => None,
        },
        DeclMutabilityKind::Mutable => match Literal::of(lit) {
            Literal::Str(_) => some_keyword(w, DUMMY_SP, TsKeywordTypeKind::TsStringKeyword),
            Literal::Bool(_) => some_keyword(w, DUMMY_SP, TsKeywordTypeKind::TsBooleanKeyword),
            Literal::Null => some_keyword(w, DUMMY_SP, TsKeywordTypeKind::TsNullKeyword),
            Literal::Num(_) => some_keyword(w, DUMMY_SP, TsKeywordTypeKind::TsNumberKeyword),
            Literal::BigInt(_) => some_keyword(w, DUMMY_SP, TsKeywordTypeKind::TsBigIntKeyword),
            Literal::Regex => Some(regex_type(w, DUMMY_SP)),
            Literal::JsxText => None,
        },
    }
}

// The arm of `expr_to_ts_type` for `Expr::Unary`: the type of `-` before a literal.
pub fn minus_lit_to_ts_type(w: &mut Writer, arg: Record, kind: DeclMutabilityKind) -> Option<()>
    ensures { MakesType w.old w.new (minus_by (lit_kind (mark_of (rec_of arg.entry))) (rec_of arg.entry) (is_const kind)) result }
{
    match Literal::of(arg) {
        Literal::Num(value) => match kind {
            DeclMutabilityKind::Const => Some(lit::negated_number(w, DUMMY_SP, arg, value)),
            DeclMutabilityKind::Mutable => {
                some_keyword(w, DUMMY_SP, TsKeywordTypeKind::TsNumberKeyword)
            }
        },
        Literal::BigInt(bigint) => match kind {
            DeclMutabilityKind::Const => Some(lit::negated_bigint(w, DUMMY_SP, bigint)),
            DeclMutabilityKind::Mutable => {
                some_keyword(w, DUMMY_SP, TsKeywordTypeKind::TsBigIntKeyword)
            }
        },
        _ => None,
    }
}
