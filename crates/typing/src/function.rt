// `Expr::Fn` and `Expr::Arrow`: a function's type, and its parameters by `pat_to_ts_fn_param`.
ghost use Rattle.std.specs.Prelude.{◌≡◌, ◌<◌, ◌^◌};
ghost use Rattle.definition.specs.Tree.{count};
ghost use Rattle.definition.specs.Grammar.{mark};
ghost use Rattle.definition.specs.Record.{kids_of, mark_of, kid};
ghost use Rattle.records.specs.Views.{rec_of, From};
ghost use Rattle.output.specs.Outputs.{Makes, MakesCounted};
ghost use Rattle.typing.specs.Values.{Ready};
ghost use Rattle.typing.specs.Steps.{pat_type, param_type, params_from, function_mark, function_type, counted_of, MakesAtMostOne};

use crate::bindings::{put_fn_front, put_named, put_unnamed, unique_binding_size};
use crate::exprs::{expr_to_ts_type, mutable};
use crate::fitting::fits;
use output::Output;
use prescan::module_names::Scope;
use records::diagnostics::FastCheckDtsDiagnostic;
use records::marks::Mark;
use records::tree::{Record, Records};
use records::{HEAD_SIZE, Head};

// The parameters of a Fu or of an Aw, and its Ops: a Fu's stand behind its type parameters, its return type and its body, an Aw's behind the first two.
fn params<'t>(function: Record<'t>, is_function: bool) -> Records<'t>
    requires { mark_of (rec_of function) ≡ function_mark is_function }
    ensures params { From function.entry (params_from is_function) result }
    ensures few { count (kids_of (rec_of function.entry)) < 2 ^ 64 }
{
    let first = function.children().rest().rest();
    if is_function {
        return first.rest();
    }
    first
}

// `Expr::Fn`, of its Fu, and `Expr::Arrow`: a function's type.
#[inline(never)]
#[cycle(types)]
pub(crate) fn function_type(o: &mut Output, function: Record, scope: Scope, is_function: bool)
    requires { Ready o.old function scope × (mark_of (rec_of function) ≡ function_mark is_function) }
    ensures { Makes o.old o.new (function_type scope.entry is_function (rec_of function.entry) o.old.names.id_counter) }
{
    fits(function);
    let start = o.start();
    o.out.skip(HEAD_SIZE);
    put_fn_front(o.out, function);
    let mut count = 2;
    for param in params(function, is_function) {
        count += param_type(o, param, scope, is_function);
    }
    let head = Head::made(Mark::Ft, 0, function.range(), 0, count);
    o.out.put_front_at(start.at, head, b"");
}

// `filter_map`: a record that may be missing is one record or none.
pub fn one_or_none(t: Option<()>) -> usize
    ensures { result ≡ counted_of t }
{
    match t {
        Some(()) => 1,
        None => 0,
    }
}

// One of `fn_expr.function.params`, a Pa, or of `arrow_expr.params`, a pattern; the Ops stand behind them.
#[cycle(types)]
fn param_type(o: &mut Output, param: Record, scope: Scope, is_function: bool) -> usize
    requires { Ready o.old param scope }
    ensures { MakesCounted o.old o.new result (param_type scope.entry is_function (rec_of param.entry) o.old.names.id_counter) }
{
    if !is_function {
        return one_or_none(pat_to_ts_fn_param(o, param, scope));
    }
    if param.mark() != Mark::Pa {
        return 0;
    }
    one_or_none(pat_to_ts_fn_param(o, param.children().first(), scope))
}

// `pat_to_ts_fn_param`.
#[cycle(types)]
pub fn pat_to_ts_fn_param(o: &mut Output, pat: Record, scope: Scope) -> Option<()>
    requires { Ready o.old pat scope }
    ensures { MakesAtMostOne o.old o.new result (pat_type scope.entry (rec_of pat.entry) o.old.names.id_counter) }
{
    match pat.mark() {
        Mark::Bd | Mark::Pb | Mark::Rs | Mark::Po => Some(o.keep(pat)),
        Mark::Ag => {
            if pat.children().first().mark() == Mark::Bd {
                return named_param(o, pat, scope);
            }
            unnamed_param(o, pat, scope)
        }
        Mark::Pe => {
            let expr = pat.children().first();
            o.mark_diagnostic(expr, FastCheckDtsDiagnostic::UnableToInferType);
            None
        }
        _ => None,
    }
}

// `Pat::Assign` of a name: the parameter has that name and the type of the default.
#[cycle(types)]
fn named_param(o: &mut Output, assign: Record, scope: Scope) -> Option<()>
    requires ready { Ready o.old assign scope × (mark_of (rec_of assign) ≡ mark "Ag") }
    requires named { mark_of (kid 0 (kids_of (rec_of assign))) ≡ mark "Bd" }
    ensures { MakesAtMostOne o.old o.new result (pat_type scope.entry (rec_of assign.entry) o.old.names.id_counter) }
{
    fits(assign);
    let right = assign.children().rest().first();
    let start = o.start();
    put_named(o.out, assign);
    let Some(()) = expr_to_ts_type(o, right, mutable(scope)) else {
        o.back(start);
        return None;
    };
    Some(())
}

// `Pat::Assign` of another pattern: the parameter's name is generated once the default has been typed.
#[cycle(types)]
fn unnamed_param(o: &mut Output, assign: Record, scope: Scope) -> Option<()>
    requires ready { Ready o.old assign scope × (mark_of (rec_of assign) ≡ mark "Ag") }
    requires unnamed { mark_of (kid 0 (kids_of (rec_of assign))) ≡ mark "Bd" → ⊥ }
    ensures { MakesAtMostOne o.old o.new result (pat_type scope.entry (rec_of assign.entry) o.old.names.id_counter) }
{
    let right = assign.children().rest().first();
    let start = o.start();
    let counter = o.names.id_counter;
    o.out.skip(unique_binding_size(counter + 1));
    let Some(()) = expr_to_ts_type(o, right, mutable(scope)) else {
        o.back(start);
        return None;
    };
    put_unnamed(o, assign, start, counter);
    Some(())
}
