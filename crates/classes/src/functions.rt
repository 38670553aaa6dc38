// Functions and their parameters, as records on their way into an Output: `handle_func_params` and its parts.
ghost use Rattle.std.specs.Prelude.{◌≡◌, ◌<◌};
ghost use Rattle.definition.specs.Grammar.{mark};
ghost use Rattle.definition.specs.Record.{mark_of, each};
ghost use Rattle.definition.specs.Classes.{type_or, infer_expr_fallback_any, handle_func_param_ident, p_assign};
ghost use Rattle.definition.specs.Classes.{handle_pattern_by, handle_pattern, handle_func_param, handle_function};
ghost use Rattle.records.specs.Views.{rec_of, recs_of};
ghost use Rattle.output.specs.Outputs.{Makes, MakesAll};
ghost use Rattle.output.specs.Kids.{Kept};
ghost use Rattle.typing.specs.Values.{Ready, ReadyAll, typing_in};
ghost use Rattle.classes.specs.Handled.{return_type_kept};

use output::Output;
use prescan::module_names::Scope;
use records::DUMMY_SP;
use records::diagnostics::FastCheckDtsDiagnostic;
use records::flags::{OPTIONAL, with_flag};
use records::marks::Mark;
use records::tree::{Record, Records};
use typing::exprs::{expr_to_ts_type, mutable};

// `infer_expr_fallback_any`, as_const and as_readonly off.
fn infer_expr_fallback_any(o: &mut Output, expr: Record, scope: Scope)
    requires { Ready o.old expr scope }
    ensures { Makes o.old o.new (infer_expr_fallback_any (typing_in scope.entry) (rec_of expr.entry) o.old.names.id_counter) }
{
    let t = expr_to_ts_type(o, expr, mutable(scope));
    o.or_any(
        t,
        expr,
        FastCheckDtsDiagnostic::UnableToInferTypeFallbackAny,
    );
}

// `handle_func_param_ident`: "A Bd parameter without type: any, d2 at it".
fn handle_func_param_ident(o: &mut Output, ident: Record)
    requires { mark_of (rec_of ident) ≡ mark "Bd" }
    ensures { Makes o.old o.new (handle_func_param_ident (rec_of ident.entry) o.old.names.id_counter) }
{
    if ident.children().rest().first().mark() != Mark::No {
        o.keep(ident);
        return;
    }
    let name = o.begin(ident);
    let type_ann = o.keep_next(name);
    o.put_any(DUMMY_SP);
    o.keep_all(type_ann.rest());
    o.mark_diagnostic(ident, FastCheckDtsDiagnostic::UnableToInferTypeFallbackAny);
}

// The type of a pattern, if it has one, or that of its default.
fn type_or_infer(o: &mut Output, type_ann: Record, right: Record, scope: Scope)
    requires { Ready o.old right scope }
    ensures { Makes o.old o.new
        (type_or (infer_expr_fallback_any (typing_in scope.entry) (rec_of right.entry)) (rec_of type_ann.entry) o.old.names.id_counter) }
{
    if type_ann.mark() != Mark::No {
        o.keep(type_ann);
        return;
    }
    infer_expr_fallback_any(o, right, scope);
}

// `handle_func_param_assign`: "Ag over Bd, Pb, Po becomes the left side, optional"; any other Ag stays as it is. Of a Bd the Id becomes optional.
fn handle_func_param_assign(o: &mut Output, assign: Record, scope: Scope)
    requires { Ready o.old assign scope × (mark_of (rec_of assign) ≡ mark "Ag") }
    ensures { Makes o.old o.new (handle_pattern_by (typing_in scope.entry) p_assign (rec_of assign.entry) o.old.names.id_counter) }
{
    let sides = assign.children();
    let left = sides.first();
    let right = sides.rest().first();
    match left.mark() {
        Mark::Bd => {
            let name = o.begin(left);
            o.put_flagged(name.first());
            let type_ann = name.rest();
            type_or_infer(o, type_ann.first(), right, scope);
            o.keep_all(type_ann.rest());
        }
        Mark::Pb | Mark::Po => {
            let type_ann = o.begin_with(left, with_flag(left.flags(), OPTIONAL));
            type_or_infer(o, type_ann.first(), right, scope);
            o.keep_all(type_ann.rest());
        }
        _ => o.keep(assign),
    }
}

// `match &mut param.pat`: the pattern of a parameter.
fn handle_pattern(o: &mut Output, pattern: Record, scope: Scope)
    requires { Ready o.old pattern scope }
    ensures { Makes o.old o.new (handle_pattern (typing_in scope.entry) (rec_of pattern.entry) o.old.names.id_counter) }
{
    match pattern.mark() {
        Mark::Bd => handle_func_param_ident(o, pattern),
        Mark::Ag => handle_func_param_assign(o, pattern, scope),
        _ => o.keep(pattern),
    }
}

// `handle_func_param`, and the arm for `TsParamProp` of `handle_ts_param_props`: a Pa or a Pp; an Op is left as it is.
fn handle_func_param(o: &mut Output, param: Record, scope: Scope)
    requires { Ready o.old param scope }
    ensures { Makes o.old o.new (handle_func_param (typing_in scope.entry) (rec_of param.entry) o.old.names.id_counter) }
{
    match param.mark() {
        Mark::Pa | Mark::Pp => {
            let pattern = o.begin(param);
            handle_pattern(o, pattern.first(), scope);
            o.keep_all(pattern.rest());
        }
        _ => o.keep(param),
    }
}

// `handle_func_params`, and `handle_ts_param_props` for the parameters of a constructor.
pub(crate) fn handle_func_params(o: &mut Output, params: Records, scope: Scope)
    requires { ReadyAll o.old params scope }
    ensures { MakesAll o.old o.new
        (each (λ i. handle_func_param (typing_in scope.entry)) 0 (recs_of params.entry) o.old.names.id_counter) }
{
    for param in params {
        handle_func_param(o, param, scope);
    }
}

// The return type of a function, the next child: "Setters lose the return type".
fn keep_return_type<'t>(o: &mut Output, return_type: Records<'t>, setter: bool) -> Records<'t>
    requires { 0 < return_type.count }
    ensures { Kept o.old o.new return_type.entry result (return_type_kept setter) }
{
    if setter {
        return o.drop_next(return_type);
    }
    o.keep_next(return_type)
}

// A function, a Fu: its body goes, and `handle_func_params`.
pub fn handle_function(o: &mut Output, function: Record, scope: Scope, setter: bool)
    requires { Ready o.old function scope × (mark_of (rec_of function) ≡ mark "Fu") }
    ensures { Makes o.old o.new (handle_function (typing_in scope.entry) setter (rec_of function.entry) o.old.names.id_counter) }
{
    let type_params = o.begin(function);
    let return_type = o.keep_next(type_params);
    let body = keep_return_type(o, return_type, setter);
    let params = o.drop_next(body);
    handle_func_params(o, params, scope);
}
