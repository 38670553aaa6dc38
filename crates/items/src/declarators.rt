// `Decl::Var`, as records: the declarators and their types.
ghost use Rattle.std.specs.Prelude.{◌≡◌};
ghost use Rattle.definition.specs.Grammar.{mark};
ghost use Rattle.definition.specs.Record.{head_of, kids_of, mark_of, each, wrap, at_kid};
ghost use Rattle.definition.specs.Classes.{type_or};
ghost use Rattle.definition.specs.Items.{declarator_type, declarator};
ghost use Rattle.records.specs.Views.{rec_of, recs_of};
ghost use Rattle.output.specs.Outputs.{Makes, MakesAll};
ghost use Rattle.typing.specs.Values.{Ready, ReadyAll, typing_in};
ghost use Rattle.items.specs.InScope.{readonly_in, pattern_in};

use output::Output;
use prescan::module_names::Scope;
use records::DUMMY_SP;
use records::diagnostics::FastCheckDtsDiagnostic;
use records::marks::Mark;
use records::tree::{Record, Records};
use typing::exprs::{Mode, expr_to_ts_type};

// How the init of a declarator and an expression exported as default are typed: as_const off, as_readonly on.
pub fn readonly<'t>(scope: Scope<'t>) -> Mode<'t>
    ensures { result ≡ readonly_in scope.entry }
{
    Mode {
        scope,
        as_const: false,
        as_readonly: true,
        frozen: false,
    }
}

// The type of a Bd, which has none, from the init: "typed (c off, r on), else any and d2 at the pattern".
fn declarator_type(o: &mut Output, pattern: Record, init: Record, scope: Scope)
    requires { Ready o.old init scope }
    ensures { Makes o.old o.new
        (declarator_type (typing_in scope.entry) (head_of (rec_of pattern.entry)) (rec_of init.entry) o.old.names.id_counter) }
{
    if init.mark() == Mark::No {
        o.put_any(DUMMY_SP);
        o.mark_diagnostic(
            pattern,
            FastCheckDtsDiagnostic::UnableToInferTypeFallbackAny,
        );
        return;
    }
    let t = expr_to_ts_type(o, init, readonly(scope));
    o.or_any(
        t,
        pattern,
        FastCheckDtsDiagnostic::UnableToInferTypeFallbackAny,
    );
}

// A Bd, the pattern of a declarator: "identifier with type keeps it".
fn declarator_ident(o: &mut Output, pattern: Record, init: Record, scope: Scope)
    requires { Ready o.old init scope × (mark_of (rec_of pattern) ≡ mark "Bd") }
    ensures { Makes o.old o.new
        (wrap (head_of (rec_of pattern.entry))
        (at_kid 1 (type_or (declarator_type (typing_in scope.entry) (head_of (rec_of pattern.entry)) (rec_of init.entry)))
        (kids_of (rec_of pattern.entry)) o.old.names.id_counter)) }
{
    let ident = o.begin(pattern);
    let type_ann = o.keep_next(ident);
    if type_ann.first().mark() != Mark::No {
        o.keep_all(type_ann);
        return;
    }
    declarator_type(o, pattern, init, scope);
    o.keep_all(type_ann.rest());
}

// The pattern of a Vr: "Other patterns give d1 at Vr".
fn declarator_pattern(o: &mut Output, var: Record, scope: Scope)
    requires { Ready o.old var scope × (mark_of (rec_of var) ≡ mark "Vr") }
    ensures { Makes o.old o.new (pattern_in scope.entry (rec_of var.entry) o.old.names.id_counter) }
{
    let parts = var.children();
    let pattern = parts.first();
    if pattern.mark() != Mark::Bd {
        o.keep(pattern);
        o.mark_diagnostic(var, FastCheckDtsDiagnostic::UnableToInferType);
        return;
    }
    declarator_ident(o, pattern, parts.rest().first(), scope);
}

// A Vr: "Every init goes"; an Op is left as it is.
fn declarator(o: &mut Output, var: Record, scope: Scope)
    requires { Ready o.old var scope }
    ensures { Makes o.old o.new (declarator (typing_in scope.entry) (rec_of var.entry) o.old.names.id_counter) }
{
    if var.mark() != Mark::Vr {
        o.keep(var);
        return;
    }
    let pattern = o.begin(var);
    declarator_pattern(o, var, scope);
    let rest = o.drop_next(pattern.rest());
    o.keep_all(rest);
}

// The declarators of a Vd.
pub fn declarators(o: &mut Output, vars: Records, scope: Scope)
    requires { ReadyAll o.old vars scope }
    ensures { MakesAll o.old o.new
        (each (λ i. declarator (typing_in scope.entry)) 0 (recs_of vars.entry) o.old.names.id_counter) }
{
    for var in vars {
        declarator(o, var, scope);
    }
}
