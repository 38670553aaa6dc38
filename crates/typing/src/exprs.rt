// The type of an expression, arm by arm: `expr_to_ts_type`. A type is written where an Output stands; a typing that fails goes back to where it began.
ghost use Rattle.std.specs.Prelude.{◌≡◌, ◌||◌};
ghost use Rattle.definition.specs.Grammar.{mark};
ghost use Rattle.definition.specs.Record.{mark_of};
ghost use Rattle.records.specs.Views.{rec_of};
ghost use Rattle.output.specs.Outputs.{MakesMaybe};
ghost use Rattle.typing.specs.Values.{Ready, mutable_mode, type_of};

use crate::array::array_type;
use crate::fitting::fits;
use crate::function::function_type;
use crate::leaf::{as_type, leaf_type};
use crate::object::object_type;
use crate::readonly::has_readonly;
use output::Output;
use prescan::module_names::Scope;
use records::marks::Mark;
use records::tree::Record;
use swc_helpers::types::object_freeze_call_arg;

// How an expression is typed: in which scope, `as_const` and `as_readonly` of the Rust, and whether its type is written as `readonly_of` it, where
// that has an answer.
#[derive(Clone, Copy)]
pub struct Mode<'t> {
    pub scope: Scope<'t>,
    pub as_const: bool,
    pub as_readonly: bool,
    pub frozen: bool,
}

// How the default of a parameter is typed: `self.expr_to_ts_type(*assign_pat.right, false, false)`.
pub fn mutable<'t>(scope: Scope<'t>) -> Mode<'t>
    ensures { result ≡ mutable_mode scope.entry }
{
    Mode {
        scope,
        as_const: false,
        as_readonly: false,
        frozen: false,
    }
}

// Whether a tuple or a member is readonly: `as_readonly`, or `readonly_of` the type of the array or the object.
pub(crate) fn is_readonly(mode: Mode) -> bool
    ensures { result ≡ (mode.entry.as_readonly || mode.entry.frozen) }
{
    mode.as_readonly || mode.frozen
}

// `expr_to_ts_type`. Each arm that does some work stays a call (`inline(never)`): in one function, the locals of all arms are cleared at each level of a
// nest, whichever arm it takes.
#[cycle(types)]
pub fn expr_to_ts_type(o: &mut Output, expr: Record, mode: Mode) -> Option<()>
    requires { Ready o.old expr mode.scope }
    ensures { MakesMaybe o.old o.new result (type_of mode.entry (rec_of expr.entry) o.old.names.id_counter) }
{
    match expr.mark() {
        Mark::Ar => array_type(o, expr, mode),
        Mark::Ob => Some(object_type(o, expr, mode)),
        Mark::Tc => {
            let asserted = Mode {
                as_const: true,
                as_readonly: true,
                ..mode
            };
            expr_to_ts_type(o, expr.children().first(), asserted)
        }
        Mark::Ts => expr_to_ts_type(o, expr.children().first(), mode),
        Mark::As => {
            fits(expr);
            Some(as_type(o.out, expr, mode.frozen))
        }
        Mark::Fx => {
            let function = expr.children().rest().first();
            Some(function_type(o, function, mode.scope, true))
        }
        Mark::Aw => Some(function_type(o, expr, mode.scope, false)),
        Mark::Ca => call_type(o, expr, mode),
        _ => {
            fits(expr);
            leaf_type(o.out, expr, mode)
        }
    }
}

// `Expr::Call`, of `Object.freeze`: "An argument that cannot be typed ends the call's typing at once; else `readonly_of`". The argument's type is
// written as `readonly_of` it, and is given up where that has no answer.
#[inline(never)]
#[cycle(types)]
fn call_type(o: &mut Output, call: Record, mode: Mode) -> Option<()>
    requires { Ready o.old call mode.scope × (mark_of (rec_of call) ≡ mark "Ca") }
    ensures { MakesMaybe o.old o.new result (type_of mode.entry (rec_of call.entry) o.old.names.id_counter) }
{
    let arg = object_freeze_call_arg(call, mode.scope.unresolved)?;
    let start = o.start();
    let frozen = Mode {
        frozen: true,
        ..mode
    };
    expr_to_ts_type(o, arg, frozen)?;
    if !has_readonly(arg) {
        o.back(start);
        return None;
    }
    Some(())
}
