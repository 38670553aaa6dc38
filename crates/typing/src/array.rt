// `Expr::Array`: the tuple of the elements' types.
ghost use Rattle.std.specs.Prelude.{◌≡◌};
ghost use Rattle.definition.specs.Grammar.{mark};
ghost use Rattle.definition.specs.Record.{mark_of};
ghost use Rattle.records.specs.Views.{rec_of};
ghost use Rattle.output.specs.Outputs.{MakesMaybe};
ghost use Rattle.typing.specs.Values.{Ready, type_of};
ghost use Rattle.typing.specs.Steps.{tuple_type, element_type, rest_type, MakesSome};

use crate::exprs::{Mode, expr_to_ts_type, is_readonly};
use crate::fitting::fits;
use crate::leaf::array_ident;
use output::Output;
use records::diagnostics::FastCheckDtsDiagnostic;
use records::marks::Mark;
use records::tree::Record;
use records::{DUMMY_SP, HEAD_SIZE, Head};
use swc_helpers::types::{ts_readonly, ts_rest_type, ts_tuple_element};

// `Expr::Array`: a tuple, readonly where `as_readonly` or `readonly_of` asks for it.
#[inline(never)]
#[cycle(types)]
pub fn array_type(o: &mut Output, array: Record, mode: Mode) -> Option<()>
    requires { Ready o.old array mode.scope × (mark_of (rec_of array) ≡ mark "Ar") }
    ensures { MakesMaybe o.old o.new result (type_of mode.entry (rec_of array.entry) o.old.names.id_counter) }
{
    if !is_readonly(mode) {
        return tuple_type(o, array, mode);
    }
    let start = o.start();
    ts_readonly(o.out, DUMMY_SP);
    let Some(()) = tuple_type(o, array, mode) else {
        o.back(start);
        return None;
    };
    Some(())
}

// `TsTupleType`, from the elements of an Ar.
#[cycle(types)]
fn tuple_type(o: &mut Output, array: Record, mode: Mode) -> Option<()>
    requires { Ready o.old array mode.scope }
    ensures { MakesMaybe o.old o.new result (tuple_type mode.entry (rec_of array.entry) o.old.names.id_counter) }
{
    let start = o.start();
    o.out.skip(HEAD_SIZE);
    let mut count = 0;
    let mut elements = array.children();
    while 0 < elements.count {
        let Some(made) = element_type(o, elements.first(), mode) else {
            o.back(start);
            return None;
        };
        elements = elements.rest();
        count += made;
    }
    let head = Head::made(Mark::Tu, 0, array.range(), 0, count);
    o.out.put_front_at(start.at, head, b"");
    Some(())
}

// One of `arr.elems`, which is one element of the tuple; the Ops of the array stand behind them. `None` where the array has no type.
#[cycle(types)]
fn element_type(o: &mut Output, element: Record, mode: Mode) -> Option<usize>
    requires { Ready o.old element mode.scope }
    ensures { MakesSome o.old o.new result (element_type mode.entry (rec_of element.entry) o.old.names.id_counter) }
{
    match element.mark() {
        Mark::Op => Some(0),
        Mark::Sp => spread_type(o, element, mode),
        Mark::No => {
            ts_tuple_element(o.out, DUMMY_SP);
            o.put_any(DUMMY_SP);
            Some(1)
        }
        _ => {
            let inner = Mode {
                frozen: false,
                ..mode
            };
            ts_tuple_element(o.out, DUMMY_SP);
            let t = expr_to_ts_type(o, element, inner);
            o.or_any(t, element, FastCheckDtsDiagnostic::UnableToInferType);
            Some(1)
        }
    }
}

// `expr_or_spread.spread.is_some()`: a rest of what is spread, or "give up on the whole array".
#[cycle(types)]
fn spread_type(o: &mut Output, spread: Record, mode: Mode) -> Option<usize>
    requires { Ready o.old spread mode.scope × (mark_of (rec_of spread) ≡ mark "Sp") }
    ensures { MakesSome o.old o.new result (element_type mode.entry (rec_of spread.entry) o.old.names.id_counter) }
{
    let start = o.start();
    ts_tuple_element(o.out, DUMMY_SP);
    ts_rest_type(o.out, DUMMY_SP);
    let Some(()) = rest_type(o, spread.children().first(), mode) else {
        o.back(start);
        o.mark_diagnostic(spread, FastCheckDtsDiagnostic::UnableToInferTypeFromSpread);
        return None;
    };
    Some(1)
}

// `rest_type`: an array-typed name, or an array literal (`as_readonly` off).
#[cycle(types)]
fn rest_type(o: &mut Output, expr: Record, mode: Mode) -> Option<()>
    requires { Ready o.old expr mode.scope }
    ensures { MakesMaybe o.old o.new result (rest_type mode.entry (rec_of expr.entry) o.old.names.id_counter) }
{
    match expr.mark() {
        Mark::Id => {
            fits(expr);
            array_ident(o.out, expr, mode.scope)
        }
        Mark::Ar => {
            let inner = Mode {
                as_readonly: false,
                frozen: false,
                ..mode
            };
            expr_to_ts_type(o, expr, inner)
        }
        _ => None,
    }
}
