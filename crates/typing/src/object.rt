// `Expr::Object`: the type literal of the members that the properties give.
ghost use Rattle.std.specs.Prelude.{◌≡◌};
ghost use Rattle.definition.specs.Grammar.{mark};
ghost use Rattle.definition.specs.Record.{mark_of};
ghost use Rattle.records.specs.Views.{rec_of};
ghost use Rattle.output.specs.Outputs.{Makes, MakesCounted};
ghost use Rattle.typing.specs.Values.{Ready};
ghost use Rattle.typing.specs.Steps.{object_type, member_type};

use crate::exprs::{Mode, expr_to_ts_type, is_readonly};
use crate::fitting::fits;
use crate::keys::{put_keyed, put_shorthand};
use crate::leaf::ident_to_ts_type;
use output::Output;
use records::diagnostics::FastCheckDtsDiagnostic;
use records::marks::Mark;
use records::tree::Record;
use records::{HEAD_SIZE, Head};

// `Expr::Object`.
#[inline(never)]
#[cycle(types)]
pub fn object_type(o: &mut Output, object: Record, mode: Mode)
    requires { Ready o.old object mode.scope }
    ensures { Makes o.old o.new (object_type mode.entry (rec_of object.entry) o.old.names.id_counter) }
{
    let start = o.start();
    o.out.skip(HEAD_SIZE);
    let mut count = 0;
    for prop in object.children() {
        count += property_type(o, prop, mode);
    }
    let head = Head::made(Mark::Li, 0, object.range(), 0, count);
    o.out.put_front_at(start.at, head, b"");
}

// One of `obj.props`: how many members it gives.
#[cycle(types)]
fn property_type(o: &mut Output, prop: Record, mode: Mode) -> usize
    requires { Ready o.old prop mode.scope }
    ensures { MakesCounted o.old o.new result (member_type mode.entry (rec_of prop.entry) o.old.names.id_counter) }
{
    match prop.mark() {
        Mark::Kv => key_value(o, prop, mode),
        Mark::Sh => shorthand(o, prop, mode),
        Mark::Sp => {
            o.mark_diagnostic(prop, FastCheckDtsDiagnostic::UnableToInferTypeFromSpread);
            0
        }
        Mark::Op => 0,
        _ => {
            o.mark_diagnostic(prop, FastCheckDtsDiagnostic::UnableToInferTypeFromProp);
            0
        }
    }
}

// `Prop::KeyValue`.
#[cycle(types)]
fn key_value(o: &mut Output, prop: Record, mode: Mode) -> usize
    requires { Ready o.old prop mode.scope × (mark_of (rec_of prop) ≡ mark "Kv") }
    ensures { MakesCounted o.old o.new result (member_type mode.entry (rec_of prop.entry) o.old.names.id_counter) }
{
    let parts = prop.children();
    let value = parts.rest().first();
    let inner = Mode {
        frozen: false,
        ..mode
    };
    put_keyed(o, parts.first(), is_readonly(mode));
    let t = expr_to_ts_type(o, value, inner);
    o.or_any(
        t,
        value,
        FastCheckDtsDiagnostic::UnableToInferTypeFallbackAny,
    );
    1
}

// `Prop::Shorthand`.
fn shorthand(o: &mut Output, prop: Record, mode: Mode) -> usize
    requires { mark_of (rec_of prop) ≡ mark "Sh" }
    ensures { MakesCounted o.old o.new result (member_type mode.entry (rec_of prop.entry) o.old.names.id_counter) }
{
    let ident = prop.children().first();
    fits(ident);
    let start = o.start();
    put_shorthand(o.out, ident, is_readonly(mode));
    let Some(()) = ident_to_ts_type(o.out, ident, mode.scope, mode.as_const) else {
        o.back(start);
        o.mark_diagnostic(prop, FastCheckDtsDiagnostic::UnableToInferTypeFromProp);
        return 0;
    };
    1
}
