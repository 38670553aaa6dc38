// Members that typing makes, with their keys, before their types.
ghost use Rattle.std.specs.Prelude.{◌≡◌, cond, ◌+◌};
ghost use Rattle.definition.specs.Grammar.{mark};
ghost use Rattle.definition.specs.Record.{head_of, mark_of, text_of, symbol_of, ident_at};
ghost use Rattle.definition.specs.Typing.{key_kind, key_flag, key_expr};
ghost use Rattle.definition.specs.Transform.{texts_fit};
ghost use Rattle.records.specs.Marks.{number_of};
ghost use Rattle.records.specs.Views.{rec_of};
ghost use Rattle.records.specs.Writers.{Writes};
ghost use Rattle.output.specs.Outputs.{Puts, Keeps};
ghost use Rattle.typing.specs.Parts.{signature_front};

use output::Output;
use records::DUMMY_SP;
use records::flags::{COMPUTED, Flags};
use records::marks::Mark;
use records::tree::Record;
use records::writer::Writer;

// "text length (2)": the longest symbol that fits beside a context.
const LONGEST_SYMBOL: usize = 65531;

// The flags of a member by its key: readonly, and computed for a number, a big integer and an expression.
fn signature_flags(key: Mark, readonly: bool) -> Flags
    ensures { result ≡ cond readonly 1 0 + key_flag (key_kind (number_of key)) }
{
    match key {
        Mark::Ki | Mark::Ss => readonly as Flags,
        _ => COMPUTED + readonly as Flags,
    }
}

// `PropName::Ident` as `Expr::Ident`, of a Ki.
fn put_name(o: &mut Output, key: Record)
    ensures { Keeps o.old o.new (ident_at (head_of (rec_of key.entry)) (text_of (rec_of key.entry))) }
{
    let name = key.text();
    o.out.put_ident(key.range(), name);
    if LONGEST_SYMBOL < name.len() {
        o.fits = false;
    }
}

// The key of a member as an expression: `Expr::Ident` of a Ki, `Expr::Lit` of a Ss, a Nu or a Bi, and `*computed.expr` of a Kc.
fn put_key(o: &mut Output, key: Record)
    ensures { Keeps o.old o.new (key_expr (key_kind (mark_of (rec_of key.entry))) (rec_of key.entry)) }
{
    match key.mark() {
        Mark::Ki => put_name(o, key),
        Mark::Kc => o.keep(key.children().first()),
        _ => o.keep(key),
    }
}

// `TsPropertySignature` with the key of a Kv, before its type: "`Ps` (1 readonly, 2 computed, 4 optional) expression type?".
pub fn put_keyed(o: &mut Output, key: Record, readonly: bool)
    ensures { Puts o.old o.new
        (signature_front (key_expr (key_kind (mark_of (rec_of key.entry))) (rec_of key.entry)) readonly (key_flag (key_kind (mark_of (rec_of key.entry)))))
        (texts_fit (key_expr (key_kind (mark_of (rec_of key.entry))) (rec_of key.entry))) }
{
    let flags = signature_flags(key.mark(), readonly);
    o.out.put_made_front(Mark::Ps, flags, DUMMY_SP, 2);
    put_key(o, key);
}

// `TsPropertySignature` with the name of an Id, before its type.
pub fn put_shorthand(w: &mut Writer, ident: Record, readonly: bool)
    requires { mark_of (rec_of ident) ≡ mark "Id" }
    ensures { Writes w.old w.new
        (signature_front (ident_at (head_of (rec_of ident.entry)) (symbol_of (rec_of ident.entry))) readonly 0) }
{
    w.put_made_front(Mark::Ps, readonly as Flags, DUMMY_SP, 2);
    w.put_ident(ident.range(), ident.symbol());
}
