// `readonly_of`, of a type of the tree, written where a Writer stands.
ghost use Rattle.std.specs.Prelude.{◌≡◌};
ghost use Rattle.definition.specs.Tree.{rec, encode};
ghost use Rattle.definition.specs.Grammar.{mark};
ghost use Rattle.definition.specs.Record.{head_of, kids_of, mark_of};
ghost use Rattle.definition.specs.Typing.{readonly_members, readonly_of};
ghost use Rattle.records.specs.Views.{rec_of};
ghost use Rattle.records.specs.Writers.{Writes};
ghost use Rattle.swc_helpers.specs.Maybe.{MakesType};
ghost use Rattle.typing.specs.Parts.{readonly_member, readonly_or_same};

use crate::readonly::plain_members;
use records::flags::{READONLY, with_flag};
use records::marks::Mark;
use records::tree::Record;
use records::writer::Writer;
use records::{DUMMY_SP, HEAD_SIZE, Head};
use swc_helpers::types::ts_readonly;

// `prop.readonly = true`, `index.readonly = true`: a member, readonly. An Op is copied as it is.
fn readonly_member(w: &mut Writer, member: Record)
    ensures { Writes w.old w.new (encode (readonly_member (rec_of member.entry))) }
{
    if member.mark() == Mark::Op {
        w.put_record(member);
        return;
    }
    w.put_head(Head {
        flags: with_flag(member.flags(), READONLY),
        ..member.head()
    });
    w.put(&member.part()[HEAD_SIZE..]);
}

// A type literal with each of its members readonly.
fn readonly_members(w: &mut Writer, type_lit: Record)
    requires { mark_of (rec_of type_lit) ≡ mark "Li" }
    ensures { Writes w.old w.new
        (encode (rec (head_of (rec_of type_lit.entry)) (readonly_members (kids_of (rec_of type_lit.entry))))) }
{
    w.put_head(type_lit.head());
    for member in type_lit.children() {
        readonly_member(w, member);
    }
}

// `readonly_of`.
fn readonly_of(w: &mut Writer, ty: Record) -> Option<()>
    ensures { MakesType w.old w.new (readonly_of (rec_of ty.entry)) result }
{
    match ty.mark() {
        Mark::Li => {
            if !plain_members(ty) {
                return None;
            }
            Some(readonly_members(w, ty))
        }
        Mark::Ay | Mark::Tu => {
            ts_readonly(w, DUMMY_SP);
            Some(w.put_record(ty))
        }
        Mark::Ft | Mark::Ct | Mark::Ro => Some(w.put_record(ty)),
        _ => None,
    }
}

// `readonly_of` a type where that has an answer, and the type as it is where not.
pub fn readonly_or_same(w: &mut Writer, ty: Record)
    ensures { Writes w.old w.new (encode (readonly_or_same (rec_of ty.entry))) }
{
    let Some(()) = readonly_of(w, ty) else {
        w.put_record(ty);
        return;
    };
}
