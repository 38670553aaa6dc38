// Enum members, as records: a member keeps its init where that is valid.
ghost use Rattle.std.specs.Prelude.{◌≡◌};
ghost use Rattle.definition.specs.Record.{each};
ghost use Rattle.definition.specs.Enums.{enum_init, enum_member};
ghost use Rattle.records.specs.Views.{rec_of, recs_of};
ghost use Rattle.output.specs.Outputs.{Keeps, KeepsAll};

use crate::enums::valid_enum_init_expr;
use output::Output;
use records::marks::Mark;
use records::tree::{Record, Records};

// The init of an Em.
fn enum_init(o: &mut Output, init: Record)
    ensures { Keeps o.old o.new (enum_init (rec_of init.entry) o.old.names.id_counter).0 }
{
    if init.mark() == Mark::No || valid_enum_init_expr(init) {
        o.keep(init);
        return;
    }
    o.out.put_absent();
}

// A child of an En: an Em, or its name or an Op, which are left as they are.
fn enum_member(o: &mut Output, member: Record)
    ensures { Keeps o.old o.new (enum_member (rec_of member.entry) o.old.names.id_counter).0 }
{
    if member.mark() != Mark::Em {
        o.keep(member);
        return;
    }
    let name = o.begin(member);
    let init = o.keep_next(name);
    enum_init(o, init.first());
    o.keep_all(init.rest());
}

// The children of an En.
pub fn enum_members(o: &mut Output, members: Records)
    ensures { KeepsAll o.old o.new (each (λ i. enum_member) 0 (recs_of members.entry) o.old.names.id_counter).0 }
{
    for member in members {
        enum_member(o, member);
    }
}
