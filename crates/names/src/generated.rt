// Names that are made, written where a Writer stands: `gen_unique_name`, and the counter that it raises.
ghost use Rattle.std.specs.Prelude.{◌≡◌, ◌+◌, ◌<◌, ◌^◌};
ghost use Rattle.definition.specs.Tree.{encode};
ghost use Rattle.definition.specs.Record.{ident};
ghost use Rattle.definition.specs.Names.{decimal, gen_unique_name};
ghost use Rattle.records.specs.Fields.{span};
ghost use Rattle.records.specs.Writers.{Writes};

use crate::unique::{Names, unique_name_length};
use records::Range;
use records::writer::Writer;

// `format!("{}", n)`: the decimal digits of n.
pub fn put_decimal(w: &mut Writer, n: usize)
    ensures { Writes w.old w.new (decimal n) }
{
    if n < 10 {
        w.put_byte(b'0' + n as u8);
        return;
    }
    put_decimal(w, n / 10);
    w.put_byte(b'0' + (n % 10) as u8);
}

// `format!("_dts_{}", self.id_counter)`: the name that the counter gave, also where it stands again (`name.clone()`).
pub fn put_unique_name(w: &mut Writer, id_counter: usize)
    ensures { Writes w.old w.new (gen_unique_name id_counter) }
{
    w.put(b"_dts_");
    put_decimal(w, id_counter);
}

// `gen_unique_name`: "The name counter is lent by &mut to the step that makes a name". It is raised, and the name is written.
pub fn gen_unique_name(names: &mut Names, w: &mut Writer)
    requires { names.old.id_counter + 1 < 2 ^ 64 }
    ensures counter { names.new.id_counter ≡ names.old.id_counter + 1 }
    ensures written { Writes w.old w.new (gen_unique_name (names.old.id_counter + 1)) }
{
    names.id_counter += 1;
    put_unique_name(w, names.id_counter);
}

// `Ident::new(name, span, ..)` with a name that is generated: the counter is raised.
pub fn make_unique_ident(names: &mut Names, w: &mut Writer, range: Range)
    requires { names.old.id_counter + 1 < 2 ^ 64 }
    ensures counter { names.new.id_counter ≡ names.old.id_counter + 1 }
    ensures written { Writes w.old w.new (encode (ident (span range) (gen_unique_name (names.old.id_counter + 1)))) }
{
    w.put_ident_front(range, unique_name_length(names.id_counter + 1));
    gen_unique_name(names, w);
}

// The same name once more: `name.clone()`.
pub fn put_unique_ident(w: &mut Writer, range: Range, id_counter: usize)
    ensures { Writes w.old w.new (encode (ident (span range) (gen_unique_name id_counter))) }
{
    w.put_ident_front(range, unique_name_length(id_counter));
    put_unique_name(w, id_counter);
}
