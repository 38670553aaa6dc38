// What stands before the parameters of a function's type, and before the type of a parameter that had a default, each written where a Writer stands.
ghost use Rattle.std.specs.Prelude.{◌≡◌, ◌++◌, ◌+◌, ◌≤◌, ◌<◌, ◌^◌, length};
ghost use Rattle.definition.specs.Tree.{count, encode};
ghost use Rattle.definition.specs.Grammar.{mark};
ghost use Rattle.definition.specs.Record.{head_of, kids_of, mark_of, symbol_of, kid};
ghost use Rattle.definition.specs.Names.{gen_unique_name};
ghost use Rattle.records.specs.Fields.{span, range_of};
ghost use Rattle.records.specs.Views.{rec_of};
ghost use Rattle.records.specs.Writers.{Writes};
ghost use Rattle.records.specs.Wrote.{sat};
ghost use Rattle.typing.specs.Unnamed.{Moved, Unnamed};
ghost use Rattle.typing.specs.Parts.{return_type, binding_front, unique_front, longest_front};

use names::generated::make_unique_ident;
use names::unique::{Names, unique_name_length};
use output::{Output, Start};
use records::marks::Mark;
use records::tree::Record;
use records::writer::Writer;
use records::{CONTEXT_SIZE, DUMMY_SP, HEAD_SIZE, Range};
use swc_helpers::types::any_type_ann;

// `return_type.map_or(any_type_ann(), |val| val)`.
fn put_return_type(w: &mut Writer, ty: Record)
    ensures { Writes w.old w.new (encode (return_type (rec_of ty.entry))) }
{
    if ty.mark() == Mark::No {
        any_type_ann(w, DUMMY_SP);
        return;
    }
    w.put_record(ty);
}

// `type_params` and the return type of a Fu or an Aw, behind the head of the type that is made of it.
pub fn put_fn_front(w: &mut Writer, fu: Record)
    requires { 2 ≤ count (kids_of (rec_of fu)) }
    ensures { Writes w.old w.new
        (encode (kid 0 (kids_of (rec_of fu.entry))) ++ encode (return_type (kid 1 (kids_of (rec_of fu.entry))))) }
{
    let kids = fu.children();
    w.put_record(kids.first());
    put_return_type(w, kids.rest().first());
}

// `BindingIdent { id: Ident::new(name, assign_pat.span, Default::default()), type_ann }`, before its type.
pub fn put_binding(w: &mut Writer, range: Range, name: &[u8])
    ensures { Writes w.old w.new (binding_front (span range) name.now) }
{
    w.put_made_front(Mark::Bd, 0, range, 2);
    w.put_ident(range, name);
}

// The same with the name of the Bd that is the left side of an Ag.
pub fn put_named(w: &mut Writer, ag: Record)
    requires assignment { mark_of (rec_of ag) ≡ mark "Ag" }
    requires named { mark_of (kid 0 (kids_of (rec_of ag))) ≡ mark "Bd" }
    ensures { Writes w.old w.new
        (binding_front (span (range_of (head_of (rec_of ag.entry)))) (symbol_of (kid 0 (kids_of (kid 0 (kids_of (rec_of ag.entry))))))) }
{
    let ident = ag.children().first().children().first();
    put_binding(w, ag.range(), ident.symbol());
}

// The same with a name that is generated: the counter is raised.
pub fn put_unique_binding(names: &mut Names, w: &mut Writer, range: Range)
    requires { names.old.id_counter + 1 < 2 ^ 64 }
    ensures counter { names.new.id_counter ≡ names.old.id_counter + 1 }
    ensures written { Writes w.old w.new (binding_front (span range) (gen_unique_name (names.old.id_counter + 1))) }
{
    w.put_made_front(Mark::Bd, 0, range, 2);
    make_unique_ident(names, w, range);
}

// How long that is.
pub fn unique_binding_size(counter: usize) -> usize
    ensures { (result ≡ unique_front counter) × (result ≤ longest_front) }
{
    HEAD_SIZE + HEAD_SIZE + CONTEXT_SIZE + unique_name_length(counter)
}

// What stands from `from` to the writer's place moved up, as far as there is room; the writer goes with it.
fn move_up(w: &mut Writer, from: usize, by: usize)
    requires { from ≤ w.old.at }
    ensures moved { Moved w.old.out.now w.new.out.now from w.old.at by }
    ensures buffer { w.new.out.ghost_name ≡ w.old.out.ghost_name }
    ensures position { w.new.at ≡ sat w.old.at by }
{
    let start = from.saturating_add(by);
    if start < w.out.len() {
        let count = (w.at - from).min(w.out.len() - start);
        w.out.copy_within(from..from + count, start);
    }
    w.skip(by);
}

// A parameter whose name is generated, once its type has been written behind the room for the name that the counter gave before: the name that
// it gives now may be longer, and then the type moves up.
pub fn put_unnamed(o: &mut Output, ag: Record, start: Start, counter: usize)
    requires raised { (counter ≤ o.old.names.id_counter) × (o.old.names.id_counter < length ag.tree.now) }
    requires behind { sat start.at (unique_front (counter + 1)) ≤ o.old.out.now.at }
    ensures { Unnamed o.old o.new start counter (span (range_of (head_of (rec_of ag.entry)))) }
{
    let room = unique_binding_size(counter + 1);
    let by = unique_binding_size(o.names.id_counter + 1) - room;
    move_up(o.out, start.at.saturating_add(room), by);
    let end = o.out.at;
    o.out.at = start.at;
    put_unique_binding(&mut o.names, o.out, ag.range());
    o.out.at = end;
}
