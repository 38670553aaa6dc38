// Classes, as records on their way into an Output: `class_body_to_type` and the members.
ghost use Rattle.std.specs.Prelude.{◌≡◌};
ghost use Rattle.definition.specs.Grammar.{mark};
ghost use Rattle.definition.specs.Record.{kids_of, mark_of, kid};
ghost use Rattle.definition.specs.Names.{valid_prop_name};
ghost use Rattle.definition.specs.Classes.{constructor, method, prop_type, class_prop, member, class};
ghost use Rattle.records.specs.Views.{rec_of};
ghost use Rattle.names.specs.Keys.{key_of};
ghost use Rattle.output.specs.Outputs.{Keeps, Makes, MakesCounted};
ghost use Rattle.typing.specs.Values.{Ready, typing_in};

use crate::functions::{handle_func_params, handle_function};
use crate::overload_list::is_impl_with_overloads;
use names::prop_name::{Key, valid_prop_name};
use output::Output;
use prescan::module_names::Scope;
use records::DUMMY_SP;
use records::flags::{DECLARE, DEFINITE, SETTER, has_flag, without_flag};
use records::marks::Mark;
use records::tree::Record;
use typing::exprs::{expr_to_ts_type, mutable};

// What `valid_prop_name` gave: the key that stands, or a fresh Kc over the expression, with its range.
fn put_prop_name(o: &mut Output, key: Key)
    ensures { Keeps o.old o.new (key_of key.entry) }
{
    match key {
        Key::Stands(name) => o.keep(name),
        Key::Computed(expr) => {
            o.out.put_made_front(Mark::Kc, 0, expr.range(), 1);
            o.keep(expr);
        }
    }
}

// `ClassMember::Constructor`. Each of these functions tells how many records it made.
fn constructor(o: &mut Output, r: Record, scope: Scope) -> usize
    requires { Ready o.old r scope × (mark_of (rec_of r) ≡ mark "Co") }
    ensures { MakesCounted o.old o.new result (constructor (typing_in scope.entry) (rec_of r.entry) o.old.names.id_counter) }
{
    let body = o.begin(r);
    let params = o.drop_next(body);
    handle_func_params(o, params, scope);
    1
}

// `ClassMember::Method`; a setter has flag 1.
fn method(o: &mut Output, r: Record, scope: Scope) -> usize
    requires { Ready o.old r scope × (mark_of (rec_of r) ≡ mark "Me") }
    ensures { MakesCounted o.old o.new result (method (typing_in scope.entry) (rec_of r.entry)
        (valid_prop_name scope.entry.unresolved (kid 0 (kids_of (rec_of r.entry)))) o.old.names.id_counter) }
{
    let Some(key) = valid_prop_name(r.children().first(), scope.unresolved) else {
        return 0;
    };
    let function = o.begin(r).rest();
    put_prop_name(o, key);
    handle_function(o, function.first(), scope, has_flag(r.flags(), SETTER));
    o.keep_all(function.rest());
    1
}

// The type of a property, with its value: "Cp without type but with value: typed (off, off), else any with no diagnostic of its own".
fn prop_type(o: &mut Output, type_ann: Record, value: Record, scope: Scope)
    requires { Ready o.old value scope }
    ensures { Makes o.old o.new (prop_type (typing_in scope.entry) (rec_of value.entry) (rec_of type_ann.entry) o.old.names.id_counter) }
{
    if value.mark() == Mark::No {
        o.keep(type_ann);
        return;
    }
    if type_ann.mark() != Mark::No {
        o.keep(type_ann);
        return;
    }
    let Some(()) = expr_to_ts_type(o, value, mutable(scope)) else {
        o.put_any(DUMMY_SP);
        return;
    };
}

// `ClassMember::ClassProp`: "Value, declare, definite go".
fn class_prop(o: &mut Output, r: Record, scope: Scope) -> usize
    requires { Ready o.old r scope × (mark_of (rec_of r) ≡ mark "Cp") }
    ensures { MakesCounted o.old o.new result (class_prop (typing_in scope.entry) (rec_of r.entry)
        (valid_prop_name scope.entry.unresolved (kid 0 (kids_of (rec_of r.entry)))) o.old.names.id_counter) }
{
    let Some(key) = valid_prop_name(r.children().first(), scope.unresolved) else {
        return 0;
    };
    let undeclared = without_flag(r.flags(), DECLARE);
    let type_ann = o.begin_with(r, without_flag(undeclared, DEFINITE)).rest();
    put_prop_name(o, key);
    let value = type_ann.rest();
    prop_type(o, type_ann.first(), value.first(), scope);
    let rest = o.drop_next(value);
    o.keep_all(rest);
    1
}

// One of the members: "Co and Me whose range is listed go, then Dm and Me|Cp without a valid key, silently".
fn class_member(o: &mut Output, r: Record, scope: Scope, list: &[u8]) -> usize
    requires { Ready o.old r scope }
    ensures { MakesCounted o.old o.new result
        (member list.now scope.entry.unresolved (typing_in scope.entry) (rec_of r.entry) o.old.names.id_counter) }
{
    match r.mark() {
        Mark::Co if is_impl_with_overloads(list, r) => 0,
        Mark::Co => constructor(o, r, scope),
        Mark::Me if is_impl_with_overloads(list, r) => 0,
        Mark::Me => method(o, r, scope),
        Mark::Cp => class_prop(o, r, scope),
        Mark::Dm => 0,
        _ => {
            o.keep(r);
            1
        }
    }
}

// `class_body_to_type`, of a Cl: its type parameters stand, its members follow.
pub fn class_body_to_type(o: &mut Output, class_body: Record, scope: Scope, list: &[u8])
    requires { Ready o.old class_body scope × (mark_of (rec_of class_body) ≡ mark "Cl") }
    ensures { Makes o.old o.new
        (class list.now scope.entry.unresolved (typing_in scope.entry) (rec_of class_body.entry) o.old.names.id_counter) }
{
    let start = o.start();
    o.skip_front(class_body);
    let members = o.keep_next(class_body.children());
    let mut count = 1;
    for member in members {
        count += class_member(o, member, scope, list);
    }
    o.put_front_at(start, class_body, count);
}
