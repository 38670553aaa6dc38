// Declarations that hold no items, as records, with other flags: `Decl::Class`, `Decl::Fn`, `Decl::Var` and `Decl::TsEnum` of `decl_to_type_decl`; and
// what an Xd holds.
ghost use Rattle.std.specs.Prelude.{◌≡◌, ◌⊎◌};
ghost use Rattle.definition.specs.Grammar.{mark};
ghost use Rattle.definition.specs.Record.{mark_of, flag1, second};
ghost use Rattle.definition.specs.Items.{without_body};
ghost use Rattle.records.specs.Views.{rec_of};
ghost use Rattle.output.specs.Outputs.{Keeps, Makes};
ghost use Rattle.typing.specs.Values.{Ready};
ghost use Rattle.items.specs.InScope.{class_in, function_in, declarators_in, members_of};

use crate::declarators::declarators;
use crate::enum_members::enum_members;
use classes::class_body::class_body_to_type;
use classes::functions::handle_function;
use output::Output;
use prescan::module_names::Scope;
use records::flags::{DECLARE, Flags, with_flag, without_flag};
use records::tree::Record;

// "get declare at module level and lose it inside Nb": the flags of a declaration.
pub fn declared(flags: Flags, top: bool) -> Flags
    ensures { result ≡ flag1 top flags }
{
    if top {
        return with_flag(flags, DECLARE);
    }
    without_flag(flags, DECLARE)
}

// A Cd or a Cx: its class is the second child.
pub fn with_class(o: &mut Output, decl: Record, flags: Flags, scope: Scope, list: &[u8])
    requires ready { Ready o.old decl scope }
    requires fact { (mark_of (rec_of decl) ≡ mark "Cd") ⊎ (mark_of (rec_of decl) ≡ mark "Cx") }
    ensures { Makes o.old o.new (class_in list.now scope.entry flags (rec_of decl.entry) o.old.names.id_counter) }
{
    let ident = o.begin_with(decl, flags);
    let class = o.keep_next(ident);
    class_body_to_type(o, class.first(), scope, list);
    o.keep_all(class.rest());
}

// An Fd: its function is the second child.
pub fn with_function(o: &mut Output, decl: Record, flags: Flags, scope: Scope)
    requires { Ready o.old decl scope × (mark_of (rec_of decl) ≡ mark "Fd") }
    ensures { Makes o.old o.new (function_in scope.entry flags (rec_of decl.entry) o.old.names.id_counter) }
{
    let ident = o.begin_with(decl, flags);
    let function = o.keep_next(ident);
    handle_function(o, function.first(), scope, false);
    o.keep_all(function.rest());
}

// A Vd.
pub fn with_declarators(o: &mut Output, decl: Record, flags: Flags, scope: Scope)
    requires { Ready o.old decl scope }
    ensures { Makes o.old o.new (declarators_in scope.entry flags (rec_of decl.entry) o.old.names.id_counter) }
{
    let vars = o.begin_with(decl, flags);
    declarators(o, vars, scope);
}

// An En.
pub fn with_members(o: &mut Output, decl: Record, flags: Flags)
    ensures { Keeps o.old o.new (members_of flags (rec_of decl.entry) o.old.names.id_counter).0 }
{
    let members = o.begin_with(decl, flags);
    enum_members(o, members);
}

// The Fu of a function exported as default: it loses "the body only".
fn without_body(o: &mut Output, function: Record)
    requires { mark_of (rec_of function) ≡ mark "Fu" }
    ensures { Keeps o.old o.new (without_body (rec_of function.entry) o.old.names.id_counter).0 }
{
    let type_params = o.begin(function);
    let return_type = o.keep_next(type_params);
    let body = o.keep_next(return_type);
    let rest = o.drop_next(body);
    o.keep_all(rest);
}

// The Fx of a function exported as default.
pub fn bodiless(o: &mut Output, expr: Record)
    requires { mark_of (rec_of expr) ≡ mark "Fx" }
    ensures { Keeps o.old o.new (second without_body (rec_of expr.entry) o.old.names.id_counter).0 }
{
    let ident = o.begin(expr);
    let function = o.keep_next(ident);
    without_body(o, function.first());
    o.keep_all(function.rest());
}
