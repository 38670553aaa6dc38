// `prescan_module_ids`: the three sets of module-level names, as an index that is built once and asked by halving.
#![tactic(auto)]

ghost use Rattle.std.specs.Prelude.{◌≡◌, ◌&&◌, ◌+◌, ◌*◌, ◌-◌, ◌/◌, ◌<◌, ◌≤◌, length, take, drop};
ghost use Rattle.definition.specs.Tree.{text_at, tree_at};
ghost use Rattle.definition.specs.Grammar.{mark};
ghost use Rattle.definition.specs.Check.{deepest};
ghost use Rattle.definition.specs.Children.{AcceptedAt};
ghost use Rattle.definition.specs.ChildNames.{fd_name};
ghost use Rattle.definition.specs.Record.{kid, kids_of, mark_of};
ghost use Rattle.definition.specs.Prescan.{Question, is_array_type, refers_to_array, is_array_lit_init, add_class, add_const, named, add_declarator, add_decl, add_item, asked};
ghost use Rattle.records.specs.Views.{rec_of};
ghost use Rattle.index.specs.Index.{farthest, has};
ghost use Rattle.prescan.specs.Decls.{Named, add_var};
ghost use Rattle.prescan.specs.Table.{declaration_size, RoomFor, FilledWith, Indexed};

pub mod module_names;

use index::Names;
pub use index::{Entries, Sets};
use records::flags::{CONST, has_flag};
use records::marks::Mark;
use records::text::same_text;
use records::tree::Record;
use records::{CONTEXT_SIZE, DEEPEST, HEAD_SIZE};

// The bytes that a declaration of a name takes at least: four records, and the context of the name.
pub const DECLARATION_SIZE: usize = 4 * HEAD_SIZE + CONTEXT_SIZE;

// The length of a table that is enough for every tree, and of one for smaller trees: a table has room for half as many declarations, and each takes
// DECLARATION_SIZE bytes at least.
pub const LARGE_TABLE: usize = 16384;

pub const MIDDLE_TABLE: usize = 2048;

// `Decl::Fn`: the sets to which a function adds its name.
const FUNCTION: Sets = Sets {
    typeof_safe: true,
    non_generic_class: false,
    array_typed: false,
};

// The arm of `is_array_type` for `TsTypeRef`, at the name: `Array` or `ReadonlyArray` in any context, "only its symbol counts".
fn refers_to_array(name: Record) -> bool
    ensures { result ≡ refers_to_array (rec_of name.entry) }
{
    if name.mark() != Mark::Id {
        return false;
    }
    let symbol = name.symbol();
    same_text(symbol, b"Array") || same_text(symbol, b"ReadonlyArray")
}

// `is_array_type`
pub fn is_array_type(ty: Record) -> bool
    ensures { result ≡ is_array_type (rec_of ty.entry) }
{
    match ty.mark() {
        Mark::Ay | Mark::Tu => true,
        Mark::Ro => is_array_type(ty.children().first()),
        Mark::Rf => refers_to_array(ty.children().first()),
        _ => false,
    }
}

// `is_array_lit_init`: "Pr is untyped, though the prescan looks through it".
pub fn is_array_lit_init(init: Record) -> bool
    ensures { result ≡ is_array_lit_init (rec_of init.entry) }
{
    match init.mark() {
        Mark::Ar => true,
        Mark::Pr | Mark::Tc | Mark::Ts => is_array_lit_init(init.children().first()),
        Mark::As => is_array_type(init.children().rest().first()),
        _ => false,
    }
}

// `add_class`: the sets to which a Cl adds its name.
fn add_class(class: Record) -> Sets
    requires { mark_of (rec_of class) ≡ mark "Cl" }
    ensures { (q : Question) → has q result ≡ add_class q (rec_of class.entry) }
{
    Sets {
        typeof_safe: true,
        non_generic_class: class.children().first().mark() == Mark::No,
        array_typed: false,
    }
}

// `add_decl`, in the arm for `Decl::Var`: the sets to which a const adds its name, by its type and by its init.
fn add_const(ty: Record, init: Record) -> Sets
    ensures { (q : Question) → has q result ≡ add_const q (rec_of ty.entry) (rec_of init.entry) }
{
    let typed = ty.mark() != Mark::No;
    let typeof_safe = typed || matches!(init.mark(), Mark::Fx | Mark::Aw);
    let array_typed = if typed {
        is_array_type(ty)
    } else {
        is_array_lit_init(init)
    };
    Sets {
        typeof_safe,
        non_generic_class: false,
        array_typed,
    }
}

// `add_decl`, in the arm for `Decl::Var`: a declarator of a const, `if let Pat::Ident(ident) = &declarator.name`.
fn enter_declarator(declarator: Record, names: &mut Names)
    requires { RoomFor declarator names.old }
    ensures { FilledWith declarator.entry names.old names.new (λ q t. add_declarator q t (rec_of declarator.entry)) }
{
    if declarator.mark() != Mark::Vr {
        return;
    }
    let parts = declarator.children();
    let pattern = parts.first();
    if pattern.mark() != Mark::Bd {
        return;
    }
    let binding = pattern.children();
    let ident = binding.first();
    let ty = binding.rest().first();
    let init = parts.rest().first();
    let sets = add_const(ty, init);
    names.insert(ident.tree, ident.at, sets);
}

// `add_decl`, the arm for `Decl::Var`: the declarators of a const.
fn enter_var(var: Record, names: &mut Names)
    requires { RoomFor var names.old }
    ensures { FilledWith var.entry names.old names.new (λ q t. add_var q t (rec_of var.entry)) }
{
    if !has_flag(var.flags(), CONST) {
        return;
    }
    for declarator in var.children() {
        enter_declarator(declarator, names);
    }
}

// A function or a class, by its name, which stands in front of it: in these sets. An expression may have no name.
fn enter_named(decl: Record, sets: Sets, names: &mut Names)
    requires named { Named (mark_of (rec_of decl)) }
    requires room { RoomFor decl names.old }
    ensures { FilledWith decl.entry names.old names.new (λ q t. named t (kid fd_name (kids_of (rec_of decl.entry))) && has q sets) }
{
    let ident = decl.children().first();
    if ident.mark() == Mark::Id {
        names.insert(ident.tree, ident.at, sets);
    }
}

// `add_decl`, and the arms of `prescan_module_ids` for `ExportDefaultDecl`: a function and a class expression stand beside their name too.
fn enter_decl(decl: Record, names: &mut Names)
    requires { RoomFor decl names.old }
    ensures { FilledWith decl.entry names.old names.new (λ q t. add_decl q t (rec_of decl.entry)) }
{
    match decl.mark() {
        Mark::Fd | Mark::Fx => enter_named(decl, FUNCTION, names),
        Mark::Cd | Mark::Cx => {
            let class = decl.children().rest().first();
            enter_named(decl, add_class(class), names)
        }
        Mark::Vd => enter_var(decl, names),
        _ => {}
    }
}

// An item of the module: a declaration, or what an `ExportDecl` (Ed) or an `ExportDefaultDecl` (Xd) holds.
fn enter_item(item: Record, names: &mut Names)
    requires { RoomFor item names.old }
    ensures { FilledWith item.entry names.old names.new (λ q t. add_item q t (rec_of item.entry)) }
{
    match item.mark() {
        Mark::Ed | Mark::Xd => enter_decl(item.children().first(), names),
        _ => enter_decl(item, names),
    }
}

// `prescan_module_ids`: the names that the items of the module declare, entered from the middle of the table on, so that there is room on both sides.
pub fn enter_module(tree: &[u8], table: &mut [u32]) -> Entries
    requires accepted_at { AcceptedAt deepest tree.now 0 }
    requires tree_len_bound { length tree.now ≤ declaration_size * (length table.old / 2) }
    requires tree_len_bound_2 { length tree.now < farthest }
    ensures indexed { Indexed tree.now (take result.count (drop result.from table.new)) }
    ensures in_bounds { result.from + result.count ≤ length table.new }
{
    let mut names = Names::new(table);
    let root = Record {
        tree,
        at: 0,
        levels: DEEPEST,
    };
    for item in root.children() {
        enter_item(item, &mut names);
    }
    Entries {
        from: names.from,
        count: names.count,
    }
}

// The same, and the index of the names: the part of the table where they stand.
pub fn index<'a>(tree: &[u8], table: &'a mut [u32]) -> &'a [u32]
    requires accepted_at { AcceptedAt deepest tree.now 0 }
    requires tree_len_bound { length tree.now ≤ declaration_size * (length table.old / 2) }
    requires tree_len_bound_2 { length tree.now < farthest }
    ensures { Indexed tree.now result.now }
{
    let Entries { from, count } = enter_module(tree, table);
    Names { table, from, count }.into_entries()
}
