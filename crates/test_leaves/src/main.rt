// The functions of `swc_helpers`, `prescan` and `names` on every record of small trees, and what they give, a line each. Standard input holds
// the trees, each behind its length in two bytes. What has to be printed comes from the Rust: `oracle leaves`.
#![tactic(auto)]

ghost use Rattle.std.specs.Prelude.{◌≡◌};
ghost use Rattle.definition.specs.Grammar.{mark};
ghost use Rattle.definition.specs.Record.{mark_of};
ghost use Rattle.records.specs.Views.{rec_of};

use console::shown::Hex;
use console::{ROOM, UNRESOLVED, front};
use names::generated::gen_unique_name;
use names::unique::Names;
use names::{Key, is_well_known_symbol_expr, valid_prop_name};
use prescan::module_names::Index;
use prescan::{LARGE_TABLE, is_array_lit_init, is_array_type};
use records::marks::Mark;
use records::tree::Record;
use records::writer::Writer;
use records::{DEEPEST, DUMMY_SP};
use std::{fmt, io};
use swc_helpers::{DeclMutabilityKind, TsKeywordTypeKind, types};

// ---- Lines: the record's offset, what was asked, the answer

fn yes(answer: bool) -> &'static str {
    if answer { "yes" } else { "no" }
}

// What may be missing.
#[derive(Clone, Copy)]
struct Maybe<T>(Option<T>);

impl<T: fmt::Display> fmt::Display for Maybe<T> {
    fn fmt<W: fmt::Write>(&self, f: &mut fmt::Formatter<W>) -> fmt::Result {
        match &self.0 {
            Some(value) => write!(f, "{value}"),
            None => write!(f, "none"),
        }
    }
}

// The line of what `write` writes, which may be nothing.
fn show_made<D: fmt::Display + Drop, F: FnOnce(&mut Writer) -> Option<()>>(
    rt: &impl Print,
    label: D,
    write: F,
) -> io::Result<()>
    requires { F.IsAlwaysCallable write }
{
    let mut out = [0u8; ROOM];
    let mut w = Writer {
        out: &mut out,
        at: 0,
    };
    let made = write(&mut w);
    let end = w.at;
    println!(rt; "{label} {}", Maybe(made.map(|()| Hex(front(&out, end)))))
}

// The two lines of what `write` writes of a record.
fn show_kinds<F: Fn(&mut Writer, Record, DeclMutabilityKind) -> Option<()>>(
    rt: &impl Print,
    record: Record,
    asked: &str,
    write: F,
) -> io::Result<()>
    requires { F.IsAlwaysCallable write }
{
    let at = record.at;
    show_made(
        rt,
        format_args!("{at} {asked} const"),
        |w| write(w, record, DeclMutabilityKind::Const),
    )?;
    show_made(
        rt,
        format_args!("{at} {asked} mutable"),
        |w| write(w, record, DeclMutabilityKind::Mutable),
    )
}

// ---- Types

fn show_type(rt: &impl Print, ty: Record) -> io::Result<()> {
    let at = ty.at;
    println!(rt; "{at} is_array_type {}", yes(is_array_type(ty)))?;
    show_made(rt, format_args!("{at} ts_readonly"), |w| {
        types::ts_readonly(w, DUMMY_SP);
        Some(w.put_record(ty))
    })
}

// ---- Expressions

fn show_expression(rt: &impl Print, expr: Record) -> io::Result<()> {
    let at = expr.at;
    println!(rt; "{at} is_array_lit_init {}", yes(is_array_lit_init(expr)))?;
    let symbol = is_well_known_symbol_expr(expr, UNRESOLVED);
    println!(rt; "{at} is_well_known_symbol_expr {}", yes(symbol))
}

// A literal, and a literal under a minus.
fn show_literal(rt: &impl Print, lit: Record) -> io::Result<()> {
    show_kinds(rt, lit, "maybe_lit_to_ts_type", types::maybe_lit_to_ts_type)?;
    show_kinds(rt, lit, "minus_lit_to_ts_type", types::minus_lit_to_ts_type)
}

fn show_template(rt: &impl Print, te: Record) -> io::Result<()> {
    show_kinds(rt, te, "tpl_to_ts_type", |w, te, kind| {
        Some(types::tpl_to_ts_type(w, te, kind))
    })
}

// The record that stands as the key, or over which a computed key is made.
fn show_key(rt: &impl Print, key: Record) -> io::Result<()> {
    let at = key.at;
    match valid_prop_name(key, UNRESOLVED) {
        Some(Key::Stands(key)) => println!(rt; "{at} valid_prop_name stands {}", Hex(key.part())),
        Some(Key::Computed(expr)) => {
            println!(rt; "{at} valid_prop_name computed {}", Hex(expr.part()))
        }
        None => println!(rt; "{at} valid_prop_name none"),
    }
}

fn show_call(rt: &impl Print, call: Record) -> io::Result<()>
    requires { mark_of (rec_of call) ≡ mark "Ca" }
{
    let arg = types::object_freeze_call_arg(call, UNRESOLVED);
    let arg = Maybe(arg.map(|arg| Hex(arg.part())));
    println!(rt; "{} object_freeze_call_arg {arg}", call.at)
}

// ---- Identifiers: the three questions, and the types that are made of a name

fn show_identifier(rt: &impl Print, ident: Record, names: Index) -> io::Result<()>
    requires { mark_of (rec_of ident) ≡ mark "Id" }
{
    let at = ident.at;
    let sets = names.look_up(ident);
    println!(rt; "{at} typeof_safe {}", yes(sets.typeof_safe))?;
    println!(rt; "{at} non_generic_class {}", yes(sets.non_generic_class))?;
    println!(rt; "{at} array_typed {}", yes(sets.array_typed))?;
    let symbol = ident.symbol();
    show_made(rt, format_args!("{at} type_ref"), |w| {
        Some(types::type_ref(w, DUMMY_SP, symbol))
    })?;
    show_made(rt, format_args!("{at} ts_type_query"), |w| {
        Some(types::ts_type_query(w, DUMMY_SP, ident))
    })?;
    show_made(rt, format_args!("{at} reference_to"), |w| {
        Some(types::reference_to(w, DUMMY_SP, ident))
    })?;
    // the tuple's element that a spread of the name becomes
    show_made(rt, format_args!("{at} ts_rest_type"), |w| {
        types::ts_tuple_element(w, DUMMY_SP);
        types::ts_rest_type(w, DUMMY_SP);
        Some(types::ts_type_query(w, DUMMY_SP, ident))
    })
}

// ---- Trees

// The lines of a record, by its mark.
fn show_record(rt: &impl Print, record: Record, names: Index) -> io::Result<()> {
    match record.mark() {
        Mark::Ki | Mark::Kc => show_key(rt, record),
        Mark::Ss | Mark::Nu | Mark::Bi => {
            show_expression(rt, record)?;
            show_literal(rt, record)?;
            show_key(rt, record)
        }
        Mark::Bl | Mark::Nl | Mark::Re | Mark::Jt => {
            show_expression(rt, record)?;
            show_literal(rt, record)
        }
        Mark::Id => {
            show_expression(rt, record)?;
            show_identifier(rt, record, names)
        }
        Mark::Te => {
            show_expression(rt, record)?;
            show_template(rt, record)
        }
        Mark::Ca => {
            show_expression(rt, record)?;
            show_call(rt, record)
        }
        Mark::Ar
        | Mark::Ob
        | Mark::Fx
        | Mark::Aw
        | Mark::Mi
        | Mark::Ne
        | Mark::Mb
        | Mark::Bn
        | Mark::Oc
        | Mark::Tc
        | Mark::Nn
        | Mark::Pr
        | Mark::As
        | Mark::Ts
        | Mark::Ta
        | Mark::Cx
        | Mark::Oe => show_expression(rt, record),
        Mark::Kw
        | Mark::Tl
        | Mark::Rf
        | Mark::Tf
        | Mark::Li
        | Mark::Ay
        | Mark::Tu
        | Mark::Rt
        | Mark::Ro
        | Mark::Ft
        | Mark::Ct
        | Mark::Ot => show_type(rt, record),
        _ => Ok(()),
    }
}

// The lines of a record and of all below it.
fn show_all(rt: &impl Print, record: Record, names: Index) -> io::Result<()> {
    show_record(rt, record, names)?;
    for kid in record.children() {
        show_all(rt, kid, names)?;
    }
    Ok(())
}

// `gen_unique_name`, where the counter is raised to this number; nothing for 0.
#[derive(Clone, Copy)]
struct UniqueName(usize);

impl fmt::Display for UniqueName {
    fn fmt<W: fmt::Write>(&self, f: &mut fmt::Formatter<W>) -> fmt::Result {
        let raised = self.0;
        if raised == 0 {
            return Ok(());
        }
        let mut out = [0u8; ROOM];
        let mut names = Names {
            id_counter: raised - 1,
        };
        let mut w = Writer {
            out: &mut out,
            at: 0,
        };
        gen_unique_name(&mut names, &mut w);
        let end = w.at;
        for &b in front(&out, end) {
            f.write_char(char::from(b))?;
        }
        Ok(())
    }
}

// A tree of the input, of at most 4,096 bytes, with its name.
fn show_tree(rt: &impl Print, number: usize, tree: &[u8]) -> io::Result<()> {
    print!(rt; "{} ", UniqueName(number))?;
    if !console::print_check(rt, tree)? {
        return Ok(());
    }
    let mut table = [0u32; LARGE_TABLE];
    let entries = prescan::index(tree, &mut table);
    let root = Record {
        tree,
        at: 0,
        levels: DEEPEST,
    };
    show_all(rt, root, Index { tree, entries })
}

// ---- What depends on no tree

const KEYWORDS: [(&str, TsKeywordTypeKind); 7] = [
    ("any", TsKeywordTypeKind::TsAnyKeyword),
    ("number", TsKeywordTypeKind::TsNumberKeyword),
    ("boolean", TsKeywordTypeKind::TsBooleanKeyword),
    ("bigint", TsKeywordTypeKind::TsBigIntKeyword),
    ("string", TsKeywordTypeKind::TsStringKeyword),
    ("undefined", TsKeywordTypeKind::TsUndefinedKeyword),
    ("null", TsKeywordTypeKind::TsNullKeyword),
];

fn show_constants(rt: &impl Print) -> io::Result<()> {
    for (name, kind) in KEYWORDS {
        show_made(
            rt,
            name,
            |w| Some(types::ts_keyword_type(w, DUMMY_SP, kind)),
        )?;
    }
    show_made(
        rt,
        "any_type_ann",
        |w| Some(types::any_type_ann(w, DUMMY_SP)),
    )?;
    show_made(rt, "regex_type", |w| Some(types::regex_type(w, DUMMY_SP)))
}

// The names around the powers of ten, and the last one.
fn show_large_names(rt: &impl Print) -> io::Result<()> {
    for digits in 1..20 {
        let power = 10usize.pow(digits);
        println!(rt; "{}", UniqueName(power - 1))?;
        println!(rt; "{}", UniqueName(power))?;
    }
    println!(rt; "{}", UniqueName(usize::MAX))
}

fn main(rt: HostRuntime) -> io::Result<()> {
    show_constants(&rt)?;
    let mut buffer = [0u8; ROOM];
    console::for_each_tree(
        &rt,
        &mut buffer,
        |number, tree| show_tree(&rt, number, tree),
    )?;
    show_large_names(&rt)
}
