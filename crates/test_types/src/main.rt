// The types of expressions: for the expression of each Xe of the modules in standard input, and in each of the four modes, what a dry run says,
// and what is written where there is exactly as much room as it asked for. Each module stands behind its length in two bytes. What has to be
// printed comes from the Rust: `oracle types`.
#![tactic(auto)]

ghost use Rattle.std.specs.Prelude.{◌≡◌};

use console::shown::Hex;
use console::{FRAMED_ROOM, ROOM, UNRESOLVED, front_mut, unwritten};
use names::unique::Names;
use output::Output;
use prescan::LARGE_TABLE;
use prescan::module_names::{Index, Scope};
use records::DEEPEST;
use records::marks::Mark;
use records::tree::Record;
use records::writer::Writer;
use std::{fmt, io};
use typing::exprs::{Mode, expr_to_ts_type};

// ---- One typing

// What a typing gave: whether there is a type, how long it and the diagnostics are, and the counter.
#[derive(Clone, Copy)]
struct Answer {
    is_typed: bool,
    written: usize,
    reported: usize,
    id_counter: usize,
}

impl fmt::Display for Answer {
    fn fmt<W: fmt::Write>(&self, f: &mut fmt::Formatter<W>) -> fmt::Result {
        let word = if self.is_typed { "typed" } else { "untyped" };
        write!(
            f,
            "{word} {} {} {}",
            self.written, self.reported, self.id_counter
        )
    }
}

// Before an answer: where the expression stands, and its mode.
#[derive(Clone, Copy)]
struct Label<'t> {
    at: usize,
    mode: Mode<'t>,
}

impl fmt::Display for Label<'_> {
    fn fmt<W: fmt::Write>(&self, f: &mut fmt::Formatter<W>) -> fmt::Result {
        let mode = self.mode;
        let constant = if mode.as_const { 'c' } else { '-' };
        let readonly = if mode.as_readonly { 'r' } else { '-' };
        write!(f, "{} {constant}{readonly}", self.at)
    }
}

// A typing from the front of both buffers, with no name made before it.
fn type_from_front<'o>(
    expr: Record,
    mode: Mode,
    out: &'o mut [u8],
    diagnostics: &'o mut [u8],
) -> Answer
    requires { mode.scope.names.tree ≡ expr.tree }
{
    let mut types = Writer { out, at: 0 };
    let mut marks = Writer {
        out: diagnostics,
        at: 0,
    };
    let mut o = Output {
        out: &mut types,
        diagnostics: &mut marks,
        names: Names { id_counter: 0 },
        fits: true,
    };
    let typed = expr_to_ts_type(&mut o, expr, mode);
    let id_counter = o.names.id_counter;
    Answer {
        is_typed: typed.is_some(),
        written: types.at,
        reported: marks.at,
        id_counter,
    }
}

// The dry run: there is no room for anything.
fn dry_run(rt: &impl Print, expr: Record, mode: Mode) -> io::Result<Answer>
    requires { mode.scope.names.tree ≡ expr.tree }
{
    let mut out = [0u8; 0];
    let mut diagnostics = [0u8; 0];
    let answer = type_from_front(expr, mode, &mut out, &mut diagnostics);
    println!(rt; "{} dry {answer}", Label { at: expr.at, mode })?;
    Ok(answer)
}

fn run(
    rt: &impl Print,
    expr: Record,
    mode: Mode,
    out: &mut [u8],
    diagnostics: &mut [u8],
) -> io::Result<()>
    requires { mode.scope.names.tree ≡ expr.tree }
{
    let answer = type_from_front(expr, mode, out, diagnostics);
    println!(rt; "{} run {answer}", Label { at: expr.at, mode })?;
    println!(rt; "type={}", Hex(out))?;
    println!(rt; "diagnostics={}", Hex(diagnostics))
}

// The dry run, and one with exactly as much room as it asked for.
fn show_typing(rt: &impl Print, expr: Record, mode: Mode) -> io::Result<()>
    requires { mode.scope.names.tree ≡ expr.tree }
{
    let dry = dry_run(rt, expr, mode)?;
    if ROOM < dry.written || ROOM < dry.reported {
        return println!(rt; "too long");
    }
    let mut out = unwritten();
    let mut diagnostics = unwritten();
    run(
        rt,
        expr,
        mode,
        front_mut(&mut out, dry.written),
        front_mut(&mut diagnostics, dry.reported),
    )
}

// ---- Modules

// The typings of an expression, in the four modes.
fn show_typings(rt: &impl Print, expr: Record, scope: Scope) -> io::Result<()>
    requires { scope.names.tree ≡ expr.tree }
{
    for as_const in [false, true] {
        for as_readonly in [false, true] {
            let mode = Mode {
                scope,
                as_const,
                as_readonly,
                frozen: false,
            };
            show_typing(rt, expr, mode)?;
        }
    }
    Ok(())
}

// Those of the expression of an Xe; other items have none.
fn show_item(rt: &impl Print, item: Record, scope: Scope) -> io::Result<()>
    requires { scope.names.tree ≡ item.tree }
{
    match item.mark() {
        Mark::Xe => show_typings(rt, item.children().first(), scope),
        _ => Ok(()),
    }
}

// A module of the input, with its number.
fn show_module(rt: &impl Print, number: usize, tree: &[u8]) -> io::Result<()> {
    print!(rt; "{number} ")?;
    if !console::print_check(rt, tree)? {
        return Ok(());
    }
    let mut table = [0u32; LARGE_TABLE];
    let entries = prescan::index(tree, &mut table);
    let scope = Scope {
        names: Index { tree, entries },
        unresolved: UNRESOLVED,
    };
    let root = Record {
        tree,
        at: 0,
        levels: DEEPEST,
    };
    for item in root.children() {
        show_item(rt, item, scope)?;
    }
    Ok(())
}

fn main(rt: HostRuntime) -> io::Result<()> {
    let mut buffer = [0u8; FRAMED_ROOM];
    console::for_each_tree(
        &rt,
        &mut buffer,
        |number, tree| show_module(&rt, number, tree),
    )
}
