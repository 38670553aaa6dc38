// `transform` on a Module, for every two byte strings: the check, a dry run that says how long output and diagnostics are, and the run.
#![tactic(auto)]

ghost use Rattle.std.specs.Prelude.{◌≡◌, ◌*◌, ◌/◌, ◌<◌, ◌≤◌, length};
ghost use Rattle.definition.specs.Check.{longest_tree, deepest};
ghost use Rattle.definition.specs.Children.{AcceptedAt};
ghost use Rattle.definition.specs.Transform.{transform, call};
ghost use Rattle.records.specs.Views.{rec_of};
ghost use Rattle.index.specs.Index.{farthest};
ghost use Rattle.prescan.specs.Table.{declaration_size};
ghost use Rattle.output.specs.Outputs.{Makes};
ghost use Rattle.transform_dts.specs.Answers.{written_of, Gives};
ghost use Rattle.transform_dts.specs.Runs.{made_of, IsModule, Runs};

use grammar::{Refusal, Refused};
use items::module::transform_module_items;
use names::unique::Names;
use output::Output;
use prescan::module_names::{Index, Scope};
use prescan::{DECLARATION_SIZE, LARGE_TABLE, MIDDLE_TABLE};
use records::tree::Record;
use records::writer::Writer;
use records::{DEEPEST, DIAGNOSTIC_SIZE};

pub mod twice;

// "Success returns bytes written and the diagnostic count"
#[derive(Clone, Copy, PartialEq, Eq, Debug)]
pub struct Done {
    pub length: usize,
    pub count: usize,
}

// The length of the table of names of a small tree.
const SMALL_TABLE: usize = 128;

// How long the output and the diagnostics of a run are, and whether every text fits the two bytes of its length.
#[derive(Clone, Copy)]
struct Run {
    written: usize,
    reported: usize,
    fits: bool,
}

// `Program::Module`: the Mo of an accepted tree; its front follows the items, with their number.
fn transform_module(o: &mut Output, mo: Record, scope: Scope, list: &[u8])
    requires { IsModule mo scope × (o.old.names.id_counter ≡ 0) }
    ensures made { Makes o.old o.new (transform list.now scope.entry.unresolved (rec_of mo.entry)) }
    ensures out { o.new.out.ghost_name ≡ o.old.out.ghost_name }
    ensures out_buffer { o.new.out.now.out.ghost_name ≡ o.old.out.now.out.ghost_name }
    ensures diagnostics { o.new.diagnostics.ghost_name ≡ o.old.diagnostics.ghost_name }
    ensures diagnostics_buffer { o.new.diagnostics.now.out.ghost_name ≡ o.old.diagnostics.now.out.ghost_name }
{
    let start = o.start();
    o.skip_front(mo);
    let count = transform_module_items(o, mo.children(), scope, list, true);
    o.put_front_at(start, mo, count);
}

// A run over it, from the front of both buffers.
fn module_run<'o>(
    mo: Record,
    scope: Scope,
    list: &[u8],
    out: &'o mut [u8],
    diagnostics: &'o mut [u8],
) -> Run
    requires { IsModule mo scope }
    ensures { Runs out.old out.new diagnostics.old diagnostics.new result
        (transform list.now scope.entry.unresolved (rec_of mo.entry)) }
{
    let mut declarations = Writer { out, at: 0 };
    let mut marks = Writer {
        out: diagnostics,
        at: 0,
    };
    let mut o = Output {
        out: &mut declarations,
        diagnostics: &mut marks,
        names: Names { id_counter: 0 },
        fits: true,
    };
    transform_module(&mut o, mo, scope, list);
    let fits = o.fits;
    Run {
        written: declarations.at,
        reported: marks.at,
        fits,
    }
}

// The call on an accepted tree: refusals 9 and 10 by the dry run, then the run, on exactly the room that it takes.
fn dry_run_and_run(
    mo: Record,
    scope: Scope,
    list: &[u8],
    out: &mut [u8],
    diagnostics: &mut [u8],
) -> Result<Done, Refused>
    requires { IsModule mo scope }
    ensures { Gives (made_of (transform list.now scope.entry.unresolved (rec_of mo.entry)) out.old diagnostics.old)
        result out.new diagnostics.new }
{
    let dry = module_run(mo, scope, list, &mut out[..0], &mut diagnostics[..0]);
    if !dry.fits {
        return Err(Refused {
            refusal: Refusal::OutputFull,
            place: 0,
        });
    }
    if out.len() < dry.written {
        return Err(Refused {
            refusal: Refusal::OutputFull,
            place: 0,
        });
    }
    if diagnostics.len() < dry.reported {
        return Err(Refused {
            refusal: Refusal::DiagnosticsFull,
            place: 0,
        });
    }
    module_run(
        mo,
        scope,
        list,
        &mut out[..dry.written],
        &mut diagnostics[..dry.reported],
    );
    Ok(Done {
        length: dry.written,
        count: dry.reported / DIAGNOSTIC_SIZE,
    })
}

// The same, with a table for the index.
fn with_table(
    tree: &[u8],
    table: &mut [u32],
    list: &[u8],
    unresolved: u32,
    out: &mut [u8],
    diagnostics: &mut [u8],
) -> Result<Done, Refused>
    requires accepted_at { AcceptedAt deepest tree.now 0 }
    requires tree_len_bound { length tree.now ≤ declaration_size * (length table.old / 2) }
    requires tree_len_bound_2 { length tree.now < farthest }
    ensures { Gives (written_of list.now unresolved tree.now out.old diagnostics.old)
        result out.new diagnostics.new }
{
    let entries = prescan::index(tree, table);
    let mo = Record {
        tree,
        at: 0,
        levels: DEEPEST,
    };
    let scope = Scope {
        names: Index { tree, entries },
        unresolved,
    };
    dry_run_and_run(mo, scope, list, out, diagnostics)
}

// The same, with a new table of N numbers.
fn with_new_table<const N: usize>(
    tree: &[u8],
    list: &[u8],
    unresolved: u32,
    out: &mut [u8],
    diagnostics: &mut [u8],
) -> Result<Done, Refused>
    requires accepted_at { AcceptedAt deepest tree.now 0 }
    requires tree_len_bound { length tree.now ≤ declaration_size * (N / 2) }
    requires table_bound { N ≤ 16384 }
    ensures { Gives (written_of list.now unresolved tree.now out.old diagnostics.old)
        result out.new diagnostics.new }
{
    let mut table = [0u32; N];
    with_table(tree, &mut table, list, unresolved, out, diagnostics)
}

// The call on an accepted tree: a small one has a small table, so that it needs not clear a large one.
fn accepted(
    tree: &[u8],
    list: &[u8],
    unresolved: u32,
    out: &mut [u8],
    diagnostics: &mut [u8],
) -> Result<Done, Refused>
    requires { AcceptedAt deepest tree.now 0 × (length tree.now ≤ longest_tree) }
    ensures { Gives (written_of list.now unresolved tree.now out.old diagnostics.old)
        result out.new diagnostics.new }
{
    if tree.len() <= DECLARATION_SIZE * (SMALL_TABLE / 2) {
        return with_new_table::<SMALL_TABLE>(tree, list, unresolved, out, diagnostics);
    }
    if tree.len() <= DECLARATION_SIZE * (MIDDLE_TABLE / 2) {
        return with_new_table::<MIDDLE_TABLE>(tree, list, unresolved, out, diagnostics);
    }
    with_new_table::<LARGE_TABLE>(tree, list, unresolved, out, diagnostics)
}

// The exported call, for every two byte strings, every context and all buffers: the answer and both buffers are the definition's `call`.
pub fn transform(
    tree: &[u8],
    list: &[u8],
    unresolved_context: u32,
    out: &mut [u8],
    diagnostics: &mut [u8],
) -> Result<Done, Refused>
    ensures { Gives (call tree.now list.now unresolved_context out.old diagnostics.old)
        result out.new diagnostics.new }
{
    grammar::check_tree(tree, list)?;
    accepted(tree, list, unresolved_context, out, diagnostics)
}
