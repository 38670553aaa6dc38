// Request §1: the transform, and how many of each diagnostic it gives at each namespace depth.
#![tactic(auto)]

ghost use Rattle.std.specs.Prelude.{◌≡◌, ◌*◌, ◌/◌, ◌<◌, ◌≤◌, length};
ghost use Rattle.definition.specs.Tree.{tree_at};
ghost use Rattle.definition.specs.Check.{longest_tree, deepest};
ghost use Rattle.definition.specs.Children.{AcceptedAt};
ghost use Rattle.definition.specs.Depths.{placed, table_of, call_depths};
ghost use Rattle.index.specs.Index.{farthest};
ghost use Rattle.prescan.specs.Table.{declaration_size};
ghost use Rattle.transform_dts.specs.Answers.{transformed};
ghost use Rattle.depth_counts.specs.Tables.{Holds};
ghost use Rattle.depth_counts.specs.Answers.{GivesCounted};

use crate::table::{COLUMNS, ROWS, Table};
use crate::walk::Walk;
use grammar::Refused;
use prescan::module_names::{Index, Scope};
use prescan::{DECLARATION_SIZE, LARGE_TABLE, MIDDLE_TABLE};
use records::DEEPEST;
use records::tree::Record;
use transform_dts::Done;

pub mod table;
mod walk;

// The counts of an accepted tree, whose diagnostics stand in a buffer; `names` is a table for its index.
fn with_names<'a>(
    tree: &'a [u8],
    names: &'a mut [u32],
    list: &'a [u8],
    unresolved: u32,
    diagnostics: &'a [u8],
) -> Table
    requires accepted_at { AcceptedAt deepest tree.now 0 × Holds diagnostics.now 0 (transformed list.now unresolved tree.now).1 }
    requires tree_len_bound { length tree.now ≤ declaration_size * (length names.old / 2) }
    requires tree_len_bound_2 { length tree.now < farthest }
    ensures { result ≡ table_of (placed list.now unresolved (tree_at deepest tree.now 0)) }
{
    let entries = prescan::index(tree, names);
    let mo = Record {
        tree,
        at: 0,
        levels: DEEPEST,
    };
    let mut walk = Walk {
        list,
        scope: Scope {
            names: Index { tree, entries },
            unresolved,
        },
        diagnostics,
        at: 0,
        table: [[0; COLUMNS]; ROWS],
        id_counter: 0,
    };
    walk.count_items(mo.children(), 0, true);
    walk.table
}

// The same, with a new table of N numbers for the index.
fn with_new_table<const N: usize>(
    tree: &[u8],
    list: &[u8],
    unresolved: u32,
    diagnostics: &[u8],
) -> Table
    requires accepted_at { AcceptedAt deepest tree.now 0 × Holds diagnostics.now 0 (transformed list.now unresolved tree.now).1 }
    requires tree_len_bound { length tree.now ≤ declaration_size * (N / 2) }
    requires table_bound { N ≤ 16384 }
    ensures { result ≡ table_of (placed list.now unresolved (tree_at deepest tree.now 0)) }
{
    let mut names = [0u32; N];
    with_names(tree, &mut names, list, unresolved, diagnostics)
}

// The counts of an accepted tree, whose diagnostics stand in a buffer.
fn counted(tree: &[u8], list: &[u8], unresolved: u32, diagnostics: &[u8]) -> Table
    requires accepted_at { AcceptedAt deepest tree.now 0 × Holds diagnostics.now 0 (transformed list.now unresolved tree.now).1 }
    requires tree_len_bound { length tree.now ≤ longest_tree }
    ensures { result ≡ table_of (placed list.now unresolved (tree_at deepest tree.now 0)) }
{
    if tree.len() <= DECLARATION_SIZE * (MIDDLE_TABLE / 2) {
        return with_new_table::<MIDDLE_TABLE>(tree, list, unresolved, diagnostics);
    }
    with_new_table::<LARGE_TABLE>(tree, list, unresolved, diagnostics)
}

// The transform's call, and the table: the answer, both buffers and the table are the definition's `call_depths`.
pub fn depths(
    tree: &[u8],
    list: &[u8],
    unresolved_context: u32,
    out: &mut [u8],
    diagnostics: &mut [u8],
    table: &mut Table,
) -> Result<Done, Refused>
    ensures { GivesCounted
        (call_depths tree.now list.now unresolved_context out.old diagnostics.old table.old)
        result out.new diagnostics.new table.new }
{
    let done = transform_dts::transform(tree, list, unresolved_context, out, diagnostics)?;
    *table = counted(tree, list, unresolved_context, diagnostics);
    Ok(done)
}
