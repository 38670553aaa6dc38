// The exported C functions, thin over the crates that do the work; `include/dts.h` declares them. Each returns 0 or a refusal's number, and `answer`
// is two numbers.
#![tactic(auto)]

ghost use Rattle.std.specs.Prelude.{◌≡◌};
ghost use Rattle.definition.specs.Tree.{tree_at};
ghost use Rattle.definition.specs.Check.{deepest, check_tree};
ghost use Rattle.definition.specs.Transform.{call};
ghost use Rattle.definition.specs.Depths.{placed, table_of, in_one, counts_by};
ghost use Rattle.definition.specs.Text.{call_text};
ghost use Rattle.transform_dts.specs.Answers.{answered};
ghost use Rattle.dts.specs.Answers.{check_code, check_pair, code_of, pair_of};

use depth_counts::table::{CELLS, COLUMNS, ROWS, in_one};
use grammar::Refused;
use transform_dts::Done;

// `check_tree`: 0 with the tree's length and 0 in `answer`, or the refusal's number with its place and 0 there.
#[unsafe(no_mangle)]
pub extern "C" fn dts_check(tree: &[u8], list: &[u8], answer: &mut [u64; 2]) -> u32
    ensures number { result ≡ check_code (check_tree tree.now list.now) }
    ensures pair { answer.new ≡ check_pair (check_tree tree.now list.now) }
{
    let found = grammar::check_tree(tree, list).map(|length| Done { length, count: 0 });
    tell(found, answer)
}

// What a call returns, and its two numbers.
fn tell(made: Result<Done, Refused>, answer: &mut [u64; 2]) -> u32
    ensures { (result ≡ code_of (answered made)) × (answer.new ≡ pair_of (answered made)) }
{
    match made {
        Ok(done) => {
            *answer = [done.length as u64, done.count as u64];
            0
        }
        Err(refused) => {
            *answer = [refused.place as u64, 0];
            u32::from(refused.refusal)
        }
    }
}

// `transform`: 0 with the bytes written and the number of diagnostics in `answer`, or the refusal's number with its place and 0
// there.
#[unsafe(no_mangle)]
pub extern "C" fn dts_transform(
    tree: &[u8],
    list: &[u8],
    unresolved_context: u32,
    out: &mut [u8],
    diagnostics: &mut [u8],
    answer: &mut [u64; 2],
) -> u32
    ensures number { result ≡ code_of (call tree.now list.now unresolved_context out.old diagnostics.old).answer }
    ensures pair { answer.new
        ≡ pair_of (call tree.now list.now unresolved_context out.old diagnostics.old).answer }
    ensures output { out.new ≡ (call tree.now list.now unresolved_context out.old diagnostics.old).out }
    ensures diagnostics { diagnostics.new
        ≡ (call tree.now list.now unresolved_context out.old diagnostics.old).diagnostics }
{
    let made = transform_dts::transform(tree, list, unresolved_context, out, diagnostics);
    tell(made, answer)
}

// `depths`: as `dts_transform`, and on success `counts` has how many of each diagnostic stand at each namespace depth, row by row, d1 first and depth
// 0 first.
#[unsafe(no_mangle)]
pub extern "C" fn dts_depths(
    tree: &[u8],
    list: &[u8],
    unresolved_context: u32,
    out: &mut [u8],
    diagnostics: &mut [u8],
    counts: &mut [u32; CELLS],
    answer: &mut [u64; 2],
) -> u32
    ensures number { result ≡ code_of (call tree.now list.now unresolved_context out.old diagnostics.old).answer }
    ensures pair { answer.new
        ≡ pair_of (call tree.now list.now unresolved_context out.old diagnostics.old).answer }
    ensures output { out.new ≡ (call tree.now list.now unresolved_context out.old diagnostics.old).out }
    ensures diagnostics { diagnostics.new
        ≡ (call tree.now list.now unresolved_context out.old diagnostics.old).diagnostics }
    ensures counts { counts.new
        ≡ counts_by
        (call tree.now list.now unresolved_context out.old diagnostics.old).answer
        (in_one (table_of (placed list.now unresolved_context (tree_at deepest tree.now 0))))
        counts.old }
{
    let mut table = [[0usize; COLUMNS]; ROWS];
    let counted = depth_counts::depths(
        tree,
        list,
        unresolved_context,
        out,
        diagnostics,
        &mut table,
    );
    if let Ok(_) = counted {
        *counts = in_one(table);
    }
    tell(counted, answer)
}

// `text`: 0 with the bytes of the text and 0 in `answer`, or the refusal's number with its place and 0 there.
#[unsafe(no_mangle)]
pub extern "C" fn dts_text(tree: &[u8], out: &mut [u8], answer: &mut [u64; 2]) -> u32
    ensures number { result ≡ code_of (call_text tree.now out.old).answer }
    ensures pair { answer.new ≡ pair_of (call_text tree.now out.old).answer }
    ensures output { out.new ≡ (call_text tree.now out.old).out }
{
    let made = declaration_text::text(tree, out).map(|length| Done { length, count: 0 });
    tell(made, answer)
}
