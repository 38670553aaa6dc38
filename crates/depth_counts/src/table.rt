// The table: "one row for each of the five diagnostics and one column for each namespace depth from 0 to 31", by value.
ghost use Rattle.std.specs.Prelude.{◌≡◌, true, ◌+◌, ◌*◌, ◌<◌, ◌≤◌, length, get_or};
ghost use Rattle.definition.specs.Grammar.{member};
ghost use Rattle.definition.specs.Record.{diagnostic_marks};
ghost use Rattle.definition.specs.Marked.{Kinds};
ghost use Rattle.definition.specs.Depths as Depths;
ghost use Rattle.definition.specs.Depths.{columns, all_at};
ghost use Rattle.depth_counts.specs.Tables.{rows, Small, Shape, AddsOne, Adds, diags_at, cell};

use records::marks::{D1, D2, D3, D4};
use records::{DIAGNOSTIC_SIZE, u16_at};

pub const ROWS: usize = 5;

pub const COLUMNS: usize = 32;

pub const CELLS: usize = ROWS * COLUMNS;

pub type Table = [[usize; COLUMNS]; ROWS];

// The row of a diagnostic's mark.
fn row_of(mark: u16) -> usize
    requires { member mark diagnostic_marks ≡ true }
    ensures { (result < rows) × (get_or diagnostic_marks result 0 ≡ mark) }
{
    match mark {
        D1 => 0,
        D2 => 1,
        D3 => 2,
        D4 => 3,
        _ => 4,
    }
}

// The n diagnostics that stand in a buffer from `at` on, all at one depth.
pub fn count_marks(diagnostics: &[u8], at: usize, n: usize, depth: usize, table: &mut Table)
    requires n_in_bounds { (at + 10 * n ≤ length diagnostics.now) × (depth < columns) }
    requires small { Small table.old at × Kinds (diags_at diagnostics.now at n) }
    ensures { Adds table.old table.new (all_at depth (diags_at diagnostics.now at n)) }
{
    let these = &diagnostics[at..at + n * DIAGNOSTIC_SIZE];
    for diagnostic in these.chunks_exact(DIAGNOSTIC_SIZE) {
        table[row_of(u16_at(diagnostic, 0))][depth] += 1;
    }
}

// "Below it goes a total": the sum of the counts.
pub fn total(table: Table) -> usize
    requires { Depths.total table < 18446744073709551616 }
    ensures { result ≡ Depths.total table }
{
    table.as_flattened().iter().sum()
}

// The table row by row: "d1 first, depth 0 first".
pub fn in_one(table: Table) -> [u32; CELLS]
    requires { Shape table × (Depths.total table < 4294967296) }
    ensures { result ≡ Depths.in_one table }
{
    let mut counts = [0u32; CELLS];
    for i in 0..CELLS {
        counts[i] = table[i / COLUMNS][i % COLUMNS] as u32;
    }
    counts
}
