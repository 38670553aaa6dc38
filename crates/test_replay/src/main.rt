// Replays answers of the Rust: for each case in standard input both buffers and the table are filled with noise, the call is made, and its number, place
// or counts and every byte of both buffers, those beyond the counts and those of a refusal too, are compared with what the Rust gave; so is the table
// of a call of `depths`. A case is twelve numbers of four bytes (the tree's bytes that follow and its length, the same of the list, the unresolved
// context, the lengths of both buffers; the answer: 0, bytes and diagnostics, or the refusal's number, its place and 0; 1 for `depths`, 0 for the
// transform, and how many cells of the table are not 0), then tree, list, output and diagnostics, and the cells: the place of each, row by row, and its
// count, four bytes each. Where a length is more than the bytes that follow, any bytes do. `oracle answers` makes the cases.
#![tactic(auto)]

use console::replay::{Told, expected, fill, holds, is_answer, number_at, read_numbers, replay};
use console::{LIST_TOO_LONG, ROOM, TREE_TOO_LONG, front, front_mut, read_bytes};
use depth_counts::table::{CELLS, COLUMNS, ROWS, Table};
use records::DIAGNOSTIC_SIZE;
use std::io;
use transform_dts::Done;

// A cell: its place and its count.
const CELL: usize = 8;

const CELLS_ROOM: usize = CELLS * CELL;

// A case before its bytes.
#[derive(Clone, Copy)]
struct Case {
    tree_bytes: usize,
    tree: usize,
    list_bytes: usize,
    list: usize,
    unresolved: u32,
    out: usize,
    diagnostics: usize,
    expected: Result<Done, Told>,
    depths: bool,
    cells: usize,
}

impl From<[u32; 12]> for Case {
    fn from(numbers: [u32; 12]) -> Case {
        let [_, _, _, _, unresolved, ..] = numbers;
        let [
            tree_bytes,
            tree,
            list_bytes,
            list,
            _,
            out,
            diagnostics,
            number,
            first,
            second,
            depths,
            cells,
        ] = numbers.map(|n| n as usize);
        Case {
            tree_bytes,
            tree,
            list_bytes,
            list,
            unresolved,
            out,
            diagnostics,
            expected: expected(
                number,
                first,
                Done {
                    length: first,
                    count: second,
                },
            ),
            depths: depths != 0,
            cells,
        }
    }
}

// What the case expects to be written: nothing of a refusal.
impl Case {
    fn written(self) -> Done {
        self.expected.unwrap_or(Done {
            length: 0,
            count: 0,
        })
    }

    // The bytes of the diagnostics.
    fn marked(self) -> usize {
        self.written().count.saturating_mul(DIAGNOSTIC_SIZE)
    }
}

// What the table holds before the call.
fn noise_table() -> Table {
    let mut table = [[0usize; COLUMNS]; ROWS];
    for (i, count) in table.as_flattened_mut().iter_mut().enumerate() {
        *count = 3 * i + 1;
    }
    table
}

// The table that the case expects: of a refusal the one that was.
fn expected_table(case: Case, cells: &[u8]) -> Table {
    if case.expected.is_err() {
        return noise_table();
    }
    let mut table = [[0usize; COLUMNS]; ROWS];
    for cell in cells.chunks_exact(CELL) {
        let place = number_at(cell, 0) as usize;
        if let Some(count) = table.as_flattened_mut().get_mut(place) {
            *count = number_at(cell, 4) as usize;
        }
    }
    table
}

// What a case expects to be written.
#[derive(Clone, Copy)]
struct Wanted<'a> {
    output: &'a [u8],
    diagnostics: &'a [u8],
    cells: &'a [u8],
}

// Whether the call on a case gives what is expected, and a table then holds the cells.
fn answers(
    case: Case,
    tree: &[u8],
    list: &[u8],
    cells: &[u8],
    out: &mut [u8],
    dia: &mut [u8],
) -> bool {
    if !case.depths {
        return is_answer(
            transform_dts::transform(tree, list, case.unresolved, out, dia),
            case.expected,
        );
    }
    let mut table = noise_table();
    let answer = depth_counts::depths(tree, list, case.unresolved, out, dia, &mut table);
    table == expected_table(case, cells) && is_answer(answer, case.expected)
}

// The same with both buffers compared, which have the lengths of the case.
fn gives(case: Case, tree: &[u8], list: &[u8], wanted: Wanted) -> bool {
    let mut output = [0u8; ROOM];
    let mut diagnostics = [0u8; ROOM];
    let out = front_mut(&mut output, case.out);
    let dia = front_mut(&mut diagnostics, case.diagnostics);
    fill(out);
    fill(dia);
    answers(case, tree, list, wanted.cells, out, dia)
        && holds(out, wanted.output, wanted.output.len())
        && holds(dia, wanted.diagnostics, wanted.diagnostics.len())
}

// The next case of the input: whether it gave what the Rust gave; `None` where there is no case.
fn replay_one(rt: &impl Input, tree: &mut [u8], list: &mut [u8]) -> io::Result<Option<bool>> {
    let Some(numbers) = read_numbers(rt)? else {
        return Ok(None);
    };
    let case = Case::from(numbers);
    let mut output = [0u8; ROOM];
    let mut diagnostics = [0u8; ROOM];
    let mut cells = [0u8; CELLS_ROOM];
    let written = case.written().length;
    let marked = case.marked();
    let counted = case.cells.saturating_mul(CELL);
    if read_bytes(rt, tree, case.tree_bytes)?.is_err()
        || read_bytes(rt, list, case.list_bytes)?.is_err()
        || read_bytes(rt, &mut output, written)?.is_err()
        || read_bytes(rt, &mut diagnostics, marked)?.is_err()
        || read_bytes(rt, &mut cells, counted)?.is_err()
    {
        return Ok(None);
    }
    let fits = case.tree <= tree.len()
        && case.list <= list.len()
        && case.out <= ROOM
        && case.diagnostics <= ROOM;
    let wanted = Wanted {
        output: front(&output, written),
        diagnostics: front(&diagnostics, marked),
        cells: front(&cells, counted),
    };
    Ok(Some(fits && gives(case, front(tree, case.tree), front(list, case.list), wanted)))
}

fn main(rt: HostRuntime) -> io::Result<()> {
    let mut list = [0u8; LIST_TOO_LONG];
    let mut tree = [0u8; TREE_TOO_LONG];
    replay(&rt, || replay_one(&rt, tree.as_mut_slice(), &mut list))
}
