// The overload list: "10-byte entries `ov`, start, end, in any order, repeats allowed".
ghost use Rattle.std.specs.Prelude.{◌≡◌, ◌&&◌, ◌+◌, ◌≤◌, eqb, length};
ghost use Rattle.definition.specs.Tree.{u32_at};
ghost use Rattle.definition.specs.Check.{entry_size};
ghost use Rattle.definition.specs.Record.{head_of, listed};
ghost use Rattle.records.specs.Views.{rec_of};

use records::tree::Record;
use records::{ENTRY_END, ENTRY_SIZE, ENTRY_START, Range, u32_at};

// Whether the entry at a place has a range.
fn has_range(list: &[u8], entry: usize, range: Range) -> bool
    requires { entry + entry_size ≤ length list.now }
    ensures { result ≡ (eqb (u32_at list.now (entry + 2)) range.start && eqb (u32_at list.now (entry + 6)) range.end) }
{
    u32_at(list, entry + ENTRY_START) == range.start && u32_at(list, entry + ENTRY_END) == range.end
}

// `is_impl_with_overloads`: whether the range of a record is in the list. By hand: `any` over the entries of `as_chunks` takes 1.66 times as long, with
// a full list and a function for each; and apart, since inside the loop over a class's members it takes 1.49 times as long.
#[inline(never)]
pub fn is_impl_with_overloads(list: &[u8], r: Record) -> bool
    ensures { result ≡ listed list.now (head_of (rec_of r.entry)) }
{
    let range = r.range();
    let mut left = list.len() / ENTRY_SIZE;
    let mut entry = 0;
    while 0 < left {
        if has_range(list, entry, range) {
            return true;
        }
        entry += ENTRY_SIZE;
        left -= 1;
    }
    false
}
