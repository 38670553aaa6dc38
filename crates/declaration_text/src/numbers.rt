// Whether the numbers of a tree are whole and below 2 to the 53 in size, also those that the text leaves out.
ghost use Rattle.std.specs.Prelude.{◌≡◌, true, ◌≤◌, length};
ghost use Rattle.definition.specs.Tree.{count_at, mark_at, body_at, text_at};
ghost use Rattle.definition.specs.Grammar.{mark};
ghost use Rattle.definition.specs.Numerals.{bits_of, whole_of};
ghost use Rattle.definition.specs.TextNumbers.{is_some, numbers_fit};
ghost use Rattle.records.specs.Views.{rec_of};

use records::marks::NU;
use records::tree::Record;
use records::{body_at, count_at, mark_at, text_at};
use text_tokens::numerals::{bits_of, whole_of};

// Whether the record by itself is no number outside the forms: a `Nu` with a child has a raw spelling.
fn number_fits(tree: &[u8], at: usize) -> bool
    requires { body_at tree.now at ≤ length tree.now }
    ensures { result ≡ true
        → mark_at tree.now at ≡ mark "Nu"
        → count_at tree.now at ≡ 0
        → is_some (whole_of (bits_of (text_at tree.now at))) ≡ true }
{
    if mark_at(tree, at) != NU || count_at(tree, at) != 0 {
        return true;
    }
    whole_of(bits_of(text_at(tree, at))).is_some()
}

// Whether no number of a record is outside the forms, whatever the text leaves out: a walk over all records in preorder. It goes by offsets, since a
// recursion over Records walks to the end of a record once more for each record around it.
pub fn numbers_fit(r: Record) -> bool
    ensures { result ≡ true → numbers_fit (rec_of r.entry) ≡ true }
{
    let tree = r.tree;
    let mut at = r.at;
    let mut pending: usize = 1;
    while 0 < pending {
        if !number_fits(tree, at) {
            return false;
        }
        pending = pending - 1 + count_at(tree, at);
        at = body_at(tree, at);
    }
    true
}
