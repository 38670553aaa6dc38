// Request §3, "Declarations as text": the text of a tree, for every byte string: the check, a dry run that says how long the text is and where a number
// is outside the forms, and the run.
#![tactic(auto)]

ghost use Rattle.std.specs.Prelude.{true, false, ◌≡◌, ◌*◌, ◌≤◌, length};
ghost use Rattle.definition.specs.Tree.{tree_at};
ghost use Rattle.definition.specs.Check.{longest_tree, deepest};
ghost use Rattle.definition.specs.Text.{tokens, first_line, lines_of, written_text, call_text};
ghost use Rattle.definition.specs.TextNumbers.{numbers_fit};
ghost use Rattle.records.specs.Views.{rec_of};
ghost use Rattle.declaration_text.specs.Lines.{WritesLines};
ghost use Rattle.declaration_text.specs.Answers.{start, Accepted, IsRoot, Gives};

use crate::numbers::numbers_fit;
use crate::table::Tables;
use grammar::{Refusal, Refused};
use records::DEEPEST;
use records::tree::Record;
use text_tokens::State;

pub mod asks;
pub mod leaves;
pub mod lines;
pub mod numbers;
pub mod pieces;
pub mod record;
pub mod table;

// The bytes of a text for each byte of its tree, at most (`text-short` of definition/proofs/TextBound.antt).
const MOST_TEXT: usize = 6;

impl Tables {
    // "A `Mo`'s own Ops, if any of their tokens is nonempty, are a first line."
    fn put_first_line(&self, root: Record, out: &mut [u8]) -> State
        requires { IsRoot root }
        ensures { WritesLines out.old out.new start result (first_line (tokens (rec_of root.entry) false 0)) }
    {
        let s = State::default();
        let dry = self.write(root, false, &mut [], s);
        if dry.some {
            return self.put_line(root, 0, out, s);
        }
        s
    }

    // All lines of the Mo of an accepted tree.
    fn put_module(&self, root: Record, out: &mut [u8]) -> State
        requires { IsRoot root }
        ensures { WritesLines out.old out.new start result (lines_of (rec_of root.entry)) }
    {
        let first = self.put_first_line(root, out);
        self.put_items(root.children(), 0, out, first)
    }
}

// Whether a run is sure to succeed: there is room for the text of any tree of this length, and no number is outside the forms.
fn is_certain(root: Record, room: usize) -> bool
    requires { length root.tree.now ≤ longest_tree }
    ensures { result ≡ true → (6 * length root.entry.tree.now ≤ room) × (numbers_fit (rec_of root.entry) ≡ true) }
{
    MOST_TEXT * root.tree.len() <= room && numbers_fit(root)
}

// The text of an accepted tree: the run alone where it is sure to succeed; else refusals 11 and 9 by a dry run, then the run, on exactly the room that
// it takes.
fn accepted(tree: &[u8], out: &mut [u8]) -> Result<usize, Refused>
    requires { Accepted tree.now }
    ensures { Gives (written_text (lines_of (tree_at deepest tree.now 0)) out.old) result out.new }
{
    let tables = Tables::new();
    let root = Record {
        tree,
        at: 0,
        levels: DEEPEST,
    };
    if is_certain(root, out.len()) {
        let all = tables.put_module(root, out);
        return Ok(all.written);
    }
    let dry = tables.put_module(root, &mut out[..0]);
    if let Some(place) = dry.place {
        return Err(Refused {
            refusal: Refusal::NumberOutside,
            place,
        });
    }
    if out.len() < dry.written {
        return Err(Refused {
            refusal: Refusal::OutputFull,
            place: 0,
        });
    }
    tables.put_module(root, &mut out[..dry.written]);
    Ok(dry.written)
}

// The call, for every byte string and every buffer: the answer, the bytes of the text, and the buffer are the definition's `call_text`.
pub fn text(tree: &[u8], out: &mut [u8]) -> Result<usize, Refused>
    ensures { Gives (call_text tree.now out.old) result out.new }
{
    grammar::check_tree(tree, b"")?;
    accepted(tree, out)
}
