// Parts of records that are written or counted without going into children.
ghost use Rattle.std.specs.Prelude.{◌≡◌, Bool, ◌&&◌, ◌||◌, [], ◌∷◌, eqb, drop};
ghost use Rattle.definition.specs.Record.{is_no, text_of};
ghost use Rattle.definition.specs.Text.{token, more};
ghost use Rattle.records.specs.Views.{rec_of};
ghost use Rattle.text_tokens.specs.Writes.{Writes, last_of};
ghost use Rattle.declaration_text.specs.Steps.{parts_of};
ghost use Rattle.declaration_text.specs.Templates.{Split, QuasisAre, ExpressionsAre, quasi_if};

use crate::asks::has_mark;
use records::marks::Mark;
use records::tree::{Record, Records};
use text_tokens::State;

// The symbol of an Id, as it stands.
pub fn put_symbol(r: Record, out: &mut [u8], s: State) -> State
    ensures { Writes out.old out.new s result (token (drop 4 (text_of (rec_of r.entry))) ∷ []) }
{
    let text = r.text();
    s.put_token(&text[text.len().min(4)..], out)
}

// Whether a `,` follows an element before these records: another element, or none behind a hole.
pub fn comma_follows(element: Record, behind: Records) -> bool
    ensures { (under : Bool) → result ≡ (more (parts_of under behind.entry) || is_no (rec_of element.entry)) }
{
    if has_mark(element, Mark::No) {
        return true;
    }
    if behind.count == 0 {
        return false;
    }
    !has_mark(behind.first(), Mark::Op)
}

// Whether a token was written, and the last one ends in `;`.
pub fn ends_in_semicolon(s: State) -> bool
    ensures { result ≡ (s.some && eqb (last_of s) 59) }
{
    s.some && s.last == Some(b';')
}

// The records before the first whose mark isn't counted, and those from it on.
fn split<'t, F: Fn(Mark) -> bool>(records: Records<'t>, counted: F) -> (Records<'t>, Records<'t>)
    requires { F.IsAlwaysCallable counted }
    ensures { Split (F.post counted) records.entry result.0 result.1 }
{
    let mut rest = records;
    while 0 < rest.count {
        if !counted(rest.first().mark()) {
            break;
        }
        rest = rest.rest();
    }
    let front = Records {
        tree: records.tree,
        at: records.at,
        levels: records.levels,
        count: records.count - rest.count,
    };
    (front, rest)
}

// The `Qu`s before the first that isn't, and the records from it on.
pub fn split_quasis<'t>(records: Records<'t>) -> (Records<'t>, Records<'t>)
    ensures { QuasisAre records.entry result.0 result.1 }
{
    split(records, |mark| mark == Mark::Qu)
}

// The records before the first `Op`.
pub fn expressions<'t>(records: Records<'t>) -> Records<'t>
    ensures { ExpressionsAre records.entry result }
{
    let (expressions, _) = split(records, |mark| mark != Mark::Op);
    expressions
}

// The text of a `Qu`, if there is one.
pub fn put_quasi(quasi: Option<Record>, out: &mut [u8], s: State) -> State
    ensures { Writes out.old out.new s result (quasi_if quasi.entry) }
{
    match quasi {
        Some(quasi) => s.put_own_escaped(quasi.text(), out),
        None => s,
    }
}
