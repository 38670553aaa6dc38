// The check of a record with what it holds: document 01's "per record in preorder 7, 3 (head), 4, 5 (slot; root must be Mo), 6, 3 (text), 5 (text,
// count)".
ghost use Rattle.std.specs.Prelude.{◌≡◌, ◌+◌, ◌≤◌, ◌<◌, length, IfOk};
ghost use Rattle.definition.specs.Tree.{head_size, mark_at};
ghost use Rattle.definition.specs.Grammar.{known, place, after};
ghost use Rattle.definition.specs.Check.{open_body, open_at, check_all, check_at};
ghost use Rattle.records.specs.Fields.{fields_at};
ghost use Rattle.grammar.specs.Slots.{parts_from};
ghost use Rattle.grammar.specs.Answers.{opening, checked};

use crate::tables::Tables;
use crate::{Refusal, Refused};
use records::marks::KNOWN;
use records::{HEAD_SIZE, Head};

// What the tests of a record by itself find, where none refuses it: where its children begin, how many there are, their first slot and the slot after
// the record.
#[derive(Clone, Copy)]
struct Opened {
    body: usize,
    count: usize,
    slot: usize,
    next: usize,
}

// The second half of the tests of a record, whose head is h and which is before the slot `next`: its text, and how many children it has.
fn open_body(
    tables: &Tables,
    tree: &[u8],
    at: usize,
    k: usize,
    h: Head,
    code: usize,
    next: usize,
) -> Result<Opened, Refusal>
    requires { (at + head_size ≤ length tree.now) × (h ≡ fields_at tree.now at) × (code ≡ place known h.mark) }
    ensures opens { opening result ≡ open_body tree.now at (parts_from k) h.mark }
    ensures before { IfOk result (λ o. o.next ≡ next) }
{
    let text = at + HEAD_SIZE;
    if tree.len() - text < h.text {
        return Err(Refusal::CutShort);
    }
    let body = text + h.text;
    if !crate::text::has_form(tables.form_of(code), h.flags, &tree[text..body]) {
        return Err(Refusal::Misplaced);
    }
    if h.count < tables.least_of(code) {
        return Err(Refusal::Misplaced);
    }
    Ok(Opened {
        body,
        count: h.count,
        slot: tables.kids_slot(k, h.mark, code),
        next,
    })
}

// The record at `at`, which stands at the slot k, by itself.
fn open_record(tables: &Tables, tree: &[u8], at: usize, k: usize) -> Result<Opened, Refusal>
    requires { at ≤ length tree.now }
    ensures opens { opening result ≡ open_at tree.now at (parts_from k) }
    ensures before { IfOk result (λ o. parts_from o.next ≡ after (parts_from k) (mark_at tree.now at)) }
{
    if tree.len() - at < HEAD_SIZE {
        return Err(Refusal::CutShort);
    }
    let h = records::read_head(tree, at);
    let code = records::marks::mark_number(h.mark);
    if KNOWN <= code {
        return Err(Refusal::UnknownMark);
    }
    let next = tables.take_slot(k, code).ok_or(Refusal::Misplaced)?;
    if h.end < h.start {
        return Err(Refusal::BackwardRange);
    }
    open_body(tables, tree, at, k, h, code, next)
}

// As many records as `count` says, one after the other from `at` on, the first at the slot k, with what they hold; `levels` is how many levels are
// left. Where none is refused, the offset past them.
fn check_all(
    tables: &Tables,
    tree: &[u8],
    at: usize,
    levels: usize,
    count: usize,
    k: usize,
) -> Result<usize, Refused>
    requires { at ≤ length tree.now }
    ensures { checked result ≡ check_all (check_at levels tree.now) tree.now count at (parts_from k) }
{
    let mut p = at;
    let mut slot = k;
    for _ in 0..count {
        if levels == 0 {
            return Err(Refused {
                refusal: Refusal::TooDeep,
                place: p,
            });
        }
        let opened = open_record(tables, tree, p, slot).map_err(|refusal| Refused {
            refusal,
            place: p,
        })?;
        p = opened.body;
        if 0 < opened.count {
            p = check_all(tables, tree, p, levels - 1, opened.count, opened.slot)?;
        }
        slot = opened.next;
    }
    Ok(p)
}

// The record at `at`, which stands at the slot k, with what it holds; `levels` is how many levels are left.
pub fn check_record(tree: &[u8], at: usize, levels: usize, k: usize) -> Result<usize, Refused>
    requires { at ≤ length tree.now }
    ensures { checked result ≡ check_at levels tree.now at (parts_from k) }
{
    check_all(&Tables::new(), tree, at, levels, 1, k)
}
