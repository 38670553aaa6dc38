// What the pieces of a row ask of a record: its flags and its children.
ghost use Rattle.std.specs.Prelude.{true, ◌≡◌, ◌+◌, ◌≤◌, eqb, length, MatchOption};
ghost use Rattle.definition.specs.Tree.{count, head_size};
ghost use Rattle.definition.specs.Record.{has_flag, head_of, kids_of, mark_of, text_of};
ghost use Rattle.definition.specs.Text.{nth, is_quoted, holds};
ghost use Rattle.records.specs.Marks.{number_of};
ghost use Rattle.records.specs.Views.{rec_of, From, ChildIs};
ghost use Rattle.declaration_text.specs.Table.{when_is};
ghost use Rattle.declaration_text.specs.Steps.{parts_in, BehindFirst, Plain, PlainAt, Name, NameAt};

use crate::pieces::When;
use records::flags::{OPTIONAL, has_flag};
use records::marks::{ID, KI, KW, Mark, OP};
use records::tree::{Record, Records};
use records::{count_at, mark_at, read_head};

// Whether the record has a mark, by their numbers: to tell which of all marks it has takes longer.
pub fn has_mark(r: Record, mark: Mark) -> bool
    ensures { result ≡ eqb (mark_of (rec_of r.entry)) (number_of mark) }
{
    mark_at(r.tree, r.at) == u16::from(mark)
}

// The records behind the first i.
pub fn behind_first<'t>(records: Records<'t>, i: usize) -> Records<'t>
    requires { i ≤ records.count }
    ensures { BehindFirst records.entry i result }
{
    let mut rest = records;
    for _ in 0..i {
        rest = rest.rest();
    }
    rest
}

// The children of a record from the number i on.
pub fn children_from<'t>(r: Record<'t>, i: usize) -> Records<'t>
    requires { i ≤ count (kids_of (rec_of r)) }
    ensures { From r.entry i result }
{
    behind_first(r.children(), i)
}

// The child with the number i, if there is one.
pub fn child_at<'t>(r: Record<'t>, i: usize) -> Option<Record<'t>>
    ensures { MatchOption result (count (kids_of (rec_of r.entry)) ≤ i) (λ x. ChildIs r.entry i x) }
{
    if r.count() <= i {
        return None;
    }
    Some(children_from(r, i).first())
}

// Whether a flag of the record is set.
fn flag_is_set(r: Record, flag: u8) -> bool
    ensures { result ≡ has_flag flag (head_of (rec_of r.entry)).flags }
{
    flag != 0 && has_flag(r.flags(), flag)
}

// Whether the child with the number i has a mark; where there is no child, it is as a No.
fn child_is(r: Record, i: usize, mark: Mark) -> bool
    ensures { result ≡ eqb (mark_of (nth i (parts_in r.entry)).itself) (number_of mark) }
{
    match child_at(r, i) {
        Some(child) => has_mark(child, mark),
        None => Mark::No == mark,
    }
}

// Whether a text begins with a quote.
fn is_quoted(text: &[u8]) -> bool
    ensures { result ≡ is_quoted text.now }
{
    matches!(text.first(), Some(b'"' | b'\''))
}

// Whether the text of the first child does.
fn name_is_quoted(r: Record) -> bool
    ensures { result ≡ is_quoted (text_of (nth 0 (parts_in r.entry)).itself) }
{
    match child_at(r, 0) {
        Some(name) => is_quoted(name.text()),
        None => false,
    }
}

impl When {
    // Whether a piece is written of the record; `under` says whether an Oc holds the record.
    #[tactic(auto, unfolding(definition::specs::Text::holds))]
    pub fn holds(self, r: Record, under: bool) -> bool
        ensures { result ≡ holds (when_is self) under (head_of (rec_of r.entry)) (parts_in r.entry) }
    {
        match self {
            When::Always => true,
            When::Flagged(flag) => flag_is_set(r, flag),
            When::Unflagged(flag) => !flag_is_set(r, flag),
            When::Getter => flag_is_set(r, 2) && !flag_is_set(r, 1),
            When::There(i) => !child_is(r, i, Mark::No),
            When::Dotted => child_is(r, 1, Mark::Nd),
            When::Quoted => name_is_quoted(r),
            When::Unquoted => !name_is_quoted(r),
            When::Chained => under,
            When::Linked => !under && child_is(r, 1, Mark::Ki),
        }
    }
}

// Whether the record at `at`, which has this mark, is an Op, a Kw or a Ki without children: its text is its only token.
pub fn is_plain_at(tree: &[u8], at: usize, mark: u16) -> bool
    requires { at + head_size ≤ length tree.now }
    ensures { result ≡ true → PlainAt tree.now at mark }
{
    matches!(mark, OP | KW | KI) && count_at(tree, at) == 0
}

// Whether it is an Id without children and without flag 1: its symbol is its only token.
pub fn is_name_at(tree: &[u8], at: usize, mark: u16) -> bool
    requires { at + head_size ≤ length tree.now }
    ensures { result ≡ true → NameAt tree.now at mark }
{
    mark == ID && !has_flag(read_head(tree, at).flags, OPTIONAL) && count_at(tree, at) == 0
}

// Whether the record is plain.
pub fn is_plain(r: Record) -> bool
    ensures { result ≡ true → Plain (rec_of r.entry) }
{
    is_plain_at(r.tree, r.at, mark_at(r.tree, r.at))
}

// Whether it is a name.
pub fn is_name(r: Record) -> bool
    ensures { result ≡ true → Name (rec_of r.entry) }
{
    is_name_at(r.tree, r.at, mark_at(r.tree, r.at))
}
