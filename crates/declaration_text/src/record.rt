// The tokens of a record, by the row of its mark.
ghost use Rattle.std.specs.Prelude.{drop};
ghost use Rattle.definition.specs.Record.{head_of, text_of};
ghost use Rattle.definition.specs.Text.{tokens, nth, each_of, template_of, number_of, piece_tokens};
ghost use Rattle.records.specs.Views.{rec_of};
ghost use Rattle.text_tokens.specs.Writes.{Writes};
ghost use Rattle.declaration_text.specs.Table.{each_by, piece_is};
ghost use Rattle.declaration_text.specs.Steps.{part_of, parts_of, parts_in};
ghost use Rattle.declaration_text.specs.Templates.{braces_if};

use crate::asks::{child_at, children_from, has_mark, is_name, is_plain};
use crate::leaves::{
    comma_follows, ends_in_semicolon, expressions, put_quasi, put_symbol, split_quasis,
};
use crate::pieces::{Each, Piece, What};
use crate::table::{PIECES, Tables};
use records::marks::Mark;
use records::tree::{Record, Records};
use text_tokens::State;

impl Tables {
    // An expression of a template in its braces, if there is one.
    #[cycle(written)]
    fn braces(&self, expression: Option<Record>, under: bool, out: &mut [u8], s: State) -> State
        ensures { Writes out.old out.new s result (braces_if under expression.entry) }
    {
        let Some(expression) = expression else {
            return s;
        };
        let opened = s.put_own(b"${", out).cleared();
        let next = self.write(expression, under, out, opened);
        if next.some {
            return next.put_token(b"}", out);
        }
        next.put_own(b"}", out)
    }

    // A template, of its children.
    #[cycle(written)]
    fn template(&self, children: Records, under: bool, out: &mut [u8], s: State) -> State
        ensures { Writes out.old out.new s result (template_of (parts_of under children.entry)) }
    {
        let (mut quasis, behind) = split_quasis(children);
        let mut expressions = expressions(behind);
        let turns = quasis.count.max(expressions.count);
        let mut next = s.put_token(b"`", out);
        for _ in 0..turns {
            next = put_quasi(quasis.next(), out, next);
            next = self.braces(expressions.next(), under, out, next);
        }
        next.put_own(b"`", out)
    }

    // What is written for a child before these: for an Op, an element or a member.
    #[cycle(written)]
    fn sibling(
        &self,
        child: Record,
        behind: Records,
        under: bool,
        each: Each,
        out: &mut [u8],
        s: State,
    ) -> State
        ensures { Writes out.old out.new s result
            (each_by each (part_of under child.entry) (parts_of under behind.entry)) }
    {
        let is_op = has_mark(child, Mark::Op);
        match each {
            Each::Ops => {
                if is_op {
                    return self.write(child, under, out, s);
                }
                s
            }
            Each::Elements => {
                if is_op {
                    return s;
                }
                let next = self.write(child, under, out, s);
                if comma_follows(child, behind) {
                    return next.put_token(b",", out);
                }
                next
            }
            Each::Members => {
                if is_op || has_mark(child, Mark::Dm) {
                    return s;
                }
                let next = self.write(child, under, out, s.cleared());
                if ends_in_semicolon(next) {
                    return next;
                }
                next.put_token(b";", out)
            }
        }
    }

    // What is written for each of the records.
    #[cycle(written)]
    fn siblings(&self, records: Records, under: bool, each: Each, out: &mut [u8], s: State) -> State
        ensures { Writes out.old out.new s result (each_of (each_by each) (parts_of under records.entry)) }
    {
        let mut next = s;
        let mut rest = records;
        while let Some(child) = rest.next() {
            next = self.sibling(child, rest, under, each, out, next);
        }
        next
    }

    // What is written for each of the children behind the slots.
    #[cycle(written)]
    fn behind(&self, r: Record, slots: usize, each: Each, out: &mut [u8], s: State) -> State
        ensures { Writes out.old out.new s result
            (each_of (each_by each) (drop slots (parts_in r.entry))) }
    {
        if r.count() <= slots {
            return s;
        }
        let under = has_mark(r, Mark::Oc);
        self.siblings(children_from(r, slots), under, each, out, s)
    }

    // The child with the number i, if there is one.
    #[cycle(written)]
    fn child(&self, r: Record, i: usize, out: &mut [u8], s: State) -> State
        ensures { Writes out.old out.new s result (nth i (parts_in r.entry)).tokens }
    {
        let Some(child) = child_at(r, i) else {
            return s;
        };
        self.write(child, has_mark(r, Mark::Oc), out, s)
    }

    // A number: its spelling, where it has one, else its decimal.
    #[cycle(written)]
    fn number(&self, r: Record, out: &mut [u8], s: State) -> State
        ensures { Writes out.old out.new s result
            (number_of r.entry.at (text_of (rec_of r.entry)) (parts_in r.entry)) }
    {
        if r.count() == 0 {
            return s.put_number(r.text(), r.at, out);
        }
        self.child(r, 0, out, s)
    }

    // A piece of a row with this many slots.
    #[cycle(written)]
    fn put_piece(
        &self,
        piece: Piece,
        slots: usize,
        r: Record,
        under: bool,
        out: &mut [u8],
        s: State,
    ) -> State
        ensures { Writes out.old out.new s result
            (piece_tokens (piece_is piece) under slots r.entry.at (head_of (rec_of r.entry)) (parts_in r.entry)) }
    {
        if !piece.when.holds(r, under) {
            return s;
        }
        match piece.what {
            What::Word(start, size) => s.put_token(self.word(start, size), out),
            What::Child(i) => self.child(r, i, out, s),
            What::Behind(each) => self.behind(r, slots, each, out, s),
            What::Template => { self.template(r.children(), has_mark(r, Mark::Oc), out, s) }
            What::Text => s.put_token(r.text(), out),
            What::Symbol => put_symbol(r, out, s),
            What::String => s.put_string(r.text(), out),
            What::Number => self.number(r, out, s),
            What::Integer => s.put_integer(r.text(), out),
        }
    }

    // The tokens of the record; `under` says whether an Oc holds it.
    #[cycle(written)]
    pub fn write(&self, r: Record, under: bool, out: &mut [u8], s: State) -> State
        ensures { Writes out.old out.new s result (tokens (rec_of r.entry) under r.entry.at) }
    {
        if is_plain(r) {
            return s.put_token(r.text(), out);
        }
        if is_name(r) {
            return put_symbol(r, out, s);
        }
        let row = r.mark() as usize;
        let slots = self.slots(row);
        let mut next = s;
        for i in 0..PIECES {
            let Some(piece) = self.piece(row, i) else {
                return next;
            };
            next = self.put_piece(piece, slots, r, under, out, next);
        }
        next
    }
}
