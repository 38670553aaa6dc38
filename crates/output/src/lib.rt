// Where the declarations of a module and its diagnostics are written, and records of the tree on their way there: kept as they are, kept with other flags,
// or replaced by a No. A record of which only some children change is written as its front, its children one after the other, and those that are kept
// behind them.
#![tactic(auto)]

ghost use Rattle.std.specs.Prelude.{◌≡◌};

use names::unique::Names;
use records::diagnostics::FastCheckDtsDiagnostic;
use records::flags::{Flags, OPTIONAL, with_flag};
use records::marks::Mark;
use records::tree::{Record, Records};
use records::writer::Writer;
use records::{DUMMY_SP, HEAD_SIZE, Head, Range};
use swc_helpers::types::any_type_ann;

// The declarations and the diagnostics that were written, the counter that names are made of, and whether every text that was written fits the two
// bytes of its length.
#[derive(Drop)]
pub struct Output<'o, 'w> {
    pub out: &'o mut Writer<'w>,
    pub diagnostics: &'o mut Writer<'w>,
    pub names: Names,
    pub fits: bool,
}

// Where something begins that may be given up.
#[derive(Clone, Copy)]
pub struct Start {
    pub at: usize,
    pub fits: bool,
}

impl<'o, 'w> Output<'o, 'w> {
    ghost use Rattle.std.specs.Prelude.{true, ◌+◌, ◌<◌, length};
    ghost use Rattle.definition.specs.Tree.{head_size};
    ghost use Rattle.definition.specs.Record.{head_of, text_of, with_flags, flagged, gone};
    ghost use Rattle.definition.specs.Helpers.{any_type_ann};
    ghost use Rattle.records.specs.Fields.{span};
    ghost use Rattle.records.specs.Views.{rec_of, recs_of};
    ghost use Rattle.output.specs.Outputs.{front_bytes, diag_for, start_of, Puts, Marks, Skipped, Fronted, Returned, Keeps, KeepsAll, Filled};
    ghost use Rattle.output.specs.Kids.{Begun, Kept};

    // Where it stands.
    pub fn start(&self) -> Start
        ensures { result ≡ start_of self.now }
    {
        Start {
            at: self.out.at,
            fits: self.fits,
        }
    }

    // Back to where something began that failed: its diagnostics and its names stay.
    pub fn back(&mut self, start: Start)
        ensures { Returned self.old self.new start }
    {
        self.out.at = start.at;
        self.fits = start.fits;
    }

    // `mark_diagnostic`, at the range of a record.
    pub fn mark_diagnostic(&mut self, r: Record, kind: FastCheckDtsDiagnostic)
        ensures { Marks self.old self.new (diag_for kind (head_of (rec_of r.entry))) }
    {
        self.diagnostics.put_diagnostic(kind, r.range());
    }

    // A record as it stands.
    pub fn keep(&mut self, r: Record)
        ensures { Keeps self.old self.new (rec_of r.entry) }
    {
        self.out.put(r.part());
    }

    // Records as they stand.
    pub fn keep_all(&mut self, rs: Records)
        ensures { KeepsAll self.old self.new (recs_of rs.entry) }
    {
        for r in rs {
            self.keep(r);
        }
    }

    // A record before its children, with these flags and this number of children.
    pub fn put_front(&mut self, r: Record, flags: Flags, count: usize)
        ensures front { Puts self.old self.new (front_bytes (with_flags (head_of (rec_of r.entry)) flags) count) true }
        ensures short { length (text_of (rec_of r.entry)) < 65536 }
    {
        self.out.put_head(Head {
            flags,
            count,
            ..r.head()
        });
        self.out.put(r.text());
    }

    // Room for that.
    pub fn skip_front(&mut self, r: Record)
        ensures { Skipped self.old self.new (head_size + length (text_of (rec_of r.entry))) }
    {
        self.out.skip(HEAD_SIZE + r.text().len());
    }

    // The front of a record as it stands, with another number of children, in the room that was left for it.
    pub fn put_front_at(&mut self, start: Start, r: Record, count: usize)
        ensures front { Fronted self.old self.new start (front_bytes (head_of (rec_of r.entry)) count) }
        ensures short { length (text_of (rec_of r.entry)) < 65536 }
    {
        let head = Head { count, ..r.head() };
        self.out.put_front_at(start.at, head, r.text());
    }

    // What goes: a No in its place, unless it is one (reading 9).
    pub fn put_gone(&mut self, r: Record)
        ensures { Keeps self.old self.new (gone (rec_of r.entry)) }
    {
        if r.mark() == Mark::No {
            self.keep(r);
            return;
        }
        self.out.put_absent();
    }

    // A record with flag 1 set, which is optional on an Id.
    pub fn put_flagged(&mut self, r: Record)
        ensures { Keeps self.old self.new (flagged (rec_of r.entry)) }
    {
        let kids = self.begin_with(r, with_flag(r.flags(), OPTIONAL));
        self.keep_all(kids);
    }

    // `any_type_ann`, where a type is missing.
    pub fn put_any(&mut self, range: Range)
        ensures { Keeps self.old self.new (any_type_ann (span range)) }
    {
        any_type_ann(self.out, range);
    }

    // A type, or `any` and a diagnostic at the expression that has none, as for an element of an array and the value of a property.
    pub fn or_any(&mut self, t: Option<()>, expr: Record, kind: FastCheckDtsDiagnostic)
        ensures { Filled self.old self.new t (diag_for kind (head_of (rec_of expr.entry))) }
    {
        let Some(()) = t else {
            self.put_any(DUMMY_SP);
            self.mark_diagnostic(expr, kind);
            return;
        };
    }

    // The front of a record, with these flags; its children are left.
    pub fn begin_with<'t>(&mut self, r: Record<'t>, flags: Flags) -> Records<'t>
        ensures { Begun self.old self.new r.entry (with_flags (head_of (rec_of r.entry)) flags) result }
    {
        let kids = r.children();
        self.put_front(r, flags, kids.count);
        kids
    }

    // The front of a record as it stands.
    pub fn begin<'t>(&mut self, r: Record<'t>) -> Records<'t>
        ensures { Begun self.old self.new r.entry (head_of (rec_of r.entry)) result }
    {
        self.begin_with(r, r.flags())
    }

    // The next child as it stands.
    pub fn keep_next<'t>(&mut self, kids: Records<'t>) -> Records<'t>
        requires { 0 < kids.count }
        ensures { Kept self.old self.new kids.entry result (λ r. r) }
    {
        self.keep(kids.first());
        kids.rest()
    }

    // The next child goes.
    pub fn drop_next<'t>(&mut self, kids: Records<'t>) -> Records<'t>
        requires { 0 < kids.count }
        ensures { Kept self.old self.new kids.entry result gone }
    {
        self.put_gone(kids.first());
        kids.rest()
    }
}
