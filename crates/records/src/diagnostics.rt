// The cases of `FastCheckDtsDiagnostic`, in order, and their records: "A diagnostic is 10 bytes".
ghost use Rattle.std.specs.Prelude.{◌≡◌};
ghost use Rattle.definition.specs.Record.{diag_bytes};
ghost use Rattle.records.specs.Fields.{diag_of};
ghost use Rattle.records.specs.Diagnostics.{mark_of};
ghost use Rattle.records.specs.Writers.{Writes};

use crate::Range;
use crate::marks::{D1, D2, D3, D4, D5};
use crate::writer::Writer;

#[derive(Clone, Copy, PartialEq, Eq, Debug)]
pub enum FastCheckDtsDiagnostic {
    UnableToInferType,
    UnableToInferTypeFallbackAny,
    UnableToInferTypeFromProp,
    UnableToInferTypeFromSpread,
    UnsupportedUsing,
}

// "`d1` to `d5`"
impl From<FastCheckDtsDiagnostic> for u16 {
    ghost from_gives = { λ kind r. r ≡ mark_of kind };

    fn from(kind: FastCheckDtsDiagnostic) -> u16 {
        match kind {
            FastCheckDtsDiagnostic::UnableToInferType => D1,
            FastCheckDtsDiagnostic::UnableToInferTypeFallbackAny => D2,
            FastCheckDtsDiagnostic::UnableToInferTypeFromProp => D3,
            FastCheckDtsDiagnostic::UnableToInferTypeFromSpread => D4,
            FastCheckDtsDiagnostic::UnsupportedUsing => D5,
        }
    }
}

impl<'o> Writer<'o> {
    // A diagnostic at a range.
    pub fn put_diagnostic(&mut self, kind: FastCheckDtsDiagnostic, range: Range)
        ensures { Writes self.old self.new (diag_bytes (diag_of (mark_of kind) range.start range.end)) }
    {
        self.put_marked(u16::from(kind), range);
    }

    // The ten bytes of one with any mark.
    pub fn put_marked(&mut self, mark: u16, range: Range)
        ensures { Writes self.old self.new (diag_bytes (diag_of mark range.start range.end)) }
    {
        let [m0, m1] = mark.to_le_bytes();
        let [s0, s1, s2, s3] = range.start.to_le_bytes();
        let [e0, e1, e2, e3] = range.end.to_le_bytes();
        self.put(&[m0, m1, s0, s1, s2, s3, e0, e1, e2, e3]);
    }
}
