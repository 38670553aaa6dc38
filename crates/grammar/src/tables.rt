// The grammar of document 01 as tables of bytes, and the look-ups in them. Each table is proved equal to what the grammar of crate
// `definition` gives, by one computation over the whole table. A mark stands here by its number, its row in the grammar, and a slot by
// its place in PARTS.
ghost use Rattle.std.specs.Prelude.{◌≡◌, true, false, [], ◌+◌, ◌<◌, get_or, map, MatchOption};
ghost use Rattle.definition.specs.Grammar.{known, forms, slots, place, member, marks, allowed, after, least};
ghost use Rattle.definition.specs.Check.{inside};
ghost use Rattle.grammar.specs.Printed.{parts_table, forms_table, starts_table, lows_table, highs_table, others_table};
ghost use Rattle.grammar.specs.Slots.{set_at, parts_from, entry_parts, form_at, form_told};

use crate::text::Form;
use records::marks::{AG, KNOWN};

// What the entries of PARTS begin with: `T`, `T*`, and the child of a Pp.
const ONE: usize = 1;

const MANY: usize = 65;

const PROPERTY: usize = 128;

// printed by tools/grammar-tables: tables

// By mark: the form of its text, as text.rt numbers them.
const FORMS: [u8; KNOWN] =
    *b"\x00\x01\x00\x00\x00\x00\x00\x00\x00\x00\x00\x00\x00\x00\x00\x00\x00\x00\x00\x00\x00\x00\x00\x00\x00\x00\x00\x00\x00\x00\x00\x00\x00\x00\x00\x00\x00\x00\x01\x00\x01\x02\x03\x00\x00\x00\x00\x04\x00\x00\x00\x00\x00\x00\x00\x00\x00\x00\x00\x00\x00\x00\x00\x00\x00\x00\x00\x00\x00\x00\x00\x05\x00\x01\x00\x00\x00\x00\x00\x00\x00\x00\x00\x00\x00";

// By mark: the place in PARTS where the slots of its children begin.
const STARTS: [u8; KNOWN] =
    *b"\x01\x02\x00\x02\x02\x04\x07\x4f\x0a\x0e\x12\x02\x15\x19\x02\x02\x1d\x21\x01\x25\x29\x2f\x32\x35\x39\x3d\x41\x02\x02\x46\x02\x47\x47\x4a\x4e\x02\x4f\x02\x02\x4f\x02\x02\x02\x02\x02\x02\x02\x02\x52\x55\x58\x5c\x60\x65\x4f\x69\x6d\x71\x75\x79\x4f\x4f\x4f\x7c\x7c\x7c\x02\x4f\x80\x84\x02\x02\x87\x02\x8b\x8e\x92\x95\x02\x98\x7d\x7d\x9b\x02\x02";

// By mark: how many children it has at least.
const LEASTS: [u8; KNOWN] =
    *b"\x00\x00\x00\x00\x00\x01\x01\x01\x02\x02\x00\x00\x01\x02\x00\x00\x02\x02\x00\x02\x03\x01\x01\x01\x01\x02\x03\x00\x00\x02\x00\x01\x01\x02\x02\x00\x01\x00\x00\x01\x00\x00\x00\x00\x00\x00\x00\x00\x00\x00\x02\x02\x02\x00\x01\x01\x02\x02\x02\x01\x01\x01\x01\x02\x02\x02\x00\x01\x02\x01\x00\x00\x02\x00\x01\x02\x01\x00\x00\x00\x01\x01\x02\x00\x00";

// The slots, list after list: 0 ends a list, ONE + k is one child of the set k, MANY + k any number of them, PROPERTY the one child of a Pp.
const PARTS: [u8; PLACES] =
    *b"\x00\x41\x42\x00\x03\x42\x00\x04\x42\x00\x06\x07\x42\x00\x06\x08\x42\x00\x49\x42\x00\x06\x4a\x42\x00\x02\x0b\x42\x00\x0c\x0d\x42\x00\x02\x0d\x42\x00\x02\x0e\x42\x00\x0f\x10\x0f\x51\x42\x00\x0c\x42\x00\x80\x42\x00\x0f\x53\x42\x00\x0f\x54\x42\x00\x15\x07\x42\x00\x15\x10\x0d\x42\x00\x05\x10\x42\x00\x06\x10\x42\x00\x0c\x05\x42\x00\x56\x42\x00\x57\x42\x00\x18\x07\x42\x00\x18\x08\x42\x00\x0f\x10\x4c\x42\x00\x59\x45\x42\x00\x05\x5a\x42\x00\x05\x0f\x42\x00\x05\x1b\x42\x00\x05\x05\x42\x00\x1c\x42\x00\x05\x1d\x42\x00\x15\x05\x42\x00\x06\x42\x00\x0f\x1d\x42\x00\x1e\x42\x00\x1f\x0f\x42\x00\x1f\x42\x00\x60\x42\x00\x61\x42\x00\x0f\x1d\x4c\x42\x00\x22\x05\x42\x00\x23\x00";

// How many places PARTS has.
const PLACES: usize = 166;

// The set `Bd|Ag` of the child of a Pp.
const PROPERTY_SET: usize = 17;

// The slots of the Ag of a Pp.
const UNDESTRUCTURED: usize = 160;

// The slot of a root.
pub const ROOT: usize = 164;

// How many sets of marks there are. The marks are numbered so that each set is one run of them and at most one mark more.
const SETS: usize = 35;

// By set: the first mark of its run.
const LOWS: [u8; SETS] =
    *b"\x03\x01\x08\x32\x28\x2f\x14\x17\x10\x11\x12\x1f\x28\x12\x01\x49\x15\x21\x18\x15\x26\x28\x43\x02\x47\x28\x01\x01\x49\x28\x01\x1c\x48\x21\x00";

// By set: the mark past the last of its run.
const HIGHS: [u8; SETS] =
    *b"\x10\x02\x10\x34\x43\x30\x15\x18\x11\x12\x14\x26\x43\x14\x03\x55\x16\x23\x1d\x17\x2b\x44\x47\x03\x48\x44\x02\x02\x55\x2c\x02\x1f\x49\x26\x01";

// By set: its one mark more, and 255 where it has none.
const OTHERS: [u8; SETS] =
    *b"\xff\xff\xff\x0e\xff\xff\xff\xff\xff\xff\x02\xff\x02\xff\xff\x02\xff\xff\xff\xff\xff\x02\xff\x2f\xff\xff\x26\x39\xff\x01\x2f\xff\xff\xff\xff";

// end of what is printed

// The tables to lend. A table that a function names is made anew at each call of it, so a check makes them once.
#[derive(Drop)]
pub struct Tables {
    parts: [u8; PLACES],
    forms: [u8; KNOWN],
    starts: [u8; KNOWN],
    leasts: [u8; KNOWN],
    lows: [u8; SETS],
    highs: [u8; SETS],
    others: [u8; SETS],
    ghost parts_right: { parts ≡ parts_table },
    ghost forms_right: { forms ≡ forms_table },
    ghost starts_right: { starts ≡ starts_table },
    ghost leasts_right: { leasts ≡ map least slots },
    ghost lows_right: { lows ≡ lows_table },
    ghost highs_right: { highs ≡ highs_table },
    ghost others_right: { others ≡ others_table },
}

// An entry of PARTS: the end of a list, one child of a set, any number of them, the one child of a Pp.
#[derive(Clone, Copy, PartialEq, Eq, Debug)]
enum Entry {
    End,
    One(usize),
    Many(usize),
    Property,
}

// An entry of a table as a number to count with.
fn wide(x: u8) -> usize
    ensures { (result ≡ x) × (result < 256) }
{
    x as usize
}

impl Tables {
    pub fn new() -> Tables {
        Tables {
            parts: PARTS,
            forms: FORMS,
            starts: STARTS,
            leasts: LEASTS,
            lows: LOWS,
            highs: HIGHS,
            others: OTHERS,
        }
    }

    // The form of the text of the mark with the number `code`.
    pub fn form_of(&self, code: usize) -> Form
        ensures { form_told result ≡ get_or forms code (form_at 0) }
    {
        if code < KNOWN {
            Form::from(self.forms[code])
        } else {
            Form::Empty
        }
    }

    // The first slot of its children.
    pub fn start_of(&self, code: usize) -> usize
        ensures { parts_from result ≡ get_or slots code [] }
    {
        if code < KNOWN {
            wide(self.starts[code])
        } else {
            0
        }
    }

    // How many children it has at least.
    pub fn least_of(&self, code: usize) -> usize
        ensures { result ≡ least (get_or slots code []) }
    {
        if code < KNOWN {
            wide(self.leasts[code])
        } else {
            0
        }
    }

    // Whether it is one of the set k.
    fn in_set(&self, k: usize, code: usize) -> bool
        ensures { result ≡ member (get_or known code 0) (marks (set_at k)) }
    {
        if SETS <= k {
            return false;
        }
        if KNOWN <= code {
            return false;
        }
        if code < wide(self.lows[k]) {
            return code == wide(self.others[k]);
        }
        if wide(self.highs[k]) <= code {
            return code == wide(self.others[k]);
        }
        true
    }

    // The entry of PARTS at the place k.
    fn entry_at(&self, k: usize) -> Entry
        ensures { parts_from k ≡ entry_parts result (parts_from (k + 1)) }
    {
        if PLACES <= k {
            return Entry::End;
        }
        let p = wide(self.parts[k]);
        if p == 0 {
            return Entry::End;
        }
        if p < MANY {
            return Entry::One(p - ONE);
        }
        if p < PROPERTY {
            return Entry::Many(p - MANY);
        }
        Entry::Property
    }

    // What a record with that mark finds at the slot k: the slot after it, where it may stand there.
    pub fn take_slot(&self, k: usize, code: usize) -> Option<usize>
        ensures { MatchOption result
            (allowed (parts_from k) (get_or known code 0) ≡ false)
            (λ next. (allowed (parts_from k) (get_or known code 0) ≡ true)
            × (parts_from next ≡ after (parts_from k) (get_or known code 0))) }
    {
        for i in k..PLACES {
            match self.entry_at(i) {
                Entry::End => return None,
                Entry::One(set) => return self.in_set(set, code).then_some(i + 1),
                Entry::Property => return self.in_set(PROPERTY_SET, code).then_some(i + 1),
                Entry::Many(set) => {
                    if self.in_set(set, code) {
                        return Some(i);
                    }
                }
            }
        }
        None
    }

    // The first slot of the children of a record with the mark `mark`, whose number is `code`, at the slot k.
    pub fn kids_slot(&self, k: usize, mark: u16, code: usize) -> usize
        requires { code ≡ place known mark }
        ensures { parts_from result ≡ inside (parts_from k) mark }
    {
        if mark != AG {
            return self.start_of(code);
        }
        match self.entry_at(k) {
            Entry::Property => UNDESTRUCTURED,
            _ => self.start_of(code),
        }
    }
}
