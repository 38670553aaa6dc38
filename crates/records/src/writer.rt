// Where bytes are written: a buffer that is lent, and a position in it. What does not fit is dropped and the position goes on, so that a run
// without room says how much room it takes.
ghost use Rattle.std.specs.Prelude.{◌<◌, ◌^◌, length};

use crate::flags::Flags;
use crate::marks::Mark;
use crate::tree::Record;
use crate::{CONTEXT_SIZE, DUMMY_SP, HEAD_SIZE, Head, Range, put_text};

#[derive(Drop)]
pub struct Writer<'o> {
    pub out: &'o mut [u8],
    pub at: usize,
    // as every buffer and every place
    pub ghost size: { length out.now < 2 ^ 64 },
    pub ghost place: { at < 2 ^ 64 },
}

impl<'o> Writer<'o> {
    ghost use Rattle.std.specs.Prelude.{◌≡◌, [], ◌∷◌, ◌++◌, ◌+◌};
    ghost use Rattle.definition.specs.Tree.{rec, nil, le4, head_bytes, encode};
    ghost use Rattle.definition.specs.Grammar.{mark};
    ghost use Rattle.definition.specs.Record.{absent, ident};
    ghost use Rattle.records.specs.Fields.{field_bytes, span, made_head, made_fields};
    ghost use Rattle.records.specs.Marks.{number_of};
    ghost use Rattle.records.specs.Views.{rec_of};
    ghost use Rattle.records.specs.Writers.{Writes, Skips, Fronts};

    // The bytes of a text, or of a part of the tree.
    pub fn put(&mut self, bytes: &[u8])
        ensures { Writes self.old self.new bytes.now }
    {
        self.at = put_text(self.out, self.at, bytes);
    }

    // One byte.
    pub fn put_byte(&mut self, b: u8)
        ensures { Writes self.old self.new (b ∷ []) }
    {
        self.put(&[b]);
    }

    // Room for n bytes that are written later.
    pub fn skip(&mut self, n: usize)
        ensures { Skips self.old self.new n }
    {
        self.at = self.at.saturating_add(n);
    }

    // A head.
    pub fn put_head(&mut self, head: Head)
        ensures { Writes self.old self.new (field_bytes head) }
    {
        // where no byte fits, as in a dry run, none is made
        if self.out.len() <= self.at {
            self.skip(HEAD_SIZE);
            return;
        }
        // all of them in one place, so that none is read back before it is written
        if HEAD_SIZE <= self.out.len() - self.at {
            let end = self.at + HEAD_SIZE;
            self.out[self.at..end].copy_from_slice(&head.bytes());
            self.at = end;
            return;
        }
        self.put(&head.bytes());
    }

    // A record of the tree as it stands.
    pub fn put_record(&mut self, r: Record)
        ensures { Writes self.old self.new (encode (rec_of r.entry)) }
    {
        self.put(r.part());
    }

    // The head of a record that is made, with a text of a length and children of a number: "A record made afresh has none" (no Ops) "and only the
    // named flags it needs".
    pub fn put_made(&mut self, mark: Mark, flags: Flags, range: Range, text: usize, count: usize)
        ensures { Writes self.old self.new (field_bytes (made_fields (number_of mark) flags range text count)) }
    {
        self.put_head(Head::made(mark, flags, range, text, count));
    }

    // The same of a record without text, in front of its children.
    pub fn put_made_front(&mut self, mark: Mark, flags: Flags, range: Range, count: usize)
        ensures { Writes self.old self.new (head_bytes (made_head (number_of mark) flags (span range) []) count) }
    {
        self.put_made(mark, flags, range, 0, count);
    }

    // A record that is made and has neither flags nor children.
    pub fn put_made_leaf(&mut self, mark: Mark, range: Range, text: &[u8])
        ensures { Writes self.old self.new (encode (rec (made_head (number_of mark) 0 (span range) text.now) nil)) }
    {
        self.put_made(mark, 0, range, text.len(), 0);
        self.put(text);
    }

    // `None`.
    pub fn put_absent(&mut self)
        ensures { Writes self.old self.new (encode absent) }
    {
        self.put_made_leaf(Mark::No, DUMMY_SP, b"");
    }

    // What stands before the name of an Id that is made, where the name has this length: its head, and the context that is `SyntaxContext::default()`.
    pub fn put_ident_front(&mut self, range: Range, length: usize)
        requires { 4 + length < 2 ^ 64 }
        ensures { Writes self.old self.new (field_bytes (made_fields (mark "Id") 0 range (4 + length) 0) ++ le4 0) }
    {
        self.put_made(Mark::Id, 0, range, CONTEXT_SIZE + length, 0);
        self.put(b"\0\0\0\0");
    }

    // `Ident::new(name, span, SyntaxContext::default())`.
    pub fn put_ident(&mut self, range: Range, name: &[u8])
        ensures { Writes self.old self.new (encode (ident (span range) name.now)) }
    {
        self.put_ident_front(range, name.len());
        self.put(name);
    }

    // A head and its text in front of what was written behind the room for them; the writer stays where it is.
    pub fn put_front_at(&mut self, at: usize, head: Head, text: &[u8])
        ensures { Fronts self.old self.new at (field_bytes head ++ text.now) }
    {
        let end = put_text(self.out, at, &head.bytes());
        put_text(self.out, end, text);
    }
}
