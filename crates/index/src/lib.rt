// An index of names: offsets of Ids with three bits for each, sorted by the Ids' texts, found by halving.
#![tactic(auto)]

ghost use Rattle.std.specs.Prelude.{◌≡◌, ◌&&◌, ◌||◌, ◌+◌, ◌/◌, ◌<◌, ◌≤◌, length, get_or, set, take};
ghost use Rattle.std.specs.Ordering.{nat_cmp};
ghost use Rattle.std.specs.Cmp.Lexicographic.{slice_cmp};
ghost use Rattle.std.specs.Slice.Scan.{big_endian};
ghost use Rattle.definition.specs.Tree.{body_at, text_at};
ghost use Rattle.definition.specs.Record.{same_text};
ghost use Rattle.definition.specs.Prescan.{Question};
ghost use Rattle.index.specs.Index.{farthest, name_at, sets_of, has, entry_of, joined_of, Sorted, Found, Inserted, Enters, entries_of, Grown};

use records::text_at;
use std::cmp::Ordering;

// The sets of `PrescannedModuleIds` that have a name.
#[derive(Clone, Copy, Default)]
pub struct Sets {
    pub typeof_safe: bool,
    pub non_generic_class: bool,
    pub array_typed: bool,
}

// An entry is the offset of an Id times BITS and a bit for each set that has its name: one number, so that a table takes little of the stack.
const BITS: u32 = 8;

impl Sets {
    // The sets of an entry.
    pub fn of(entry: u32) -> Sets
        ensures { result ≡ sets_of entry }
    {
        Sets {
            typeof_safe: entry % 2 == 1,
            non_generic_class: entry / 2 % 2 == 1,
            array_typed: entry / 4 % 2 == 1,
        }
    }

    // These sets and others.
    fn union(self, other: Sets) -> Sets
        ensures { (q : Question) → has q result ≡ (has q self || has q other) }
    {
        Sets {
            typeof_safe: self.typeof_safe || other.typeof_safe,
            non_generic_class: self.non_generic_class || other.non_generic_class,
            array_typed: self.array_typed || other.array_typed,
        }
    }

    // The entry of the Id at `id`, with these sets.
    fn entry(self, id: usize) -> u32
        requires { id < farthest }
        ensures { result ≡ entry_of id self.typeof_safe self.non_generic_class self.array_typed }
    {
        id as u32 * BITS
            + u32::from(self.typeof_safe)
            + 2 * u32::from(self.non_generic_class)
            + 4 * u32::from(self.array_typed)
    }
}

// The text of the Id of an entry.
fn name_at(tree: &[u8], entry: u32) -> &[u8]
    requires { body_at tree.now (entry / 8) ≤ length tree.now }
    ensures { result.now ≡ name_at tree.now entry }
{
    let id = (entry / BITS) as usize;
    text_at(tree, id)
}

// The first eight bytes of a text as one number, the first of them the weightiest.
fn front_number(text: &[u8]) -> u64
    requires { 8 ≤ length text.now }
    ensures { result ≡ big_endian 0 (take 8 text.now) }
{
    u64::from_be_bytes([
        text[0], text[1], text[2], text[3], text[4], text[5], text[6], text[7],
    ])
}

// `cmp` of two texts. Their first eight bytes are compared as one number: byte by byte, each takes a branch that can't be foretold, and that is most
// of what a search takes.
fn order(a: &[u8], b: &[u8]) -> Ordering
    ensures { result ≡ slice_cmp nat_cmp a.now b.now }
{
    if a.len() < 8 || b.len() < 8 {
        return a.cmp(&b);
    }
    let front = front_number(a);
    let other = front_number(b);
    if front != other {
        return front.cmp(&other);
    }
    let behind = &a[8..];
    behind.cmp(&&b[8..])
}

// Where the entry of a name stands, or where it would stand: those before it have names before this one, those behind it have names behind.
// By hand: `binary_search_by` asks for a closure that can be called with every number; one that first looks whether a number is an entry of the
// tree takes 1.2 to 1.3 times as long.
pub fn find(tree: &[u8], entries: &[u32], name: &[u8]) -> Result<usize, usize>
    requires { Sorted tree.now entries.now (length entries.now) }
    ensures { Found tree.now entries.now (length entries.now) name.now result }
{
    let mut low = 0;
    let mut high = entries.len();
    while low < high {
        let middle = low + (high - low) / 2;
        match order(name_at(tree, entries[middle]), name) {
            Ordering::Less => low = middle + 1,
            Ordering::Equal => return Ok(middle),
            Ordering::Greater => high = middle,
        }
    }
    Err(low)
}

// Where the entries of a table begin, and how many they are.
#[derive(Clone, Copy)]
pub struct Entries {
    pub from: usize,
    pub count: usize,
}

// The entries of names in a table that is being filled: `count` of them from `from` on, with room in front of them and behind.
#[derive(Drop)]
pub struct Names<'a> {
    pub table: &'a mut [u32],
    pub from: usize,
    pub count: usize,
}

impl<'a> Names<'a> {
    // No names yet: the first one goes into the middle of the table.
    pub fn new(table: &'a mut [u32]) -> Names<'a>
        ensures buffer { result.table.ghost_name ≡ table.entry.ghost_name }
        ensures table { result.table.now ≡ table.old }
        ensures from { result.from ≡ length table.old / 2 }
        ensures count { result.count ≡ 0 }
    {
        let from = table.len() / 2;
        Names {
            table,
            from,
            count: 0,
        }
    }

    // The entries so far.
    fn entries(&self) -> &[u32]
        requires { self.now.from + self.now.count ≤ length self.now.table.now }
        ensures { result.now ≡ take self.now.count (entries_of self.now) }
    {
        &self.table[self.from..self.from + self.count]
    }

    // The entry at p with more sets.
    fn join_at(&mut self, p: usize, sets: Sets)
        requires { self.old.from + p < length self.old.table.now }
        ensures from { self.new.from ≡ self.old.from }
        ensures count { self.new.count ≡ self.old.count }
        ensures buffer { self.new.table.ghost_name ≡ self.old.table.ghost_name }
        ensures table { self.new.table.now ≡ set self.old.table.now (self.old.from + p)
            (joined_of (get_or self.old.table.now (self.old.from + p) 0) sets.typeof_safe sets.non_generic_class sets.array_typed) }
    {
        let at = self.from + p;
        let entry = self.table[at];
        let id = (entry / BITS) as usize;
        self.table[at] = Sets::of(entry).union(sets).entry(id);
    }

    // A new entry at p: those on the shorter side of it move by one.
    fn insert_at(&mut self, p: usize, entry: u32)
        requires room { (0 < self.old.from) × (self.old.from + self.old.count < length self.old.table.now) }
        requires p_le_count { p ≤ self.old.count }
        ensures inserted { Inserted (entries_of self.old) (entries_of self.new) self.old.count p entry }
        ensures count { self.new.count ≡ self.old.count + 1 }
        ensures grown { Grown self.old self.new }
    {
        let at = self.from + p;
        let end = self.from + self.count;
        if p < self.count - p {
            self.table.copy_within(self.from..at, self.from - 1);
            self.table[at - 1] = entry;
            self.from -= 1;
        } else {
            self.table.copy_within(at..end, at + 1);
            self.table[at] = entry;
        }
        self.count += 1;
    }

    // The name of the Id at `id` in some sets: they are added to those of the entry that has the name, or it has a new entry.
    pub fn insert(&mut self, tree: &[u8], id: usize, sets: Sets)
        requires sorted { Sorted tree.now (entries_of self.old) self.old.count }
        requires from_nonzero { (0 < self.old.from) × (self.old.from + self.old.count < length self.old.table.now) }
        requires id_in_bounds { body_at tree.now id ≤ length tree.now }
        requires tree_len_bound { length tree.now < farthest }
        ensures enters { Enters tree.now (entries_of self.old) self.old.count (entries_of self.new) self.new.count
            (λ q t. same_text (text_at tree.now id) t && has q sets) }
        ensures grown { Grown self.old self.new }
    {
        match find(tree, self.entries(), text_at(tree, id)) {
            Ok(p) => self.join_at(p, sets),
            Err(p) => self.insert_at(p, sets.entry(id)),
        }
    }

    // The entries, for as long as the table is lent.
    pub fn into_entries(self) -> &'a [u32]
        requires { self.from + self.count ≤ length self.table.now }
        ensures { result.now ≡ take self.entry.count (entries_of self.entry) }
    {
        let Names { table, from, count } = self;
        &table[from..from + count]
    }
}
