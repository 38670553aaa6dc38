// The pieces of a row by name, and how they stand in the table: by numbers.
ghost use Rattle.std.specs.Prelude.{◌≡◌};
ghost use Rattle.declaration_text.specs.Table.{when_of, when_is, SaysWhat};

// When a piece is written: always; the flag is set; it isn't; flag 2 is set and flag 1 isn't; the child at a place isn't `No`; the second child is an
// `Nd`; the text of the first begins with a quote; it doesn't; the record is the child of an `Oc`; it isn't, and its second child is a `Ki`.
#[derive(Clone, Copy)]
pub enum When {
    Always,
    Flagged(u8),
    Unflagged(u8),
    Getter,
    There(usize),
    Dotted,
    Quoted,
    Unquoted,
    Chained,
    Linked,
}

// Of the children behind the slots: the `Op`s, list(the others), members(those).
#[derive(Clone, Copy)]
pub enum Each {
    Ops,
    Elements,
    Members,
}

// What is written: a token, by its place in the words and its length; the child at a place; what is told of each child behind the slots; a template;
// the record's own text, or symbol, as it stands; a string, a number, a big integer.
#[derive(Clone, Copy)]
pub enum What {
    Word(usize, usize),
    Child(usize),
    Behind(Each),
    Template,
    Text,
    Symbol,
    String,
    Number,
    Integer,
}

#[derive(Clone, Copy)]
pub struct Piece {
    pub when: When,
    pub what: What,
}

impl When {
    // The condition with a number, of a flag or a child.
    #[tactic(auto, unfolding(crate::specs::Table::when_of))]
    pub fn of(number: u8, value: u8) -> When
        ensures { when_is result ≡ when_of number value }
    {
        match number {
            0 => When::Always,
            1 => When::Flagged(value),
            2 => When::Unflagged(value),
            3 => When::Getter,
            4 => When::There(value as usize),
            5 => When::Dotted,
            6 => When::Quoted,
            7 => When::Unquoted,
            8 => When::Chained,
            _ => When::Linked,
        }
    }
}

impl What {
    // What a number says, of a token or a child; 0 ends a row.
    #[tactic(auto, unfolding(crate::specs::Table::what_of))]
    pub fn of(number: u8, value: u8, size: u8) -> Option<What>
        ensures { SaysWhat number value size result }
    {
        match number {
            0 => None,
            1 => Some(What::Word(value as usize, size as usize)),
            2 => Some(What::Child(value as usize)),
            3 => Some(What::Behind(Each::Ops)),
            4 => Some(What::Behind(Each::Elements)),
            5 => Some(What::Behind(Each::Members)),
            6 => Some(What::Template),
            7 => Some(What::Text),
            8 => Some(What::Symbol),
            9 => Some(What::String),
            10 => Some(What::Number),
            _ => Some(What::Integer),
        }
    }
}
