// The check of a tree and of an overload list: refusals 1 to 8 of document 01's table, in its order and with its places.
#![tactic(auto)]

ghost use Rattle.std.specs.Prelude.{◌≡◌};
ghost use Rattle.definition.specs.Check.{check_tree};
ghost use Rattle.grammar.specs.Answers.{checked, number};

use records::DEEPEST;

pub mod overloads;
mod record;
mod tables;
mod text;

// The refusals of document 01's table, 1 to 10 in its order, and document 02's behind them; `number` of specs/Answers.antt gives each its number.
#[derive(Clone, Copy, PartialEq, Eq, Debug)]
pub enum Refusal {
    TreeTooLong,
    BadOverloads,
    CutShort,
    UnknownMark,
    Misplaced,
    BackwardRange,
    TooDeep,
    TrailingBytes,
    OutputFull,
    DiagnosticsFull,
    NumberOutside,
}

// The number of a refusal in document 01's table, which document 02 goes on with.
impl From<Refusal> for u32 {
    ghost from_gives = { λ refusal n. n ≡ number refusal };

    fn from(refusal: Refusal) -> u32 {
        match refusal {
            Refusal::TreeTooLong => 1,
            Refusal::BadOverloads => 2,
            Refusal::CutShort => 3,
            Refusal::UnknownMark => 4,
            Refusal::Misplaced => 5,
            Refusal::BackwardRange => 6,
            Refusal::TooDeep => 7,
            Refusal::TrailingBytes => 8,
            Refusal::OutputFull => 9,
            Refusal::DiagnosticsFull => 10,
            Refusal::NumberOutside => 11,
        }
    }
}

// The first refusal and its place.
#[derive(Clone, Copy, PartialEq, Eq, Debug)]
pub struct Refused {
    pub refusal: Refusal,
    pub place: usize,
}

// "tree over 524,288 bytes"
const LONGEST_TREE: usize = 524288;

// Refusals 1 to 8 of a tree and an overload list, for every two byte strings; where none applies, the offset past the root.
pub fn check_tree(tree: &[u8], list: &[u8]) -> Result<usize, Refused>
    ensures { checked result ≡ check_tree tree.now list.now }
{
    if LONGEST_TREE < tree.len() {
        return Err(Refused {
            refusal: Refusal::TreeTooLong,
            place: 0,
        });
    }
    if !overloads::list_fine(list) {
        return Err(Refused {
            refusal: Refusal::BadOverloads,
            place: 0,
        });
    }
    let end = record::check_record(tree, 0, DEEPEST, tables::ROOT)?;
    if end < tree.len() {
        return Err(Refused {
            refusal: Refusal::TrailingBytes,
            place: end,
        });
    }
    Ok(end)
}
