// What the programs print, as values that `{}` writes.
ghost use Rattle.std.specs.Prelude.{Some, ◌++◌, codes, decimal, flat_map};
ghost use Rattle.grammar.specs.Answers.{number};
ghost use Rattle.console.specs.Shown.{two_digits, refusal_text, answer_text};

use grammar::Refused;
use std::fmt;

// A byte: two digits.
#[derive(Clone, Copy)]
struct Byte(u8);

impl fmt::Display for Byte {
    ghost output = { λ b. Some (two_digits b.0) };

    fn fmt<W: fmt::Write>(&self, f: &mut fmt::Formatter<W>) -> fmt::Result {
        let b = self.0;
        write!(f, "{b:02x}")
    }
}

// Two digits for each byte.
#[derive(Clone, Copy)]
pub struct Hex<'a>(pub &'a [u8]);

impl fmt::Display for Hex<'_> {
    ghost output = { λ h. Some (flat_map two_digits h.0.now) };

    fn fmt<W: fmt::Write>(&self, f: &mut fmt::Formatter<W>) -> fmt::Result {
        for &b in self.0 {
            write!(f, "{}", Byte(b))?;
        }
        Ok(())
    }
}

// A success: the bytes of the output and the number of diagnostics.
#[derive(Clone, Copy)]
pub struct Success {
    pub length: usize,
    pub count: usize,
}

impl fmt::Display for Success {
    ghost output = { λ s. Some (codes "ok " ++ (decimal s.length ++ (codes " " ++ decimal s.count))) };

    fn fmt<W: fmt::Write>(&self, f: &mut fmt::Formatter<W>) -> fmt::Result {
        write!(f, "ok {} {}", self.length, self.count)
    }
}

// A refusal: its number and its place.
#[derive(Clone, Copy)]
pub struct Refusal(pub Refused);

impl fmt::Display for Refusal {
    ghost output = { λ r. Some (refusal_text r.0) };

    fn fmt<W: fmt::Write>(&self, f: &mut fmt::Formatter<W>) -> fmt::Result {
        let refused = self.0;
        write!(
            f,
            "refused {} at {}",
            u32::from(refused.refusal),
            refused.place
        )
    }
}

// What a call answers: what it gives, or its refusal.
#[derive(Clone, Copy)]
pub struct Answer<T>(pub Result<T, Refused>);

impl<T: fmt::Display> fmt::Display for Answer<T> {
    ghost output = { λ a. answer_text T.output a.0 };

    fn fmt<W: fmt::Write>(&self, f: &mut fmt::Formatter<W>) -> fmt::Result {
        match &self.0 {
            Ok(given) => write!(f, "{given}"),
            Err(refused) => write!(f, "{}", Refusal(*refused)),
        }
    }
}
