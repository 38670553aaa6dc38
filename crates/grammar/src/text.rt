// The forms of a text: document 01's text forms and reading 1.
ghost use Rattle.std.specs.Prelude.{◌≡◌};
ghost use Rattle.definition.specs.Check.{is_integer, has_form};
ghost use Rattle.grammar.specs.Slots.{form_at, form_told};

use records::flags::{Flags, has_flag};

#[derive(Clone, Copy, PartialEq, Eq, Debug)]
pub enum Form {
    // no bytes
    Empty,
    // "given text is any bytes"
    Anything,
    // "8 bytes of f64"
    Eight,
    // "sign byte (1 negative, else 0) and decimal digits"
    Integer,
    // "4-byte context, symbol"
    Identifier,
    // "1 cooked; its text is the cooked value, else empty"
    Cooked,
}

// The form that the tables number n; every number that is none stands for "empty text".
impl From<u8> for Form {
    ghost from_gives = { λ n form. form_told form ≡ form_at n };

    fn from(n: u8) -> Form {
        match n {
            1 => Form::Anything,
            2 => Form::Eight,
            3 => Form::Integer,
            4 => Form::Identifier,
            5 => Form::Cooked,
            _ => Form::Empty,
        }
    }
}

// Bi: a sign byte, 0 or 1, and decimal digits with no zero in front; zero has the sign 0.
fn is_integer(t: &[u8]) -> bool
    ensures { result ≡ is_integer t.now }
{
    if t.len() < 2 {
        return false;
    }
    if 1 < t[0] {
        return false;
    }
    if t[1] == b'0' {
        if t.len() == 2 {
            return t[0] == 0;
        }
        return false;
    }
    t[1..].iter().all(|d| d.is_ascii_digit())
}

// Whether the text t has a form, in a record with those flags.
pub fn has_form(form: Form, flags: Flags, t: &[u8]) -> bool
    ensures { result ≡ has_form (form_told form) flags t.now }
{
    match form {
        Form::Empty => t.is_empty(),
        Form::Anything => true,
        Form::Eight => t.len() == 8,
        Form::Integer => is_integer(t),
        Form::Identifier => 4 <= t.len(),
        Form::Cooked => has_flag(flags, records::flags::COOKED) || t.is_empty(),
    }
}
