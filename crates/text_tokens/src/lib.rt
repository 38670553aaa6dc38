// Request §3: tokens on their way into the text. "One space parts two nonempty tokens, unless both are one template's own."
#![tactic(auto)]

ghost use Rattle.std.specs.Prelude.{◌≡◌, [], ◌∷◌, ◌<◌, Some};
ghost use Rattle.definition.specs.Text.{token, own, outside, hex_digit, is_escaped, last_byte, escaped_byte, escaped, string_token, minus, integer_token, decimal_token};
ghost use Rattle.definition.specs.Names.{decimal};
ghost use Rattle.definition.specs.Numerals.{bits_of, whole_of};
ghost use Rattle.records.specs.Wrote.{Put};
ghost use Rattle.text_tokens.specs.Writes.{Writes, begun_of, seen_of_token, space_if, behind_of, cleared_of};

use crate::numerals::{bits_of, is_negative, whole_of};
use names::generated::put_decimal;
use records::writer::Writer;
use records::{advance, put, put_text};

pub mod numerals;

// Where the text stands.
#[derive(Clone, Copy, Default)]
pub struct State {
    // The position behind it.
    pub written: usize,
    // The last byte of the last token, if the line has a token.
    pub last: Option<u8>,
    // Whether a token was written since this was last cleared.
    pub some: bool,
    // The first place of a written number outside the forms, if there is one.
    pub place: Option<usize>,
}

// `out` stays a parameter beside the state. In a struct that holds the `&mut`, each method, and each function above that is passed the struct, says in a
// clause of its own that the reference is the same, and all that is said of the output goes through it: that is no plainer.
impl State {
    // The state behind a token that isn't empty.
    fn behind(self, written: usize, last: u8) -> State
        ensures { result ≡ behind_of self written last }
    {
        State {
            written,
            last: Some(last),
            some: true,
            ..self
        }
    }

    // The state from which it is seen whether a token is written.
    pub fn cleared(self) -> State
        ensures { result ≡ cleared_of self }
    {
        State {
            some: false,
            ..self
        }
    }

    // The space before a token, where the line has one already.
    fn put_space(self, out: &mut [u8]) -> usize
        ensures { Put out.old out.new self.written (space_if (begun_of self)) result }
    {
        if self.last.is_some() {
            put(out, self.written, b' ');
            return advance(self.written, 1);
        }
        self.written
    }

    // A token as it stands; an empty one is left out.
    pub fn put_token(self, text: &[u8], out: &mut [u8]) -> State
        ensures { Writes out.old out.new self result (token text.now ∷ []) }
    {
        let Some(last) = text.last() else {
            return self;
        };
        let p = self.put_space(out);
        let end = put_text(out, p, text);
        self.behind(end, *last)
    }

    // An own token of a template behind another.
    pub fn put_own(self, text: &[u8], out: &mut [u8]) -> State
        ensures { Writes out.old out.new self result (own text.now ∷ []) }
    {
        let Some(last) = text.last() else {
            return self;
        };
        let end = put_text(out, self.written, text);
        self.behind(end, *last)
    }

    // A text of a template, as an own token.
    pub fn put_own_escaped(self, text: &[u8], out: &mut [u8]) -> State
        ensures { Writes out.old out.new self result (own (escaped text.now) ∷ []) }
    {
        let Some(last) = text.last() else {
            return self;
        };
        let end = put_escaped(text, out, self.written);
        self.behind(end, last_escaped(*last))
    }

    // A string.
    pub fn put_string(self, text: &[u8], out: &mut [u8]) -> State
        ensures { Writes out.old out.new self result (token (string_token text.now) ∷ []) }
    {
        let p = self.put_space(out);
        put(out, p, b'"');
        let end = put_escaped(text, out, advance(p, 1));
        put(out, end, b'"');
        self.behind(advance(end, 1), b'"')
    }

    // A big integer: "`-` if negative, the digits, `n`". Its text is a sign byte and the digits.
    pub fn put_integer(self, text: &[u8], out: &mut [u8]) -> State
        ensures { Writes out.old out.new self result (token (integer_token text.now) ∷ []) }
    {
        let p = self.put_space(out);
        let mut end = p;
        if let Some((sign, digits)) = text.split_first() {
            let q = put_minus(*sign == 1, out, p);
            end = put_text(out, q, digits);
        }
        put(out, end, b'n');
        self.behind(advance(end, 1), b'n')
    }

    // A number without a spelling, at an offset: its decimal, or its place where it is outside the forms.
    pub fn put_number(self, text: &[u8], at: usize, out: &mut [u8]) -> State
        ensures { Writes out.old out.new self result
            (decimal_token at (bits_of text.now) (whole_of (bits_of text.now)) ∷ []) }
    {
        let bits = bits_of(text);
        match whole_of(bits) {
            Some(n) => {
                let p = self.put_space(out);
                let q = put_minus(is_negative(bits), out, p);
                let e = put_digits(n, out, q);
                self.behind(e, b'0' + (n % 10) as u8)
            }
            None => State {
                place: Some(first_place(self.place, at)),
                ..self
            },
        }
    }
}

// The decimal of n, and the position behind it.
fn put_digits(n: usize, out: &mut [u8], p: usize) -> usize
    ensures { Put out.old out.new p (decimal n) result }
{
    let mut w = Writer { out, at: p };
    put_decimal(&mut w, n);
    w.at
}

// The first place, where a number outside the forms stands at `at`.
fn first_place(seen: Option<usize>, at: usize) -> usize
    ensures { Some result ≡ seen_of_token seen (outside at) }
{
    seen.map_or(at, |first| first.min(at))
}

// A small hex digit. (`char::from_digit` makes an Option of a char of it: no plainer.)
fn hex_digit(d: u8) -> u8
    requires { d < 16 }
    ensures { result ≡ hex_digit d }
{
    if d < 10 { b'0' + d } else { b'a' - 10 + d }
}

// "bytes below 32 and " \ ` $".
fn is_escaped(b: u8) -> bool
    ensures { result ≡ is_escaped b }
{
    b < 32 || matches!(b, b'"' | b'$' | b'\\' | b'`')
}

// One byte of a string, "\u and four small hex digits" where it is escaped.
fn put_escaped_byte(b: u8, out: &mut [u8], p: usize) -> usize
    ensures { Put out.old out.new p (escaped_byte b) result }
{
    if is_escaped(b) {
        let high = hex_digit(b / 16);
        let low = hex_digit(b % 16);
        let first = put_text(out, p, b"\\u00");
        put(out, first, high);
        let second = advance(first, 1);
        put(out, second, low);
        return advance(second, 1);
    }
    put(out, p, b);
    advance(p, 1)
}

// The last of the bytes that are written for one of a string.
fn last_escaped(b: u8) -> u8
    ensures { result ≡ last_byte 0 (escaped_byte b) }
{
    if is_escaped(b) { hex_digit(b % 16) } else { b }
}

// The bytes of a string.
fn put_escaped(text: &[u8], out: &mut [u8], p: usize) -> usize
    ensures { Put out.old out.new p (escaped text.now) result }
{
    let mut end = p;
    for b in text {
        end = put_escaped_byte(*b, out, end);
    }
    end
}

// The minus of a negative number.
fn put_minus(negative: bool, out: &mut [u8], p: usize) -> usize
    ensures { Put out.old out.new p (minus negative) result }
{
    if negative {
        put(out, p, b'-');
        return advance(p, 1);
    }
    p
}
