// Literals as values, and the sign of a number turned.
ghost use Rattle.std.specs.Prelude.{◌≡◌, from_bits};
ghost use Rattle.std.specs.Float.{binary64};
ghost use Rattle.definition.specs.Tree.{encode};
ghost use Rattle.definition.specs.Grammar.{mark};
ghost use Rattle.definition.specs.Record.{mark_of, text_of};
ghost use Rattle.definition.specs.Helpers.{ts_lit_type};
ghost use Rattle.definition.specs.Typing.{turned, turned_integer, respelled};
ghost use Rattle.records.specs.Fields.{span};
ghost use Rattle.records.specs.Views.{rec_of};
ghost use Rattle.records.specs.Writers.{Writes};
ghost use Rattle.swc_helpers.specs.Literal.{le8, turned_bits, turned_sign, number_of};
ghost use Rattle.swc_helpers.specs.Lit.{lit_front};

use records::flags::{TRUE, has_flag};
use records::marks::Mark;
use records::tree::Record;
use records::writer::Writer;
use records::{Head, Range};

// `Lit`: "A literal is a string, a number, a big integer, a boolean, null or a regex", "also `Jt` (JSX text)". A string and a big integer are
// their records.
#[derive(Clone, Copy)]
pub enum Literal<'t> {
    Str(Record<'t>),
    Num(f64),
    BigInt(Record<'t>),
    Bool(bool),
    Null,
    Regex,
    JsxText,
}

impl<'t> Literal<'t> {
    ghost use Rattle.swc_helpers.specs.Lit.{lit_of};

    // The literal that a record is, by its mark; what is no literal is told as JSX text, which has no type either.
    pub fn of(lit: Record<'t>) -> Literal<'t>
        ensures { result ≡ lit_of lit.entry }
    {
        match lit.mark() {
            Mark::Ss => Literal::Str(lit),
            Mark::Bl => Literal::Bool(has_flag(lit.flags(), TRUE)),
            Mark::Nl => Literal::Null,
            Mark::Nu => Literal::Num(number(lit)),
            Mark::Bi => Literal::BigInt(lit),
            Mark::Re => Literal::Regex,
            _ => Literal::JsxText,
        }
    }
}

// The sign of 64 bits.
const SIGN: u64 = 0x8000_0000_0000_0000;

// The largest bits that are no NaN's, but for the sign: infinity.
const INFINITY: u64 = 0x7ff0_0000_0000_0000;

// The f64 that 64 bits stand for; every NaN's pattern is NaN.
fn number_of(bits: u64) -> f64
    ensures { result ≡ from_bits binary64 bits }
{
    if INFINITY < bits % SIGN {
        return f64::NAN;
    }
    f64::from_bits(bits)
}

// `-num.value`, as bits. An f64 doesn't keep the bits of a NaN, so the sign of those is turned as a bit.
fn negated(value: f64, bits: u64) -> u64
    requires { value ≡ from_bits binary64 bits }
    ensures { result ≡ turned_bits bits }
{
    if value.is_nan() {
        return bits.wrapping_add(SIGN);
    }
    f64::to_bits(-value)
}

// The bits of the f64 of a Nu.
fn bits_of(num: Record) -> u64
    requires { mark_of (rec_of num) ≡ mark "Nu" }
    ensures { le8 result ≡ text_of (rec_of num.entry) }
{
    let text = num.text();
    let Some(bytes) = text.first_chunk::<8>() else {
        unreachable!()
    };
    u64::from_le_bytes(*bytes)
}

// `num.value` of a Nu.
pub fn number(num: Record) -> f64
    requires { mark_of (rec_of num) ≡ mark "Nu" }
    ensures { result ≡ number_of (text_of (rec_of num.entry)) }
{
    number_of(bits_of(num))
}

// The type of a literal with another text of the same length, before that text: it keeps its span and loses its raw spelling.
fn put_respelled(w: &mut Writer, range: Range, lit: Record)
    ensures { Writes w.old w.new (lit_front (span range) (rec_of lit.entry)) }
{
    w.put_made_front(Mark::Tl, 0, range, 1);
    w.put_head(Head {
        count: 0,
        ..lit.head()
    });
}

// `-num.value` of a Nu, as its type: `ts_lit_type(TsLit::Number(Number { span: num.span, value: -num.value, raw: None }))`.
pub fn negated_number(w: &mut Writer, range: Range, num: Record, value: f64)
    requires { (mark_of (rec_of num) ≡ mark "Nu") × (value ≡ number_of (text_of (rec_of num))) }
    ensures { Writes w.old w.new (encode (ts_lit_type (span range) (respelled (rec_of num.entry) (turned (text_of (rec_of num.entry)))))) }
{
    put_respelled(w, range, num);
    w.put(&negated(value, bits_of(num)).to_le_bytes());
}

// The sign byte of a big integer, turned, before its first digit: "-0n is 0n".
fn turned_sign(sign: u8, digit: u8) -> u8
    ensures { result ≡ turned_sign sign digit }
{
    if digit == b'0' {
        return 0;
    }
    if sign == 1 {
        return 0;
    }
    1
}

// `-(*bigint.value)` of a Bi, as its type: `ts_lit_type(TsLit::BigInt(BigInt { span: bigint.span, value, raw: None }))`.
pub fn negated_bigint(w: &mut Writer, range: Range, bigint: Record)
    requires { mark_of (rec_of bigint) ≡ mark "Bi" }
    ensures { Writes w.old w.new (encode (ts_lit_type (span range) (respelled (rec_of bigint.entry) (turned_integer (text_of (rec_of bigint.entry)))))) }
{
    let text = bigint.text();
    put_respelled(w, range, bigint);
    w.put_byte(turned_sign(text[0], text[1]));
    w.put(&text[1..]);
}
