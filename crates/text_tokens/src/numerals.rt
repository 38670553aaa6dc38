// The 8 bytes of an f64, and the whole number that it is.
ghost use Rattle.std.specs.Prelude.{◌≡◌};
ghost use Rattle.definition.specs.Numerals.{bits_of, is_negative, whole_of, halved};
ghost use Rattle.text_tokens.specs.Writes.{whole_is};

const TWO52: u64 = 4503599627370496;

const TWO63: u64 = 9223372036854775808;

// "8 bytes of f64", little-endian, as one number. Behind the end of a text there is 0.
pub fn bits_of(text: &[u8]) -> u64
    ensures { result ≡ bits_of text.now }
{
    let n = text.len().min(8);
    let mut bytes = [0; 8];
    bytes[..n].copy_from_slice(&text[..n]);
    u64::from_le_bytes(bytes)
}

// Whether the sign bit is set.
pub fn is_negative(bits: u64) -> bool
    ensures { result ≡ is_negative bits }
{
    bits / TWO63 % 2 == 1
}

// A number halved k times, if each time nothing is left over.
fn halve(k: u64, m: u64) -> Option<usize>
    ensures { whole_is result ≡ halved k m }
{
    let mut n = m;
    for _ in 0..k {
        if n % 2 == 1 {
            return None;
        }
        n /= 2;
    }
    Some(n as usize)
}

// The whole number below 2 to the 53 that is the size of the f64 with these bits, if there is one.
pub fn whole_of(bits: u64) -> Option<usize>
    ensures { whole_is result ≡ whole_of bits }
{
    if bits % TWO63 == 0 {
        return Some(0);
    }
    let exponent = bits / TWO52 % 2048;
    if exponent < 1023 || 1075 < exponent {
        return None;
    }
    halve(1075 - exponent, TWO52 + bits % TWO52)
}
