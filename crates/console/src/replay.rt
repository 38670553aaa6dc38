// What the test programs share that replay answers: numbers of four bytes, buffers filled with noise, and the loop over the cases.
ghost use Rattle.std.specs.Prelude.{true, ℕ, ◌≡◌, ◌+◌, ◌<◌, ◌≤◌, length, take, Ok, Err};
ghost use Rattle.definition.specs.Tree.{u32_at};
ghost use Rattle.grammar.specs.Answers.{number};
ghost use Rattle.console.specs.Replay.{noise, IsNoise, IsExpected};

use crate::{front, read_bytes};
use grammar::Refused;
use std::io;

// The most cases that are read.
const MOST: usize = 1000000;

// The numbers in front of a case, of four bytes each; `None` where there is no further case.
pub fn read_numbers<const N: usize>(rt: &impl Input) -> io::Result<Option<[u32; N]>> {
    let mut bytes = [[0u8; 4]; N];
    let all = bytes.as_flattened_mut();
    if read_bytes(rt, all, all.len())?.is_err() {
        return Ok(None);
    }
    let mut numbers = [0u32; N];
    for (number, bytes) in numbers.iter_mut().zip(&bytes) {
        *number = u32::from_le_bytes(*bytes);
    }
    Ok(Some(numbers))
}

// The number of four bytes at a place; 0 where there is none.
pub fn number_at(bytes: &[u8], at: usize) -> u32
    ensures { at + 4 ≤ length bytes.now → result ≡ u32_at bytes.now at }
{
    if bytes.len() < 4 {
        return 0;
    }
    if bytes.len() - 4 < at {
        return 0;
    }
    records::u32_at(bytes, at)
}

// What a buffer holds before the call, by the place.
fn noise(i: usize) -> u8
    ensures { result ≡ noise i }
{
    (i % 251) as u8
}

// What it holds behind a place that holds this: counted on, since a remainder for each byte took most of a replay.
fn noise_behind(byte: u8) -> u8
    ensures { (i : ℕ) → byte ≡ noise i → result ≡ noise (i + 1) }
{
    if byte < 250 { byte + 1 } else { 0 }
}

pub fn fill(buffer: &mut [u8])
    ensures { IsNoise buffer.new (length buffer.old) }
{
    let mut byte = noise(0);
    for b in buffer.iter_mut() {
        *b = byte;
        byte = noise_behind(byte);
    }
}

// Whether bytes are those that a buffer holds before the call, from a place on.
fn is_noise(bytes: &[u8], from: usize) -> bool {
    let mut byte = noise(from);
    for b in bytes {
        if *b != byte {
            return false;
        }
        byte = noise_behind(byte);
    }
    true
}

// Whether a buffer begins with the first n bytes of what was expected, and holds the noise behind them.
pub fn holds(buffer: &[u8], expected: &[u8], n: usize) -> bool
    ensures { result ≡ true → take n buffer.now ≡ take n expected.now }
{
    n <= expected.len()
        && n <= buffer.len()
        && front(buffer, n) == front(expected, n)
        && is_noise(&buffer[n..], n)
}

// Whether a refusal is the one that a case expects, which has its number as `code`.
pub fn is_refusal(refused: Refused, code: usize, place: usize) -> bool
    ensures { result ≡ true → (number refused.refusal ≡ code) × (refused.place ≡ place) }
{
    u32::from(refused.refusal) as usize == code && refused.place == place
}

// A refusal as a case tells it: its number and its place.
#[derive(Clone, Copy)]
pub struct Told {
    pub number: usize,
    pub place: usize,
}

// What a case expects: 0 as its number stands for what the call gives.
pub fn expected<T: Copy>(number: usize, place: usize, given: T) -> Result<T, Told>
    ensures given { number ≡ 0 → result ≡ Ok given }
    ensures refused { 0 < number → result ≡ Err (record { number = number; place = place }) }
{
    match number {
        0 => Ok(given),
        _ => Err(Told { number, place }),
    }
}

// Whether an answer is the one that a case expects.
pub fn is_answer<T: PartialEq + Copy>(answer: Result<T, Refused>, expected: Result<T, Told>) -> bool
    ensures { result ≡ true → IsExpected T.eq answer expected }
{
    match (answer, expected) {
        (Ok(given), Ok(wanted)) => given == wanted,
        (Err(refused), Err(told)) => is_refusal(refused, told.number, told.place),
        _ => false,
    }
}

// Replays the cases of standard input and counts those that differ. `next` reads the next one: whether it gave what it expects; `None` where there is
// none.
pub fn replay<F: FnMut() -> io::Result<Option<bool>>>(
    rt: &impl Print,
    mut next: F,
) -> io::Result<()>
    requires { F.IsAlwaysCallable next }
{
    let mut cases: usize = 0;
    let mut differ: usize = 0;
    for number in 1..=MOST {
        let Some(same) = next()? else {
            break;
        };
        cases = number;
        if !same {
            println!(rt; "case {number} differs")?;
            differ += 1;
        }
    }
    println!(rt; "{cases} cases, {differ} differ")
}
