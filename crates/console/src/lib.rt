// What the programs share: what they read from standard input, what they print, and the buffers that they lend.
#![tactic(auto)]

ghost use Rattle.std.specs.Prelude.{true, ◌≡◌, ◌≤◌, length, take, IfOk};
ghost use Rattle.console.specs.Counts.{IsPrefixLen, length_read};
ghost use Rattle.definition.specs.Check.{longest_tree, deepest};
ghost use Rattle.definition.specs.Children.{AcceptedAt};

use grammar::Refused;
use shown::{Answer, Refusal};
use std::io;
use std::io::Read as _;

pub mod replay;
pub mod shown;

// The unresolved context that the programs take; their overload list is empty.
pub const UNRESOLVED: u32 = 1;

// The most trees behind their lengths that are read.
pub const MOST: usize = 65536;

// The room for an output, and for its diagnostics, where they are short.
pub const ROOM: usize = 4096;

// The longest tree that is read alone, and the room for it and one byte more, to see that there is more.
const LONGEST: usize = 32768;

pub const TREE_ROOM: usize = 32769;

// The room for a tree behind its length, which two bytes hold.
pub const FRAMED_ROOM: usize = 65536;

// "with 65,536 bytes for output and 21,840 for diagnostics"
pub const OUTPUT_ROOM: usize = 65536;

pub const DIAGNOSTICS_ROOM: usize = 21840;

// The longest tree and the longest overload list that are accepted, and what is too long by one byte, and by one entry.
pub const LONGEST_TREE: usize = 524288;

pub const TREE_TOO_LONG: usize = 524289;

pub const LONGEST_LIST: usize = 40960;

pub const LIST_TOO_LONG: usize = 40970;

// ---- Buffers

// Bytes that no record begins with.
pub fn unwritten() -> [u8; ROOM]
    ensures { 4096 ≡ length result }
{
    [0xa5; ROOM]
}

// The first n bytes, or all where there are fewer.
pub fn front(bytes: &[u8], n: usize) -> &[u8]
    ensures { result.now ≡ take n bytes.now }
{
    if bytes.len() < n {
        return bytes;
    }
    &bytes[..n]
}

// The same, to write to.
pub fn front_mut(bytes: &mut [u8], n: usize) -> &mut [u8]
    ensures { result.now ≡ take n bytes.old }
{
    if bytes.len() < n {
        return bytes;
    }
    &mut bytes[..n]
}

// ---- Reading

// Less than was asked for, or more than is taken: so many bytes were read, and stand at the start of the buffer.
#[derive(Clone, Copy, Debug, PartialEq, Eq)]
pub struct Unfit {
    pub length: usize,
}

// Reads until the buffer is full or the input ends; how many bytes it put at the start of the buffer.
fn read_full(rt: &impl Input, buffer: &mut [u8]) -> io::Result<usize>
    ensures { IfOk result (λ n. IsPrefixLen n buffer.new) }
{
    let mut reader = rt.reader();
    let mut done = 0;
    // a read says how many bytes it gave, so no `for`
    while done < buffer.len() {
        let n = reader.read(&mut buffer[done..])?;
        if n == 0 {
            break;
        }
        done += n;
    }
    Ok(done)
}

// The next n bytes, at the start of the buffer; where there are fewer, how many they are, and nothing where there is no room for n.
pub fn read_bytes(rt: &impl Input, buffer: &mut [u8], n: usize) -> io::Result<Result<usize, Unfit>>
    ensures { IfOk result (λ read. IsPrefixLen (length_read read) buffer.new) }
{
    if buffer.len() < n {
        return Ok(Err(Unfit { length: 0 }));
    }
    let length = read_full(rt, &mut buffer[..n])?;
    Ok(if length == n {
        Ok(length)
    } else {
        Err(Unfit { length })
    })
}

// The next tree, which stands behind its length in two bytes.
pub fn read_framed(rt: &impl Input, buffer: &mut [u8]) -> io::Result<Result<usize, Unfit>>
    ensures { IfOk result (λ read. IsPrefixLen (length_read read) buffer.new) }
{
    let mut size = [0u8; 2];
    if read_bytes(rt, &mut size, 2)?.is_err() {
        return Ok(Err(Unfit { length: 0 }));
    }
    read_bytes(rt, buffer, usize::from(u16::from_le_bytes(size)))
}

// A tree that is read alone, all of standard input; prints `too long` where there is more.
pub fn read_tree(
    rt: &(impl Input + Print),
    buffer: &mut [u8; TREE_ROOM],
) -> io::Result<Result<usize, Unfit>>
    ensures { IfOk result (λ read. IsPrefixLen (length_read read) buffer.new) }
{
    let length = read_full(rt, buffer)?;
    if LONGEST < length {
        println!(rt; "too long")?;
        return Ok(Err(Unfit { length }));
    }
    Ok(Ok(length))
}

// ---- Programs

// Why a program stops before its end: a refusal, or an error of reading or printing.
#[derive(Debug, Drop)]
pub enum Stop {
    Refused(Refused),
    Failed(io::Error),
}

impl From<Refused> for Stop {
    ghost use Rattle.console.specs.declared.Stop.TheVariants.{Refused};

    ghost from_gives = { λ refused stop. stop ≡ Refused refused };

    fn from(refused: Refused) -> Stop {
        Stop::Refused(refused)
    }
}

impl From<io::Error> for Stop {
    ghost use Rattle.console.specs.declared.Stop.TheVariants.{Failed};

    ghost from_gives = { λ error stop. stop ≡ Failed error };

    fn from(error: io::Error) -> Stop {
        Stop::Failed(error)
    }
}

// Runs a program on a tree that is read alone, and prints the refusal where it stops at one.
pub fn run<F: FnOnce(&[u8]) -> Result<(), Stop>>(
    rt: &(impl Input + Print),
    program: F,
) -> io::Result<()>
    requires { F.IsAlwaysCallable program }
{
    let mut buffer = [0u8; TREE_ROOM];
    let Ok(length) = read_tree(rt, &mut buffer)? else {
        return Ok(());
    };
    match program(&buffer[..length]) {
        Ok(()) => Ok(()),
        Err(Stop::Refused(refused)) => println!(rt; "{}", Refusal(refused)),
        Err(Stop::Failed(error)) => Err(error),
    }
}

// Hands each tree of standard input to `show`, with its number. They stand behind their lengths, in two bytes each.
pub fn for_each_tree<F: FnMut(usize, &[u8]) -> io::Result<()>>(
    rt: &impl Input,
    buffer: &mut [u8],
    mut show: F,
) -> io::Result<()>
    requires { F.IsAlwaysCallable show }
{
    for number in 1..=MOST {
        let Ok(length) = read_framed(rt, buffer)? else {
            break;
        };
        show(number, &buffer[..length])?;
    }
    Ok(())
}

// Prints the check's answer for a tree, a line; whether it is accepted.
pub fn print_check(rt: &impl Print, tree: &[u8]) -> io::Result<bool>
    ensures { IfOk result (λ r. r ≡ true → AcceptedAt deepest tree.now 0 × (length tree.now ≤ longest_tree)) }
{
    let answer = grammar::check_tree(tree, b"");
    println!(rt; "{}", Answer(answer.map(|_| "accepted")))?;
    Ok(answer.is_ok())
}
