// The bytes of a file as a table has them: `/` is a line feed, `%XX` the byte with that value in hexadecimal, and
// `{N:body}` the body N times. Any other byte stands for itself.
ghost use Rattle.std.specs.Prelude.{◌+◌, ◌<◌, length, IfSome};

use std::alloc::{AllocError, AllocFailed};
use std::error::Error;
use std::fmt;

#[derive(Clone, Copy, Debug, PartialEq, Eq)]
pub(crate) enum Trouble {
    Malformed,
    Memory,
}

impl fmt::Display for Trouble {
    fn fmt<W: fmt::Write>(&self, f: &mut fmt::Formatter<W>) -> fmt::Result {
        match self {
            Trouble::Malformed => write!(f, "a case is malformed"),
            Trouble::Memory => write!(f, "out of memory"),
        }
    }
}

impl Error for Trouble {}

impl From<AllocError> for Trouble {
    fn from(_e: AllocError) -> Trouble {
        Trouble::Memory
    }
}

impl<T: Drop> From<AllocFailed<T>> for Trouble {
    fn from(_e: AllocFailed<T>) -> Trouble {
        Trouble::Memory
    }
}

// What stands before the first b and what stands behind it.
pub(crate) fn cut(text: &[u8], b: u8) -> Option<(&[u8], &[u8])>
    ensures { IfSome result (λ p. length p.0.now + length p.1.now < length text.now) }
{
    let at = text.iter().position(|x| *x == b)?;
    Some((&text[..at], &text[at + 1..]))
}

fn hex(digit: u8) -> Option<u8>
    ensures { IfSome result (λ n. n < 16) }
{
    match digit {
        b'0'..=b'9' => Some(digit - b'0'),
        b'A'..=b'F' => Some(digit - b'A' + 10),
        _ => None,
    }
}

// The byte in front and what follows it.
fn first_byte(text: &[u8]) -> Option<(u8, &[u8])>
    ensures { IfSome result (λ p. length p.1.now < length text.now) }
{
    let (first, after) = text.split_first()?;
    match (*first, after) {
        (b'/', after) => Some((b'\n', after)),
        (b'%', [high, low, after @ ..]) => Some((hex(*high)? * 16 + hex(*low)?, after)),
        (b'%', _) => None,
        (b, after) => Some((b, after)),
    }
}

// Text without repetitions.
fn plain(text: &[u8], out: &mut Vec<u8>) -> Result<(), Trouble> {
    let mut rest = text;
    while let Some((b, after)) = first_byte(rest) {
        out.push(b)?;
        rest = after;
    }
    if rest.is_empty() {
        Ok(())
    } else {
        Err(Trouble::Malformed)
    }
}

// What decimal digits write; a repetition is of at most nine digits.
fn count_of(digits: &[u8]) -> u32 {
    digits.iter().fold(0, |count: u32, digit| {
        count
            .wrapping_mul(10)
            .wrapping_add(u32::from(*digit).wrapping_sub(48))
    })
}

pub(crate) fn expand(text: &[u8], out: &mut Vec<u8>) -> Result<(), Trouble> {
    let mut rest = text;
    while let Some((before, inside)) = cut(rest, b'{') {
        plain(before, out)?;
        let (count, more) = cut(inside, b':').ok_or(Trouble::Malformed)?;
        let (body, after) = cut(more, b'}').ok_or(Trouble::Malformed)?;
        for _ in 0..count_of(count) {
            plain(body, out)?;
        }
        rest = after;
    }
    plain(rest, out)
}
