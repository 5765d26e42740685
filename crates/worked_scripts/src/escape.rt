//! Scripts written on one line.

use std::alloc::{AllocError, Global};

/// The most bytes that a repeated text may add.
const MOST: usize = 2_000_000;

fn digit(byte: u8) -> u8 {
    match byte {
        b'0'..=b'9' => byte - b'0',
        b'a'..=b'f' => byte - b'a' + 10,
        _ => 0,
    }
}

fn escaped(byte: u8) -> u8 {
    match byte {
        b'n' => b'\n',
        b't' => b'\t',
        b'r' => b'\r',
        _ => byte,
    }
}

/// Appends a text so often.
fn repeat(out: &mut Vec<u8>, text: &[u8], count: usize) -> Result<(), AllocError> {
    for _ in 0..count {
        if out.len() > MOST {
            break;
        }
        out.extend_from_slice(text)?;
    }
    Ok(())
}

/// Where reading stands between `\*` and `}`.
#[derive(Clone, Copy)]
enum Part {
    Plain,
    Backslash,
    /// The digits of a byte, of which one was read.
    Byte,
    ByteLow(u8),
    Count(usize),
    Repeated(usize),
    RepeatedBackslash(usize),
}

/// The bytes that are written so.
pub fn unescaped(alloc: Global, line: &[u8]) -> Result<Vec<u8>, AllocError> {
    let mut out = Vec::new(alloc);
    let mut text = Vec::new(alloc);
    let mut part = Part::Plain;
    for byte in line {
        let byte = *byte;
        part = match part {
            Part::Plain => {
                if byte == b'\\' {
                    Part::Backslash
                } else {
                    out.push(byte)?;
                    Part::Plain
                }
            }
            Part::Backslash => match byte {
                b'x' => Part::Byte,
                b'*' => Part::Count(0),
                _ => {
                    out.push(escaped(byte))?;
                    Part::Plain
                }
            },
            Part::Byte => Part::ByteLow(digit(byte)),
            Part::ByteLow(high) => {
                out.push(high.wrapping_mul(16).wrapping_add(digit(byte)))?;
                Part::Plain
            }
            Part::Count(count) => {
                if byte == b'{' {
                    text.clear();
                    Part::Repeated(count)
                } else {
                    Part::Count(count.wrapping_mul(10).wrapping_add(digit(byte) as usize))
                }
            }
            Part::Repeated(count) => match byte {
                b'}' => {
                    repeat(&mut out, text.as_slice(), count)?;
                    Part::Plain
                }
                b'\\' => Part::RepeatedBackslash(count),
                _ => {
                    text.push(byte)?;
                    Part::Repeated(count)
                }
            },
            Part::RepeatedBackslash(count) => {
                text.push(escaped(byte))?;
                Part::Repeated(count)
            }
        };
    }
    Ok(out)
}
