// Bytes by hexadecimal digits.
use std::alloc::{AllocError, Global};

const DIGITS: &str = "0123456789abcdef";

/// What the digit stands for.
fn digit_of(sign: char) -> Option<u8> {
    let mut value: u8 = 0;
    for digit in DIGITS.chars() {
        if digit == sign {
            return Some(value);
        }
        value = value.wrapping_add(1);
    }
    None
}

/// The bytes of which two digits each stand there; other signs are passed over.
pub(crate) fn bytes_of(alloc: Global, hex: &str) -> Result<Vec<u8>, AllocError> {
    let mut bytes = Vec::new(alloc);
    let mut first = None;
    for sign in hex.chars() {
        if let Some(digit) = digit_of(sign) {
            first = match first {
                None => Some(digit),
                Some(high) => {
                    bytes.push(digit.wrapping_add(16u8.wrapping_mul(high)))?;
                    None
                }
            };
        }
    }
    Ok(bytes)
}

fn push_digit(out: &mut String, value: u8) -> Result<(), AllocError> {
    match DIGITS.chars().nth(usize::from(value)) {
        Some(digit) => out.push(digit),
        None => out.push('?'),
    }
}

/// Adds the digits of bytes.
pub(crate) fn push_hex(out: &mut String, bytes: &[u8]) -> Result<(), AllocError> {
    for byte in bytes {
        push_digit(out, byte / 16)?;
        push_digit(out, byte % 16)?;
    }
    Ok(())
}
