// The longest token at the front of a text.
ghost use Rattle.std.specs.Prelude.{◌≡◌, ◌↔◌, ◌<◌, ◌≤◌, ◌+◌, ◌-◌, ◌*◌, length, true, false, IsTrue, MatchOption, slice_index};
ghost use Rattle.std.specs.Option.{SomeIff};
ghost use Rattle.yw_base.specs.Spelling.{is_digit, is_word_byte};
ghost use Rattle.yw_lex.specs.Spelling.{BeginsPair, IsName, IsNextDigit, IsNumber, IsSign, IsText, IsToken, is_before_equals, is_reserved, is_single_sign, most_number, quote};
ghost use Rattle.yw_lex.specs.Tokens.{HasNoFront, IsLongest, IsLongestToken};

use crate::Word;
use yw_base::{MOST_NAME_BYTES, MOST_TEXT_BYTES};

const MOST_NUMBER: u64 = 9223372036854775807;

const QUOTE: u8 = b'\'';

const NEWLINE: u8 = b'\n';

fn is_digit(byte: u8) -> bool
    ensures { result ≡ is_digit byte }
{
    byte.is_ascii_digit()
}

fn is_word_byte(byte: u8) -> bool
    ensures { result ≡ is_word_byte byte }
{
    byte == b'_' || is_digit(byte) || byte.is_ascii_uppercase() || byte.is_ascii_lowercase()
}

/// A number with one digit more at its end, where that is a number still. Behind 0 there is none.
fn with_digit(number: u64, digit: u8) -> Option<u64>
    requires { number ≤ most_number }
    ensures { SomeIff result (IsNextDigit number digit) (number * 10 + (digit - 48)) }
{
    if number == 0 || !is_digit(digit) {
        return None;
    }
    let digit = u64::from(digit - b'0');
    if number > (MOST_NUMBER - digit) / 10 {
        return None;
    }
    Some(number * 10 + digit)
}

/// The length of the longest number at the front. A digit that would make it too large is left out.
fn number_len(bytes: &[u8]) -> usize
    requires some { 0 < length bytes.now }
    requires digit { is_digit (slice_index bytes.now 0) ≡ true }
    ensures { IsLongest IsNumber bytes.now result }
{
    let mut number = u64::from(bytes[0] - b'0');
    let mut len = 1;
    'digits: while len < bytes.len() {
        let Some(longer) = with_digit(number, bytes[len]) else {
            return len;
        };
        number = longer;
        len += 1;
    }
    len
}

/// The length of the longest name at the front, where a reserved word is a name too.
fn name_len(bytes: &[u8]) -> usize
    requires some { 0 < length bytes.now }
    requires word { is_word_byte (slice_index bytes.now 0) ≡ true }
    requires no_digit { is_digit (slice_index bytes.now 0) ≡ false }
    ensures { IsLongest IsName bytes.now result }
{
    let mut len = 1;
    'words: while len < bytes.len() && len < MOST_NAME_BYTES && is_word_byte(bytes[len]) {
        len += 1;
    }
    len
}

fn is_reserved(bytes: &[u8]) -> bool
    ensures { result ≡ is_reserved bytes.now }
{
    bytes == b"and".as_slice()
        || bytes == b"or".as_slice()
        || bytes == b"not".as_slice()
        || bytes == b"true".as_slice()
        || bytes == b"false".as_slice()
        || bytes == b"len".as_slice()
        || bytes == b"sum".as_slice()
}

/// The length of the text in quotes at the front. It looks at no more than the 4,096 bytes that it may have,
/// and its two quotes.
fn text_len(bytes: &[u8]) -> Option<usize>
    requires some { 0 < length bytes.now }
    requires quote { slice_index bytes.now 0 ≡ quote }
    ensures { MatchOption result (HasNoFront IsText bytes.now) (λ len. IsLongest IsText bytes.now len) }
{
    let mut len = 1;
    'text: while len < bytes.len() && len <= MOST_TEXT_BYTES + 1 {
        if bytes[len] == QUOTE {
            return Some(len + 1);
        }
        if bytes[len] == NEWLINE {
            return None;
        }
        len += 1;
    }
    None
}

fn is_single_sign(byte: u8) -> bool
    ensures { result ≡ is_single_sign byte }
{
    b"=<>+-*/%()[],".contains(&byte)
}

fn is_before_equals(byte: u8) -> bool
    ensures { result ≡ is_before_equals byte }
{
    b"!<>".contains(&byte)
}

/// A sign of two bytes stands at the front.
fn begins_pair(bytes: &[u8]) -> bool
    ensures { IsTrue result ↔ BeginsPair bytes.now }
{
    bytes.len() > 1 && bytes[1] == b'=' && is_before_equals(bytes[0])
}

/// The length of the longest sign at the front.
fn sign_len(bytes: &[u8]) -> Option<usize>
    requires { 0 < length bytes.now }
    ensures { MatchOption result (HasNoFront IsSign bytes.now) (λ len. IsLongest IsSign bytes.now len) }
{
    if begins_pair(bytes) {
        return Some(2);
    }
    if is_single_sign(bytes[0]) {
        return Some(1);
    }
    None
}

/// The kind and the length of the longest token at the front.
pub fn first_token(bytes: &[u8]) -> Option<(Word, usize)>
    requires { 0 < length bytes.now }
    ensures { MatchOption result (HasNoFront IsToken bytes.now) (λ found. IsLongestToken found.0 bytes.now found.1) }
{
    let first = bytes[0];
    if is_digit(first) {
        return Some((Word::Number, number_len(bytes)));
    }
    if is_word_byte(first) {
        let len = name_len(bytes);
        if is_reserved(&bytes[..len]) {
            return Some((Word::Reserved, len));
        }
        return Some((Word::Name, len));
    }
    if first == QUOTE {
        return Some((Word::Text, text_len(bytes)?));
    }
    Some((Word::Sign, sign_len(bytes)?))
}
