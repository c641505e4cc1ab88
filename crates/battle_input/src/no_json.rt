//! Where bytes are not JSON (docs/PROGRAM.md, "Explanations"): a scan that knows after each byte what may come next.
ghost use Rattle.std.specs.Prelude.{◌≡◌, ◌≤◌};
ghost use Rattle.battle_input.specs.NoJson.{after_comma, begin, behind_fraction, behind_minus, behind_whole, close, digit, enter, first, go_on, in_escape, in_hex, in_many, in_text, in_word, is_blank, is_digit, is_hex, lead, letter, next, no_json, number, pass, wait_for};

use crate::fault::JsonFault;

/// The most open lists and objects: 127, one in another, and the mark below them.
const FULL: u128 = 1 << 127;

/// What is open, as a digit of the state.
const LIST: u8 = 0;

const OBJECT: u8 = 1;

/// What may come next in a JSON text. `true` is for the text of a key.
#[derive(Clone, Copy)]
pub(crate) enum Stand {
    /// A value.
    Value,
    /// A value, or the end of a list that has just begun.
    FirstItem,
    /// A key, or the end of an object that has just begun.
    FirstKey,
    /// A key.
    Key,
    /// A colon.
    Colon,
    /// What comes after a value.
    Behind,
    /// More of a text.
    Text(bool),
    /// What is escaped in a text.
    Escape(bool),
    /// This many hexadecimal digits.
    Hex(bool, u8),
    /// This many bytes of a character of several bytes.
    Many(bool, u8),
    /// A letter of `true`, `false` or `null`, by its number in `letter`.
    Word(u8),
    /// The digits of a number, after its minus.
    Minus,
    /// What comes after a zero.
    Zero,
    /// More digits.
    Whole,
    /// The first digit after a point.
    Point,
    /// More of these.
    Fraction,
    /// What comes after an `e`.
    Mark,
    /// The first digit of a power, after its sign.
    Sign,
    /// More of these.
    Power,
}

/// The state within a text: what may come next, and what is open. The latter is a binary number: a 1, and after it, from the
/// outside in, a 1 for each open object and a 0 for each open list.
type Place = (Stand, u128);

/// Returns the line and column in bytes, each from 1, of the first byte that JSON does not allow where it is; or of the end of the
/// bytes, if it allows each of them. Numbers beyond the range of a double, and half surrogate pairs, are not looked for.
#[tactic(auto, using(crate::proofs::Reading::stops_here, crate::proofs::Reading::stops_end, crate::proofs::Reading::stops_on))]
pub(crate) fn no_json(input: &[u8]) -> JsonFault
    ensures { result ≡ no_json input.now }
{
    let mut place = (Stand::Value, 1u128);
    let mut line = 1usize;
    let mut column = 1usize;
    for byte in input {
        let Some(later) = next(place.0, place.1, *byte) else {
            return JsonFault::Text { line, column };
        };
        place = later;
        if *byte == b'\n' {
            line += 1;
            column = 1;
        } else {
            column += 1;
        }
    }
    JsonFault::Text { line, column }
}

// What may come after a byte, if the byte is allowed.
fn next(stand: Stand, nest: u128, byte: u8) -> Option<Place>
    ensures { result ≡ next stand nest byte }
{
    match stand {
        Stand::Value => begin(stand, nest, byte),
        Stand::FirstItem if byte == b']' => close(nest, LIST),
        Stand::FirstItem => begin(stand, nest, byte),
        Stand::FirstKey if byte == b'}' => close(nest, OBJECT),
        Stand::FirstKey | Stand::Key => wait_for(stand, b'"', Stand::Text(true), nest, byte),
        Stand::Colon => wait_for(stand, b':', Stand::Value, nest, byte),
        Stand::Behind => pass(nest, byte),
        Stand::Text(is_key) => go_on(in_text(is_key, byte), nest),
        Stand::Escape(is_key) => go_on(in_escape(is_key, byte), nest),
        Stand::Hex(is_key, left) => go_on(in_hex(is_key, left, byte), nest),
        Stand::Many(is_key, left) => go_on(in_many(is_key, left, byte), nest),
        Stand::Word(number) => go_on(in_word(number, byte), nest),
        Stand::Minus => go_on(behind_minus(byte), nest),
        Stand::Zero => number(behind_whole(byte), nest, byte),
        Stand::Whole if is_digit(byte) => Some((stand, nest)),
        Stand::Whole => number(behind_whole(byte), nest, byte),
        Stand::Point => go_on(digit(Stand::Fraction, byte), nest),
        Stand::Fraction if is_digit(byte) => Some((stand, nest)),
        Stand::Fraction => number(behind_fraction(byte), nest, byte),
        Stand::Mark if byte == b'+' || byte == b'-' => Some((Stand::Sign, nest)),
        Stand::Mark | Stand::Sign => go_on(digit(Stand::Power, byte), nest),
        Stand::Power if is_digit(byte) => Some((stand, nest)),
        Stand::Power => pass(nest, byte),
    }
}

fn go_on(stand: Option<Stand>, nest: u128) -> Option<Place>
    ensures { result ≡ go_on stand nest }
{
    match stand {
        Some(stand) => Some((stand, nest)),
        None => None,
    }
}

// After the digits of a number, if it does not continue.
fn number(stand: Option<Stand>, nest: u128, byte: u8) -> Option<Place>
    ensures { result ≡ number stand nest byte }
{
    match stand {
        Some(stand) => Some((stand, nest)),
        None => pass(nest, byte),
    }
}

fn is_blank(byte: u8) -> bool
    ensures { result ≡ is_blank byte }
{
    byte == b' ' || byte == b'\t' || byte == b'\n' || byte == b'\r'
}

fn is_digit(byte: u8) -> bool
    ensures { result ≡ is_digit byte }
{
    b'0' <= byte && byte <= b'9'
}

fn wait_for(stand: Stand, due: u8, later: Stand, nest: u128, byte: u8) -> Option<Place>
    ensures { result ≡ wait_for stand due later nest byte }
{
    if is_blank(byte) {
        Some((stand, nest))
    } else if byte == due {
        Some((later, nest))
    } else {
        None
    }
}

// At the beginning of a value.
fn begin(stand: Stand, nest: u128, byte: u8) -> Option<Place>
    ensures { result ≡ begin stand nest byte }
{
    if is_blank(byte) {
        return Some((stand, nest));
    }
    match byte {
        b'[' => enter(Stand::FirstItem, nest, LIST),
        b'{' => enter(Stand::FirstKey, nest, OBJECT),
        _ => go_on(first(byte), nest),
    }
}

// At the beginning of a value that holds no other.
fn first(byte: u8) -> Option<Stand>
    ensures { result ≡ first byte }
{
    match byte {
        b'"' => Some(Stand::Text(false)),
        b't' => Some(Stand::Word(1)),
        b'f' => Some(Stand::Word(4)),
        b'n' => Some(Stand::Word(7)),
        b'-' => Some(Stand::Minus),
        _ => behind_minus(byte),
    }
}

fn behind_minus(byte: u8) -> Option<Stand>
    ensures { result ≡ behind_minus byte }
{
    if byte == b'0' {
        Some(Stand::Zero)
    } else {
        digit(Stand::Whole, byte)
    }
}

fn digit(later: Stand, byte: u8) -> Option<Stand>
    ensures { result ≡ digit later byte }
{
    if is_digit(byte) { Some(later) } else { None }
}

fn behind_whole(byte: u8) -> Option<Stand>
    ensures { result ≡ behind_whole byte }
{
    if byte == b'.' {
        Some(Stand::Point)
    } else {
        behind_fraction(byte)
    }
}

fn behind_fraction(byte: u8) -> Option<Stand>
    ensures { result ≡ behind_fraction byte }
{
    if byte == b'e' || byte == b'E' {
        Some(Stand::Mark)
    } else {
        None
    }
}

// Into a list or an object.
fn enter(stand: Stand, nest: u128, kind: u8) -> Option<Place>
    requires { kind ≤ 1 }
    ensures { result ≡ enter stand nest kind }
{
    if nest < FULL {
        Some((stand, nest * 2 + kind as u128))
    } else {
        None
    }
}

// Out of a list or an object.
fn close(nest: u128, kind: u8) -> Option<Place>
    ensures { result ≡ close nest kind }
{
    if nest > 1 && nest % 2 == kind as u128 {
        Some((Stand::Behind, nest / 2))
    } else {
        None
    }
}

// After a value.
fn pass(nest: u128, byte: u8) -> Option<Place>
    ensures { result ≡ pass nest byte }
{
    if is_blank(byte) {
        return Some((Stand::Behind, nest));
    }
    match byte {
        b',' => go_on(after_comma(nest), nest),
        b']' => close(nest, LIST),
        b'}' => close(nest, OBJECT),
        _ => None,
    }
}

fn after_comma(nest: u128) -> Option<Stand>
    ensures { result ≡ after_comma nest }
{
    if nest <= 1 {
        None
    } else if nest % 2 == 0 {
        Some(Stand::Value)
    } else {
        Some(Stand::Key)
    }
}

fn in_text(is_key: bool, byte: u8) -> Option<Stand>
    ensures { result ≡ in_text is_key byte }
{
    if byte == b'"' {
        Some(if is_key { Stand::Colon } else { Stand::Behind })
    } else if byte == b'\\' {
        Some(Stand::Escape(is_key))
    } else if byte < b' ' {
        None
    } else if byte < 0x80 {
        Some(Stand::Text(is_key))
    } else {
        lead(is_key, byte)
    }
}

// The first byte of a character of several bytes.
fn lead(is_key: bool, byte: u8) -> Option<Stand>
    ensures { result ≡ lead is_key byte }
{
    if byte < 0xC2 {
        None
    } else if byte < 0xE0 {
        Some(Stand::Many(is_key, 1))
    } else if byte < 0xF0 {
        Some(Stand::Many(is_key, 2))
    } else if byte < 0xF5 {
        Some(Stand::Many(is_key, 3))
    } else {
        None
    }
}

fn in_many(is_key: bool, left: u8, byte: u8) -> Option<Stand>
    ensures { result ≡ in_many is_key left byte }
{
    if byte < 0x80 || byte > 0xBF {
        None
    } else if left > 1 {
        Some(Stand::Many(is_key, left - 1))
    } else {
        Some(Stand::Text(is_key))
    }
}

fn in_escape(is_key: bool, byte: u8) -> Option<Stand>
    ensures { result ≡ in_escape is_key byte }
{
    match byte {
        b'u' => Some(Stand::Hex(is_key, 4)),
        b'"' | b'\\' | b'/' | b'b' | b'f' | b'n' | b'r' | b't' => Some(Stand::Text(is_key)),
        _ => None,
    }
}

fn in_hex(is_key: bool, left: u8, byte: u8) -> Option<Stand>
    ensures { result ≡ in_hex is_key left byte }
{
    if !is_hex(byte) {
        None
    } else if left > 1 {
        Some(Stand::Hex(is_key, left - 1))
    } else {
        Some(Stand::Text(is_key))
    }
}

fn is_hex(byte: u8) -> bool
    ensures { result ≡ is_hex byte }
{
    is_digit(byte) || b'A' <= byte && byte <= b'F' || b'a' <= byte && byte <= b'f'
}

// In `true` (1 to 3), `false` (4 to 6, then 3) or `null` (7 to 9), by the expected letter.
fn in_word(number: u8, byte: u8) -> Option<Stand>
    ensures { result ≡ in_word number byte }
{
    if byte != letter(number) {
        None
    } else if number == 3 || number == 9 {
        Some(Stand::Behind)
    } else if number == 6 {
        Some(Stand::Word(3))
    } else if number < 9 {
        Some(Stand::Word(number + 1))
    } else {
        None
    }
}

fn letter(number: u8) -> u8
    ensures { result ≡ letter number }
{
    match number {
        1 => b'r',
        2 => b'u',
        3 => b'e',
        4 => b'a',
        5 => b'l',
        6 => b's',
        7 => b'u',
        _ => b'l',
    }
}
