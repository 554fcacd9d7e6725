// Sheets of edition 1, read from a lent slice.
//
// Interface: `read_sheet` and `station_at`. A reader takes a text and answers what stands at its front, with the text behind it, or `None`.
#![tactic(auto)]

ghost use Rattle.std.specs.Prelude.{◌≡◌, ◌&&◌, IfSome, IfNone};
ghost use Rattle.base.specs.Kit.{[], Bool, length, drop, set};
ghost use Rattle.reading.specs.Read.{digits, number, word_number, hex_byte, stations, read_end};
ghost use Rattle.reading.specs.Fault.{read_sheet};
ghost use Rattle.reading.specs.Opened.{opened};
ghost use Rattle.reading.specs.CodeViews.{found_seen, first_digit, hex_digit_seen, word_at, RunRead, KeyRead, StationRead, follows, risen};

use base::Decline;
use key::{compare, first};

// What stands at the front of a text, and the text behind it.
#[derive(Clone, Copy)]
struct Found<'a, T> {
    value: T,
    rest: &'a [u8],
}

/// A station's line: the key's length, the value, and the place behind the line.
#[derive(Clone, Copy)]
pub struct Line {
    pub key_len: usize,
    pub value: u64,
    pub next: usize,
}

/// A sheet that was read: how many pairs it has, and the place of the first station line.
#[derive(Clone, Copy)]
pub struct Opened {
    pub count: usize,
    pub line: usize,
}

/// A sheet read whole; what is not in the form is told of before keys that do not rise.
#[tactic(auto, unfolding(crate::specs::Read::read_head, crate::specs::Read::first_word), using(crate::proofs::Whole::sheets))]
pub fn read_sheet(s: &[u8]) -> Result<Opened, Decline>
    ensures { result ≡ opened (read_sheet s.now) }
{
    let count = word_number(s, b"sheet 1 keys ").ok_or(Decline::SheetForm)?;
    let rising = stations(count.rest, count.value).ok_or(Decline::SheetForm)?;
    end(rising.rest).ok_or(Decline::SheetForm)?;
    if !rising.value {
        return Err(Decline::SheetOrder);
    }
    Ok(Opened {
        count: count.value as usize,
        line: s.len() - count.rest.len(),
    })
}

// As many station lines as the count says: whether their keys rise. Lower-case hex has the order of the bytes, so that
// two keys are compared by their texts where they stand; behind one that does not rise none is compared.
#[tactic(auto, using(crate::proofs::Whole::station_rules))]
fn stations(text: &[u8], count: u64) -> Option<Found<bool>>
    ensures { found_seen result ≡ risen [] Bool.true (stations count text.now) }
{
    let mut rest = text;
    let mut before: &[u8] = &[];
    let mut rising = true;
    for _ in 0..count {
        let line = station_at(rest, 0, &mut [])?;
        let key = first(rest, (2 * line.key_len).max(1));
        rising = rising && follows(before, key);
        before = key;
        rest = &rest[line.next..];
    }
    Some(Found {
        value: rising,
        rest,
    })
}

// Whether a key's text may stand behind another's.
#[tactic(auto, unfolding(crate::specs::CodeViews::follows), using(std::proofs::lemmas::Bool::Decides::nat_tests))]
fn follows(before: &[u8], text: &[u8]) -> bool
    ensures { result ≡ follows before.now text.now }
{
    text.len() <= 512 && compare(before, text).is_lt()
}

// The end line, with nothing behind it. (It answers the figure, which no one reads: so its clause is the definition's own equation, where a
// bool's would want a definition more.)
#[tactic(auto, unfolding(crate::specs::Read::end_word), using(crate::proofs::Lines::line_ends))]
fn end(text: &[u8]) -> Option<Found<u64>>
    ensures { found_seen result ≡ read_end text.now }
{
    let figure = word_number(text, b"end ")?;
    if !figure.rest.is_empty() {
        return None;
    }
    Some(figure)
}

/// A station's line at a place of a sheet; the first bytes of its key, as many as fit, are left in the buffer.
pub fn station_at(s: &[u8], at: usize, buf: &mut [u8]) -> Option<Line>
    ensures { StationRead s.now at buf.old buf.new result }
{
    if s.len() < at {
        return None;
    }
    let key = key(&s[at..], buf)?;
    let value = word_number(key.rest, b" ")?;
    Some(Line {
        key_len: key.value,
        value: value.value,
        next: s.len() - value.rest.len(),
    })
}

// A key's length; its first bytes, as many as fit, are left in the buffer.
fn key<'a>(text: &'a [u8], buf: &mut [u8]) -> Option<Found<'a, usize>>
    ensures { KeyRead text.now buf.old buf.new result }
{
    if let Some(rest) = behind(text, b"-") {
        return Some(Found { value: 0, rest });
    }
    let run = key_bytes(text, buf);
    if run.value == 0 {
        return None;
    }
    Some(run)
}

// How many bytes of a key stand there. As many as fit are left in the buffer.
#[tactic(auto, using(crate::proofs::Turns::hex_shorter, crate::proofs::Turns::run_more, crate::proofs::Turns::run_none, crate::proofs::Turns::stored_more))]
fn key_bytes<'a>(text: &'a [u8], buf: &mut [u8]) -> Found<'a, usize>
    ensures { RunRead text.now buf.old buf.new result }
{
    let mut rest = text;
    let mut len = 0;
    // A loop over pairs of bytes would say where the key ends by a sum of its own.
    while let Some(byte) = hex_byte(rest) {
        store(buf, len, byte.value);
        len += 1;
        rest = byte.rest;
    }
    Found { value: len, rest }
}

// A byte stored where there is room for it.
// (Tried: by `get_mut`, behind whose loan nothing is known of the buffer's bytes; the proof did not close.)
fn store(buf: &mut [u8], n: usize, b: u8)
    ensures { buf.new ≡ set buf.old n b }
{
    if n < buf.len() {
        buf[n] = b;
    }
}

// A byte as two hex digits.
#[tactic(auto, using(crate::proofs::Turns::rest_is, crate::proofs::Turns::hex_turns))]
fn hex_byte(text: &[u8]) -> Option<Found<u8>>
    ensures { found_seen result ≡ hex_byte text.now }
{
    let [high, low, rest @ ..] = text else {
        return None;
    };
    let value = 16 * hex_digit(*high)? + hex_digit(*low)?;
    Some(Found { value, rest })
}

// A lower-case hex digit's number.
#[tactic(auto, unfolding(crate::specs::CodeViews::hex_digit_seen, crate::specs::Read::nibble, crate::specs::Read::digit, base::specs::Pick::pick), using(std::proofs::lemmas::Bool::Decides::nat_tests))]
fn hex_digit(b: u8) -> Option<u8>
    ensures { result ≡ hex_digit_seen b }
{
    match b {
        b'0'..=b'9' => Some(b - b'0'),
        b'a'..=b'f' => Some(b - b'a' + 10),
        _ => None,
    }
}

// A word, a decimal and a newline.
#[tactic(auto, using(crate::proofs::Lines::word_numbers))]
fn word_number<'a>(text: &'a [u8], word: &[u8]) -> Option<Found<'a, u64>>
    ensures { found_seen result ≡ word_number word.now text.now }
{
    let number = number(behind(text, word)?)?;
    let rest = behind(number.rest, b"\n")?;
    Some(Found {
        value: number.value,
        rest,
    })
}

// The text behind a word.
#[tactic(auto, using(crate::proofs::Turns::rest_is, crate::proofs::Turns::word_is))]
fn behind<'a>(text: &'a [u8], word: &[u8]) -> Option<&'a [u8]>
    ensures there { IfSome result (λ rest. (word_at word.now text.now ≡ Bool.true) × (rest.now ≡ drop (length word.now) text.now)) }
    ensures other { IfNone result (word_at word.now text.now ≡ Bool.false) }
{
    if !text.starts_with(word) {
        return None;
    }
    Some(&text[word.len()..])
}

// A decimal.
#[tactic(auto, using(crate::proofs::Turns::numbers))]
fn number(text: &[u8]) -> Option<Found<u64>>
    ensures { found_seen result ≡ number text.now }
{
    let first = digit(text)?;
    if first.value == 0 {
        return Some(first);
    }
    digits(first.rest, first.value)
}

// The digits that stand there, behind those that say x.
#[tactic(auto, using(crate::proofs::Turns::digit_turns))]
fn digits(text: &[u8], x: u64) -> Option<Found<u64>>
    ensures { found_seen result ≡ digits x text.now }
{
    let mut rest = text;
    let mut value = x;
    // A loop over the bytes would say where the decimal ends by a sum of its own.
    while let Some(digit) = digit(rest) {
        value = value.checked_mul(10)?.checked_add(digit.value)?;
        rest = digit.rest;
    }
    Some(Found { value, rest })
}

// A decimal digit's number.
#[tactic(auto, using(crate::proofs::Turns::rest_is, crate::proofs::Turns::digit_there, crate::proofs::Turns::digit_other, crate::proofs::Turns::digit_end))]
fn digit(text: &[u8]) -> Option<Found<u64>>
    ensures { found_seen result ≡ first_digit text.now }
{
    let [b, rest @ ..] = text else {
        return None;
    };
    if !b.is_ascii_digit() {
        return None;
    }
    Some(Found {
        value: u64::from(*b - b'0'),
        rest,
    })
}
