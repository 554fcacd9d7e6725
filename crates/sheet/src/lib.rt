// The lines of sheet edition 1, written into a lent buffer.
//
// Interface: `first_line`, `pair_line`, `last_line` and `refused_line`. None has a `requires`: where the buffer is too short for
// the line nothing is written, and the length is 0, which no line has: a line is kept as its bytes and this length, and an Option would only be
// opened for it. What stands past the written length stays as it was. And `put_hex`, bytes in hex alone, which asks that the buffer has room.
#![tactic(auto)]

ghost use Rattle.std.specs.Prelude.{◌∷◌, ◌++◌, ◌≡◌, ◌+◌, ◌*◌, ◌≤◌, ◌<◌};
ghost use Rattle.base.specs.Kit.{[], length, paste};
ghost use Rattle.sheet.specs.Sheet.{decimal, hex_digit, hex_bytes, hex_key, first_line, pair_line, last_line, refused};
ghost use Rattle.sheet.specs.Written.{written_len, written_out};

use key::copy_in;

// The longest line of a sheet: a key of 256 bytes in hex, a space, twenty digits and a newline.
pub const LINE: usize = 534;

// The first line: the edition and the trailer's key count.
pub fn first_line(out: &mut [u8], count: u64) -> usize
    ensures { (result ≡ written_len (first_line count) out.old)
        × (out.new ≡ written_out (first_line count) out.old) }
{
    word_line(out, b"sheet 1 keys ", count)
}

// The line of one key and its value. The first test keeps the sum in the second from wrapping.
#[tactic(auto, using(std::proofs::lemmas::Bool::Decides::nat_tests, crate::proofs::Decimal::decimal_length, crate::proofs::Paste::paste_between, crate::proofs::Paste::joined), unfolding(crate::specs::Sheet::pair_line, crate::specs::Written::written_len, crate::specs::Written::written_out, base::specs::Pick::pick))]
pub fn pair_line(out: &mut [u8], key: &[u8], value: u64) -> usize
    ensures { (result ≡ written_len (pair_line (record { key = key.entry.now; value = value })) out.old)
        × (out.new ≡ written_out (pair_line (record { key = key.entry.now; value = value })) out.old) }
{
    let h = hex_key_len(key);
    if out.len() < h || out.len() < h + decimal_len(value) + 2 {
        return 0;
    }
    put_hex_key(out, key);
    out[h] = b' ';
    put_decimal_end(out, h + 1, value)
}

// The last line: the walk's moves.
pub fn last_line(out: &mut [u8], moves: u64) -> usize
    ensures { (result ≡ written_len (last_line moves) out.old)
        × (out.new ≡ written_out (last_line moves) out.old) }
{
    word_line(out, b"end ", moves)
}

// The only line for an image that is declined: the number of the decline.
pub fn refused_line(out: &mut [u8], number: u64) -> usize
    ensures { (result ≡ written_len (refused number) out.old)
        × (out.new ≡ written_out (refused number) out.old) }
{
    word_line(out, b"refused ", number)
}

// A line of constant text and a number.
#[tactic(auto, using(std::proofs::lemmas::Bool::Decides::nat_tests, crate::proofs::Decimal::decimal_length, crate::proofs::Paste::paste_two, crate::proofs::Paste::joined), unfolding(crate::specs::Written::written_len, crate::specs::Written::written_out, base::specs::Pick::pick))]
fn word_line(out: &mut [u8], word: &[u8], x: u64) -> usize
    ensures { (result ≡ written_len (word.now ++ decimal x ++ (10 ∷ [])) out.old)
        × (out.new ≡ written_out (word.now ++ decimal x ++ (10 ∷ [])) out.old) }
{
    let at = word.len();
    if out.len() < at + decimal_len(x) + 1 {
        return 0;
    }
    copy_in(out, 0, word);
    put_decimal_end(out, at, x)
}

// The decimal of x and a newline into out, from `at` on; the place after them.
#[tactic(auto, using(crate::proofs::Paste::paste_snoc))]
fn put_decimal_end(out: &mut [u8], at: usize, x: u64) -> usize
    requires { at + length (decimal x) < length out.old }
    ensures { (result ≡ at + length (decimal x) + 1)
        × (out.new ≡ paste out.old at (decimal x ++ (10 ∷ [])) (length (decimal x ++ (10 ∷ [])))) }
{
    let end = put_decimal(out, at, x);
    out[end] = b'\n';
    end + 1
}

// How many digits x has.
#[tactic(auto, using(crate::proofs::Decimal::decimal_one_length, crate::proofs::Decimal::decimal_size))]
fn decimal_len(x: u64) -> usize
    ensures { result ≡ length (decimal x) }
{
    match x.checked_ilog10() {
        Some(n) => n as usize + 1,
        None => 1,
    }
}

// The decimal of x into out, from `at` on, its last digit first; the place after it.
// (By index: over the reversed iter_mut of the part the proof did not close.)
#[tactic(auto, using(crate::proofs::Decimal::lasts_all, crate::proofs::Decimal::lasts_more, crate::proofs::Decimal::lasts_none))]
fn put_decimal(out: &mut [u8], at: usize, x: u64) -> usize
    requires { at + length (decimal x) ≤ length out.old }
    ensures { (result ≡ at + length (decimal x))
        × (out.new ≡ paste out.old at (decimal x) (length (decimal x))) }
{
    let end = at + decimal_len(x);
    let mut rest = x;
    for i in (at..end).rev() {
        out[i] = b'0' + (rest % 10) as u8;
        rest /= 10;
    }
    end
}

// How many bytes a key takes in hex.
#[tactic(auto, using(std::proofs::lemmas::Bool::Decides::nat_tests, crate::proofs::Hex::hex_bytes_length, crate::proofs::Hex::hex_key_none, crate::proofs::Hex::hex_key_some))]
fn hex_key_len(key: &[u8]) -> usize
    ensures { result ≡ length (hex_key key.now) }
{
    if key.is_empty() { 1 } else { 2 * key.len() }
}

// A key in hex at the front of out, `-` for the empty key.
#[tactic(auto, using(std::proofs::lemmas::Bool::Decides::nat_tests, crate::proofs::Hex::hex_bytes_length, crate::proofs::Hex::hex_key_none, crate::proofs::Hex::hex_key_some, crate::proofs::Paste::paste_one))]
fn put_hex_key(out: &mut [u8], key: &[u8])
    requires { length (hex_key key.now) ≤ length out.old }
    ensures { out.new ≡ paste out.old 0 (hex_key key.now) (length (hex_key key.now)) }
{
    if key.is_empty() {
        out[0] = b'-';
    } else {
        put_hex(out, key);
    }
}

// Two hex digits for each byte of a key, or of any other bytes, at the front of out.
// (By index. Tried: over `chunks_exact_mut`, zipped with the key; nothing is known of what was written behind such a loop, and the proof did
// not close.)
#[tactic(auto, using(crate::proofs::Hex::hex_more, crate::proofs::Hex::hex_none))]
pub fn put_hex(out: &mut [u8], key: &[u8])
    requires { 2 * length key.now ≤ length out.old }
    ensures { out.new ≡ paste out.old 0 (hex_bytes key.now) (length (hex_bytes key.now)) }
{
    for (i, b) in key.iter().enumerate() {
        out[2 * i] = hex_digit(b / 16);
        out[2 * i + 1] = hex_digit(b % 16);
    }
}

// A hex digit in lower case.
#[tactic(auto, unfolding(crate::specs::Sheet::hex_digit, base::specs::Pick::pick))]
fn hex_digit(x: u8) -> u8
    requires { x < 16 }
    ensures { result ≡ hex_digit x }
{
    if x < 10 { b'0' + x } else { b'a' + (x - 10) }
}
