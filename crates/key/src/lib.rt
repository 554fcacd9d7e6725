// Keys as byte strings: plain byte order, and the ikey, eight key bytes as one number (the Rust's key.rs).
//
// Interface: every public function here. `part_of`, `copy_in`, `copy_words_in` and `padded` ask that what they read or
// fill is long enough; each result is fixed by a definition of specs/ or of the library.
#![tactic(auto)]

ghost use Rattle.std.specs.Prelude.{◌≡◌, ◌+◌, ◌≤◌};
ghost use Rattle.base.specs.Kit.{min, length, paste, take, drop, replicate};
ghost use Rattle.key.specs.Order.{byte_order};
ghost use Rattle.key.specs.Comparisons.{compared_by, compared};
ghost use Rattle.key.specs.Ikey.{be, ikey_of, ikey_bytes};
ghost use Rattle.key.specs.Part.{part, padded};
ghost use Rattle.key.specs.CodeWords.{paste_word};

use node::le;
use std::cmp::Ordering;

// The answer of a comparison by pieces: plain byte order's, and how many pieces were compared.
#[derive(Clone, Copy, Debug, PartialEq, Eq)]
pub struct Compared {
    pub order: Ordering,
    pub comparisons: usize,
}

// The n bytes of s from `at` on: a name for a slice's part, as definitions have it.
#[tactic(auto, unfolding(crate::specs::Part::part))]
pub fn part_of<'a>(s: &'a [u8], at: usize, n: usize) -> &'a [u8]
    requires { at + n ≤ length s.now }
    ensures { result.now ≡ part s.now at n }
{
    &s[at..at + n]
}

// The first n bytes of a slice, or all where it has no more.
pub fn first<'a>(s: &'a [u8], n: usize) -> &'a [u8]
    ensures { result.now ≡ take n s.now }
{
    &s[..n.min(s.len())]
}

// Eight bytes of a key as one number, the first one highest: one load, and its bytes turned.
#[tactic(auto, using(crate::proofs::Turns::be_eight_at))]
fn eight_at(s: &[u8], at: usize) -> u64
    requires { at + 8 ≤ length s.now }
    ensures { result ≡ be 8 (drop at s.now) }
{
    u64::from_be_bytes(le::bytes_at(s, at))
}

// Two keys compared by single bytes; their lengths decide where no byte does. One function for both widths would ask for a trait
// of readers, and be no plainer.
fn compare_bytes(a: &[u8], b: &[u8]) -> Compared
    ensures { result ≡ compared_by (replicate (min (length a.now) (length b.now)) 1) a.now b.now }
{
    for (i, (x, y)) in a.iter().zip(b).enumerate() {
        if x != y {
            return Compared {
                order: x.cmp(y),
                comparisons: i + 1,
            };
        }
    }
    Compared {
        order: a.len().cmp(&b.len()),
        comparisons: a.len().min(b.len()),
    }
}

// Two keys compared by eights while both have eight left, then by single bytes. Eights are counted: what is behind the last of them is cut by
// their number, and chunks of both would be slices whose length is asked for again.
pub fn compare_by_eights(a: &[u8], b: &[u8]) -> Compared
    ensures { result ≡ compared a.now b.now }
{
    let eights = a.len().min(b.len()) / 8;
    for n in 0..eights {
        let x = eight_at(a, 8 * n);
        let y = eight_at(b, 8 * n);
        if x != y {
            return Compared {
                order: x.cmp(&y),
                comparisons: n + 1,
            };
        }
    }
    let rest = compare_bytes(&a[8 * eights..], &b[8 * eights..]);
    Compared {
        order: rest.order,
        comparisons: eights + rest.comparisons,
    }
}

// Plain byte order of two keys.
#[tactic(auto, unfolding(crate::specs::Comparisons::compared, crate::specs::Comparisons::compared_by))]
pub fn compare(a: &[u8], b: &[u8]) -> Ordering
    ensures { result ≡ byte_order a.now b.now }
{
    compare_by_eights(a, b).order
}

// The ikey of a key: its first eight bytes, first byte highest, zero-filled.
#[tactic(auto, unfolding(crate::specs::Ikey::ikey_of))]
pub fn ikey_of(key: &[u8]) -> u64
    ensures { result ≡ ikey_of key.now }
{
    if 8 <= key.len() {
        return eight_at(key, 0);
    }
    let mut bytes = [0u8; 8];
    copy_in(&mut bytes, 0, first(key, 8));
    u64::from_be_bytes(bytes)
}

// The eight bytes of an ikey, first byte highest.
#[tactic(auto, unfolding(crate::specs::Ikey::ikey_bytes, crate::specs::Ikey::digits))]
pub fn ikey_bytes(ikey: u64) -> [u8; 8]
    ensures { result ≡ ikey_bytes ikey }
{
    ikey.to_be_bytes()
}

// The bytes of s into buf, from `at` on; the rest of buf stays. `paste d at s n` of the library is d with the first n of s
// in it from `at` on. It stays beside the library's copy, since a caller says no more plainly `buf[at..at + s.len()]`.
pub fn copy_in(buf: &mut [u8], at: usize, s: &[u8])
    requires { at + length s.now ≤ length buf.old }
    ensures { buf.new ≡ paste buf.old at s.now (length s.now) }
{
    buf[at..at + s.len()].copy_from_slice(s);
}

// Eight bytes of s to their place in d: those from i on, or the last eight where fewer are left. They go through a word of their own,
// so that they are one load and one store.
#[tactic(auto, unfolding(crate::specs::Part::part), using(crate::proofs::Words::word_in))]
fn copy_word(d: &mut [u8], s: &[u8], i: usize)
    requires s_len { 8 ≤ length s.now }
    requires same_len { length d.old ≡ length s.now }
    ensures { d.new ≡ paste_word d.old s.now i }
{
    let from = i.min(s.len() - 8);
    let word = le::bytes_at::<8>(s, from);
    d[from..from + 8].copy_from_slice(&word);
}

// The same as `copy_in`; 8 to 32 bytes go in four words, whatever their number: a word copied twice costs less than a branch that
// is guessed wrongly. (Four lines are plainer than a loop over four numbers.)
#[tactic(auto, using(crate::proofs::Words::words_in))]
pub fn copy_words_in(buf: &mut [u8], at: usize, s: &[u8])
    requires { at + length s.now ≤ length buf.old }
    ensures { buf.new ≡ paste buf.old at s.now (length s.now) }
{
    if 8 <= s.len() && s.len() <= 32 {
        let d = &mut buf[at..at + s.len()];
        copy_word(d, s, 0);
        copy_word(d, s, 8);
        copy_word(d, s, 16);
        copy_word(d, s, 24);
    } else {
        copy_bytes_in(buf, at, s);
    }
}

// The same as `copy_in`, byte by byte. (By index: the library's copy was made a call of C's memmove here, which the archive for C asked for
// from nowhere before.)
fn copy_bytes_in(buf: &mut [u8], at: usize, s: &[u8])
    requires { at + length s.now ≤ length buf.old }
    ensures { buf.new ≡ paste buf.old at s.now (length s.now) }
{
    for i in 0..s.len() {
        buf[at + i] = s[i];
    }
}

// A key in a buffer of 256 bytes, zero past its end. The bound stands in cursor's `from_slice` and `bound_of` too: a type for a key of at
// most 256 bytes would be made at one caller, a walk's placing, and be no plainer.
#[tactic(auto, unfolding(crate::specs::Part::padded), using(crate::proofs::Part::paste_zeros))]
pub fn padded(key: &[u8]) -> [u8; 256]
    requires { length key.now ≤ 256 }
    ensures { result ≡ padded key.now }
{
    let mut buf = [0u8; 256];
    copy_in(&mut buf, 0, key);
    buf
}
