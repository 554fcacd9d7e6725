// The key that a walk has come to (the Rust's cursor_key.rs).
//
// The Rust's CursorKey holds its buffer, and its methods change it in place. Here the three numbers go by value, so that no call copies
// 256 bytes; the buffer is lent to a reader beside them, and to the methods that write it.
ghost use Rattle.std.specs.Prelude.{◌≡◌, ◌+◌, ◌≤◌, ◌<◌};
ghost use Rattle.base.specs.Kit.{length};
ghost use Rattle.key.specs.Order.{byte_order};
ghost use Rattle.cursor.specs.CursorKey.{from_slice, shift_clear, shift, unshift, has_suffix, suffix_of, compare_slot, store_ikey, with_ikey, with_length, store_suffix};

use std::cmp::Ordering;

// The length that `unshift` sets: one more than an ikey has, so that the cursor stands past the layer's slot.
pub const UNSHIFT_SENTINEL_LEN: usize = 9;

// The cursor as a walk keeps it: the Rust's CursorKey, field by field, and as C's record has it (an array with a length, and no heap). A
// CursorPlace within it would be the Rust's structure no longer.
#[derive(Clone, Copy, Debug, PartialEq, Eq)]
pub struct CursorKey {
    pub buf: [u8; 256],
    pub offset: usize,
    pub len: usize,
    pub ikey: u64,
}

// The cursor without its buffer: where the layer's ikey stands in it, the key's length from there on, and the ikey.
#[derive(Clone, Copy, Debug, PartialEq, Eq)]
pub struct CursorPlace {
    pub offset: usize,
    pub len: usize,
    pub ikey: u64,
}

// The cursor with its buffer, as searches read it: its key lies within the buffer.
#[derive(Clone, Copy)]
pub struct CursorReader<'a> {
    pub place: CursorPlace,
    pub buf: &'a [u8],
    ghost in_buffer: { place.offset + place.len ≤ length buf.now },
}

// A cursor at the root layer that holds `key`, zero-filled. Its bound on the length: see key's `padded`.
#[tactic(auto, unfolding(crate::specs::CursorKey::from_slice))]
pub fn from_slice(key: &[u8]) -> CursorKey
    requires { length key.now ≤ 256 }
    ensures { result ≡ from_slice key.now }
{
    CursorKey {
        buf: key::padded(key),
        offset: 0,
        len: key.len(),
        ikey: key::ikey_of(key),
    }
}

impl CursorPlace {
    // One layer down, before all its keys. The buffer keeps its bytes.
    #[tactic(auto, unfolding(crate::specs::CursorKey::shift_clear))]
    pub fn shift_clear(self) -> CursorPlace
        requires { self.offset ≤ 256 }
        ensures { result ≡ shift_clear self }
    {
        CursorPlace {
            offset: self.offset + 8,
            len: 0,
            ikey: 0,
        }
    }

    // One layer up, past the slot of the layer that was left.
    #[tactic(auto, unfolding(crate::specs::CursorKey::unshift))]
    pub fn unshift(self, buf: &[u8; 256]) -> CursorPlace
        requires le_offset { 8 ≤ self.offset }
        requires offset_bound { self.offset ≤ 256 }
        ensures { result ≡ unshift self buf.now }
    {
        let at = self.offset - 8;
        CursorPlace {
            offset: at,
            len: UNSHIFT_SENTINEL_LEN,
            ikey: key::ikey_of(key::part_of(buf, at, 8)),
        }
    }

    #[tactic(auto, unfolding(crate::specs::CursorKey::has_suffix))]
    pub fn has_suffix(self) -> bool
        ensures { result ≡ has_suffix self }
    {
        8 < self.len
    }

    // The cursor against a slot's ikey and keylenx, a number here: it is ordered against the cursor's length.
    #[tactic(auto, unfolding(crate::specs::CursorKey::compare_slot, crate::specs::CursorKey::has_suffix, key::specs::Order::order, key::specs::Order::then, base::specs::Pick::pick))]
    pub fn compare(self, other_ikey: u64, keylenx: usize) -> Ordering
        ensures { result ≡ compare_slot self other_ikey keylenx }
    {
        match self.ikey.cmp(&other_ikey) {
            Ordering::Equal if self.has_suffix() => {
                if keylenx <= 8 {
                    Ordering::Greater
                } else {
                    Ordering::Equal
                }
            }
            Ordering::Equal => self.len.cmp(&keylenx),
            unequal => unequal,
        }
    }

    // A slot's ikey into the buffer, at the layer's place.
    #[tactic(auto, unfolding(crate::specs::CursorKey::with_ikey, crate::specs::CursorKey::store_ikey, key::specs::Ikey::ikey_bytes, key::specs::Ikey::digits))]
    pub fn assign_store_ikey(self, buf: &mut [u8; 256], ikey: u64) -> CursorPlace
        requires { self.offset ≤ 248 }
        ensures { (result ≡ with_ikey self ikey) × (buf.new ≡ store_ikey buf.old self.offset ikey) }
    {
        key::copy_in(buf, self.offset, &key::ikey_bytes(ikey));
        CursorPlace { ikey, ..self }
    }

    // A slot's suffix into the buffer, past the layer's ikey; the length of both.
    #[tactic(auto, unfolding(crate::specs::CursorKey::store_suffix))]
    pub fn assign_store_suffix(self, buf: &mut [u8; 256], suffix: &[u8]) -> usize
        requires { self.offset + 8 + length suffix.now ≤ 256 }
        ensures { (result ≡ 8 + length suffix.now) × (buf.new ≡ store_suffix buf.old self.offset suffix.now) }
    {
        key::copy_words_in(buf, self.offset + 8, suffix);
        8 + suffix.len()
    }

    #[tactic(auto, unfolding(crate::specs::CursorKey::with_length))]
    pub fn assign_store_length(self, len: usize) -> CursorPlace
        ensures { result ≡ with_length self len }
    {
        CursorPlace { len, ..self }
    }
}

impl<'a> CursorReader<'a> {
    // The key's bytes past the layer's ikey.
    #[tactic(auto, unfolding(crate::specs::CursorKey::suffix_of, crate::specs::CursorKey::has_suffix, base::specs::Pick::pick))]
    pub fn suffix(self) -> &'a [u8]
        ensures { result.now ≡ suffix_of self.entry.place self.entry.buf.now }
    {
        if self.place.has_suffix() {
            key::part_of(self.buf, self.place.offset + 8, self.place.len - 8)
        } else {
            &[]
        }
    }

    // The cursor's suffix against a stored one, in plain byte order.
    pub fn compare_suffix(self, stored: &[u8]) -> Ordering
        ensures { result ≡ byte_order (suffix_of self.entry.place self.entry.buf.now) stored.now }
    {
        key::compare(self.suffix(), stored)
    }

    // One layer down, where the cursor's own bytes lead into it.
    #[tactic(auto, unfolding(crate::specs::CursorKey::shift))]
    pub fn shift(self) -> CursorPlace
        requires { 8 < self.place.len }
        ensures { result ≡ shift self.entry.place self.entry.buf.now }
    {
        CursorPlace {
            offset: self.place.offset + 8,
            len: self.place.len - 8,
            ikey: key::ikey_of(self.suffix()),
        }
    }
}
