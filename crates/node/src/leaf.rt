// A leaf's fields (the Rust's leaf15/layout.rs). They are read through one reader that holds the image and the leaf's
// place, and a slot's through one that holds this reader and the slot: functions on slice and number, and a method of a
// reader over each, which every caller uses.
ghost use Rattle.std.specs.Prelude.{◌≡◌, ◌+◌, ◌<◌};
ghost use Rattle.node.specs.Layout.{InLeaf, InSlot, permutation_at, ikey_at, keylenx_at, value_at, suffix_at, live_at, next_at, slot_kind};

use crate::le;
use crate::permuter::Slot;

// Where a suffix stands in the image, and how many bytes it has.
#[derive(Clone, Copy, Debug, PartialEq, Eq)]
pub struct Suffix {
    pub start: usize,
    pub len: usize,
}

// A leaf's bytes.
pub const LEAF_SIZE: usize = 400;

// `keylenx` of a key with a suffix.
pub const KSUF_KEYLENX: u8 = 64;

// `keylenx` from which on a slot is a layer.
pub const LAYER_KEYLENX: u8 = 128;

// What a slot's `keylenx` says of its key: it ends in this layer; it goes on in a suffix; its layer goes on below; or nothing,
// as no slot of an accepted image has it.
#[derive(Clone, Copy, Debug, PartialEq, Eq)]
pub enum SlotKind {
    Inline,
    Suffix,
    Layer,
    Unlisted,
}

#[tactic(auto, using(std::proofs::lemmas::Bool::Decides::nat_tests), unfolding(crate::specs::Layout::slot_kind, base::specs::Pick::pick))]
pub fn slot_kind(keylenx: u8) -> SlotKind
    ensures { result ≡ slot_kind keylenx }
{
    if keylenx <= 8 {
        return SlotKind::Inline;
    }
    if keylenx == KSUF_KEYLENX {
        return SlotKind::Suffix;
    }
    if LAYER_KEYLENX <= keylenx {
        return SlotKind::Layer;
    }
    SlotKind::Unlisted
}

// Each field by slice and number, in a function of its own: 01 names this form, a reader whose methods are thin over such functions.
fn permutation_at(image: &[u8], at: usize) -> u64
    requires { InLeaf image.now at }
    ensures { result ≡ permutation_at image.now at }
{
    le::u64_at(image, at + 8)
}

fn ikey_at(image: &[u8], at: usize, slot: Slot) -> u64
    requires { InSlot image.now at slot }
    ensures { result ≡ ikey_at image.now at slot }
{
    le::u64_at(image, at + 16 + 8 * slot.0)
}

fn keylenx_at(image: &[u8], at: usize, slot: Slot) -> u8
    requires { InSlot image.now at slot }
    ensures { result ≡ keylenx_at image.now at slot }
{
    image[at + 136 + slot.0]
}

fn value_at(image: &[u8], at: usize, slot: Slot) -> u64
    requires { InSlot image.now at slot }
    ensures { result ≡ value_at image.now at slot }
{
    le::u64_at(image, at + 152 + 8 * slot.0)
}

#[tactic(auto, unfolding(crate::specs::Layout::suffix_at))]
fn ksuf_at(image: &[u8], at: usize, slot: Slot) -> Suffix
    requires { InSlot image.now at slot }
    ensures { result ≡ suffix_at image.now at slot }
{
    let word = le::u64_at(image, at + 272 + 8 * slot.0);
    Suffix {
        start: (word % 4294967296) as usize,
        len: (word / 4294967296) as usize,
    }
}

#[tactic(auto, unfolding(crate::specs::Layout::live_at, crate::specs::Version::bit))]
fn live_at(image: &[u8], at: usize, slot: Slot) -> bool
    requires { InSlot image.now at slot }
    ensures { result ≡ live_at image.now at slot }
{
    (le::u16_at(image, at + 4) >> slot.0) % 2 == 1
}

fn next_at(image: &[u8], at: usize) -> u64
    requires { InLeaf image.now at }
    ensures { result ≡ next_at image.now at }
{
    le::u64_at(image, at + 392)
}

// The image and the leaf's place.
#[derive(Clone, Copy)]
pub struct LeafReader<'a> {
    pub image: &'a [u8],
    pub at: usize,
    ghost in_leaf: { InLeaf image.now at },
}

impl<'a> LeafReader<'a> {
    pub fn permutation(self) -> u64
        ensures { result ≡ permutation_at self.entry.image.now self.entry.at }
    {
        permutation_at(self.image, self.at)
    }

    pub fn next(self) -> u64
        ensures { result ≡ next_at self.entry.image.now self.entry.at }
    {
        next_at(self.image, self.at)
    }
}

// A leaf and one of its fifteen slots.
#[derive(Clone, Copy)]
pub struct SlotReader<'a> {
    pub leaf: LeafReader<'a>,
    pub slot: Slot,
    ghost in_slot: { slot.0 < 15 },
}

impl<'a> SlotReader<'a> {
    pub fn ikey(self) -> u64
        ensures { result ≡ ikey_at self.entry.leaf.image.now self.entry.leaf.at self.entry.slot }
    {
        ikey_at(self.leaf.image, self.leaf.at, self.slot)
    }

    pub fn keylenx(self) -> u8
        ensures { result ≡ keylenx_at self.entry.leaf.image.now self.entry.leaf.at self.entry.slot }
    {
        keylenx_at(self.leaf.image, self.leaf.at, self.slot)
    }

    pub fn kind(self) -> SlotKind
        ensures { result ≡ slot_kind (keylenx_at self.entry.leaf.image.now self.entry.leaf.at self.entry.slot) }
    {
        slot_kind(self.keylenx())
    }

    pub fn value(self) -> u64
        ensures { result ≡ value_at self.entry.leaf.image.now self.entry.leaf.at self.entry.slot }
    {
        value_at(self.leaf.image, self.leaf.at, self.slot)
    }

    pub fn ksuf(self) -> Suffix
        ensures { result ≡ suffix_at self.entry.leaf.image.now self.entry.leaf.at self.entry.slot }
    {
        ksuf_at(self.leaf.image, self.leaf.at, self.slot)
    }

    pub fn live(self) -> bool
        ensures { result ≡ live_at self.entry.leaf.image.now self.entry.leaf.at self.entry.slot }
    {
        live_at(self.leaf.image, self.leaf.at, self.slot)
    }
}
