// A leaf's used slot (01's numbers 6, 7, 8 and 3).
ghost use Rattle.std.specs.Prelude.{◌≡◌, ◌+◌, ◌-◌, ◌%◌, ◌^◌, ◌≤◌, ◌<◌};
ghost use Rattle.base.specs.Kit.{eqb};
ghost use Rattle.node.specs.Permuter.{slot_at};
ghost use Rattle.verify.specs.Check.{listed, fits, before};
ghost use Rattle.verify.specs.CodeCases.{keyed, keyed_at, suffix_check, kind_check, slot_check, Opened};

use crate::pass::BoundedProgress;
use crate::{Ends, SlotCheck};
use base::Decline;
use node::leaf::{self, LeafReader, SlotKind, SlotReader, Suffix};
use node::permuter::{self, Position};

// A leaf's slots: its permutation, which is one of 0 to 14; the depth of its layer; and the ends of its ikeys.
#[derive(Clone, Copy)]
pub struct Slots<'a> {
    pub leaf: LeafReader<'a>,
    pub permutation: u64,
    pub depth: usize,
    pub ends: Ends,
    ghost opened: { Opened leaf.image.now leaf.at permutation },
    ghost at_bound: { leaf.at ≤ 16777216 },
    ghost depth_bound: { depth ≤ 31 },
}

// An ikey is zero behind its first n bytes.
#[tactic(auto, using(crate::proofs::SlotTests::filled))]
fn is_filled(ikey: u64, n: u64) -> bool
    requires n_nonzero { 0 < n }
    requires n_bound { n ≤ 8 }
    ensures { result ≡ eqb (ikey % 256 ^ (8 - n)) 0 }
{
    let free = 64 - 8 * n;
    (ikey >> free) << free == ikey
}

// Number 6 of a key that ends in its slot.
#[tactic(auto, using(std::proofs::lemmas::Bool::Decides::nat_tests), unfolding(crate::specs::Check::listed, base::specs::Pick::pick))]
fn is_inline_listed(depth: usize, ikey: u64, keylenx: u8) -> bool
    requires { keylenx ≤ 8 }
    ensures { result ≡ listed depth (keyed ikey keylenx 0) }
{
    if 0 < keylenx {
        return is_filled(ikey, u64::from(keylenx));
    }
    depth == 0 && ikey == 0
}

// Number 6.
#[tactic(auto, using(std::proofs::lemmas::Bool::Decides::nat_tests), unfolding(crate::specs::Check::listed, node::specs::Layout::slot_kind, base::specs::Pick::pick))]
fn is_listed(depth: usize, slot: SlotReader) -> bool
    ensures { result ≡ listed depth (keyed_at slot.entry.leaf.image.now slot.entry.leaf.at slot.entry.slot) }
{
    match slot.kind() {
        SlotKind::Inline => is_inline_listed(depth, slot.ikey(), slot.keylenx()),
        SlotKind::Suffix | SlotKind::Layer => true,
        SlotKind::Unlisted => false,
    }
}

// Number 8 for two slots, the second behind the first. By `keylenx` as a number: the slots of one ikey ascend by it.
#[tactic(auto, using(std::proofs::lemmas::Bool::Decides::nat_tests), unfolding(crate::specs::Check::before))]
fn is_before(slot: SlotReader, next: SlotReader) -> bool
    ensures { result ≡ before (keyed_at slot.entry.leaf.image.now slot.entry.leaf.at slot.entry.slot) (keyed_at next.entry.leaf.image.now next.entry.leaf.at next.entry.slot) }
{
    let keylenx = slot.keylenx();
    slot.ikey() < next.ikey()
        || (slot.ikey() == next.ikey()
            && (keylenx < next.keylenx() && keylenx < leaf::KSUF_KEYLENX))
}

// Number 3 for a suffix of the leaf at `at`.
#[tactic(auto, using(std::proofs::lemmas::Bool::Decides::nat_tests), unfolding(crate::specs::CodeCases::suffix_check, base::specs::Pick::pick))]
fn suffix_check(at: usize, s: Suffix, live: bool, p: BoundedProgress) -> Result<SlotCheck, Decline>
    requires { at ≤ 16777216 }
    ensures { result ≡ suffix_check at s live p.progress }
{
    if s.start != p.progress.place || at < s.start || at - s.start < s.len {
        return Err(Decline::RecordPlace);
    }
    Ok(SlotCheck::Passed(p.pass_value(s.len.next_multiple_of(8), live)))
}

// A slot that passed numbers 6 to 8, by its kind. A layer's live bit is not read.
#[tactic(auto, using(std::proofs::lemmas::Bool::Decides::nat_tests), unfolding(crate::specs::CodeCases::kind_check, node::specs::Layout::slot_kind, base::specs::Pick::pick))]
fn check_kind(slot: SlotReader, p: BoundedProgress) -> Result<SlotCheck, Decline>
    requires { slot.leaf.at ≤ 16777216 }
    ensures { result ≡ kind_check slot.entry.leaf.image.now slot.entry.leaf.at slot.entry.slot p.progress }
{
    match slot.kind() {
        SlotKind::Layer => Ok(SlotCheck::Layer(slot.value())),
        SlotKind::Suffix => suffix_check(slot.leaf.at, slot.ksuf(), slot.live(), p),
        SlotKind::Inline | SlotKind::Unlisted => {
            Ok(SlotCheck::Passed(p.pass_value(0, slot.live())))
        }
    }
}

impl<'a> Slots<'a> {
    #[tactic(auto, using(crate::proofs::SlotTests::slot_inside))]
    fn slot(self, position: Position) -> SlotReader<'a>
        requires { position.0 < 15 }
        ensures leaf { result.leaf ≡ self.entry.leaf }
        ensures slot { result.slot ≡ slot_at self.entry.permutation position }
    {
        SlotReader {
            leaf: self.leaf,
            slot: permuter::get(self.permutation, position),
        }
    }

    // Number 7.
    #[tactic(auto, using(std::proofs::lemmas::Bool::Decides::nat_tests), unfolding(crate::specs::Check::fits, node::specs::Layout::slot_kind, base::specs::Pick::pick))]
    fn fits_key(self, slot: SlotReader) -> bool
        ensures { result ≡ fits self.entry.depth (keyed_at slot.entry.leaf.image.now slot.entry.leaf.at slot.entry.slot) }
    {
        match slot.kind() {
            SlotKind::Suffix => {
                let len = slot.ksuf().len;
                0 < len && len <= 248 - 8 * self.depth
            }
            SlotKind::Layer => self.depth < 31,
            SlotKind::Inline | SlotKind::Unlisted => true,
        }
    }

    // The slot at a position: it is listed, its key fits, and it lies behind the slot before it and between the leaf's ends.
    #[tactic(auto, using(crate::proofs::SlotTests::in_order_at, std::proofs::lemmas::Bool::Decides::nat_tests), unfolding(crate::specs::CodeCases::slot_check, crate::specs::Check::in_range, base::specs::Pick::pick))]
    pub fn check(self, position: Position, p: BoundedProgress) -> Result<SlotCheck, Decline>
        requires { position.0 < 15 }
        ensures { result ≡ slot_check self.entry.leaf.image.now self.entry.depth self.entry.leaf.at self.entry.ends.lo (self.entry.ends.top + 1) position.0 p.progress }
    {
        let slot = self.slot(position);
        if !is_listed(self.depth, slot) {
            return Err(Decline::SlotLength);
        }
        if !self.fits_key(slot) {
            return Err(Decline::SlotKey);
        }
        let i = position.0;
        if 0 < i && !is_before(self.slot(Position(i - 1)), slot) {
            return Err(Decline::SlotOrder);
        }
        let ikey = slot.ikey();
        if ikey < self.ends.lo || self.ends.top < ikey {
            return Err(Decline::SlotOrder);
        }
        check_kind(slot, p)
    }
}
