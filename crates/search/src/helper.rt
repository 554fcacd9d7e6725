// Searches in a leaf (the Rust's helper.rs). Positions are counted: a leaf's order is one number, and no slice for an iterator.
ghost use Rattle.std.specs.Prelude.{◌≡◌, ◌+◌, ◌<◌, Ok, IfOk};
ghost use Rattle.base.specs.Kit.{true};
ghost use Rattle.base.specs.Decline.{and_then};
ghost use Rattle.key.specs.Order.{order};
ghost use Rattle.node.specs.Layout.{permutation_at, keylenx_at};
ghost use Rattle.node.specs.Permuter.{size_of};
ghost use Rattle.search.specs.CodeSlots.{usable_slot};
ghost use Rattle.search.specs.Helper.{lower_with_position, suffix_readable, suffix_bytes, stored_order, not_shorter, after_inline, after_suffix, behind, past_inline, past_suffix, at_match, lower_with_suffix};

use crate::traversal;
use base::Decline;
use cursor::cursor_key::{CursorPlace, CursorReader};
use node::leaf::{LeafReader, SlotKind, SlotReader};
use node::permuter::{Position, Slot};
use node::{leaf, permuter};
use std::cmp::Ordering;

// Where a search by ikey comes to (the Rust's KeyIndexedPosition): a position, with the slot there where its ikey is the
// one searched for. (A slot, and no reader of it: the definition has the same values.)
#[derive(Clone, Copy, Debug, PartialEq, Eq)]
pub enum KeyIndexedPosition {
    NotFound(Position),
    Found(Position, Slot),
}

// The slot at a position, where it is one of the leaf's 15 places.
#[tactic(auto, unfolding(crate::specs::CodeSlots::usable_slot, base::specs::Decline::and_then, base::specs::Pick::pick), using(std::proofs::lemmas::Bool::Decides::nat_tests))]
pub fn slot_at<'a>(
    leaf: LeafReader<'a>,
    permutation: u64,
    p: Position,
) -> Result<SlotReader<'a>, Decline>
    requires { p.0 < 15 }
    ensures slot { and_then result (λ s. Ok s.slot) ≡ usable_slot permutation p }
    ensures leaf { IfOk result (λ s. s.leaf ≡ leaf.entry) }
{
    let slot = permuter::get(permutation, p);
    if 15 <= slot.0 {
        return Err(Decline::Unreadable);
    }
    Ok(SlotReader { leaf, slot })
}

// The first position whose ikey is not below `ikey`.
#[tactic(auto, unfolding(crate::specs::Helper::lower_with_position, base::specs::Decline::and_then, crate::specs::Helper::by_order, key::specs::Order::order, crate::specs::CodeSlots::usable_slot, base::specs::Pick::pick), using(crate::proofs::HelperLaws::lower_more, crate::proofs::HelperLaws::lower_end, std::proofs::lemmas::Bool::Decides::nat_tests))]
fn lower_with_position(leaf: LeafReader, ikey: u64) -> Result<KeyIndexedPosition, Decline>
    ensures { result ≡ lower_with_position leaf.entry.image.now leaf.entry.at ikey }
{
    let permutation = leaf.permutation();
    let size = permuter::size(permutation);
    for i in 0..size {
        let s = slot_at(leaf, permutation, Position(i))?;
        let slot_ikey = s.ikey();
        if ikey < slot_ikey {
            return Ok(KeyIndexedPosition::NotFound(Position(i)));
        }
        if ikey == slot_ikey {
            return Ok(KeyIndexedPosition::Found(Position(i), s.slot));
        }
    }
    Ok(KeyIndexedPosition::NotFound(Position(size)))
}

// Whether a slot's suffix lies where it may be read.
#[tactic(auto, unfolding(crate::specs::Helper::suffix_readable))]
pub fn is_suffix_readable(s: SlotReader) -> bool
    ensures { result ≡ suffix_readable s.entry.leaf.image.now s.entry.leaf.at s.entry.slot }
{
    let suffix = s.ksuf();
    traversal::is_readable(s.leaf.image, suffix.start as u64, suffix.len as u64)
}

// A slot's suffix.
#[tactic(auto, unfolding(crate::specs::Helper::suffix_readable, crate::specs::Helper::suffix_bytes), using(crate::proofs::TraversalLaws::in_image))]
pub fn stored_suffix<'a>(s: SlotReader<'a>) -> &'a [u8]
    requires { suffix_readable s.leaf.image.now s.leaf.at s.slot ≡ true }
    ensures { result.now ≡ suffix_bytes s.entry.leaf.image.now s.entry.leaf.at s.entry.slot }
{
    let suffix = s.ksuf();
    key::part_of(s.leaf.image, suffix.start, suffix.len)
}

// The cursor's suffix against the slot's, where the slot has one, in plain byte order.
#[tactic(auto, unfolding(crate::specs::Helper::stored_order, node::specs::Layout::slot_kind, base::specs::Pick::pick), using(std::proofs::lemmas::Bool::Decides::nat_tests))]
pub fn compare_stored(s: SlotReader, c: CursorReader) -> Result<Option<Ordering>, Decline>
    ensures { result ≡ stored_order s.entry.leaf.image.now s.entry.leaf.at c.entry.place c.entry.buf.now s.entry.slot }
{
    if s.kind() != SlotKind::Suffix {
        return Ok(None);
    }
    if !is_suffix_readable(s) {
        return Err(Decline::Unreadable);
    }
    Ok(Some(c.compare_suffix(stored_suffix(s))))
}

// Whether a slot of the cursor's ikey has a suffix or a layer, or is no shorter inline key than the cursor. By the number: it is ordered
// against the cursor's length too, of whatever kind the slot is.
#[tactic(auto, unfolding(crate::specs::Helper::not_shorter, base::specs::Pick::pick), using(std::proofs::lemmas::Bool::Decides::nat_tests))]
fn is_not_shorter(keylenx: u8, len: usize) -> bool
    ensures { result ≡ not_shorter keylenx len }
{
    keylenx == leaf::KSUF_KEYLENX || leaf::LAYER_KEYLENX <= keylenx || len <= usize::from(keylenx)
}

// A slot, and its position: one of its leaf's.
#[derive(Clone, Copy)]
struct FoundSlot<'a> {
    s: SlotReader<'a>,
    position: Position,
    ghost in_size: { position.0 < size_of (permutation_at s.leaf.image.now s.leaf.at) },
}

// The first position behind a slot's whose slot has another ikey than the cursor, or a suffix, or a layer, or is not shorter.
#[tactic(auto, unfolding(crate::specs::Helper::behind, base::specs::Decline::and_then, crate::specs::CodeSlots::usable_slot, base::specs::Pick::pick), using(crate::proofs::HelperLaws::inline_more, crate::proofs::HelperLaws::inline_end, std::proofs::lemmas::Bool::Decides::nat_tests))]
fn find_position_after_inline(start: FoundSlot, k: CursorPlace) -> Result<Position, Decline>
    ensures { result ≡ after_inline start.entry.s.leaf.image.now start.entry.s.leaf.at k (start.entry.position.0 + 1) (behind start.entry.s.leaf.image.now start.entry.s.leaf.at start.entry.position.0) }
{
    let leaf = start.s.leaf;
    let permutation = leaf.permutation();
    let size = permuter::size(permutation);
    for i in start.position.0 + 1..size { // the match itself is shorter
        let s = slot_at(leaf, permutation, Position(i))?;
        if s.ikey() != k.ikey || is_not_shorter(s.keylenx(), k.len) {
            return Ok(Position(i));
        }
    }
    Ok(Position(size))
}

// The first position behind a slot's whose slot has another ikey than the cursor, or a suffix not below the cursor's.
// (Tried: one loop over a closure for this and the one above. The loop proves, by a clause over all that the closure may say; but each
// closure then wants a clause and a definition of its own, and a law that joins the loop's definition to these two. That is sixty lines more.)
#[tactic(auto, unfolding(crate::specs::Helper::behind, crate::specs::Helper::not_below, base::specs::Decline::and_then, crate::specs::CodeSlots::usable_slot, base::specs::Pick::pick), using(crate::proofs::HelperLaws::suffix_more, crate::proofs::HelperLaws::suffix_end, std::proofs::lemmas::Bool::Decides::nat_tests))]
fn find_position_after_suffix(start: FoundSlot, c: CursorReader) -> Result<Position, Decline>
    ensures { result ≡ after_suffix start.entry.s.leaf.image.now start.entry.s.leaf.at c.entry.place c.entry.buf.now (start.entry.position.0 + 1) (behind start.entry.s.leaf.image.now start.entry.s.leaf.at start.entry.position.0) }
{
    let leaf = start.s.leaf;
    let permutation = leaf.permutation();
    let size = permuter::size(permutation);
    for i in start.position.0 + 1..size {
        let s = slot_at(leaf, permutation, Position(i))?;
        if s.ikey() != c.place.ikey || compare_stored(s, c)?.is_some_and(Ordering::is_le) {
            return Ok(Position(i));
        }
    }
    Ok(Position(size))
}

// Where a cursor that ends within its ikey goes on, at the first slot of that ikey. By the number: it is ordered against the cursor's length.
#[tactic(auto, unfolding(crate::specs::Helper::past_inline, key::specs::Order::order, base::specs::Pick::pick), using(std::proofs::lemmas::Bool::Decides::nat_tests))]
fn past_inline(found: FoundSlot, k: CursorPlace) -> Result<Position, Decline>
    ensures { result ≡ past_inline found.entry.s.leaf.image.now found.entry.s.leaf.at k found.entry.position.0 (order k.len (keylenx_at found.entry.s.leaf.image.now found.entry.s.leaf.at found.entry.s.slot)) }
{
    match k.len.cmp(&usize::from(found.s.keylenx())) {
        Ordering::Less => Ok(found.position),
        Ordering::Equal => Ok(Position(found.position.0 + 1)),
        Ordering::Greater => find_position_after_inline(found, k),
    }
}

// Where a cursor that goes on past its ikey goes on, at the first slot of that ikey.
#[tactic(auto, unfolding(crate::specs::Helper::past_suffix, base::specs::Decline::and_then))]
fn past_suffix(found: FoundSlot, c: CursorReader) -> Result<Position, Decline>
    ensures { result ≡ and_then (stored_order found.entry.s.leaf.image.now found.entry.s.leaf.at c.entry.place c.entry.buf.now found.entry.s.slot) (past_suffix found.entry.s.leaf.image.now found.entry.s.leaf.at c.entry.place c.entry.buf.now found.entry.position.0) }
{
    match compare_stored(found.s, c)? {
        Some(Ordering::Less) => Ok(found.position),
        Some(Ordering::Equal) => Ok(Position(found.position.0 + 1)),
        Some(Ordering::Greater) | None => find_position_after_suffix(found, c),
    }
}

// Where the walk goes on at the first slot of the cursor's ikey.
#[tactic(auto, unfolding(crate::specs::Helper::at_match, crate::specs::Helper::past_layer, node::specs::Layout::slot_kind, base::specs::Pick::pick), using(std::proofs::lemmas::Bool::Decides::nat_tests))]
fn at_match(found: FoundSlot, c: CursorReader) -> Result<Position, Decline>
    ensures { result ≡ at_match found.entry.s.leaf.image.now found.entry.s.leaf.at c.entry.place c.entry.buf.now found.entry.position.0 found.entry.s.slot }
{
    if found.s.kind() == SlotKind::Layer {
        if c.place.has_suffix() {
            return Ok(Position(found.position.0 + 1));
        }
        return Ok(found.position);
    }
    if !c.place.has_suffix() {
        return past_inline(found, c.place);
    }
    past_suffix(found, c)
}

// Where a walk that has come to the cursor goes on in a leaf.
#[tactic(auto, unfolding(crate::specs::Helper::lower_with_suffix, crate::specs::Helper::at_found, base::specs::Decline::and_then), using(crate::proofs::Laws::lower_finds))]
pub fn lower_with_suffix(leaf: LeafReader, c: CursorReader) -> Result<Position, Decline>
    ensures { result ≡ lower_with_suffix leaf.entry.image.now leaf.entry.at c.entry.place c.entry.buf.now }
{
    match lower_with_position(leaf, c.place.ikey)? {
        KeyIndexedPosition::NotFound(p) => Ok(p),
        KeyIndexedPosition::Found(position, slot) => {
            let s = SlotReader { leaf, slot };
            at_match(FoundSlot { s, position }, c)
        }
    }
}
