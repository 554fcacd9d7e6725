// A slot's key in cursor and buffer: FindNext and the fast path both store it so.
// (An offset at most 248 is asked here, in `fast_slot` and where an ikey is stored; AtSlot has it. It is no fact of CursorPlace's own, since a
// record may hold any numbers, and the fast path makes no struct of a walk.)
ghost use Rattle.std.specs.Prelude.{◌≡◌, ◌≤◌};
ghost use Rattle.base.specs.Kit.{true};
ghost use Rattle.moves.specs.Moves.{is_storable, key_place, key_buf};

use cursor::cursor_key::CursorPlace;
use node::leaf::{SlotKind, SlotReader};
use search::helper;

// Whether a slot's key can be stored: it ends in this layer, or its suffix can be read and fits.
#[tactic(auto, using(std::proofs::lemmas::Bool::Decides::nat_tests, crate::proofs::Answers::suffix_within), unfolding(crate::specs::Moves::is_storable, node::specs::Layout::slot_kind, base::specs::Pick::pick))]
pub fn is_storable(s: SlotReader, offset: usize) -> bool
    requires { offset ≤ 248 }
    ensures { result ≡ is_storable s.entry.leaf.image.now s.entry.leaf.at s.entry.slot offset }
{
    match s.kind() {
        SlotKind::Inline => true,
        SlotKind::Suffix => helper::is_suffix_readable(s) && offset + 8 + s.ksuf().len <= 256,
        SlotKind::Layer | SlotKind::Unlisted => false,
    }
}

// A slot's key into cursor and buffer.
#[tactic(auto, using(std::proofs::lemmas::Bool::Decides::nat_tests, crate::proofs::StoredKey::suffix_length), unfolding(crate::specs::Moves::is_storable, crate::specs::Moves::key_place, crate::specs::Moves::key_buf, cursor::specs::CursorKey::with_ikey, node::specs::Layout::slot_kind, base::specs::Pick::pick))]
pub fn store_key(s: SlotReader, buf: &mut [u8; 256], k: CursorPlace) -> CursorPlace
    requires offset_bound { k.offset ≤ 248 }
    requires offset_value { is_storable s.leaf.image.now s.leaf.at s.slot k.offset ≡ true }
    ensures { (result ≡ key_place s.entry.leaf.image.now s.entry.leaf.at s.entry.slot k) × (buf.new ≡ key_buf s.entry.leaf.image.now s.entry.leaf.at s.entry.slot k.offset buf.old) }
{
    let stored = k.assign_store_ikey(buf, s.ikey());
    if s.kind() == SlotKind::Inline {
        return stored.assign_store_length(usize::from(s.keylenx()));
    }
    let len = stored.assign_store_suffix(buf, helper::stored_suffix(s));
    stored.assign_store_length(len)
}
