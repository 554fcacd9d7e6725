// The fast path, which the Rust has not: after a key most moves hand out the next slot's key, and no test but the bound's turns it away.
// The loop, the step and the step of a C record all make such a move by these two functions, with `store_key` between them, each on the
// walk as it has it (the record's builds no walk, docs/DECISIONS.md S19); `one_move` makes every other.
ghost use Rattle.std.specs.Prelude.{◌≡◌, ◌+◌, ◌≤◌, IfSome};
ghost use Rattle.moves.specs.CodeFastPath.{slot_of, fast_slot, next_of};

use crate::stored_key;
use cursor::cursor_key::CursorPlace;
use cursor::range_bound::{self, End, Side};
use node::leaf::{LeafReader, SlotReader};
use node::permuter::{self, Position};
use search::helper;

// A key that the bound lets out: its value, and whether it is the included end, and so the last.
#[derive(Clone, Copy, Debug, PartialEq, Eq)]
pub struct HandedKey {
    pub value: u64,
    pub last: bool,
}

// The slot at a walk's position, where its leaf stands: in use, not before the cursor's ikey, storable and live. For any other it takes more
// than this to tell.
#[tactic(auto, using(std::proofs::lemmas::Bool::Decides::nat_tests), unfolding(crate::specs::CodeFastPath::fast_slot, base::specs::Decline::and_then, search::specs::CodeSlots::usable_slot, base::specs::Pick::pick))]
pub fn fast_slot<'a>(
    leaf: LeafReader<'a>,
    position: Position,
    k: CursorPlace,
) -> Option<SlotReader<'a>>
    requires { k.offset ≤ 248 }
    ensures slot { slot_of result ≡ fast_slot leaf.entry.image.now leaf.entry.at position k }
    ensures leaf { IfSome result (λ s. s.leaf ≡ leaf.entry) }
{
    let permutation = leaf.permutation();
    if permuter::size(permutation) <= position.0 {
        return None;
    }
    let s = helper::slot_at(leaf, permutation, position).ok()?;
    let is_fast = k.ikey <= s.ikey() && stored_key::is_storable(s, k.offset) && s.live();
    is_fast.then_some(s)
}

// A live slot's key by the bound: it is out, or past it, and then none is. Cursor and buffer hold the key; `store_key` has put it there.
#[tactic(auto, unfolding(crate::specs::CodeFastPath::next_of, crate::specs::CodeFastPath::next_on, key::specs::Part::part))]
pub fn hand_out(s: SlotReader, end: End, buf: &[u8; 256], stored: CursorPlace) -> Option<HandedKey>
    requires { stored.offset + stored.len ≤ 256 }
    ensures { result ≡ next_of s.entry.leaf.image.now end.entry.kind end.entry.key.now buf.now s.entry.leaf.at s.entry.slot stored }
{
    let key = key::part_of(buf, 0, stored.offset + stored.len);
    let value = s.value();
    match range_bound::test(end.kind, end.key, key).side {
        Side::Inside => Some(HandedKey { value, last: false }),
        Side::AtEnd => Some(HandedKey { value, last: true }),
        Side::Past => None,
    }
}
