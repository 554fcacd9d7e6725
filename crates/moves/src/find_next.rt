// FindNext (the Rust's find_next and find_next_with_dup_check): the slot at the walk's position, or the leaf after its last.
ghost use Rattle.std.specs.Prelude.{◌≡◌, ◌+◌, ◌≤◌, Ok, is_some, IfSome};
ghost use Rattle.base.specs.Kit.{true};
ghost use Rattle.search.specs.Traversal.{leaf_there};
ghost use Rattle.moves.specs.CodeFastPath.{outcome_of};
ghost use Rattle.moves.specs.Moves.{advance_leaf, dup_level, dup_of, dup_due, is_storable, take_key, take_layer, take_slot, find_slot, find_next};

use crate::context::{Outcome, Pass, ScanCtx, ScanState};
use crate::fast_path::HandedKey;
use crate::walking::Walking;
use crate::{context, fast_path, stored_key};
use base::Decline;
use cursor::cursor_key::CursorReader;
use cursor::range_bound::End;
use node::leaf::{LeafReader, SlotKind, SlotReader};
use node::permuter;
use search::{helper, traversal};
use std::cmp::Ordering;

// A slot of the leaf that a walk stands in, and the walk, whose numbers are as `find_next` asks for them.
#[derive(Clone, Copy)]
struct AtSlot<'a> {
    slot: SlotReader<'a>,
    ctx: ScanCtx,
    ghost in_leaf: { slot.leaf.at ≡ ctx.leaf },
    ghost position_bound: { ctx.position.0 ≤ 15 },
    ghost offset_bound: { ctx.cursor.offset ≤ 248 },
    ghost len_bound: { ctx.cursor.offset + ctx.cursor.len ≤ 256 },
}

// A live key is handed out, or none is, past the bound: there the walk ends.
#[tactic(auto, unfolding(crate::specs::CodeFastPath::outcome_of))]
fn outcome_of(handed: Option<HandedKey>) -> Outcome
    ensures { result ≡ outcome_of handed }
{
    match handed {
        Some(HandedKey { value, last }) => Outcome::Emit { value, last },
        None => Outcome::Exhausted,
    }
}

impl<'a> AtSlot<'a> {
    // Whether the cursor has come to the slot or passed it, where ikey and length leave the two level.
    #[tactic(auto, unfolding(crate::specs::Moves::dup_by_suffix, base::specs::Decline::and_then, base::specs::Pick::pick))]
    fn duplicate_by_suffix(self, buf: &[u8; 256]) -> Result<bool, Decline>
        ensures { result ≡ dup_level self.entry.slot.leaf.image.now buf.now self.entry.ctx self.entry.slot.slot }
    {
        let place = self.ctx.cursor;
        if !place.has_suffix() {
            return Ok(true);
        }
        let order = helper::compare_stored(self.slot, CursorReader { place, buf })?;
        Ok(!matches!(order, Some(Ordering::Less)))
    }

    // Whether the cursor has come to the slot or passed it.
    #[tactic(auto, unfolding(crate::specs::Moves::dup_of, search::specs::Helper::by_order))]
    fn duplicate_at(self, buf: &[u8; 256]) -> Result<bool, Decline>
        ensures { result ≡ dup_of self.entry.slot.leaf.image.now buf.now self.entry.ctx self.entry.slot.slot }
    {
        let keylenx = usize::from(self.slot.keylenx());
        match self.ctx.cursor.compare(self.slot.ikey(), keylenx) {
            Ordering::Less => Ok(false),
            Ordering::Equal => self.duplicate_by_suffix(buf),
            Ordering::Greater => Ok(true),
        }
    }

    // The same where the check is due; else the slot is new.
    #[tactic(auto, unfolding(base::specs::Pick::pick))]
    fn duplicate_due(self, buf: &[u8; 256]) -> Result<bool, Decline>
        ensures { result ≡ dup_due self.entry.slot.leaf.image.now buf.now self.entry.ctx self.entry.slot.slot }
    {
        if !self.ctx.dup {
            return Ok(false);
        }
        self.duplicate_at(buf)
    }

    // A key that ends in this layer or goes on in its suffix: stored, and then passed over where it is dead, out where it is in bounds, the
    // last where it is the included end, and else the end.
    #[tactic(auto, using(crate::proofs::StoredKey::key_fits, crate::proofs::FastLaws::outcome_is), unfolding(crate::specs::Moves::take_key, crate::specs::Moves::emit_key, crate::specs::Moves::hand_out, base::specs::Pick::pick))]
    fn take_key(self, end: End, buf: &mut [u8; 256]) -> Pass
        requires { is_storable self.slot.leaf.image.now self.slot.leaf.at self.slot.slot self.ctx.cursor.offset ≡ true }
        ensures { (Ok result ≡ (take_key self.entry.slot.leaf.image.now end.entry.kind end.entry.key.now buf.old self.entry.ctx self.entry.slot.slot).pass) × (buf.new ≡ (take_key self.entry.slot.leaf.image.now end.entry.kind end.entry.key.now buf.old self.entry.ctx self.entry.slot.slot).buf) }
    {
        let k = stored_key::store_key(self.slot, buf, self.ctx.cursor);
        if !self.slot.live() {
            return Pass {
                outcome: Outcome::Continue,
                ctx: context::go_on(self.ctx, k, self.ctx.last),
            };
        }
        Pass {
            outcome: outcome_of(fast_path::hand_out(self.slot, end, buf, k)),
            ctx: context::go_on(self.ctx, k, k.ikey),
        }
    }

    // A layer: its ikey in the cursor; the loop stacks root and leaf.
    #[tactic(auto, unfolding(crate::specs::Moves::take_layer))]
    fn take_layer(self, buf: &mut [u8; 256]) -> Pass
        ensures { (Ok result ≡ (take_layer self.entry.slot.leaf.image.now buf.old self.entry.ctx self.entry.slot.slot).pass) × (buf.new ≡ (take_layer self.entry.slot.leaf.image.now buf.old self.entry.ctx self.entry.slot.slot).buf) }
    {
        let cursor = self.ctx.cursor.assign_store_ikey(buf, self.slot.ikey());
        Pass {
            outcome: Outcome::Push(self.slot.value()),
            ctx: ScanCtx {
                cursor,
                state: ScanState::Down,
                dup: false,
                ..self.ctx
            },
        }
    }

    // A slot that is new to the walk.
    #[tactic(auto, using(std::proofs::lemmas::Bool::Decides::nat_tests), unfolding(node::specs::Layout::slot_kind, crate::specs::Moves::take_slot, crate::specs::Moves::kept, base::specs::Pick::pick))]
    fn take_slot(self, end: End, buf: &mut [u8; 256]) -> Result<Pass, Decline>
        ensures { (result ≡ (take_slot self.entry.slot.leaf.image.now end.entry.kind end.entry.key.now buf.old self.entry.ctx self.entry.slot.slot).pass) × (buf.new ≡ (take_slot self.entry.slot.leaf.image.now end.entry.kind end.entry.key.now buf.old self.entry.ctx self.entry.slot.slot).buf) }
    {
        if stored_key::is_storable(self.slot, self.ctx.cursor.offset) {
            return Ok(self.take_key(end, buf));
        }
        if self.slot.kind() != SlotKind::Layer || 31 <= self.ctx.depth {
            return Err(Decline::Unreadable);
        }
        Ok(self.take_layer(buf))
    }

    // The slot at the walk's position. An ikey below the last one handed out makes the walk look for its place anew.
    #[tactic(auto, unfolding(crate::specs::Moves::find_slot, crate::specs::Moves::unless_dup, crate::specs::Moves::back_to_retry, crate::specs::Moves::kept, base::specs::Pick::pick))]
    fn find_slot(self, end: End, buf: &mut [u8; 256]) -> Result<Pass, Decline>
        ensures { (result ≡ (find_slot self.entry.slot.leaf.image.now end.entry.kind end.entry.key.now buf.old self.entry.ctx self.entry.slot.slot).pass) × (buf.new ≡ (find_slot self.entry.slot.leaf.image.now end.entry.kind end.entry.key.now buf.old self.entry.ctx self.entry.slot.slot).buf) }
    {
        let c = self.ctx;
        if self.slot.ikey() < c.last {
            return Ok(Pass {
                outcome: Outcome::Continue,
                ctx: ScanCtx {
                    state: ScanState::Retry,
                    dup: false,
                    ..c
                },
            });
        }
        if self.duplicate_due(buf)? {
            return Ok(Pass {
                outcome: Outcome::Continue,
                ctx: context::go_on(c, c.cursor, c.last),
            });
        }
        self.take_slot(end, buf)
    }
}

impl<'a> Walking<'a> {
    // Past the last slot: the next leaf, or Up where there is none.
    #[tactic(auto, unfolding(crate::specs::Moves::advance_leaf, base::specs::Decline::and_then, base::specs::Pick::pick))]
    fn advance_leaf(self, leaf: LeafReader, buf: &[u8; 256]) -> Result<Pass, Decline>
        requires { leaf.at ≡ self.ctx.leaf }
        ensures { result ≡ advance_leaf leaf.entry.image.now buf.now self.entry.ctx }
    {
        let c = self.ctx;
        let next = leaf.next();
        // 0 is the image's word for no leaf, and is tested here alone.
        if next == 0 {
            return Ok(Pass {
                outcome: Outcome::Continue,
                ctx: ScanCtx {
                    state: ScanState::Up,
                    dup: false,
                    ..c
                },
            });
        }
        let behind = traversal::leaf_at(leaf.image, next).ok_or(Decline::Unreadable)?;
        let position = helper::lower_with_suffix(behind, self.cursor(buf))?;
        Ok(context::stand(c, next, c.cursor, false, c.last, position))
    }

    // The leaf that the walk stands in, where one is there: this move may have tested that. `tested`: see `one_move`.
    #[tactic(auto, using(search::proofs::Laws::leaf_there_lem))]
    fn leaf_here(self, tested: bool) -> Option<LeafReader<'a>>
        requires { tested ≡ true → leaf_there self.image.now self.ctx.leaf ≡ true }
        ensures there { is_some result ≡ leaf_there self.entry.image.now self.entry.ctx.leaf }
        ensures leaf { IfSome result (λ leaf. (leaf.image.now ≡ self.entry.image.now) × (leaf.at ≡ self.entry.ctx.leaf)) }
    {
        if !tested {
            return traversal::leaf_at(self.image, self.ctx.leaf);
        }
        Some(LeafReader {
            image: self.image,
            at: self.ctx.leaf as usize,
        })
    }

    // FindNext, with the duplicate check where it is due.
    #[tactic(auto, unfolding(search::specs::CodeSlots::usable_slot, base::specs::Decline::and_then, crate::specs::Moves::find_next, crate::specs::Moves::kept, base::specs::Pick::pick))]
    pub fn find_next(self, end: End, buf: &mut [u8; 256], tested: bool) -> Result<Pass, Decline>
        requires position_bound { self.ctx.position.0 ≤ 15 }
        requires offset_bound { self.ctx.cursor.offset ≤ 248 }
        requires leaf_value { tested ≡ true → leaf_there self.image.now self.ctx.leaf ≡ true }
        ensures { (result ≡ (find_next self.entry.image.now end.entry.kind end.entry.key.now buf.old self.entry.ctx).pass) × (buf.new ≡ (find_next self.entry.image.now end.entry.kind end.entry.key.now buf.old self.entry.ctx).buf) }
    {
        let c = self.ctx;
        let leaf = self.leaf_here(tested).ok_or(Decline::Unreadable)?;
        let permutation = leaf.permutation();
        if permuter::size(permutation) <= c.position.0 {
            return self.advance_leaf(leaf, buf);
        }
        let slot = helper::slot_at(leaf, permutation, c.position)?;
        AtSlot { slot, ctx: c }.find_slot(end, buf)
    }
}
