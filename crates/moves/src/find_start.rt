// Start and Retry: from a layer's root to the first slot that is not passed over.
ghost use Rattle.std.specs.Prelude.{◌≡◌, ◌<◌, Ok};
ghost use Rattle.moves.specs.Types.{EnterAt};
ghost use Rattle.moves.specs.Moves.{begin, start_in, find_start, find_retry};

use crate::context::{self, Outcome, Pass, ScanCtx, ScanState};
use crate::walking::Walking;
use base::Decline;
use cursor::range_bound::StartMode;
use node::leaf::{LeafReader, SlotReader};
use search::{helper, traversal};
use start::Started;

impl<'a> Walking<'a> {
    // Start enters the layer of a slot that the cursor's own bytes lead into: its ikey in the cursor; the loop stacks root and leaf.
    #[tactic(auto, unfolding(crate::specs::Moves::begin))]
    fn lead_in(self, s: SlotReader, buf: &mut [u8; 256], mode: StartMode) -> Pass
        requires { 8 < self.ctx.cursor.len }
        ensures { (Ok result ≡ (begin mode s.entry.leaf.image.now buf.old self.entry.ctx s.entry.leaf.at (EnterAt s.entry.slot)).pass) × (buf.new ≡ (begin mode s.entry.leaf.image.now buf.old self.entry.ctx s.entry.leaf.at (EnterAt s.entry.slot)).buf) }
    {
        let k = self.ctx.cursor;
        let rest = self.cursor(buf).shift();
        let _stored = k.assign_store_ikey(buf, k.ikey); // the cursor with the ikey that it has: only the buffer changes
        Pass {
            outcome: Outcome::Push(s.value()),
            ctx: ScanCtx {
                leaf: s.leaf.at as u64,
                cursor: rest,
                state: ScanState::Start(mode),
                ..self.ctx
            },
        }
    }

    // Start in the leaf that the descent came to. No duplicate check.
    #[tactic(auto, using(crate::proofs::Answers::enters), unfolding(crate::specs::Moves::start_in, crate::specs::Moves::begin, crate::specs::Moves::kept, crate::specs::Moves::taken_on))]
    fn start_in(
        self,
        leaf: LeafReader,
        buf: &mut [u8; 256],
        mode: StartMode,
    ) -> Result<Pass, Decline>
        ensures { (result ≡ (start_in mode leaf.entry.image.now buf.old self.entry.ctx leaf.entry.at).pass) × (buf.new ≡ (start_in mode leaf.entry.image.now buf.old self.entry.ctx leaf.entry.at).buf) }
    {
        let c = self.ctx;
        match start::start_position(mode, leaf, self.cursor(buf))? {
            Started::At(p) => Ok(context::stand(c, leaf.at as u64, c.cursor, c.dup, c.last, p)),
            Started::Enter(slot) => Ok(self.lead_in(SlotReader { leaf, slot }, buf, mode)),
        }
    }

    // Start: the first slot that is not passed over, or the layer that the cursor's bytes lead into.
    #[tactic(auto, unfolding(crate::specs::Moves::find_start, base::specs::Decline::and_then, crate::specs::Moves::kept, crate::specs::Moves::taken_on))]
    pub fn find_start(self, buf: &mut [u8; 256], mode: StartMode) -> Result<Pass, Decline>
        ensures { (result ≡ (find_start mode self.entry.image.now buf.old self.entry.ctx).pass) × (buf.new ≡ (find_start mode self.entry.image.now buf.old self.entry.ctx).buf) }
    {
        let c = self.ctx;
        let leaf = traversal::reach_leaf_for_scan(self.image, c.root, c.cursor.ikey)?;
        self.start_in(leaf, buf, mode)
    }

    // Retry: the first slot past the cursor, with a duplicate check to follow. (Start and Retry begin by one descent, and go on differently.)
    #[tactic(auto, unfolding(crate::specs::Moves::find_retry, crate::specs::Moves::retry_in, base::specs::Decline::and_then))]
    pub fn find_retry(self, buf: &[u8; 256]) -> Result<Pass, Decline>
        ensures { result ≡ find_retry self.entry.image.now buf.now self.entry.ctx }
    {
        let c = self.ctx;
        let leaf = traversal::reach_leaf_for_scan(self.image, c.root, c.cursor.ikey)?;
        let position = helper::lower_with_suffix(leaf, self.cursor(buf))?;
        Ok(context::stand(c, leaf.at as u64, c.cursor, true, c.last, position))
    }
}
