// How far the check has come: from one part of the tree to the next.
ghost use Rattle.std.specs.Prelude.{◌≡◌, ◌+◌, ◌≤◌};
ghost use Rattle.verify.specs.Check.{is_next, pass_value, enter_layer, leave_layer, finish, begin};
ghost use Rattle.verify.specs.CodeCases.{record_end, leaf_end, layer_end, Bounded};

use crate::{Counts, Progress};
use base::Decline;
use node::leaf::{LEAF_SIZE, LeafReader};
use node::trailer::Trailer;

// A progress whose numbers are small, so that a step adds to them without a test: at most 15 slots are ahead in each of 32 layers.
#[derive(Clone, Copy)]
pub struct BoundedProgress {
    pub progress: Progress,
    ghost bounded: { Bounded 480 progress },
}

impl Progress {
    // Before the first record: nothing is counted, and records begin at byte 8.
    pub(crate) fn begin() -> Progress
        ensures { result ≡ begin }
    {
        Progress {
            place: 8,
            counts: Counts {
                leaves: 0,
                value_slots: 0,
                sub_layers: 0,
            },
            live_slots: 0,
            next: None,
        }
    }

    // Number 9: where this layer has had a leaf, the last one's next is `at`; 0 is no leaf.
    #[tactic(auto, using(std::proofs::lemmas::Bool::Decides::nat_tests), unfolding(crate::specs::Check::is_next))]
    pub(crate) fn is_next(self, at: u64) -> bool
        ensures { result ≡ is_next at self.next }
    {
        self.next.is_none_or(|next| next == at)
    }

    // Past a record of `size` bytes, behind its parts: it must start at the place reached.
    #[tactic(auto, using(std::proofs::lemmas::Bool::Decides::nat_tests), unfolding(crate::specs::CodeCases::record_end, crate::specs::Check::demand, base::specs::Pick::pick))]
    pub(crate) fn end_record(self, at: usize, size: usize) -> Result<Progress, Decline>
        requires size_bound { size ≤ 400 }
        requires place_bound { self.place ≤ 16777216 }
        ensures { result ≡ record_end at size self }
    {
        if at != self.place {
            return Err(Decline::RecordPlace);
        }
        Ok(Progress {
            place: self.place + size,
            ..self
        })
    }

    // Behind a layer's subtree: its last leaf must name no next one.
    #[tactic(auto, unfolding(crate::specs::CodeCases::layer_end, crate::specs::Check::demand, base::specs::Pick::pick))]
    pub(crate) fn end_layer(self) -> Result<Progress, Decline>
        ensures { result ≡ layer_end self }
    {
        if self.is_next(0) {
            Ok(self)
        } else {
            Err(Decline::LeafChain)
        }
    }

    // Behind a sub-layer the chain of the layer above goes on.
    #[tactic(auto, unfolding(crate::specs::Check::leave_layer))]
    pub(crate) fn leave_layer(self, above: Progress) -> Progress
        ensures { result ≡ leave_layer above self }
    {
        Progress {
            next: above.next,
            ..self
        }
    }
}

impl BoundedProgress {
    // Past a value slot, whose suffix takes `bytes`.
    #[tactic(auto, using(base::proofs::Choice::one_by_test))]
    pub fn pass_value(self, bytes: usize, live: bool) -> Progress
        requires { bytes ≤ 4294967304 }
        ensures { result ≡ pass_value bytes live self.progress }
    {
        let mut q = self.progress;
        q.place += bytes;
        q.counts.value_slots += 1;
        q.live_slots += usize::from(live);
        q
    }

    // Past a leaf, behind its slots: it is counted, and names the next one.
    #[tactic(auto, unfolding(crate::specs::CodeCases::leaf_end, crate::specs::CodeCases::record_end, crate::specs::Check::pass_leaf))]
    pub fn end_leaf(self, leaf: LeafReader) -> Result<Progress, Decline>
        ensures { result ≡ leaf_end leaf.entry.image.now leaf.entry.at self.progress }
    {
        let mut q = self.progress;
        q.next = Some(leaf.next());
        q.counts.leaves += 1;
        q.end_record(leaf.at, LEAF_SIZE)
    }

    // Into a sub-layer, which has a chain of leaves of its own.
    pub fn enter_layer(self) -> Progress
        ensures { result ≡ enter_layer self.progress }
    {
        let mut q = self.progress;
        q.next = None;
        q.counts.sub_layers += 1;
        q
    }

    // The answer behind the root layer.
    #[tactic(auto, using(std::proofs::lemmas::Bool::Decides::nat_tests), unfolding(crate::specs::Check::finish, base::specs::Pick::pick))]
    pub fn finish(self, trailer: Trailer) -> Result<Counts, Decline>
        ensures { result ≡ finish trailer.entry.image.now self.progress }
    {
        let p = self.progress;
        if p.place + 32 != trailer.image.len() {
            return Err(Decline::RecordPlace);
        }
        if trailer.key_count() != (p.live_slots as u64) {
            return Err(Decline::KeyCount);
        }
        Ok(p.counts)
    }
}
