// The check of an image (01, "Check an image"): one pass over the tree in post-order, the first fault deciding.
//
// Interface: `check_image`, which takes any byte slice and has no `requires`, and its answer: `Counts`, which Display shows, or a decline.
// The other functions serve it. Two of them are in a cycle, as 01 names them: checking a subtree calls for checking its layers, and a
// layer its subtree. All that only reads and tests stands outside the cycle.
#![tactic(auto)]

mod pass;
mod record;
mod slot;

ghost use Rattle.std.specs.Prelude.{◌≡◌, ◌+◌, ◌*◌, ◌-◌, ◌≤◌, Some};
ghost use Rattle.verify.specs.Check.{node_c, check};
ghost use Rattle.verify.specs.CodeCases.{sub_c, leaf_parts, LeafTold, Bounded, Sized};
ghost use Rattle.verify.specs.Shown.{counts_text};

use base::Decline;
use node::internode::{INTERNODE_SIZE, InternodeReader};
use node::leaf::LeafReader;
use node::nodeversion::RecordKind;
use node::permuter::{self, Position};
use node::trailer::{self, Trailer};
use pass::BoundedProgress;
use record::Children;
use slot::Slots;
use std::fmt;

// The three numbers of an accepted image.
#[derive(Clone, Copy, Debug, PartialEq, Eq)]
pub struct Counts {
    pub leaves: usize,
    pub value_slots: usize,
    pub sub_layers: usize,
}

// Counts are shown as the programs print them: the three numbers in this order, with a space between.
impl fmt::Display for Counts {
    ghost output = { λ c. Some (counts_text c) };

    fn fmt<W: fmt::Write>(&self, f: &mut fmt::Formatter<W>) -> fmt::Result {
        let Counts {
            leaves,
            value_slots,
            sub_layers,
        } = *self;
        write!(f, "{leaves} {value_slots} {sub_layers}")
    }
}

// An image whose length the check takes.
#[derive(Clone, Copy)]
pub struct SizedImage<'a> {
    pub bytes: &'a [u8],
    ghost sized: { Sized bytes.now },
}

// How far the check has come: the place reached; what was counted, and how many of the value slots are live; and what this
// layer's last leaf, if it has had one, names as its next. The option stands last: between wide fields the gap in it would be
// copied, which took two thirds of the check's time.
#[derive(Clone, Copy, Debug, PartialEq, Eq)]
pub struct Progress {
    pub place: usize,
    pub counts: Counts,
    pub live_slots: usize,
    pub next: Option<u64>,
}

// The ikeys of a subtree lie from lo to `top`.
#[derive(Clone, Copy, Debug, PartialEq, Eq)]
pub struct Ends {
    pub lo: u64,
    pub top: u64,
}

// What a used slot comes to: a layer to be checked, whose root is given; or the progress past a value slot.
#[derive(Clone, Copy, Debug, PartialEq, Eq)]
pub enum SlotCheck {
    Layer(u64),
    Passed(Progress),
}

// The check of any bytes: their number of leaves, value slots and sub-layers, or the first fault.
#[tactic(auto, using(crate::proofs::Cycle::whole), unfolding(crate::specs::Check::check, base::specs::Decline::and_then))]
pub fn check_image(image: &[u8]) -> Result<Counts, Decline>
    ensures { result ≡ check image.now }
{
    trailer::check_heading(image)?;
    let sized = SizedImage { bytes: image };
    let trailer = Trailer { image };
    let q = check_subtree(sized, 31, 12, trailer.root(), LAYER_ENDS, Progress::begin())?;
    let progress = q.end_layer()?;
    BoundedProgress { progress }.finish(trailer)
}

// A layer's ends.
const LAYER_ENDS: Ends = Ends {
    lo: 0,
    top: u64::MAX,
};

// The subtree at an offset, in a layer that `below` more may lie below, with `path` internodes left on a path.
#[cycle(check_layers_check_subtree)]
#[tactic(auto, using(crate::proofs::Cycle::parts), unfolding(base::specs::Decline::and_then, crate::specs::CodeCases::after_record, crate::specs::CodeCases::after_slot))]
fn check_subtree(
    image: SizedImage,
    below: usize,
    path: usize,
    at: u64,
    ends: Ends,
    mut p: Progress,
) -> Result<Progress, Decline>
    requires below_bound { below ≤ 31 }
    requires bounded { Bounded (15 * (31 - below)) p }
    ensures { result ≡ node_c (sub_c image.entry.bytes.now below) image.entry.bytes.now (31 - below) path at ends.lo (ends.top + 1) p }
{
    let kind = record::record_check(image, path, at, ends, p)?;
    let place = at as usize;
    match kind {
        RecordKind::Leaf => check_layers(image, below, place, ends, p),
        RecordKind::Internode => {
            let node = InternodeReader {
                image: image.bytes,
                at: place,
            };
            let children = Children { node, ends };
            // Children are counted: they are words of the image behind a reader, and no slice.
            for i in 0..children.count() {
                let child = node.child(i);
                p = match check_subtree(image, below, path - 1, child, children.ends(i), p) {
                    Ok(q) => q,
                    Err(decline) => return Err(decline),
                };
            }
            p.end_record(place, INTERNODE_SIZE)
        }
    }
}

// The leaf at an offset: its used slots, each layer among them with its subtree, and then its end.
#[cycle(check_layers_check_subtree)]
#[tactic(auto, using(crate::proofs::Cycle::parts), unfolding(base::specs::Decline::and_then, crate::specs::CodeCases::after_record, crate::specs::CodeCases::after_slot))]
fn check_layers(
    image: SizedImage,
    below: usize,
    at: usize,
    ends: Ends,
    mut p: Progress,
) -> Result<Progress, Decline>
    requires below_bound { below ≤ 31 }
    requires leaf_told { LeafTold image.bytes.now at }
    requires bounded { Bounded (15 * (31 - below)) p }
    ensures { result ≡ leaf_parts (sub_c image.entry.bytes.now below) image.entry.bytes.now (31 - below) at ends.lo (ends.top + 1) p }
{
    let leaf = LeafReader {
        image: image.bytes,
        at,
    };
    let slots = Slots {
        leaf,
        permutation: leaf.permutation(),
        depth: 31 - below,
        ends,
    };
    // Positions are counted: the order is one number.
    for i in 0..permuter::size(slots.permutation) {
        let so_far = BoundedProgress { progress: p };
        let found = slots.check(Position(i), so_far)?;
        p = match found {
            SlotCheck::Passed(q) => q,
            SlotCheck::Layer(root) => {
                let inside = so_far.enter_layer();
                let q = check_subtree(image, below - 1, 12, root, LAYER_ENDS, inside)?;
                q.end_layer()?.leave_layer(p)
            }
        };
    }
    BoundedProgress { progress: p }.end_leaf(leaf)
}
