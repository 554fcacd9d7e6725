// The layers of an image, written from station lines of a sheet into lent output: each record once, in post-order.
//
// Interface: `write_layer`. Six functions in a cycle: a layer is a first leaf, and internodes over what is written while lines are left; an
// internode's siblings are subtrees; a subtree is a leaf, or an internode over one that is less high; a leaf is groups of one ikey; a group
// may have a layer. All that writes one record, or reads one line, stands outside the cycle.
#![tactic(auto)]

ghost use Rattle.std.specs.Prelude.{◌≡◌, ◌+◌, ◌-◌, ◌^◌, ◌≤◌, ◌<◌};
ghost use Rattle.base.specs.Kit.{List, []};
ghost use Rattle.layering.specs.Tree.{Fields};
ghost use Rattle.layering.specs.Accepted.{end_n, end_s};
ghost use Rattle.building.specs.Shape.{size_s};
ghost use Rattle.building.specs.CodeOrder.{filled, tower};
ghost use Rattle.building.specs.CodeSiblings.{end_l};
ghost use Rattle.building.specs.CodeLaid.{laid};
ghost use Rattle.groups.specs.CodeLines.{slots_in, first_slots};
ghost use Rattle.image_out.specs.CodeRows.{slots_of, HoldsSlots};
ghost use Rattle.slots_out.specs.CodeSlots.{GroupLaid};
ghost use Rattle.layers_out.specs.CodeCycle.{Room, leaf_at, leaves_at, siblings_at, layer_at, Wrote, Closed, LayerRoom, LayerWrote, GroupsLaid};

mod run;

use groups::{FirstGroup, LayerLines};
use image_out::SlotFields;
use node::internode::INTERNODE_SIZE;
use node::leaf::{LAYER_KEYLENX, LEAF_SIZE};
pub use run::{Parts, Run};
use slots_out::Slotted;

// A layer of some station lines: levels until no line is left.
#[cycle(layers)]
#[tactic(auto, using(crate::proofs::Growth::layer_rules))]
pub fn write_layer<'a>(out: &mut [u8], at: usize, lines: LayerLines<'a>) -> Run<'a>
    requires { LayerRoom out.old at lines }
    ensures { LayerWrote out.old out.new at result (layer_at lines.entry) }
{
    let begin = Run {
        at,
        lines,
        prev: 0,
        node: 0,
        first: 0,
    };
    let mut r = write_leaf(out, begin);
    // No range for h: how high the layer is shows only where no line is left.
    let mut h = 0;
    while 0 < r.lines.left {
        r = write_internode(out, h, r);
        h += 1;
    }
    r
}

// An internode has a first child, and at most so many beside it.
const SIBLINGS: usize = 15;

// An internode over the subtree of height h that was written last, and up to fifteen more beside it.
#[cycle(layers)]
#[tactic(auto, using(crate::proofs::Beside::internode_rules))]
fn write_internode<'a>(out: &mut [u8], h: usize, r: Run<'a>) -> Run<'a>
    requires h_bound { h ≤ 11 }
    requires room { Room out.old r.at r.prev (end_l r.at (siblings_at r.lines h 15) + 256) }
    ensures { Closed h out.old out.new r.entry result (siblings_at r.entry.lines h 15) }
{
    let mut c = image_out::first_child(r.node as u64);
    let mut q = r;
    for _ in 0..SIBLINGS {
        if q.lines.left == 0 {
            break;
        }
        q = write_subtree(out, h, q);
        c = image_out::add_child(c, q.first, q.node as u64);
    }
    image_out::put_internode(out, q.at, c);
    Run {
        at: q.at + INTERNODE_SIZE,
        lines: q.lines,
        prev: q.prev,
        node: q.at,
        first: r.first,
    }
}

// A subtree of height h.
#[cycle(layers)]
#[tactic(auto, using(crate::proofs::Growth::subtree_rules))]
fn write_subtree<'a>(out: &mut [u8], h: usize, r: Run<'a>) -> Run<'a>
    requires h_bound { h ≤ 11 }
    requires left_nonzero { 0 < r.lines.left }
    requires room { Room out.old r.at r.prev (end_n r.at (tower h (leaves_at r.lines))) }
    ensures { Wrote (16 ^ h) out.old out.new r.entry result (tower h (leaves_at r.entry.lines)) }
{
    if h == 0 {
        return write_leaf(out, r);
    }
    let q = write_subtree(out, h - 1, r);
    write_internode(out, h - 1, q)
}

// One leaf: its parts, its record, and the previous leaf's `next`.
#[cycle(layers)]
#[tactic(auto, using(crate::proofs::Leaf::leaf_rules))]
fn write_leaf<'a>(out: &mut [u8], r: Run<'a>) -> Run<'a>
    requires { Room out.old r.at r.prev (end_n r.at (leaf_at r.lines)) }
    ensures { Wrote 1 out.old out.new r.entry result (leaf_at r.entry.lines) }
{
    let p = write_groups(out, r);
    let leaf = p.slotted;
    image_out::put_leaf(out, leaf.at, leaf.slots);
    image_out::link(out, r.prev, leaf.at);
    Run {
        at: leaf.at + LEAF_SIZE,
        lines: p.lines,
        prev: leaf.at,
        node: leaf.at,
        first: leaf.slots.ikeys[0],
    }
}

// The parts of a leaf: whole groups while fifteen slots hold them.
#[cycle(layers)]
fn write_groups<'a>(out: &mut [u8], r: Run<'a>) -> Parts<'a>
    requires { Room out.old r.at 0 (end_s r.at (filled 15 (slots_in r.lines))) }
    ensures { GroupsLaid r.entry.lines out.new result (laid (record { out = out.old; at = r.entry.at; fields = [] }) (filled 15 (slots_in r.entry.lines))) }
{
    let mut lines = r.lines;
    let mut slotted = Slotted {
        at: r.at,
        slots: image_out::no_slots(),
    };
    // No `for`: the lines behind the last group that the leaf holds are a part of the answer.
    while 0 < lines.left {
        let first = lines.first_group();
        if 15 < slotted.slots.n + first.group.slots() {
            break;
        }
        slotted = write_group(out, first, slotted);
        lines = first.rest();
    }
    Parts { lines, slotted }
}

// One group: its short keys, and a suffix or a layer for those that go on; behind the parts that a leaf has. (`longs` is tested as a count:
// `Group` says why.)
#[cycle(layers)]
#[tactic(auto, using(crate::proofs::GroupParts::group_rules))]
fn write_group(out: &mut [u8], first: FirstGroup, before: Slotted) -> Slotted
    requires holds_slots { HoldsSlots (15 - size_s (first_slots first.lines)) before.slots }
    requires room { Room out.old before.at 0 (end_s before.at (first_slots first.lines)) }
    ensures { (fs : List Fields) → before.slots ≡ slots_of fs
        → GroupLaid out.new result (laid (record { out = out.old; at = before.at; fields = fs }) (first_slots first.entry.lines)) }
{
    let lines = first.lines;
    let g = first.group;
    let depth = 31 - lines.below;
    let slots = slots_out::add_shorts(lines.sheet, lines.line, g.shorts, depth, before.slots);
    let so_far = Slotted { slots, ..before };
    if g.longs == 0 {
        return so_far;
    }
    if g.longs == 1 {
        return slots_out::add_suffix(out, so_far, lines.sheet, g.long_line, depth);
    }
    let head = groups::lowered_at(lines.sheet, g.long_line, depth);
    let r = write_layer(out, so_far.at, first.layer_below());
    let slot = SlotFields {
        ikey: head.ikey,
        keylenx: LAYER_KEYLENX,
        value: r.node as u64,
        suffix: 0,
        live: false,
    };
    Slotted {
        at: r.at,
        slots: image_out::add_slot(slots, slot),
    }
}
