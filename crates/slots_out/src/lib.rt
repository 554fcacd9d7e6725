// The slots of a group: its short keys, and the suffix of a long one, added to those of a leaf.
//
// Interface: `add_shorts` and `add_suffix`.
#![tactic(auto)]

ghost use Rattle.std.specs.Prelude.{◌++◌, ◌≡◌, ◌-◌, ◌≤◌};
ghost use Rattle.base.specs.Kit.{List, map, length};
ghost use Rattle.layering.specs.Tree.{Fields, Node};
ghost use Rattle.layering.specs.Keys.{Pair};
ghost use Rattle.layering.specs.Accepted.{end_s};
ghost use Rattle.building.specs.Shape.{ends_here, long_slots};
ghost use Rattle.building.specs.CodeLaid.{laid};
ghost use Rattle.groups.specs.CodeGroups.{lines_at};
ghost use Rattle.image_out.specs.CodeRows.{slots_of, HoldsSlots};
ghost use Rattle.slots_out.specs.CodeSlots.{ShortLines, LongLine, GroupLaid};

use groups::{lowered_at, lowered_key};
use image_out::{LeafSlots, SlotFields, add_slot, put_padded};
use key::ikey_of;
use node::leaf::KSUF_KEYLENX;

// The place behind a part of a leaf, and the slots with its own.
#[derive(Clone, Copy)]
pub struct Slotted {
    pub at: usize,
    pub slots: LeafSlots,
}

// The slots with those of n station lines whose keys end in the layer. (Sheet, line and depth go one by one, here and where a line is read: a
// `FirstGroup` would ask more of the lines, and a plain struct of the three would be made anew for each line, since no caller has one and from
// one line to the next the line alone changes.)
#[tactic(auto, using(crate::proofs::Shorts::short_rules))]
pub fn add_shorts(sheet: &[u8], line: usize, n: usize, depth: usize, slots: LeafSlots) -> LeafSlots
    requires short_lines { ShortLines sheet.now depth line n }
    requires n_bound { n ≤ 15 }
    requires holds_slots { HoldsSlots (15 - n) slots }
    ensures { (fs : List Fields) → slots ≡ slots_of fs → result ≡ slots_of (fs ++ map ends_here (lines_at sheet.now depth line n)) }
{
    let mut place = line;
    let mut s = slots;
    for _ in 0..n {
        let r = lowered_at(sheet, place, depth);
        let slot = SlotFields {
            ikey: r.ikey,
            keylenx: r.len as u8,
            value: r.value,
            suffix: 0,
            live: true,
        };
        s = add_slot(s, slot);
        place = r.next;
    }
    s
}

// The suffix of a station line whose key goes on below the layer, behind the parts of a leaf so far, and the slots with its own.
#[tactic(auto, using(crate::proofs::Suffix::long_one, crate::proofs::Suffix::key_sizes))]
pub fn add_suffix(
    out: &mut [u8],
    before: Slotted,
    sheet: &[u8],
    line: usize,
    depth: usize,
) -> Slotted
    requires long_line { LongLine sheet.now depth line }
    requires holds_slots { HoldsSlots 14 before.slots }
    requires line_in_bounds { (sub : List Pair → Node) → end_s before.at (long_slots sub (lines_at sheet.now depth line 1)) ≤ length out.old }
    requires out_len_bound { length out.old ≤ 16777216 }
    ensures { (fs : List Fields) (sub : List Pair → Node) → before.slots ≡ slots_of fs
        → GroupLaid out.new result (laid (record { out = out.old; at = before.at; fields = fs }) (long_slots sub (lines_at sheet.now depth line 1))) }
{
    let mut buf = [0u8; 256];
    let read = lowered_key(sheet, line, depth, &mut buf);
    let suffix = &read.key[8..];
    let behind = put_padded(out, before.at, suffix);
    let slot = SlotFields {
        ikey: ikey_of(read.key),
        keylenx: KSUF_KEYLENX,
        value: read.value,
        suffix: before.at as u64 + suffix.len() as u64 * (1 << 32),
        live: true,
    };
    Slotted {
        at: behind,
        slots: add_slot(before.slots, slot),
    }
}
