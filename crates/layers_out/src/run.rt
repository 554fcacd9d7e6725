// How far a layer has come, and how far a leaf of it.
ghost use Rattle.std.specs.Prelude.{◌≤◌};
ghost use Rattle.building.specs.CodeOrder.{leaves_l, limit};
ghost use Rattle.groups.specs.CodeLines.{slots_in};

use groups::LayerLines;
use slots_out::Slotted;

// How far a layer has come: the place reached in the output; the station lines that are left; the layer's last leaf so far, 0 where it has
// none, as a leaf's own `next` says it (no record lies at 0); and the subtree written last, its record's place and its first ikey.
#[derive(Clone, Copy)]
pub struct Run<'a> {
    pub at: usize,
    pub lines: LayerLines<'a>,
    pub prev: usize,
    pub node: usize,
    pub first: u64,
    pub ghost few: { leaves_l (slots_in lines) ≤ limit },
}

// A leaf's parts so far: the station lines that are left, the place behind the parts, and the slots.
#[derive(Clone, Copy)]
pub struct Parts<'a> {
    pub lines: LayerLines<'a>,
    pub slotted: Slotted,
    pub ghost few: { leaves_l (slots_in lines) ≤ limit },
}
