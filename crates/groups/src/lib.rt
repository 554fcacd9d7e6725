// From the station lines of a sheet to the groups of one ikey in a layer, and the size of a layer. Nothing is stored: a layer is some
// lines of the sheet and the number of layers below it, 31 at the top.
//
// Interface: `lowered_key`, `lowered_at`; `LayerLines`, with its `first_group`; `FirstGroup`, with its `rest` and its `layer_below`;
// `Group::slots`; and `layer_size`.
#![tactic(auto)]

ghost use Rattle.std.specs.Prelude.{◌≡◌, ◌+◌, ◌*◌, ◌-◌, ◌≤◌, ◌<◌};
ghost use Rattle.base.specs.Kit.{suc, min};
ghost use Rattle.layering.specs.Accepted.{end_n, end_s};
ghost use Rattle.building.specs.Shape.{long_slots, layer_of};
ghost use Rattle.building.proofs.Sizes.{internodes};
ghost use Rattle.groups.specs.CodeGroups.{OneLine, LoweredRead, LoweredKeyRead, lines_at, Fit, GroupRead, grown};
ghost use Rattle.groups.specs.Once.{Fit-prop, GroupRead-prop};
ghost use Rattle.groups.specs.CodeSize.{capped, counted};

use key::{ikey_of, part_of};
use node::internode::INTERNODE_SIZE;
use node::leaf::LEAF_SIZE;
use reading::station_at;

// A station line as a layer has it: what the layer has of its key, the value, and the place behind the line.
#[derive(Clone, Copy)]
pub struct LoweredKey<'b> {
    pub key: &'b [u8],
    pub value: u64,
    pub next: usize,
}

// The same with the ikey and the length of the key alone.
#[derive(Clone, Copy)]
pub struct Lowered {
    pub ikey: u64,
    pub len: usize,
    pub value: u64,
    pub next: usize,
}

// The pairs of one ikey: how many keys end in the layer, how many go on below it, the first line of those that go on, and the line
// behind the group. `long_line` is read behind a test of `longs` alone, and while there is none moves with `behind`. `longs` is a count and no
// enum of none, one and many: it goes up line by line, and the lines behind the group and the layer below take it as a number; an enum would
// be made of it only to be matched at once.
#[derive(Clone, Copy)]
pub struct Group {
    pub shorts: usize,
    pub longs: usize,
    pub long_line: usize,
    pub behind: usize,
}

impl Group {
    /// How many slots the group takes: one for each key that ends in the layer, and one for those that go on.
    pub fn slots(self) -> usize
        requires { self.shorts + min 1 self.longs < 18446744073709551616 }
        ensures { result ≡ self.shorts + min 1 self.longs }
    {
        self.shorts + self.longs.min(1)
    }
}

// Some station lines of a sheet, `left` from `line` on, as a layer with `below` layers below it has them: their keys ascend, and fit it.
// (Lines are places in the sheet and no slices of it: a layer below begins in the midst of a group, and goes over its lines again.)
#[derive(Clone, Copy)]
pub struct LayerLines<'a> {
    pub sheet: &'a [u8],
    pub below: usize,
    pub line: usize,
    pub left: usize,
    pub ghost fit: { Fit sheet.now below line left } by { Fit-prop sheet.now below line left },
}

// The group that the lines of a layer begin with.
#[derive(Clone, Copy)]
pub struct FirstGroup<'a> {
    pub lines: LayerLines<'a>,
    pub group: Group,
    pub ghost read: { GroupRead lines.sheet.now (31 - lines.below) lines.line lines.left group } by { GroupRead-prop lines.sheet.now (31 - lines.below) lines.line lines.left group },
}

// The station line at a place of a sheet, as a layer at a depth has it, its key left in `buf`.
pub fn lowered_key<'b>(
    sheet: &[u8],
    line: usize,
    depth: usize,
    buf: &'b mut [u8; 256],
) -> LoweredKey<'b>
    requires one_line { OneLine sheet.now line }
    requires depth_bound { depth ≤ 31 }
    ensures { LoweredKeyRead sheet.now depth line result }
{
    let read = station_at(sheet, line, buf).unwrap();
    let from = read.key_len.min(8 * depth);
    LoweredKey {
        key: part_of(buf, from, read.key_len - from),
        value: read.value,
        next: read.next,
    }
}

// The station line at a place of a sheet, as a layer at a depth has it.
pub fn lowered_at(sheet: &[u8], line: usize, depth: usize) -> Lowered
    requires one_line { OneLine sheet.now line }
    requires depth_bound { depth ≤ 31 }
    ensures { LoweredRead sheet.now depth line result }
{
    let mut buf = [0u8; 256];
    let read = lowered_key(sheet, line, depth, &mut buf);
    Lowered {
        ikey: ikey_of(read.key),
        len: read.key.len(),
        value: read.value,
        next: read.next,
    }
}

impl<'a> LayerLines<'a> {
    /// The group that the first line begins.
    pub fn first_group(self) -> FirstGroup<'a>
        requires { 0 < self.left }
        ensures { result.lines ≡ self.entry }
    {
        FirstGroup {
            lines: self,
            group: group_of(self),
        }
    }
}

impl<'a> FirstGroup<'a> {
    /// The lines behind the group.
    #[tactic(auto, using(crate::proofs::Firsts::rest_fit))]
    pub fn rest(self) -> LayerLines<'a>
        ensures { (result.sheet ≡ self.entry.lines.sheet)
            × (result.below ≡ self.entry.lines.below)
            × (result.line ≡ self.entry.group.behind)
            × (result.left ≡ self.entry.lines.left - (self.entry.group.shorts + self.entry.group.longs)) }
    {
        let lines = self.lines;
        LayerLines {
            sheet: lines.sheet,
            below: lines.below,
            line: self.group.behind,
            left: lines.left - (self.group.shorts + self.group.longs),
        }
    }

    /// The lines of the group's long keys, as the layer below has them.
    #[tactic(auto, using(crate::proofs::Firsts::first_longs))]
    pub fn layer_below(self) -> LayerLines<'a>
        requires { 2 ≤ self.group.longs }
        ensures { (result.sheet ≡ self.entry.lines.sheet)
            × (result.below + 1 ≡ self.entry.lines.below)
            × (result.line ≡ self.entry.group.long_line)
            × (result.left ≡ self.entry.group.longs) }
    {
        let lines = self.lines;
        LayerLines {
            sheet: lines.sheet,
            below: lines.below - 1,
            line: self.group.long_line,
            left: self.group.longs,
        }
    }
}

// The group that the first line of a layer's lines begins. (`31 - below`, here and below, is no method: the loop's invariant
// does not know what a method answered before the loop, and the proof did not close.)
#[tactic(auto, using(crate::proofs::Lines::fit_line, crate::proofs::Found::group_whole))]
fn group_of(lines: LayerLines) -> Group
    requires { 0 < lines.left }
    ensures { GroupRead lines.entry.sheet.now (31 - lines.entry.below) lines.entry.line lines.entry.left result }
{
    let depth = 31 - lines.below;
    let first = lowered_at(lines.sheet, lines.line, depth);
    let mut g = Group {
        shorts: 0,
        longs: 0,
        long_line: lines.line,
        behind: lines.line,
    };
    for _ in 0..lines.left {
        let r = lowered_at(lines.sheet, g.behind, depth);
        if r.ikey != first.ikey {
            break;
        }
        g = grown(g, r.len, r.next);
    }
    g
}

// A group so far with one more line, whose key has `len` bytes.
#[tactic(auto, unfolding(crate::specs::CodeGroups::grown, base::specs::Pick::pick), using(std::proofs::lemmas::Bool::Decides::nat_tests))]
fn grown(g: Group, len: usize, next: usize) -> Group
    requires { g.shorts + g.longs < 18446744073709551615 }
    ensures { result ≡ grown g len next }
{
    if g.longs == 0 && len <= 8 {
        return Group {
            shorts: g.shorts + 1,
            long_line: next,
            behind: next,
            ..g
        };
    }
    Group {
        longs: g.longs + 1,
        behind: next,
        ..g
    }
}

// How far the size of a layer is counted: its leaves, the room in the last of them, and the bytes of all of them with their suffixes
// and the layers below.
// No ghost fields for the bounds of its numbers: the definition of `counted` makes tallies too, and would have to prove them there.
#[derive(Clone, Copy)]
pub struct Tally {
    pub leaves: usize,
    pub room: usize,
    pub bytes: usize,
}

// The bytes of a layer, counted no further than one past the longest image.
#[cycle(layer_size_longs_size)]
#[tactic(auto, using(crate::proofs::Firsts::layer_rules))]
pub fn layer_size(lines: LayerLines) -> usize
    ensures { result ≡ capped (end_n 0 (layer_of (suc lines.entry.below) (lines_at lines.entry.sheet.now (31 - lines.entry.below) lines.entry.line lines.entry.left))) }
{
    let mut t = Tally {
        leaves: 1,
        room: 15,
        bytes: LEAF_SIZE,
    };
    let mut rest = lines;
    // No iterator over groups: it would hold `rest` alone, and turn by just these lines.
    while 0 < rest.left {
        let first = rest.first_group();
        t = counted(t, first, longs_size(first));
        rest = first.rest();
    }
    with_internodes(t)
}

// The bytes of a group's long keys: a suffix, or a layer below, or nothing. (Tests of a count: `Group` says why.)
#[cycle(layer_size_longs_size)]
#[tactic(auto, using(crate::proofs::Firsts::longs_rules))]
fn longs_size(first: FirstGroup) -> usize
    ensures { result ≡ capped (end_s 0 (long_slots (layer_of first.entry.lines.below) (lines_at first.entry.lines.sheet.now (31 - first.entry.lines.below) first.entry.group.long_line first.entry.group.longs))) }
{
    let g = first.group;
    if g.longs == 0 {
        return 0;
    }
    if g.longs == 1 {
        let r = lowered_at(first.lines.sheet, g.long_line, 31 - first.lines.below);
        return (r.len - 8).next_multiple_of(8);
    }
    layer_size(first.layer_below())
}

// A tally with one more group, whose long keys take so many bytes.
#[tactic(auto, unfolding(crate::specs::CodeSize::counted, base::specs::Pick::pick), using(std::proofs::lemmas::Bool::Decides::nat_tests, crate::proofs::SizeLaws::capped_most, crate::proofs::Firsts::first_few))]
fn counted(t: Tally, first: FirstGroup, bytes: usize) -> Tally
    requires leaves_bound { t.leaves ≤ 16777217 }
    requires bytes_bound { t.bytes ≤ 16777217 }
    requires group_bound { bytes ≤ 16777217 }
    ensures { result ≡ counted t (first.entry.group.shorts + min 1 first.entry.group.longs) bytes }
{
    let n = first.group.slots();
    let bytes = add_capped(t.bytes, bytes);
    if n <= t.room {
        return Tally {
            room: t.room - n,
            bytes,
            ..t
        };
    }
    Tally {
        leaves: add_capped(t.leaves, 1),
        room: 15 - n,
        bytes: add_capped(bytes, LEAF_SIZE),
    }
}

// The bytes that a tally comes to with the internodes over its leaves.
#[tactic(auto, unfolding(crate::specs::CodeSize::capped))]
fn with_internodes(t: Tally) -> usize
    requires leaves_bound { t.leaves ≤ 16777217 }
    requires bytes_bound { t.bytes ≤ 16777217 }
    ensures { result ≡ capped (t.bytes + 256 * internodes t.leaves t.leaves) }
{
    add_capped(t.bytes, INTERNODE_SIZE * internodes_over(t.leaves))
}

// The internodes over so many leaves: sixteen children to each, level by level.
#[tactic(auto, using(crate::proofs::SizeLaws::level_more, crate::proofs::SizeLaws::internodes_none))]
fn internodes_over(leaves: usize) -> usize
    requires { leaves ≤ 16777217 }
    ensures value { result ≡ internodes leaves leaves }
    ensures upper_bound { result ≤ leaves }
{
    if leaves <= 1 {
        return 0;
    }
    let level = leaves.div_ceil(16);
    level + internodes_over(level)
}

// A sum, counted no further than one past the longest image.
#[tactic(auto, unfolding(crate::specs::CodeSize::capped))]
fn add_capped(a: usize, b: usize) -> usize
    requires { a + b < 18446744073709551616 }
    ensures { result ≡ capped (a + b) }
{
    (a + b).min(16777217)
}
