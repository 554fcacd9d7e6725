// Where Start comes to in a leaf: with it a walk begins from its cursor on, and any walk whose cursor has more than eight bytes. (The
// Rust's `find_initial`, without its match on the ikey alone.)
#![tactic(auto)]

ghost use Rattle.std.specs.Prelude.{◌≡◌};
ghost use Rattle.node.specs.Layout.{ikey_at, keylenx_at};
ghost use Rattle.start.specs.Start.{at_equal, short_verdict, suffix_verdict, long_verdict, verdict, start_position};

use base::Decline;
use cursor::cursor_key::CursorReader;
use cursor::range_bound::StartMode;
use node::leaf::{LeafReader, SlotKind, SlotReader};
use node::permuter::{self, Position, Slot};
use search::helper;
use std::cmp::Ordering;

// What Start makes of a slot: it is passed over; the walk stands there; its layer is entered.
#[derive(Clone, Copy, Debug, PartialEq, Eq)]
pub enum Verdict {
    Pass,
    Stand,
    Enter,
}

// Where Start comes to in a leaf: a position to stand at, or a slot whose layer is entered. (A slot, and no reader of it: the definition has the
// same values.)
#[derive(Clone, Copy, Debug, PartialEq, Eq)]
pub enum Started {
    At(Position),
    Enter(Slot),
}

// What Start judges a leaf's slots by: the mode, and the cursor.
#[derive(Clone, Copy)]
struct Judging<'a> {
    mode: StartMode,
    c: CursorReader<'a>,
}

impl<'a> Judging<'a> {
    // A key equal to the cursor: mode above stands past it.
    #[tactic(auto, unfolding(crate::specs::Start::at_equal))]
    fn at_equal(self) -> Verdict
        ensures { result ≡ at_equal self.entry.mode }
    {
        match self.mode {
            StartMode::Above => Verdict::Pass,
            StartMode::From => Verdict::Stand,
        }
    }

    // With at most eight cursor bytes left in the layer: by ikey, then keylenx, a number here: it is ordered against the cursor's length.
    #[tactic(auto, unfolding(crate::specs::Start::short_verdict, search::specs::Helper::by_order, key::specs::Order::order, key::specs::Order::then, base::specs::Pick::pick), using(std::proofs::lemmas::Bool::Decides::nat_tests))]
    fn short_verdict(self, s: SlotReader) -> Verdict
        ensures { result ≡ short_verdict self.entry.mode self.entry.c.place (ikey_at s.entry.leaf.image.now s.entry.leaf.at s.entry.slot) (keylenx_at s.entry.leaf.image.now s.entry.leaf.at s.entry.slot) }
    {
        let k = self.c.place;
        let keylenx = usize::from(s.keylenx());
        match s.ikey().cmp(&k.ikey).then(keylenx.cmp(&k.len)) {
            Ordering::Less => Verdict::Pass,
            Ordering::Equal => {
                if 8 < k.offset + k.len {
                    return self.at_equal();
                }
                Verdict::Stand
            }
            Ordering::Greater => Verdict::Stand,
        }
    }

    // A suffix against the cursor's rest.
    #[tactic(auto, unfolding(crate::specs::Start::suffix_verdict, search::specs::Helper::by_order, base::specs::Pick::pick), using(std::proofs::lemmas::Bool::Decides::nat_tests))]
    fn suffix_verdict(self, s: SlotReader) -> Result<Verdict, Decline>
        ensures { result ≡ suffix_verdict self.entry.mode s.entry.leaf.image.now s.entry.leaf.at self.entry.c.place self.entry.c.buf.now s.entry.slot }
    {
        if !helper::is_suffix_readable(s) || 256 < self.c.place.offset + 8 + s.ksuf().len {
            return Err(Decline::Unreadable);
        }
        match key::compare(helper::stored_suffix(s), self.c.suffix()) {
            Ordering::Less => Ok(Verdict::Pass),
            Ordering::Equal => Ok(self.at_equal()),
            Ordering::Greater => Ok(Verdict::Stand),
        }
    }

    // With more left: by ikey, and of one ikey by what the slot goes on in.
    #[tactic(auto, unfolding(crate::specs::Start::long_verdict, search::specs::Helper::by_order, key::specs::Order::order, node::specs::Layout::slot_kind, base::specs::Pick::pick), using(std::proofs::lemmas::Bool::Decides::nat_tests))]
    fn long_verdict(self, s: SlotReader) -> Result<Verdict, Decline>
        ensures { result ≡ long_verdict self.entry.mode s.entry.leaf.image.now s.entry.leaf.at self.entry.c.place self.entry.c.buf.now s.entry.slot }
    {
        match s.ikey().cmp(&self.c.place.ikey) {
            Ordering::Less => Ok(Verdict::Pass),
            Ordering::Equal => match s.kind() {
                SlotKind::Inline => Ok(Verdict::Pass), // it ends here, below the cursor
                SlotKind::Layer => Ok(Verdict::Enter),
                SlotKind::Suffix => self.suffix_verdict(s),
                SlotKind::Unlisted => Err(Decline::Unreadable),
            },
            Ordering::Greater => Ok(Verdict::Stand),
        }
    }

    // What Start makes of a slot.
    #[tactic(auto, unfolding(crate::specs::Start::verdict, base::specs::Pick::pick))]
    fn judge(self, s: SlotReader) -> Result<Verdict, Decline>
        ensures { result ≡ verdict self.entry.mode s.entry.leaf.image.now s.entry.leaf.at self.entry.c.place self.entry.c.buf.now s.entry.slot }
    {
        if self.c.place.has_suffix() {
            return self.long_verdict(s);
        }
        Ok(self.short_verdict(s))
    }
}

// Start: the first slot that is not passed over, else past the last. Positions are counted, as in search.
#[tactic(auto, unfolding(crate::specs::Start::start_position, crate::specs::Start::by_verdict, search::specs::CodeSlots::usable_slot, base::specs::Decline::and_then, base::specs::Pick::pick), using(crate::proofs::StartLaws::start_more, crate::proofs::StartLaws::start_end))]
pub fn start_position(
    mode: StartMode,
    leaf: LeafReader,
    c: CursorReader,
) -> Result<Started, Decline>
    ensures { result ≡ start_position mode leaf.entry.image.now leaf.entry.at c.entry.place c.entry.buf.now }
{
    let judging = Judging { mode, c };
    let permutation = leaf.permutation();
    let size = permuter::size(permutation);
    for i in 0..size {
        let s = helper::slot_at(leaf, permutation, Position(i))?;
        match judging.judge(s)? {
            Verdict::Pass => {}
            Verdict::Stand => {
                return Ok(Started::At(Position(i)));
            }
            Verdict::Enter => {
                return Ok(Started::Enter(s.slot));
            }
        }
    }
    Ok(Started::At(Position(size)))
}
