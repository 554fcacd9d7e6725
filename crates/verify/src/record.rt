// A record, from being reached up to its parts (01's numbers 3, 4, 9, 5 and 8), and an internode's children.
ghost use Rattle.std.specs.Prelude.{ℕ, ◌≡◌, ◌+◌, ◌≤◌, ◌<◌};
ghost use Rattle.node.specs.Layout.{version_at, nkeys_at, separator_at};
ghost use Rattle.verify.specs.Check.{reachable, permutes, separators_from, low_end, high_end};
ghost use Rattle.verify.specs.CodeCases.{leaf_check, internode_check, record_check};

use crate::{Ends, Progress, SizedImage};
use base::Decline;
use node::internode::{INTERNODE_SIZE, InternodeReader};
use node::leaf::{LEAF_SIZE, LeafReader};
use node::nodeversion::{self, RecordKind};
use node::permuter::{self, Position};

// An internode's children: the internode, which has at most fifteen separators, each above 0; and the ends of its ikeys.
#[derive(Clone, Copy)]
pub struct Children<'a> {
    pub node: InternodeReader<'a>,
    pub ends: Ends,
    ghost separated: { (i : ℕ) → i < nkeys_at node.image.now node.at → (i < 15) × (0 < separator_at node.image.now node.at i) },
}

// Number 3, for a record of `size` bytes.
#[tactic(auto, using(std::proofs::lemmas::Bool::Decides::nat_tests), unfolding(crate::specs::Check::reachable))]
fn is_reachable(image: SizedImage, size: usize, at: u64, p: Progress) -> bool
    requires { size ≤ 400 }
    ensures { result ≡ reachable image.entry.bytes.now size at p }
{
    let last = image.bytes.len() - 32 - size;
    at % 8 == 0 && ((p.place as u64) <= at && at <= (last as u64))
}

// Number 5: the fifteen fields are a permutation of 0 to 14, each below 15 and seen once. (Positions are counted: the order is one number.)
#[tactic(auto, using(crate::proofs::RecordTests::fresh_none, crate::proofs::RecordTests::permutes_none, crate::proofs::RecordTests::permutes_next, std::proofs::lemmas::Bool::Decides::nat_tests), unfolding(crate::specs::Check::permutes))]
fn is_permutation(permutation: u64) -> bool
    ensures { result ≡ permutes permutation }
{
    let mut seen = [false; 15];
    for i in 0..15 {
        let slot = permuter::get(permutation, Position(i)).0;
        if 15 <= slot || seen[slot] {
            return false;
        }
        seen[slot] = true;
    }
    true
}

// A leaf whose first 256 bytes lie before the trailer, up to its slots; its kind too, so that `record_check` hands it on. (Image, place and
// progress go one by one in the check: a place is any number until it is found reachable, and the progress changes at each.)
#[tactic(auto, using(std::proofs::lemmas::Bool::Decides::nat_tests), unfolding(crate::specs::CodeCases::leaf_check, crate::specs::Check::expected, crate::specs::Check::reachable, base::specs::Pick::pick))]
fn leaf_check(image: SizedImage, version: u32, at: u64, p: Progress) -> Result<RecordKind, Decline>
    requires { version ≡ version_at image.bytes.now at }
    ensures { result ≡ leaf_check image.entry.bytes.now at p }
{
    if !is_reachable(image, LEAF_SIZE, at, p) {
        return Err(Decline::RecordPlace);
    }
    if !nodeversion::at_rest(version) {
        return Err(Decline::RecordVersion);
    }
    if !p.is_next(at) {
        return Err(Decline::LeafChain);
    }
    let leaf = LeafReader {
        image: image.bytes,
        at: at as usize,
    };
    if !is_permutation(leaf.permutation()) {
        return Err(Decline::LeafPermutation);
    }
    Ok(RecordKind::Leaf)
}

// Number 8: n separators ascend strictly, from above lo up to `top` at most. (They are counted, as in the search.)
#[tactic(auto, using(crate::proofs::RecordTests::separators_none, crate::proofs::RecordTests::separators_next, std::proofs::lemmas::Bool::Decides::nat_tests))]
fn has_separators(node: InternodeReader, ends: Ends, n: usize) -> bool
    requires { n ≤ 15 }
    ensures { result ≡ separators_from node.entry.image.now node.entry.at ends.lo (ends.top + 1) 0 n }
{
    let mut low = ends.lo;
    for i in 0..n {
        let k = node.separator(i);
        if k <= low || ends.top < k {
            return false;
        }
        low = k;
    }
    true
}

// An internode up to its children.
#[tactic(auto, using(std::proofs::lemmas::Bool::Decides::nat_tests), unfolding(crate::specs::CodeCases::internode_check, base::specs::Pick::pick))]
fn internode_check(node: InternodeReader, path: usize, ends: Ends) -> Result<RecordKind, Decline>
    ensures { result ≡ internode_check node.entry.image.now path node.entry.at ends.lo (ends.top + 1) }
{
    let n = node.nkeys();
    if !nodeversion::at_rest(node.version()) || 15 < n || path == 0 {
        return Err(Decline::RecordVersion);
    }
    if !has_separators(node, ends, usize::from(n)) {
        return Err(Decline::SlotOrder);
    }
    Ok(RecordKind::Internode)
}

// A record on being reached, with `path` internodes left to it. Its leaf bit is read where an internode would lie before
// the trailer; a leaf is longer. (It answers the kind alone, where search's `record_at` answers a reader: here two functions hand their
// answers on to a third, and with an enum of `Slots` and `Children` each of the three would owe clauses of kind, place and ends besides its equation.)
#[tactic(auto, using(std::proofs::lemmas::Bool::Decides::nat_tests), unfolding(crate::specs::CodeCases::record_check, crate::specs::Check::reachable, base::specs::Pick::pick))]
pub fn record_check(
    image: SizedImage,
    path: usize,
    at: u64,
    ends: Ends,
    p: Progress,
) -> Result<RecordKind, Decline>
    ensures { result ≡ record_check image.entry.bytes.now path at ends.lo (ends.top + 1) p }
{
    if !is_reachable(image, INTERNODE_SIZE, at, p) {
        return Err(Decline::RecordPlace);
    }
    let node = InternodeReader {
        image: image.bytes,
        at: at as usize,
    };
    let version = node.version();
    if nodeversion::is_leaf(version) {
        return leaf_check(image, version, at, p);
    }
    internode_check(node, path, ends)
}

impl<'a> Children<'a> {
    // One more than the keys.
    pub fn count(self) -> usize
        ensures { result ≡ nkeys_at self.entry.node.image.now self.entry.node.at + 1 }
    {
        usize::from(self.node.nkeys()) + 1
    }

    // The least ikey of child i: the separator before it, or the internode's own.
    #[tactic(auto, using(std::proofs::lemmas::Bool::Decides::nat_tests), unfolding(crate::specs::Check::low_end))]
    fn low_end(self, i: usize) -> u64
        requires { i < 16 }
        ensures { result ≡ low_end self.entry.node.image.now self.entry.node.at self.entry.ends.lo i }
    {
        if i == 0 {
            return self.ends.lo;
        }
        self.node.separator(i - 1)
    }

    // The greatest ikey of child i: below the separator behind it, or the internode's own.
    #[tactic(auto, using(std::proofs::lemmas::Bool::Decides::nat_tests), unfolding(crate::specs::Check::high_end, base::specs::Pick::pick))]
    fn high_end(self, i: usize) -> u64
        ensures { result + 1 ≡ high_end self.entry.node.image.now self.entry.node.at (self.entry.ends.top + 1) i }
    {
        if i < usize::from(self.node.nkeys()) {
            return self.node.separator(i) - 1;
        }
        self.ends.top
    }

    // The ends of child i.
    pub fn ends(self, i: usize) -> Ends
        requires { i < 16 }
        ensures lo { result.lo ≡ low_end self.entry.node.image.now self.entry.node.at self.entry.ends.lo i }
        ensures top { result.top + 1 ≡ high_end self.entry.node.image.now self.entry.node.at (self.entry.ends.top + 1) i }
    {
        Ends {
            lo: self.low_end(i),
            top: self.high_end(i),
        }
    }
}
