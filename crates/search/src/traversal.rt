// From a layer's root to a leaf (the Rust's traversal.rs). The Rust follows pointers and waits for stable versions; here a
// record is read at an offset of the lent image, and what cannot be read is declined.
ghost use Rattle.std.specs.Prelude.{◌≡◌, ◌≤◌, Ok, is_some, IfSome, IfOk};
ghost use Rattle.base.specs.Decline.{and_then};
ghost use Rattle.node.specs.Layout.{nkeys_at};
ghost use Rattle.search.specs.Traversal.{readable, record_at, leaf_there, child_for, reach};
ghost use Rattle.search.specs.CodeRecord.{kind_of, StandsAt};

use base::Decline;
use node::internode::{INTERNODE_SIZE, InternodeReader};
use node::leaf::{LEAF_SIZE, LeafReader};
use node::{ksearch, nodeversion};

// A record that may be read, by the reader of its kind.
#[derive(Clone, Copy)]
enum Record<'a> {
    Leaf(LeafReader<'a>),
    Internode(InternodeReader<'a>),
}

// Whether n bytes at an offset lie between byte 8 and the trailer. This and the two below are functions of the image and an offset, and no
// methods of a reader: the offset may be any number, and whether a reader of a record may stand there is what they find out.
#[tactic(auto, unfolding(crate::specs::Traversal::readable), using(std::proofs::lemmas::Bool::Decides::nat_tests))]
pub fn is_readable(image: &[u8], at: u64, n: u64) -> bool
    ensures { result ≡ readable image.now at n }
{
    let size = image.len() as u64;
    8 <= at && (32 <= size && (at <= size - 32 && n <= size - 32 - at))
}

// What a move finds at an offset.
#[tactic(auto, unfolding(crate::specs::Traversal::record_at, crate::specs::CodeRecord::kind_of, crate::specs::CodeRecord::StandsAt, base::specs::Decline::and_then, base::specs::Pick::pick), using(crate::proofs::TraversalLaws::in_image, std::proofs::lemmas::Bool::Decides::nat_tests))]
fn record_at<'a>(image: &'a [u8], at: u64) -> Result<Record<'a>, Decline>
    ensures kind { and_then result (λ r. Ok (kind_of r)) ≡ record_at image.now at }
    ensures place { IfOk result (λ r. StandsAt r image.now at) }
{
    if at % 8 != 0 || !is_readable(image, at, INTERNODE_SIZE as u64) {
        return Err(Decline::Unreadable);
    }
    let internode = InternodeReader {
        image,
        at: at as usize,
    };
    let version = internode.version();
    if !nodeversion::at_rest(version) {
        return Err(Decline::Unreadable);
    }
    if !nodeversion::is_leaf(version) {
        return Ok(Record::Internode(internode));
    }
    if !is_readable(image, at, LEAF_SIZE as u64) {
        return Err(Decline::Unreadable);
    }
    Ok(Record::Leaf(LeafReader {
        image,
        at: internode.at,
    }))
}

// The leaf at an offset, where one stands there.
#[tactic(auto, unfolding(crate::specs::Traversal::leaf_there, crate::specs::Traversal::found_leaf, crate::specs::Traversal::by_kind, crate::specs::CodeRecord::kind_of, crate::specs::CodeRecord::StandsAt, base::specs::Decline::and_then))]
pub fn leaf_at<'a>(image: &'a [u8], at: u64) -> Option<LeafReader<'a>>
    ensures there { is_some result ≡ leaf_there image.now at }
    ensures leaf { IfSome result (λ leaf. (leaf.image.now ≡ image.now) × (leaf.at ≡ at)) }
{
    match record_at(image, at) {
        Ok(Record::Leaf(leaf)) => Some(leaf),
        Ok(Record::Internode(_)) | Err(_) => None,
    }
}

// The child of an internode that a search goes to.
#[tactic(auto, unfolding(crate::specs::Traversal::child_for))]
fn child_for(node: InternodeReader, ikey: u64) -> u64
    requires { nkeys_at node.image.now node.at ≤ 15 }
    ensures { result ≡ child_for node.entry.image.now node.entry.at ikey }
{
    node.child(ksearch::upper_bound_internode(node, usize::from(node.nkeys()), ikey))
}

// The leaf that a search for `ikey` comes to from a layer's root.
#[tactic(auto, unfolding(crate::specs::CodeRecord::kind_of, crate::specs::CodeRecord::StandsAt, base::specs::Decline::and_then))]
pub fn reach_leaf_for_scan<'a>(
    image: &'a [u8],
    root: u64,
    ikey: u64,
) -> Result<LeafReader<'a>, Decline>
    ensures place { and_then result (λ leaf. Ok leaf.at) ≡ reach image.now ikey root }
    ensures image { IfOk result (λ leaf. leaf.image.now ≡ image.now) }
{
    let mut node = root;
    // No range: how many internodes lie above the leaf shows only on the way.
    loop {
        match record_at(image, node)? {
            Record::Leaf(leaf) => {
                return Ok(leaf);
            }
            Record::Internode(internode) => {
                if 15 < internode.nkeys() {
                    return Err(Decline::Unreadable);
                }
                let child = child_for(internode, ikey);
                if node <= child {
                    return Err(Decline::Unreadable);
                }
                node = child;
            }
        }
    }
}
