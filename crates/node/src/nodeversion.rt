// A record's version word (the Rust's nodeversion.rs): the leaf bit, and the four bits that are clear at rest. Leaves and internodes both
// begin with it, and it is read before either is known: so it is no field of the leaf's reader, but of the internode's, which is shorter.
ghost use Rattle.std.specs.Prelude.{◌≡◌, ◌<◌};
ghost use Rattle.node.specs.Version.{bit, is_leaf, at_rest};

// What a record is, by its leaf bit.
#[derive(Clone, Copy, Debug, PartialEq, Eq)]
pub enum RecordKind {
    Leaf,
    Internode,
}

// Whether bit k is set.
#[tactic(auto, unfolding(crate::specs::Version::bit))]
fn has_bit(version: u32, k: u32) -> bool
    requires { k < 32 }
    ensures { result ≡ bit version k }
{
    (version >> k) % 2 == 1
}

pub fn is_leaf(version: u32) -> bool
    ensures { result ≡ is_leaf version }
{
    has_bit(version, 31)
}

// Lock, inserting, splitting and deleted are clear.
#[tactic(auto, unfolding(crate::specs::Version::at_rest, base::specs::Pick::pick))]
pub fn at_rest(version: u32) -> bool
    ensures { result ≡ at_rest version }
{
    !has_bit(version, 0) && !has_bit(version, 1) && !has_bit(version, 2) && !has_bit(version, 29)
}
