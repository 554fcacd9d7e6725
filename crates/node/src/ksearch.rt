// The search in an internode (the Rust's ksearch/scalar.rs).
ghost use Rattle.std.specs.Prelude.{◌≡◌, ◌≤◌};
ghost use Rattle.node.specs.Ksearch.{upper_bound};

use crate::internode::InternodeReader;

// The child that a search for `ikey` goes to among n separators; equal to separator i it goes to child i + 1. Separators are
// counted: they are words of the image behind a reader, and no slice.
pub fn upper_bound_internode(node: InternodeReader, n: usize, ikey: u64) -> usize
    requires { n ≤ 15 }
    ensures { result ≡ upper_bound node.entry.image.now node.entry.at ikey 0 n }
{
    for i in 0..n {
        let k = node.separator(i);
        if ikey < k {
            return i;
        }
        if ikey == k {
            return i + 1;
        }
    }
    n
}
