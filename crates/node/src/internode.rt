// An internode's fields (the Rust's internode/accessors.rs), read through a reader of the lent image and the record's offset.
ghost use Rattle.std.specs.Prelude.{◌≡◌, ◌<◌};
ghost use Rattle.node.specs.Layout.{InInternode, version_at, nkeys_at, separator_at, child_at};

use crate::le;

// An internode's bytes. No record has fewer.
pub const INTERNODE_SIZE: usize = 256;

// The image and the record's place. A record that is not yet known to be a leaf is read as the shorter of the two.
#[derive(Clone, Copy)]
pub struct InternodeReader<'a> {
    pub image: &'a [u8],
    pub at: usize,
    ghost in_internode: { InInternode image.now at },
}

impl<'a> InternodeReader<'a> {
    pub fn version(self) -> u32
        ensures { result ≡ version_at self.entry.image.now self.entry.at }
    {
        le::u32_at(self.image, self.at)
    }

    pub fn nkeys(self) -> u8
        ensures { result ≡ nkeys_at self.entry.image.now self.entry.at }
    {
        self.image[self.at + 4]
    }

    pub fn separator(self, i: usize) -> u64
        requires { i < 15 }
        ensures { result ≡ separator_at self.entry.image.now self.entry.at i }
    {
        le::u64_at(self.image, self.at + 8 + 8 * i)
    }

    // (Here and in the check's ends the bound of i is asked: i is counted, and has no type of its own.)
    pub fn child(self, i: usize) -> u64
        requires { i < 16 }
        ensures { result ≡ child_at self.entry.image.now self.entry.at i }
    {
        le::u64_at(self.image, self.at + 128 + 8 * i)
    }
}
