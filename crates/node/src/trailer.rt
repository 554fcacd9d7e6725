// The trailer's fields: the last 32 bytes of an image.
ghost use Rattle.std.specs.Prelude.{◌≡◌, ◌≤◌};
ghost use Rattle.base.specs.Kit.{length};
ghost use Rattle.node.specs.Layout.{root_offset, key_count, stated_length, edition};
ghost use Rattle.node.specs.Heading.{length_ok, heading};

use crate::le;
use base::Decline;

// An image that is long enough to have a trailer.
#[derive(Clone, Copy)]
pub struct Trailer<'a> {
    pub image: &'a [u8],
    ghost whole: { 32 ≤ length image.now },
}

impl<'a> Trailer<'a> {
    pub fn root(self) -> u64
        ensures { result ≡ root_offset self.entry.image.now }
    {
        le::u64_at(self.image, self.image.len() - 32)
    }

    pub fn key_count(self) -> u64
        ensures { result ≡ key_count self.entry.image.now }
    {
        le::u64_at(self.image, self.image.len() - 24)
    }

    fn stated_length(self) -> u64
        ensures { result ≡ stated_length self.entry.image.now }
    {
        le::u64_at(self.image, self.image.len() - 16)
    }

    fn edition(self) -> u64
        ensures { result ≡ edition self.entry.image.now }
    {
        le::u64_at(self.image, self.image.len() - 8)
    }
}

// Whether an image may have n bytes.
#[tactic(auto, unfolding(crate::specs::Heading::length_ok))]
pub fn is_length_ok(n: usize) -> bool
    ensures { result ≡ length_ok n }
{
    440 <= n && n <= 16777216 && n % 8 == 0
}

// 01's numbers 1 and 2, tried before anything else of an image is read.
#[tactic(auto, unfolding(crate::specs::Heading::heading, base::specs::Pick::pick))]
pub fn check_heading(image: &[u8]) -> Result<(), Decline>
    ensures { result ≡ heading image.now }
{
    let n = image.len();
    if !is_length_ok(n) {
        return Err(Decline::ImageLength);
    }
    let trailer = Trailer { image };
    if trailer.stated_length() != (n as u64) || trailer.edition() != 1 {
        return Err(Decline::Trailer);
    }
    Ok(())
}
