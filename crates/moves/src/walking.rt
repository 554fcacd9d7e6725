// A walk over its image, as Start, Retry and FindNext go on with it.
ghost use Rattle.std.specs.Prelude.{◌≡◌, ◌+◌, ◌≤◌};

use crate::context::ScanCtx;
use cursor::cursor_key::CursorReader;

// The walk's key lies within the buffer. (No fact of ScanCtx's own: a record may hold any numbers, and definitions go over any.)
#[derive(Clone, Copy)]
pub struct Walking<'a> {
    pub image: &'a [u8],
    pub ctx: ScanCtx,
    ghost in_buffer: { ctx.cursor.offset + ctx.cursor.len ≤ 256 },
}

impl<'a> Walking<'a> {
    pub fn cursor<'b>(self, buf: &'b [u8; 256]) -> CursorReader<'b>
        ensures place { result.place ≡ self.entry.ctx.cursor }
        ensures buf { result.buf.now ≡ buf.now }
    {
        CursorReader {
            place: self.ctx.cursor,
            buf,
        }
    }
}
