// Reads requests from standard input, and shows keys. A request is a name's length and the name; the form, the start mode and the
// bound's kind, a byte each; the cursor's length in two bytes and the cursor; the bound key's likewise and the key; the image's length
// in four and the image. What a program reads behind it, it reads by `field`.
//
// What is read stands in a space that is lent: there is no heap. A read that fails counts as the input's end, as does a length whose bytes
// the space cannot hold; a name is any bytes.
//
// Interface: `each`, the loop over them, which asks that its closure may be called at what it reads; `read`, with `Request` and `Mode`, and
// `field`; `line`, which prints; `Hex` and `KeyText`, which show bytes and a key. But for `each` none has a `requires`. specs/Requests.antt has what holds
// of what is read and of the calls, the input itself being free.
#![tactic(auto)]

ghost use Rattle.std.specs.Prelude.{◌≡◌, ◌≤◌, ◌*◌, IfSome, Some, length};
ghost use Rattle.sheet.specs.Sheet.{hex_bytes, hex_key};
ghost use Rattle.requests.specs.Requests.{NamesMode, Fits, Asked, Answered};

use sheet::put_hex;
use std::io::Read;
use std::{fmt, str};

// The most bytes of a name and of a key.
const NAME: usize = 256;

const KEY: usize = 512;

/// The space for a request whose image has at most 65,536 bytes.
pub const SPACE: usize = NAME + KEY + KEY + 65536;

/// A request; `F` is the program's own, of its form.
#[derive(Clone, Copy, Drop)]
pub struct Request<'a, F> {
    pub name: &'a [u8],
    pub form: F,
    pub mode: Mode,
    /// Any number, as a placing takes it.
    pub kind: u8,
    pub cursor: &'a [u8],
    pub bound: &'a [u8],
    pub image: &'a [u8],
}

/// Where a request's walk starts: 0 is above the cursor, 1 from it, and any other the short form.
#[derive(Clone, Copy, Debug, PartialEq, Eq)]
pub enum Mode {
    Above,
    From,
    Short,
}

impl From<u8> for Mode {
    ghost from_gives = { NamesMode };

    fn from(number: u8) -> Mode {
        match number {
            0 => Mode::Above,
            1 => Mode::From,
            _ => Mode::Short,
        }
    }
}

// The number in the next bytes of the input, at most four.
fn number(input: &mut impl Read, width: usize) -> Option<usize> {
    let mut bytes = [0u8; 4];
    input.read_exact(bytes.get_mut(..width)?).ok()?;
    Some(u32::from_le_bytes(bytes) as usize)
}

/// A length of so many bytes, and as many bytes as it says, in the space that is lent.
pub fn field<'a>(input: &mut impl Read, width: usize, space: &'a mut [u8]) -> Option<&'a [u8]>
    ensures { IfSome result (λ bytes. length bytes.now ≤ length space.old) }
{
    let n = number(input, width)?;
    let bytes = space.get_mut(..n)?;
    input.read_exact(bytes).ok()?;
    Some(bytes)
}

/// The next request of the input, in the space that is lent: 256 bytes for its name, 512 for each key, and the rest for its image.
pub fn read<'a, F: From<u8>>(input: &mut impl Read, space: &'a mut [u8]) -> Option<Request<'a, F>>
    ensures { IfSome result (Fits F (length space.old)) }
{
    let (name, rest) = space.split_at_mut_checked(NAME)?;
    let (cursor, rest) = rest.split_at_mut_checked(KEY)?;
    let (bound, image) = rest.split_at_mut_checked(KEY)?;
    let name = field(input, 1, name)?;
    let mut how = [0u8; 3];
    input.read_exact(&mut how).ok()?;
    let cursor = field(input, 2, cursor)?;
    let bound = field(input, 2, bound)?;
    let image = field(input, 4, image)?;
    let [form, mode, kind] = how;
    Some(Request {
        name,
        form: F::from(form),
        mode: Mode::from(mode),
        kind,
        cursor,
        bound,
        image,
    })
}

/// Calls `answer` at each request of the input, `most` times at most; a call that gives `None` is the last. It has the input too, and may read
/// what stands behind its request.
// (The closure is lent, so that what it has become says how it was called. An iterator hands out no slices of a space that is lent.)
#[tactic(auto, using(crate::proofs::Answering::at_end))]
pub fn each<F: From<u8> + Drop, R: Read, A: FnMut(&Request<F>, &mut R) -> Option<()>>(
    input: &mut R,
    most: usize,
    answer: &mut A,
)
    requires { (f : _) (request : _) (rest : _) → Fits F SPACE request.now → A.pre f request rest }
    ensures { Answered (Asked A.FnMut SPACE) most answer.old answer.new }
{
    let mut space = [0u8; SPACE];
    for _ in 0..most {
        let Some(request) = read(input, &mut space) else {
            return;
        };
        if answer(&request, input).is_none() {
            return;
        }
    }
}

/// Prints a line of a name and the rest; a write that fails is passed over.
pub fn line(rt: &impl Print, name: &[u8], rest: impl fmt::Display + Drop) {
    let _ = rt.write_all(name);
    let _ = rt.println(rest);
}

// How many bytes are shown at a time: a write for each byte's digits costs far more.
const PIECE: usize = 32;

// The digits of a piece, written at the front of the space that is lent: always text, so that the empty one is never given.
fn digits<'a>(space: &'a mut [u8], piece: &[u8]) -> &'a str
    requires { 2 * length piece.now ≤ length space.old }
    ensures { result.now ≡ hex_bytes piece.now }
{
    put_hex(space, piece);
    str::from_utf8(&space[..2 * piece.len()]).unwrap_or("")
}

/// Bytes in hex, two digits each, as a sheet has them.
#[derive(Drop)]
pub struct Hex<'a>(pub &'a [u8]);

impl fmt::Display for Hex<'_> {
    ghost output = { λ h. Some (hex_bytes h.0.now) };

    fn fmt<W: fmt::Write>(&self, f: &mut fmt::Formatter<W>) -> fmt::Result {
        let mut space = [0u8; 2 * PIECE];
        for piece in self.0.chunks(PIECE) {
            let text = digits(&mut space, piece);
            f.write_str(text)?;
        }
        Ok(())
    }
}

/// A key in hex, `-` for the empty one, as a sheet has it.
#[derive(Drop)]
pub struct KeyText<'a>(pub &'a [u8]);

impl fmt::Display for KeyText<'_> {
    ghost output = { λ k. Some (hex_key k.0.now) };

    #[tactic(auto, using(sheet::proofs::Hex::hex_key_none, sheet::proofs::Hex::hex_key_some))]
    fn fmt<W: fmt::Write>(&self, f: &mut fmt::Formatter<W>) -> fmt::Result {
        if self.0.is_empty() {
            return f.write_str("-");
        }
        write!(f, "{}", Hex(self.0))
    }
}
