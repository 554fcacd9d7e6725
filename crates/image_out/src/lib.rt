// The writers of an image's records into lent output: numbers, rows of words, a leaf, an internode, a suffix, the trailer. Each puts the
// bytes that building/specs/Build.antt fixes, from a place on, and leaves the rest of the output as it was.
//
// Interface: every public function. Each asks that the output has room for what it writes. A leaf's and an internode's numbers are
// collected in a record by value, `LeafSlots` and `Children`, and written at once.
//
// The output and a place in it stay two parameters: a struct of both would be made anew for each call, which has a place and a room of its own.
#![tactic(auto)]

ghost use Rattle.std.specs.Prelude.{◌∷◌, ◌++◌, ◌≡◌, ◌+◌, ◌-◌, ◌*◌, ◌/◌, ◌^◌, ◌≤◌, ◌<◌};
ghost use Rattle.base.specs.Kit.{List, [], ℕ, length, replicate};
ghost use Rattle.base.specs.Pick.{pick};
ghost use Rattle.layering.specs.Tree.{Fields};
ghost use Rattle.building.specs.Build.{le_bytes, words, suffix_word, leaf_bytes};
ghost use Rattle.building.specs.CodeWritten.{put, linked};
ghost use Rattle.building.specs.CodeSiblings.{internode_row};
ghost use Rattle.image_out.specs.CodeRows.{slots_of, HoldsSlots, fresh_head, children_of, whole_words, trailer_bytes};

use key::copy_in;

// A leaf's slots so far: a row for each field, zero past them; the live mask, and the next slot's bit of it; how many there are.
// Rows, and no array of slots: the leaf has these very rows, and each is written whole.
#[derive(Clone, Copy)]
pub struct LeafSlots {
    pub ikeys: [u64; 15],
    pub lens: [u8; 15],
    pub values: [u64; 15],
    pub suffixes: [u64; 15],
    pub mask: u64,
    pub bit: u64,
    pub n: usize,
}

// One slot's fields; `suffix` is its suffix word, 0 where it has none, as the leaf's row has it.
#[derive(Clone, Copy)]
pub struct SlotFields {
    pub ikey: u64,
    pub keylenx: u8,
    pub value: u64,
    pub suffix: u64,
    pub live: bool,
}

// An internode's separators and children so far, zero past them; how many separators there are.
// Rows, and no array of pairs: the internode has these very rows, and each is written whole; it has one child more than separators.
#[derive(Clone, Copy)]
pub struct Children {
    pub separators: [u64; 15],
    pub nodes: [u64; 16],
    pub n: usize,
}

// The bytes of s into out from `at` on, and zeros behind them, n bytes in all.
fn put_filled(out: &mut [u8], at: usize, s: &[u8], n: usize)
    requires len_bound { length s.now ≤ n }
    requires at_in_bounds { at + n ≤ length out.old }
    ensures { out.new ≡ put out.old at (s.now ++ replicate (n - length s.now) 0) }
{
    copy_in(out, at, s);
    out[at + s.len()..at + n].fill(0);
}

// The low n bytes of x into out from `at` on, the lowest first; a number has eight, and those past them are zero.
#[tactic(auto, using(crate::proofs::PutLaws::bytes_filled))]
pub fn put_le(out: &mut [u8], at: usize, n: usize, x: u64)
    requires { at + n ≤ length out.old }
    ensures { out.new ≡ put out.old at (le_bytes n x) }
{
    let bytes = x.to_le_bytes();
    put_filled(out, at, &bytes[..n.min(8)], n);
}

// The numbers of a row as words of eight bytes into out from `at` on.
// (By index. Tried: over `chunks_exact_mut` of the part, zipped with the row; nothing is known of what was written behind such a loop, and the
// proof did not close.)
#[tactic(auto, using(crate::proofs::PutLaws::rows_put))]
pub fn put_words(out: &mut [u8], at: usize, row: &[u64])
    requires { at + 8 * length row.now ≤ length out.old }
    ensures { out.new ≡ put out.old at (words 8 (length row.now) row.now) }
{
    for (i, x) in row.iter().enumerate() {
        put_le(out, at + 8 * i, 8, *x);
    }
}

// A leaf's fifteen `keylenx` bytes and the zero byte behind them.
#[tactic(auto, using(crate::proofs::PutRows::bytes_words))]
fn put_lens(out: &mut [u8], at: usize, lens: &[u8; 15])
    requires { at + 16 ≤ length out.old }
    ensures { out.new ≡ put out.old at (words 1 15 lens.now ++ replicate 1 0) }
{
    put_filled(out, at, lens, 16);
}

// No slots.
#[tactic(auto, unfolding(crate::specs::CodeRows::slots_of, crate::specs::CodeRows::row_of, building::specs::Build::mask))]
pub fn no_slots() -> LeafSlots
    ensures { result ≡ slots_of [] }
{
    LeafSlots {
        ikeys: [0; 15],
        lens: [0; 15],
        values: [0; 15],
        suffixes: [0; 15],
        mask: 0,
        bit: 1,
        n: 0,
    }
}

// The live mask with one slot more.
#[tactic(auto, unfolding(base::specs::Pick::pick))]
fn mask_with(mask: u64, bit: u64, live: bool) -> u64
    requires { mask + bit < 65536 }
    ensures { result ≡ mask + pick live bit 0 }
{
    if live { mask + bit } else { mask }
}

// The slots and one more behind them.
#[tactic(auto, using(crate::proofs::Rows::slot_rules))]
pub fn add_slot(mut s: LeafSlots, slot: SlotFields) -> LeafSlots
    requires { HoldsSlots 14 s }
    ensures { (fs : List Fields) (f : Fields) → s ≡ slots_of fs → f.ikey ≡ slot.ikey → f.keylenx ≡ slot.keylenx → f.value ≡ slot.value
        → suffix_word f ≡ slot.suffix → f.live ≡ slot.live → result ≡ slots_of (fs ++ (f ∷ [])) }
{
    s.ikeys[s.n] = slot.ikey;
    s.lens[s.n] = slot.keylenx;
    s.values[s.n] = slot.value;
    s.suffixes[s.n] = slot.suffix;
    s.mask = mask_with(s.mask, s.bit, slot.live);
    s.bit *= 2;
    s.n += 1;
    s
}

// A leaf's first sixteen bytes: the version with bit 31 alone, the live mask, the identity permutation with n used slots.
#[tactic(auto, using(crate::proofs::RecordBytes::head_puts))]
fn put_leaf_head(out: &mut [u8], at: usize, mask: u64, n: usize)
    requires at_in_bounds { at + 16 ≤ length out.old }
    requires n_bound { n ≤ 15 }
    ensures { out.new ≡ put out.old at (le_bytes 4 (2 ^ 31) ++ le_bytes 4 mask ++ le_bytes 8 (0xedcba98765432100 + n)) }
{
    put_le(out, at, 4, 1 << 31);
    put_le(out, at + 4, 4, mask);
    put_le(out, at + 8, 8, 0xedcb_a987_6543_2100 + (n as u64));
}

// A leaf with these slots and no leaf behind it, from `at` on.
#[tactic(auto, using(crate::proofs::Rows::slots_n))]
pub fn put_leaf(out: &mut [u8], at: usize, s: LeafSlots)
    requires at_in_bounds { at + 400 ≤ length out.old }
    requires holds_slots { HoldsSlots 15 s }
    ensures { (fs : List Fields) → s ≡ slots_of fs
        → out.new ≡ put out.old at (leaf_bytes (fresh_head at (length fs)) fs) }
{
    put_leaf_head(out, at, s.mask, s.n);
    put_words(out, at + 16, &s.ikeys);
    put_lens(out, at + 136, &s.lens);
    put_words(out, at + 152, &s.values);
    put_words(out, at + 272, &s.suffixes);
    put_le(out, at + 392, 8, 0);
}

// One child and no separator.
#[tactic(auto, unfolding(crate::specs::CodeRows::children_of, crate::specs::CodeRows::row_of))]
pub fn first_child(node: u64) -> Children
    ensures { result ≡ children_of [] (node ∷ []) }
{
    let mut nodes = [0u64; 16];
    nodes[0] = node;
    Children {
        separators: [0; 15],
        nodes,
        n: 0,
    }
}

// The children and one more behind them, with the separator before it.
#[tactic(auto, using(crate::proofs::Rows::child_rules))]
pub fn add_child(mut c: Children, separator: u64, node: u64) -> Children
    requires { c.n < 15 }
    ensures { (xs cs : List ℕ) → c ≡ children_of xs cs → length cs ≡ length xs + 1
        → result ≡ children_of (xs ++ (separator ∷ [])) (cs ++ (node ∷ [])) }
{
    c.separators[c.n] = separator;
    c.n += 1;
    c.nodes[c.n] = node;
    c
}

// An internode with these children, from `at` on.
pub fn put_internode(out: &mut [u8], at: usize, c: Children)
    requires { at + 256 ≤ length out.old }
    ensures { (xs cs : List ℕ) → c ≡ children_of xs cs → length xs ≤ 15 → out.new ≡ put out.old at (internode_row (length xs) xs cs) }
{
    put_le(out, at, 4, 0);
    put_le(out, at + 4, 4, c.n as u64);
    put_words(out, at + 8, &c.separators);
    put_words(out, at + 128, &c.nodes);
}

// The layer's previous leaf, where there is one, names this one; 0 is none, as a leaf's own `next` has it.
#[tactic(auto, unfolding(building::specs::CodeWritten::linked, base::specs::Pick::pick), using(std::proofs::lemmas::Bool::Decides::nat_tests))]
pub fn link(out: &mut [u8], prev: usize, leaf: usize)
    requires { prev + 400 ≤ length out.old }
    ensures { out.new ≡ linked prev leaf out.old }
{
    if prev != 0 {
        put_le(out, prev + 392, 8, leaf as u64);
    }
}

// The bytes of s into out from `at` on, and zeros behind them up to a multiple of eight; the place behind these.
pub fn put_padded(out: &mut [u8], at: usize, s: &[u8]) -> usize
    requires { at + (length s.now + 7) / 8 * 8 ≤ length out.old }
    ensures { (result ≡ at + (length s.now + 7) / 8 * 8)
        × (out.new ≡ put out.old at (whole_words s.now)) }
{
    let room = s.len().next_multiple_of(8);
    put_filled(out, at, s, room);
    at + room
}

// The trailer of an image whose records end at `at`.
#[tactic(auto, using(crate::proofs::RecordBytes::trailer_puts))]
pub fn put_trailer(out: &mut [u8], at: usize, root: u64, count: u64)
    requires { at + 32 ≤ length out.old }
    ensures { out.new ≡ put out.old at (trailer_bytes at root count) }
{
    put_le(out, at, 8, root);
    put_le(out, at + 8, 8, count);
    put_le(out, at + 16, 8, (at + 32) as u64);
    put_le(out, at + 24, 8, 1);
}
