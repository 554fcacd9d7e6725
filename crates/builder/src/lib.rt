// An image built from a sheet (02 [2]).
//
// Interface: `build`, which takes any two byte slices and has no `requires`. It goes over the sheet three times: to find its faults, to
// count the image's bytes, and to write them; so nothing is written where it declines, and it needs no memory but what it is lent.
#![tactic(auto)]

ghost use Rattle.std.specs.Prelude.{◌≡◌, ◌+◌, ◌≤◌};
ghost use Rattle.base.specs.Kit.{length, drop};
ghost use Rattle.layering.specs.Accepted.{end_n};
ghost use Rattle.reading.specs.Pairs.{pairs_in};
ghost use Rattle.building.specs.Shape.{shape};
ghost use Rattle.building.specs.Build.{build};
ghost use Rattle.builder.specs.Answer.{built, built_out};

use base::Decline;
use groups::{LayerLines, layer_size};
use image_out::{put_le, put_trailer};
use layers_out::write_layer;
use reading::read_sheet;

// The longest image, and the bytes of one that are no record's: the first eight, which are not read, and the trailer.
const LONGEST: usize = 16777216;

const FRAME: usize = 40;

/// The image of a sheet into lent output: its length.
#[tactic(auto, using(crate::proofs::Answered::build_rules))]
pub fn build(sheet: &[u8], out: &mut [u8]) -> Result<usize, Decline>
    ensures { (result ≡ built sheet.now (length out.old))
        × (out.new ≡ built_out sheet.now out.old) }
{
    let opened = read_sheet(sheet)?;
    let top = LayerLines {
        sheet,
        below: 31,
        line: opened.line,
        left: opened.count,
    };
    let size = layer_size(top);
    let end = size + FRAME;
    if LONGEST < end || out.len() < end {
        return Err(Decline::ImageRoom);
    }
    write_image(&mut out[..end], top);
    Ok(end)
}

// The image of a top layer's lines, in output of just its length.
#[tactic(auto, using(crate::proofs::Image::image_rules))]
fn write_image(out: &mut [u8], top: LayerLines)
    requires is_top { top.below ≡ 31 }
    requires out_len { length out.old ≡ end_n 8 (shape (pairs_in top.left (drop top.line top.sheet.now))) + 32 }
    requires out_len_bound { length out.old ≤ 16777216 }
    ensures { out.new ≡ build (pairs_in top.entry.left (drop top.entry.line top.entry.sheet.now)) }
{
    put_le(out, 0, 8, 0);
    let r = write_layer(out, 8, top);
    put_trailer(out, r.at, r.node as u64, top.left as u64);
}
