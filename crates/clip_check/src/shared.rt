// Tests and refusals that several groups share.
ghost use Rattle.std.specs.Prelude.{◌≡◌, ◌+◌, ◌-◌, ◌*◌, ◌==◌, if◌then◌else◌, ◌∷◌, [], not};
ghost use Rattle.fv_plane.specs.Refusals.{first_fault};
ghost use Rattle.clip_term.specs.declared.fault.FilterFault.TheVariants.{BadRange, FormatDiffers, SizeDiffers};
ghost use Rattle.clip_term.specs.Refusals.{no_info, beyond, same_format, same_size, is_whole};

use clip_term::FilterFault;
use fv_plane::{Field, Info, Par, PixelType, Shape, Tag};

/// What stands where an input is missing.
pub fn no_info() -> Info
    ensures { result ≡ no_info }
{
    Info {
        shape: Shape {
            kind: PixelType::Y8,
            bits: 8,
            width: 0,
            height: 0,
        },
        frames: 0,
        num: 0,
        den: 1,
        field: Field::Progressive,
        par: Par { num: 0, den: 0 },
        tag: Tag::Jpeg,
    }
}

/// The info of a place among the inputs: `info` if that is its place, else `before`.
pub fn at_place(index: usize, place: usize, info: Info, before: Info) -> Info
    ensures { result ≡ (if index == place then info else before) }
{
    if index == place { info } else { before }
}

/// Whether two shapes have one format.
pub fn same_format(a: Shape, b: Shape) -> bool
    ensures { result ≡ same_format a b }
{
    a.kind == b.kind && a.bits == b.bits
}

/// Whether two shapes have one size.
pub fn same_size(a: Shape, b: Shape) -> bool
    ensures { result ≡ same_size a b }
{
    a.width == b.width && a.height == b.height
}

/// In an interleaving of `total` clips, one past the last frame of the clip at `index`.
pub fn woven_end(total: usize, index: usize, frames: u32) -> u128
    ensures { result ≡ (frames - 1) * total + index + 1 }
{
    frames.saturating_sub(1) as u128 * total as u128 + index as u128 + 1
}

/// Whether a number is not 0 to `most`.
pub fn beyond(number: i32, most: u32) -> bool
    ensures { result ≡ beyond number most }
{
    number < 0 || number as i64 > most as i64
}

/// Whether whole chroma samples cover a part of this size.
pub fn is_whole(shape: Shape, width: u64, height: u64) -> bool
    ensures { result ≡ is_whole shape width height }
{
    width % shape.kind.sub_w() as u64 == 0 && height % shape.kind.sub_h() as u64 == 0
}

/// The refusal of bad arguments.
pub fn bad_range(bad: bool) -> Option<FilterFault>
    ensures { result ≡ first_fault ((BadRange, bad) ∷ []) }
{
    if bad {
        Some(FilterFault::BadRange)
    } else {
        None
    }
}

/// The refusal of clips of several formats, and then of several sizes.
pub fn disagreement(same_formats: bool, same_sizes: bool) -> Option<FilterFault>
    ensures { result ≡ first_fault ((FormatDiffers, not same_formats) ∷ (SizeDiffers, not same_sizes) ∷ []) }
{
    if !same_formats {
        Some(FilterFault::FormatDiffers)
    } else if !same_sizes {
        Some(FilterFault::SizeDiffers)
    } else {
        None
    }
}
