// What the checks need of the infos of a filter's clips, gathered in one pass.
ghost use Rattle.std.specs.Prelude.{◌≤◌, ◌*◌};

use crate::shared::{at_place, no_info, same_format, same_size, woven_end};
use fv_plane::Info;

/// What was seen of the infos so far.
#[derive(Clone, Copy)]
pub struct Summary {
    /// The number of infos in all, and so far.
    pub total: usize,
    pub count: usize,
    pub first: Info,
    pub second: Info,
    pub third: Info,
    /// Whether all formats, bits of a sample, sizes, widths or heights are those of the first.
    pub same_formats: bool,
    pub same_bits: bool,
    pub same_sizes: bool,
    pub same_widths: bool,
    pub same_heights: bool,
    /// The length of the clips interleaved.
    pub woven: u128,
    /// The length of the longest clip.
    pub most_frames: u32,
    pub all_frames: u128,
    pub all_widths: u128,
    pub all_heights: u128,
    ghost frames_fit: { all_frames ≤ count * 4294967295 },
    ghost widths_fit: { all_widths ≤ count * 4294967295 },
    ghost heights_fit: { all_heights ≤ count * 4294967295 },
}

impl Summary {
    ghost use Rattle.std.specs.Prelude.{◌≡◌, ◌<◌, List, [], ◌∷◌, ◌++◌};
    ghost use Rattle.fv_plane.specs.declared.format.Info.{Info};
    ghost use Rattle.clip_check.specs.Summaries.{Tells, TellsAll};

    /// Of no infos yet. There will be `total`.
    pub fn new(total: usize) -> Summary
        ensures told { Tells result [] }
        ensures total { result.total ≡ total }
    {
        let none = no_info();
        Summary {
            total,
            count: 0,
            first: none,
            second: none,
            third: none,
            same_formats: true,
            same_bits: true,
            same_sizes: true,
            same_widths: true,
            same_heights: true,
            woven: 0,
            most_frames: 0,
            all_frames: 0,
            all_widths: 0,
            all_heights: 0,
        }
    }

    /// With the next info.
    pub fn with(self, info: Info) -> Summary
        requires room { self.count < self.total }
        ensures told { (infos : List Info) → Tells self infos → Tells result (infos ++ info ∷ []) }
        ensures total { result.total ≡ self.total }
    {
        let first = at_place(self.count, 0, info, self.first);
        Summary {
            total: self.total,
            count: self.count + 1,
            first,
            second: at_place(self.count, 1, info, self.second),
            third: at_place(self.count, 2, info, self.third),
            same_formats: self.same_formats & same_format(info.shape, first.shape),
            same_bits: self.same_bits & (info.shape.bits == first.shape.bits),
            same_sizes: self.same_sizes & same_size(info.shape, first.shape),
            same_widths: self.same_widths & (info.shape.width == first.shape.width),
            same_heights: self.same_heights & (info.shape.height == first.shape.height),
            woven: self
                .woven
                .max(woven_end(self.total, self.count, info.frames)),
            most_frames: self.most_frames.max(info.frames),
            all_frames: self.all_frames + info.frames as u128,
            all_widths: self.all_widths + info.shape.width as u128,
            all_heights: self.all_heights + info.shape.height as u128,
        }
    }

    /// Of these infos.
    pub fn of(infos: &[Info]) -> Summary
        ensures { TellsAll result infos.now }
    {
        let mut summary = Summary::new(infos.len());
        for info in infos {
            summary = summary.with(*info);
        }
        summary
    }
}
