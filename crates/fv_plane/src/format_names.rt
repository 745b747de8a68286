// The formats by their names.
ghost use Rattle.std.specs.Prelude.{◌≡◌, IfSome, true};
ghost use Rattle.fv_plane.specs.Format.{has_depth, format_named, has_name};

use crate::{PixelType, Shape};

/// What the samples of a frame are, without its size.
#[derive(Clone, Copy, Debug, PartialEq, Eq)]
pub struct Format {
    pub kind: PixelType,
    pub bits: u8,
}

impl Format {
    ghost use Rattle.std.specs.Prelude.{◌≡◌};
    ghost use Rattle.fv_plane.specs.Format.{name_of};

    /// Each format once.
    pub const ALL: [Format; 21] = [
        Format {
            kind: PixelType::Y8,
            bits: 8,
        },
        Format {
            kind: PixelType::YV12,
            bits: 8,
        },
        Format {
            kind: PixelType::YV16,
            bits: 8,
        },
        Format {
            kind: PixelType::YV24,
            bits: 8,
        },
        Format {
            kind: PixelType::YV411,
            bits: 8,
        },
        Format {
            kind: PixelType::Y8,
            bits: 10,
        },
        Format {
            kind: PixelType::YV12,
            bits: 10,
        },
        Format {
            kind: PixelType::YV16,
            bits: 10,
        },
        Format {
            kind: PixelType::YV24,
            bits: 10,
        },
        Format {
            kind: PixelType::Y8,
            bits: 12,
        },
        Format {
            kind: PixelType::YV12,
            bits: 12,
        },
        Format {
            kind: PixelType::YV16,
            bits: 12,
        },
        Format {
            kind: PixelType::YV24,
            bits: 12,
        },
        Format {
            kind: PixelType::Y8,
            bits: 14,
        },
        Format {
            kind: PixelType::YV12,
            bits: 14,
        },
        Format {
            kind: PixelType::YV16,
            bits: 14,
        },
        Format {
            kind: PixelType::YV24,
            bits: 14,
        },
        Format {
            kind: PixelType::Y8,
            bits: 16,
        },
        Format {
            kind: PixelType::YV12,
            bits: 16,
        },
        Format {
            kind: PixelType::YV16,
            bits: 16,
        },
        Format {
            kind: PixelType::YV24,
            bits: 16,
        },
    ];

    /// The name in scripts, as it is written in reports.
    pub fn name(self) -> &'static str
        ensures { result.now ≡ name_of self }
    {
        match (self.kind, self.bits) {
            (PixelType::Y8, 8) => "Y8",
            (PixelType::Y8, 10) => "Y10",
            (PixelType::Y8, 12) => "Y12",
            (PixelType::Y8, 14) => "Y14",
            (PixelType::Y8, _) => "Y16",
            (PixelType::YV12, 8) => "YV12",
            (PixelType::YV12, 10) => "YUV420P10",
            (PixelType::YV12, 12) => "YUV420P12",
            (PixelType::YV12, 14) => "YUV420P14",
            (PixelType::YV12, _) => "YUV420P16",
            (PixelType::YV16, 8) => "YV16",
            (PixelType::YV16, 10) => "YUV422P10",
            (PixelType::YV16, 12) => "YUV422P12",
            (PixelType::YV16, 14) => "YUV422P14",
            (PixelType::YV16, _) => "YUV422P16",
            (PixelType::YV24, 8) => "YV24",
            (PixelType::YV24, 10) => "YUV444P10",
            (PixelType::YV24, 12) => "YUV444P12",
            (PixelType::YV24, 14) => "YUV444P14",
            (PixelType::YV24, _) => "YUV444P16",
            (PixelType::YV411, _) => "YV411",
        }
    }
}

impl Shape {
    ghost use Rattle.std.specs.Prelude.{◌≡◌};
    ghost use Rattle.fv_plane.specs.Format.{format_name, format_of};

    /// The format, without the size.
    pub fn format(self) -> Format
        ensures { result ≡ format_of self }
    {
        Format {
            kind: self.kind,
            bits: self.bits,
        }
    }

    /// The name of the format.
    pub fn format_name(self) -> &'static str
        ensures { result.now ≡ format_name self }
    {
        self.format().name()
    }
}

fn has_name(text: &str, format: Format) -> bool
    ensures { result ≡ has_name text.now format }
{
    text.eq_ignore_ascii_case(format.name())
}

fn find_named(text: &str) -> Option<Format>
    ensures { result ≡ format_named text.now }
{
    Format::ALL
        .iter()
        .copied()
        .find(|format| has_name(text, *format))
}

/// The format of a name, in any case of letters. `None` comes exactly where the text is no such name.
pub fn format_named(text: &str) -> Option<Format>
    ensures found { result ≡ format_named text.now }
    ensures legal { IfSome result (λ format. has_depth format.kind format.bits ≡ true) }
{
    find_named(text)
}
