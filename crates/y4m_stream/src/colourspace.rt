// The names of formats of the chroma (yuv4mpeg(5) of mjpegtools, and for more than eight bits as ffmpeg writes them).
ghost use Rattle.std.specs.Prelude.{◌≡◌, IfSome, true};
ghost use Rattle.std.specs.Str.{bytes_eq};
ghost use Rattle.fv_plane.specs.Format.{has_depth};
ghost use Rattle.y4m_stream.specs.Head.{narrow_name, deep_name, colourspace_name, colourspace_named, has_name};

use fv_plane::{Format, PixelType, Tag};

/// All formats, and places of their chroma samples, that have a name of their own.
const COLOURSPACES: [(Format, Tag); 24] = [
    (
        Format {
            kind: PixelType::YV12,
            bits: 8,
        },
        Tag::Jpeg,
    ),
    (
        Format {
            kind: PixelType::YV12,
            bits: 8,
        },
        Tag::Mpeg2,
    ),
    (
        Format {
            kind: PixelType::YV12,
            bits: 8,
        },
        Tag::Paldv,
    ),
    (
        Format {
            kind: PixelType::YV12,
            bits: 8,
        },
        Tag::Plain,
    ),
    (
        Format {
            kind: PixelType::YV16,
            bits: 8,
        },
        Tag::Jpeg,
    ),
    (
        Format {
            kind: PixelType::YV24,
            bits: 8,
        },
        Tag::Jpeg,
    ),
    (
        Format {
            kind: PixelType::YV411,
            bits: 8,
        },
        Tag::Jpeg,
    ),
    (
        Format {
            kind: PixelType::Y8,
            bits: 8,
        },
        Tag::Jpeg,
    ),
    (
        Format {
            kind: PixelType::YV12,
            bits: 10,
        },
        Tag::Jpeg,
    ),
    (
        Format {
            kind: PixelType::YV16,
            bits: 10,
        },
        Tag::Jpeg,
    ),
    (
        Format {
            kind: PixelType::YV24,
            bits: 10,
        },
        Tag::Jpeg,
    ),
    (
        Format {
            kind: PixelType::Y8,
            bits: 10,
        },
        Tag::Jpeg,
    ),
    (
        Format {
            kind: PixelType::YV12,
            bits: 12,
        },
        Tag::Jpeg,
    ),
    (
        Format {
            kind: PixelType::YV16,
            bits: 12,
        },
        Tag::Jpeg,
    ),
    (
        Format {
            kind: PixelType::YV24,
            bits: 12,
        },
        Tag::Jpeg,
    ),
    (
        Format {
            kind: PixelType::Y8,
            bits: 12,
        },
        Tag::Jpeg,
    ),
    (
        Format {
            kind: PixelType::YV12,
            bits: 14,
        },
        Tag::Jpeg,
    ),
    (
        Format {
            kind: PixelType::YV16,
            bits: 14,
        },
        Tag::Jpeg,
    ),
    (
        Format {
            kind: PixelType::YV24,
            bits: 14,
        },
        Tag::Jpeg,
    ),
    (
        Format {
            kind: PixelType::Y8,
            bits: 14,
        },
        Tag::Jpeg,
    ),
    (
        Format {
            kind: PixelType::YV12,
            bits: 16,
        },
        Tag::Jpeg,
    ),
    (
        Format {
            kind: PixelType::YV16,
            bits: 16,
        },
        Tag::Jpeg,
    ),
    (
        Format {
            kind: PixelType::YV24,
            bits: 16,
        },
        Tag::Jpeg,
    ),
    (
        Format {
            kind: PixelType::Y8,
            bits: 16,
        },
        Tag::Jpeg,
    ),
];

// The name of a format of eight bits. Only that of 4:2:0 depends on the tag.
fn narrow_name(kind: PixelType, tag: Tag) -> &'static str
    ensures { result.now ≡ narrow_name kind tag }
{
    match kind {
        PixelType::Y8 => "mono",
        PixelType::YV12 => match tag {
            Tag::Jpeg => "420jpeg",
            Tag::Mpeg2 => "420mpeg2",
            Tag::Paldv => "420paldv",
            Tag::Plain => "420",
        },
        PixelType::YV16 => "422",
        PixelType::YV24 => "444",
        PixelType::YV411 => "411",
    }
}

fn name_of_10_bits(kind: PixelType) -> &'static str
    ensures { result.now ≡ deep_name kind 10 }
{
    match kind {
        PixelType::Y8 => "mono10",
        PixelType::YV12 => "420p10",
        PixelType::YV16 => "422p10",
        PixelType::YV24 => "444p10",
        PixelType::YV411 => "411",
    }
}

fn name_of_12_bits(kind: PixelType) -> &'static str
    ensures { result.now ≡ deep_name kind 12 }
{
    match kind {
        PixelType::Y8 => "mono12",
        PixelType::YV12 => "420p12",
        PixelType::YV16 => "422p12",
        PixelType::YV24 => "444p12",
        PixelType::YV411 => "411",
    }
}

fn name_of_14_bits(kind: PixelType) -> &'static str
    ensures { result.now ≡ deep_name kind 14 }
{
    match kind {
        PixelType::Y8 => "mono14",
        PixelType::YV12 => "420p14",
        PixelType::YV16 => "422p14",
        PixelType::YV24 => "444p14",
        PixelType::YV411 => "411",
    }
}

fn name_of_16_bits(kind: PixelType) -> &'static str
    ensures { result.now ≡ deep_name kind 16 }
{
    match kind {
        PixelType::Y8 => "mono16",
        PixelType::YV12 => "420p16",
        PixelType::YV16 => "422p16",
        PixelType::YV24 => "444p16",
        PixelType::YV411 => "411",
    }
}

/// The name of a format. Only that of 4:2:0 with eight bits depends on the tag.
pub(crate) fn colourspace_name(format: Format, tag: Tag) -> &'static str
    ensures { result.now ≡ colourspace_name format tag }
{
    match format.bits {
        8 => narrow_name(format.kind, tag),
        10 => name_of_10_bits(format.kind),
        12 => name_of_12_bits(format.kind),
        14 => name_of_14_bits(format.kind),
        _ => name_of_16_bits(format.kind),
    }
}

fn has_name(name: &[u8], colourspace: (Format, Tag)) -> bool
    ensures { result ≡ has_name name.now colourspace }
{
    name == colourspace_name(colourspace.0, colourspace.1).as_bytes()
}

fn find_named(name: &[u8]) -> Option<(Format, Tag)>
    ensures { result ≡ colourspace_named name.now }
{
    COLOURSPACES
        .iter()
        .copied()
        .find(|colourspace| has_name(name, *colourspace))
}

/// The format that has this name, and where its chroma samples lie.
pub(crate) fn colourspace_named(name: &[u8]) -> Option<(Format, Tag)>
    ensures found { result ≡ colourspace_named name.now }
    ensures legal { IfSome result (λ found. has_depth found.0.kind found.0.bits ≡ true) }
{
    find_named(name)
}
