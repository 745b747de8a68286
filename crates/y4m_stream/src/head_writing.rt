// The head as it is written.
ghost use Rattle.std.specs.Prelude.{◌≡◌, IfOk};
ghost use Rattle.y4m_stream.specs.Head.{head, field_name};

use crate::colourspace::colourspace_name;
use fv_plane::{Field, Info};
use std::alloc::{AllocError, Global};

fn field_name(field: Field) -> &'static str
    ensures { result.now ≡ field_name field }
{
    match field {
        Field::Progressive => "p",
        Field::Top => "t",
        Field::Bottom => "b",
        Field::Unknown => "?",
    }
}

/// The head of this info as it is written (yuv4mpeg(5) of mjpegtools), with its newline. An `Err` means out of memory.
pub fn print_head(alloc: Global, info: &Info) -> Result<Vec<u8>, AllocError>
    ensures { IfOk result (λ text. text.items ≡ head info.now) }
{
    let width = info.shape.width;
    let height = info.shape.height;
    let num = info.num;
    let den = info.den;
    let field = field_name(info.field);
    let par_num = info.par.num;
    let par_den = info.par.den;
    let colour = colourspace_name(info.shape.format(), info.tag);
    let text = format!(in alloc;
        "YUV4MPEG2 W{width} H{height} F{num}:{den} I{field} A{par_num}:{par_den} C{colour}\n"
    )?;
    Ok(text.into_bytes())
}
