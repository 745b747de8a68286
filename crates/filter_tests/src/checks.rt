// The check of each group, and the texts of matrices.
use clip_check::{
    check_blank_info, check_choice, check_field, check_join, check_soft, check_space, check_time,
};
use clip_term::{FieldOp, JoinOp, RunExpr, RunOp, SoftOp, SpaceOp, TimeOp};
use flt_soft::{MatrixFault, read_matrix};
use fv_plane::{Field, Info, Par, PixelType, Shape, Tag};
use std::test::Fail;

const CLIP: Info = Info {
    shape: Shape {
        kind: PixelType::YV12,
        bits: 8,
        width: 4,
        height: 2,
    },
    frames: 9,
    num: 25,
    den: 1,
    field: Field::Top,
    par: Par { num: 4, den: 3 },
    tag: Tag::Mpeg2,
};

#[test]
fn checks_pass_a_clip_on(rt: HostRuntime) {
    let soften = SoftOp::TemporalSoften {
        radius: 7,
        luma: 255,
        chroma: 0,
    };
    let select = RunOp::Select {
        expr: RunExpr::CurrentFrame,
    };
    for checked in [
        check_blank_info(CLIP),
        check_time(&TimeOp::Reverse, &[CLIP]),
        check_space(&SpaceOp::Turn180, &[CLIP]),
        check_join(&JoinOp::Merge, &[CLIP, CLIP]),
        check_soft(&soften, &[CLIP]),
        check_field(&FieldOp::AssumeTFF, &[CLIP]),
        check_choice(&select, &[CLIP, CLIP]),
    ] {
        assert_eq!(rt; checked, Ok(CLIP));
    }
}

#[test]
fn reads_matrices(rt: HostRuntime) -> Result<(), Fail> {
    let alloc = rt.alloc();
    for (text, fault) in [
        (" 0 -1\n0 0\t1024 0 0 0 -1024", None),
        ("1 2 3", Some(MatrixFault::BadText)),
        (
            "1 1 1 1 1 1 1 1 1 1 1 1 1 1 1 1 1 1 1 1 1 1 1 1 1 1",
            Some(MatrixFault::BadText),
        ),
    ] as [(&str, Option<MatrixFault>); 3]
    {
        assert_eq!(rt; read_matrix(alloc, text).err(), fault);
    }
    Ok(())
}
