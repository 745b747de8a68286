// The ops that are compared: in each row one of each group.
ghost use Rattle.std.specs.Prelude.{◌≡◌, IfOk};
ghost use Rattle.clip_term.specs.Terms.{act_of, IsSound};
ghost use Rattle.clip_reference.specs.Ready.{IsFilter};

use clip_term::{
    FieldOp, JoinOp, Op, PlaneStat, RunExpr, RunOp, SoftOp, SpaceOp, TimeOp, TrimBound,
};
use flt_soft::read_matrix;
use std::alloc::Global;
use std::test::Fail;

// An op over the first clip.
pub fn time_op(row: u32) -> Op
    ensures filter { IsFilter (act_of result) }
    ensures sound { IsSound (act_of result) 1 }
{
    match row {
        0 => Op::Time(TimeOp::Reverse),
        1 => Op::Time(TimeOp::Trim {
            first: 1,
            bound: TrimBound::Length(3),
        }),
        2 => Op::Time(TimeOp::FreezeFrame {
            first: 1,
            last: 3,
            source: 4,
        }),
        5 => Op::Field(FieldOp::ComplementParity),
        6 => Op::Field(FieldOp::SwapFields),
        _ => Op::Time(TimeOp::SelectOdd),
    }
}

// An op over what was made of the first clip, and the second.
pub fn pair_op(row: u32) -> Op
    ensures filter { IsFilter (act_of result) }
    ensures sound { IsSound (act_of result) 2 }
{
    match row {
        0 => Op::Join(JoinOp::Merge),
        1 => Op::Join(JoinOp::StackHorizontal),
        2 => Op::Time(TimeOp::UnalignedSplice),
        5 => Op::Run(RunOp::Select {
            expr: RunExpr::CurrentFrame,
        }),
        6 => Op::Run(RunOp::Select {
            expr: RunExpr::Plane {
                plane: 0,
                stat: PlaneStat::Least,
            },
        }),
        _ => Op::Join(JoinOp::StackVertical),
    }
}

pub fn space_op(row: u32) -> Op
    ensures filter { IsFilter (act_of result) }
    ensures sound { IsSound (act_of result) 1 }
{
    match row {
        0 => Op::Space(SpaceOp::FlipHorizontal),
        1 => Op::Space(SpaceOp::Crop {
            left: 2,
            top: 2,
            width: -2,
            height: 0,
        }),
        2 => Op::Space(SpaceOp::TurnLeft),
        4 => Op::Space(SpaceOp::ConvertBits { bits: 12 }),
        5 => Op::Field(FieldOp::SeparateFields),
        6 => Op::Field(FieldOp::Weave),
        _ => Op::Space(SpaceOp::AddBorders {
            left: 1,
            top: 2,
            right: 3,
            bottom: 4,
            color_yuv: 0x1A_2B_3C,
        }),
    }
}

fn convolution(alloc: Global, weights: &str) -> Result<Op, Fail>
    ensures filter { IfOk result (λ op. IsFilter (act_of op)) }
    ensures sound { IfOk result (λ op. IsSound (act_of op) 1) }
{
    let matrix = read_matrix(alloc, weights)?;
    Ok(Op::Soft(SoftOp::GeneralConvolution { bias: 3, matrix }))
}

pub fn soft_op(alloc: Global, row: u32) -> Result<Op, Fail>
    ensures filter { IfOk result (λ op. IsFilter (act_of op)) }
    ensures sound { IfOk result (λ op. IsSound (act_of op) 1) }
{
    match row {
        1 => convolution(alloc, "1 2 -3\n4 5\t6 7 -8 9"),
        3 => convolution(alloc, "1 0 2 0 0 0 -3 0 0 4 0 0 9 0 0 0 5 0 0 -6 0 0 7 0 1"),
        5 => Ok(Op::Field(FieldOp::Weave)),
        6 => Ok(Op::Field(FieldOp::AssumeBFF)),
        _ => Ok(Op::Soft(SoftOp::TemporalSoften {
            radius: 2,
            luma: 60,
            chroma: 30,
        })),
    }
}
