// `BlankClip`: its arguments, their refusals, and the clip that they make.
ghost use Rattle.std.specs.Prelude.{◌≡◌, ◌≤◌, IsTrue, true, option_map, slice_get};
ghost use Rattle.fv_plane.specs.Format.{has_depth};
ghost use Rattle.fv_plane.specs.Refusals.{first_fault};
ghost use Rattle.fv_plane.specs.Info.{IsPar};
ghost use Rattle.clip_term.specs.Blank as b;
ghost use Rattle.avs_meaning.specs.Arguments.{all_fit_filters};
ghost use Rattle.avs_meaning.specs.Filters as f;
ghost use Rattle.avs_state.specs.States.{state_of};
ghost use Rattle.avs_state.specs.Stops.{HidesNone};
ghost use Rattle.avs_values.specs.Values.{Text as Name};
ghost use Rattle.avs_calls.specs.Views.{args_view, text_given};
ghost use Rattle.avs_calls.specs.Within.{RunsWithin};

use crate::arguments::{number_at, text_at};
use avs_meaning::ScriptKind;
use avs_state::{RunState, Stop};
use avs_values::Value;
use clip_term::{BLACK, Filter, FilterFault, Op, colour_of, is_colour};
use fv_io::Text;
use fv_plane::{Field, Format, Info, Par, PixelType, Shape, Tag, format_named};

/// The arguments of `BlankClip` beside its clip. `None` is one that isn't given.
#[derive(Clone, Copy)]
pub(crate) struct BlankArgs<'a> {
    length: Option<i32>,
    width: Option<i32>,
    height: Option<i32>,
    pixel_type: Option<&'a str>,
    fps: Option<i32>,
    fps_denominator: Option<i32>,
    color_yuv: Option<i32>,
}

impl<'a> BlankArgs<'a> {
    /// The arguments that values are from a place on, in the order of the signature.
    fn of(values: &'a [Value], first: usize) -> BlankArgs<'a>
        requires place { first ≤ 1 }
        requires fit { IsTrue (all_fit_filters values.now) }
        ensures { args_view result ≡ f.blank_args values.now first }
    {
        BlankArgs {
            length: number_at(values, first),
            width: number_at(values, first + 1),
            height: number_at(values, first + 2),
            pixel_type: text_at(values, first + 3),
            fps: number_at(values, first + 4),
            fps_denominator: number_at(values, first + 5),
            color_yuv: number_at(values, first + 6),
        }
    }
}

// Whether a number is given and negative.
fn is_negative(value: Option<i32>) -> bool
    ensures { result ≡ b.given_below value 0 }
{
    match value {
        Some(n) => n < 0,
        None => false,
    }
}

// Whether a number is given and below 1.
fn is_below_one(value: Option<i32>) -> bool
    ensures { result ≡ b.given_below value 1 }
{
    match value {
        Some(n) => n < 1,
        None => false,
    }
}

fn is_bad_format(name: Option<&str>) -> bool
    ensures { result ≡ b.bad_format (text_given name.entry) }
{
    match name {
        Some(text) => format_named(text).is_none(),
        None => false,
    }
}

fn colour_given(args: &BlankArgs<'_>) -> i32
    ensures { result ≡ b.colour_given (args_view args.now) }
{
    args.color_yuv.unwrap_or(BLACK)
}

// The first refusal of the arguments, in their order.
fn refusal(base: &Info, args: &BlankArgs<'_>) -> Option<FilterFault>
    ensures { result ≡ first_fault (b.blank_refusals base.now (args_view args.now)) }
{
    if is_negative(args.length) || is_below_one(args.width) || is_below_one(args.height) {
        return Some(FilterFault::BadRange);
    }
    if is_bad_format(args.pixel_type) {
        return Some(FilterFault::BadText);
    }
    let wrong_rate = is_below_one(args.fps) || is_below_one(args.fps_denominator);
    if wrong_rate || !is_colour(colour_given(args)) {
        return Some(FilterFault::BadRange);
    }
    None
}

fn format_or(format: Format, name: Option<&str>) -> Format
    requires { has_depth format.kind format.bits ≡ true }
    ensures format { result ≡ b.format_or format (text_given name.entry) }
    ensures depth { has_depth result.kind result.bits ≡ true }
{
    let Some(text) = name else {
        return format;
    };
    match format_named(text) {
        Some(named) => named,
        None => format,
    }
}

fn number_or(default: u32, value: Option<i32>) -> u32
    ensures { result ≡ b.nat_or default value }
{
    match value {
        Some(n) => n.unsigned_abs(),
        None => default,
    }
}

// The info that the arguments ask for. What isn't given is that of the base.
fn blank_info(base: &Info, args: &BlankArgs<'_>) -> Info
    requires { has_depth base.now.shape.kind base.now.shape.bits ≡ true }
    ensures info { result ≡ b.blank_info base.now (args_view args.now) }
    ensures depth { has_depth result.shape.kind result.shape.bits ≡ true }
{
    let format = format_or(base.shape.format(), args.pixel_type);
    let den = if args.fps.is_some() { 1 } else { base.den };
    Info {
        shape: Shape {
            kind: format.kind,
            bits: format.bits,
            width: number_or(base.shape.width, args.width),
            height: number_or(base.shape.height, args.height),
        },
        frames: number_or(base.frames, args.length),
        num: number_or(base.num, args.fps),
        den: number_or(den, args.fps_denominator),
        ..*base
    }
}

// The info of what isn't given where there is no clip.
fn default_clip() -> Info
    ensures { result ≡ b.default_clip }
{
    Info {
        shape: Shape {
            kind: PixelType::YV12,
            bits: 8,
            width: 640,
            height: 480,
        },
        frames: 240,
        num: 24,
        den: 1,
        field: Field::Progressive,
        par: Par { num: 0, den: 0 },
        tag: Tag::Jpeg,
    }
}

// A blank clip. What isn't given is that of the base.
fn blank_like(
    state: &mut RunState,
    base: &Info,
    args: &BlankArgs<'_>,
    line: u32,
) -> Result<Value, Stop>
    requires par { IsPar base.now.par }
    requires depth { has_depth base.now.shape.kind base.now.shape.bits ≡ true }
    ensures runs { RunsWithin (λ x. x) (λ here. f.blank_like here base.now (args_view args.now) line)
        state.old result state.new }
    ensures memory { (here : Name) → HidesNone (f.blank_like here base.now (args_view args.now) line (state_of state.old))
        result }
{
    if let Some(fault) = refusal(base, args) {
        return Err(Stop::Fault(ScriptKind::Filter(fault), line));
    }
    let info = blank_info(base, args);
    let colour = colour_of(colour_given(args));
    state.make(Filter::BlankClip, Op::Blank { info, colour }, &[], line)
}

// A blank clip. What isn't given is that of the clip, if there is one.
fn blank_of(
    state: &mut RunState,
    clip: Option<&Value>,
    args: &BlankArgs<'_>,
    line: u32,
) -> Result<Value, Stop>
    ensures runs { RunsWithin (λ x. x) (λ here. f.blank_of here (option_map (λ value. value.now) clip.entry) (args_view
        args.now) line) state.old result state.new }
    ensures memory { (here : Name) → HidesNone (f.blank_of here (option_map (λ value. value.now) clip.entry)
        (args_view args.now) line (state_of state.old)) result }
{
    match clip {
        Some(Value::Clip(i)) => {
            let info = state.info_of(*i, line)?;
            blank_like(state, &info, args, line)
        }
        _ => blank_like(state, &default_clip(), args, line),
    }
}

fn value_at(values: &[Value], place: usize) -> Option<&Value>
    ensures { option_map (λ value. value.now) result ≡ slice_get values.now place }
{
    values.get(place)
}

/// A blank clip of arguments that are bound by the signature of this number: the clip comes last by that of number 0, and
/// first by the other one.
pub(crate) fn blank(
    state: &mut RunState,
    signature: usize,
    values: &[Value],
    line: u32,
) -> Result<Value, Stop>
    requires fit { IsTrue (all_fit_filters values.now) }
    ensures runs { RunsWithin (λ x. x) (λ here. f.blank here signature values.now line) state.old result state.new }
    ensures memory { (here : Name) → HidesNone (f.blank here signature values.now line (state_of state.old)) result }
{
    if signature == 0 {
        let args = BlankArgs::of(values, 0);
        return blank_of(state, value_at(values, 7), &args, line);
    }
    let args = BlankArgs::of(values, 1);
    blank_of(state, value_at(values, 0), &args, line)
}
