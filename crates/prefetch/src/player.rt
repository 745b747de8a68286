// `Played`: a clip whose frames are asked for by number, made by a core with one worker.
ghost use Rattle.std.specs.Prelude.{◌≡◌, ◌<◌, ◌∷◌, [], None, Some, option_map, IfOk, IfErr, OnOk, OnErr, IsErrOf};
ghost use Rattle.fv_io.specs.Sink.{Puts, PutsPrefix, IsLater, SinkFailed};
ghost use Rattle.fv_plane.specs.Picture.{bytes_of, Picture};
ghost use Rattle.fv_session.specs.Answers.{frame_text};
ghost use Rattle.prefetch.specs.Windows.{frames_at, given};
ghost use Rattle.serve_machine.specs.Events.{windows_of};
ghost use Rattle.prefetch.specs.Played.{line_at, StandsForFrames, MakesFrame, StopsInFrame, IsFrameOf};

use crate::stops::RenderStop;
use crate::windows::render_one;
use fv_io::{Failed, Sink, Source};
use fv_plane::Frame;
use fv_session::{Answer, answer_line};
use serve_core::{Core, Worker};
use serve_machine::{Record, WindowStop};
use serve_session::{PlayStop, Player};
use serve_text::put_clip_line;
use serve_worker::Instance;
use std::alloc::Global;
use std::marker::Model;
use std::sync::Arc;
use y4m_stream::write_after;

/// A clip whose frames are asked for by number: a core between windows, and the journal of the windows so far, which are
/// of one frame each.
pub(crate) struct Played<S: Source> {
    alloc: Global,
    core: Core<Instance<S>>,
    journal: Record,
    stop: Option<WindowStop>,
}

impl<S: Source> Model for Played<S> {
    ghost use Rattle.std.specs.Prelude.{◌≡◌, ◌<◌};
    ghost use Rattle.serve_machine.specs.Events.{windows_of};
    ghost use Rattle.serve_worker.specs.declared.instance.Instance as i;
    ghost use Rattle.prefetch.specs.Played.{PlayedValue};

    ghost Value = { PlayedValue (i.Instance S) };

    ghost view = { λ p. record { core = p.core; windows = windows_of p.journal; stop = p.stop } };

    ghost invariant = { λ p. (p.core.fixed.count ≡ 0) × (0 < p.core.fixed.workers) };
}

// The first frame that is there.
fn first_of(frames: &[Option<Frame>]) -> Option<&Frame>
    ensures { (x : Picture) → given frames.now ≡ x ∷ [] → option_map (λ frame. frame.now) result ≡ Some x }
{
    for frame in frames {
        if let Some(frame) = frame {
            return Some(frame);
        }
    }
    None
}

// Puts a frame as an answer: its number and its size as a line, and then its bytes.
fn put_answered<K: Sink>(out: &mut K, n: u32, frame: &Frame) -> Result<(), PlayStop>
    ensures put { OnOk result (Puts K.Sink out.old out.new (frame_text n (bytes_of frame.now))) }
    ensures cut { OnErr result (PutsPrefix K.Sink out.old out.new (frame_text n (bytes_of frame.now))) }
    ensures written { OnErr result (SinkFailed K.Sink out.old out.new) }
    ensures write { IfErr result (λ stop. stop ≡ PlayStop.Write) }
    ensures steady { OnOk result (K.faults out.new ≡ K.faults out.old) }
    ensures later { IsLater K.Sink out.old out.new }
{
    let length = frame.shape().bytes();
    let line = answer_line(&Answer::Frame { n, length });
    match write_after(out, line.as_str().as_bytes(), frame) {
        Ok(()) => Ok(()),
        Err(Failed) => Err(PlayStop::Write),
    }
}

impl<S: Source> Played<S> {
    /// The clip of the root of a core, of which nothing was asked yet.
    pub(crate) fn new(alloc: Global, core: Core<Instance<S>>) -> Played<S>
        requires between { core.fixed.count ≡ 0 }
        requires one { 0 < core.fixed.workers }
        ensures { result ≡ record { core = core; windows = []; stop = None } }
    {
        Played {
            alloc,
            core,
            journal: Record::new(alloc),
            stop: None,
        }
    }

    /// The core, the journal, and the stop that cut its last window short, where one did.
    pub(crate) fn into_parts(self) -> (Core<Instance<S>>, Record, Option<WindowStop>)
        ensures core { result.0 ≡ self.core }
        ensures journal { windows_of result.1 ≡ self.windows }
        ensures stop { result.2 ≡ self.stop }
    {
        let Played {
            alloc: _,
            core,
            journal,
            stop,
        } = self;
        (core, journal, stop)
    }

    // Makes a frame, in a list of its own.
    fn make(&mut self, n: u32) -> Result<Vec<Option<Frame>>, PlayStop>
        requires inside { n < frames_at self.old.core.fixed.plan self.old.core.fixed.root }
        ensures made { IfOk result (λ frames. MakesFrame S.Source self.old n self.new) }
        ensures frame { IfOk result (λ frames. IsFrameOf S.Source self.old n (given frames.items)) }
        ensures stopped { IsErrOf result PlayStop.Stopped → StopsInFrame S.Source self.old n self.new }
        ensures memory { IsErrOf result PlayStop.Memory → self.new ≡ self.old }
        ensures write { IsErrOf result PlayStop.Write → ⊥ }
    {
        // Called for what its contract says.
        self.core.root();
        let Ok(graph) = Arc::try_clone(self.core.graph()) else {
            return Err(PlayStop::Memory);
        };
        let mut worker = Worker::new(0, graph);
        match render_one(
            self.alloc,
            &mut self.core,
            &mut worker,
            n,
            &mut self.journal,
        ) {
            Ok(frames) => Ok(frames),
            Err(RenderStop::Stopped(why)) => {
                self.stop = Some(why);
                Err(PlayStop::Stopped)
            }
            Err(RenderStop::Write) => unreachable!(),
            Err(RenderStop::Memory) => Err(PlayStop::Memory),
        }
    }
}

impl<S: Source> Player for Played<S> {
    ghost frames = { λ p. frames_at p.core.fixed.plan p.core.fixed.root };

    ghost line = { λ p. line_at p.core.fixed.plan p.core.fixed.root };

    ghost stands_for = { λ p at. StandsForFrames S.Source p.core at };

    ghost makes = { λ p n q. MakesFrame S.Source p n q };

    ghost stops = { λ p n q. StopsInFrame S.Source p n q };

    fn frames(&self) -> u32 {
        self.core.graph().node(self.core.root()).info.frames
    }

    fn put_frame<K: Sink>(&mut self, n: u32, out: &mut K) -> Result<(), PlayStop> {
        let frames = match self.make(n) {
            Ok(frames) => frames,
            Err(stop) => return Err(stop),
        };
        let put = match first_of(&frames) {
            Some(frame) => put_answered(out, n, frame),
            None => unreachable!(),
        };
        self.core.keep_memory(frames);
        put
    }

    fn put_line<K: Sink>(&self, out: &mut K) -> Result<(), PlayStop> {
        let info = &self.core.graph().node(self.core.root()).info;
        match put_clip_line(out, info) {
            Ok(()) => Ok(()),
            Err(Failed) => Err(PlayStop::Write),
        }
    }
}
