// The host of a run over files.
ghost use Rattle.std.specs.Prelude.{◌≡◌, [], ◌+◌, ◌≤◌, length, IfOk, OnOk, OnErr, IsErrOf};
ghost use Rattle.fv_io.specs.Faults.{HasRisen};
ghost use Rattle.fv_io.specs.World.{InWorld};
ghost use Rattle.y4m_stream.specs.Stream.{IsIndex};
ghost use Rattle.avs_state.specs.Hosts.{CountsNone};
ghost use Rattle.avs_files.specs.Answers.{AnswersClip};
ghost use Rattle.avs_files.specs.Opened.{told_of, AreOpened, IsSourceOf};
ghost use Rattle.avs_files.specs.Worlds.{same_world-prop};

use crate::files::{HeldFiles, Known};
use crate::script::read_script;
use avs_meaning::{InputFault, SourceClip};
use avs_state::{Host, HostFault};
use fv_io::{FetchFault, Text};
use fv_plane::Info;
use seq_source::SeqSource;
use std::alloc::Global;
use std::marker::PhantomData;
use y4m_stream::{Index, IndexFault, index};

/// The host of a run over files. It keeps the clips that it opened, in order.
pub struct FileHost<H: HeldFiles, W: Known> {
    pub alloc: Global,
    pub files: H,
    /// The names and the infos of the clips.
    pub listed: Vec<SourceClip>,
    pub sources: Vec<SeqSource<H::Src>>,
    pub of: PhantomData<W>,
    ghost world: { H.world files ≡ told_of W.told W.world } by { same_world-prop (H.world files) (told_of W.told W.world) },
    ghost borrow: { H.borrow files ≡ W.borrow },
    ghost given: { H.given files ≡ W.given + length sources.items },
    ghost opened: { AreOpened H.Src.Source W.told W.world listed.items sources.items },
}

// Opens a file and finds its frames. A file that is no clip is closed again.
fn open_clip<H: HeldFiles>(
    alloc: Global,
    files: &mut H,
    name: &Text,
) -> Result<(H::Src, Index), HostFault>
    ensures told { AnswersClip (H.world files.old) name.now result }
    ensures is { IfOk result (λ opened. IsSourceOf H.Src.Source (H.world files.old) name.now opened.0 opened.1) }
    ensures index { IfOk result (λ opened. IsIndex opened.1) }
    ensures read { IsErrOf result HostFault.Read → HasRisen (H.faults files.old) (H.faults files.new) }
    ensures later { H.faults files.old ≤ H.faults files.new }
    ensures steady { CountsNone result (H.faults files.old) (H.faults files.new) }
    ensures fetched { OnOk result (H.fetched files.new ≡ H.fetched files.old + 1) }
    ensures more { H.fetched files.old ≤ H.fetched files.new }
    ensures once { H.fetched files.new ≤ H.fetched files.old + 1 }
    ensures given { OnOk result (H.given files.new ≡ H.given files.old + 1) }
    ensures not_given { OnErr result (H.given files.new ≡ H.given files.old) }
    ensures world { H.world files.new ≡ H.world files.old }
    ensures borrow { H.borrow files.new ≡ H.borrow files.old }
{
    let mut source = match files.fetch(name) {
        Ok(source) => source,
        Err(FetchFault::NotThere) => return Err(HostFault::Input(InputFault::NotThere)),
        Err(FetchFault::Failed) => return Err(HostFault::Read),
        Err(FetchFault::Memory) => return Err(HostFault::Memory),
    };
    let fault = match index(alloc, &mut source) {
        Ok(index) => return Ok((source, index)),
        Err(fault) => fault,
    };
    files.close(source);
    match fault {
        IndexFault::Y4m(fault) => Err(HostFault::Input(InputFault::Y4m(fault))),
        IndexFault::Read => Err(HostFault::Read),
        IndexFault::Memory => Err(HostFault::Memory),
    }
}

impl<H: HeldFiles, W: Known> FileHost<H, W> {
    /// The host of a run, which has opened nothing. It allocates nothing.
    pub fn new(alloc: Global, files: H, of: PhantomData<W>) -> FileHost<H, W>
        requires world { H.world files ≡ told_of W.told W.world }
        requires borrow { H.borrow files ≡ W.borrow }
        requires given { H.given files ≡ W.given }
        ensures files { result.files ≡ files }
        ensures none { result.listed.items ≡ [] }
    {
        FileHost {
            alloc,
            files,
            listed: Vec::new(alloc),
            sources: Vec::new(alloc),
            of,
        }
    }
}

impl<H: HeldFiles, W: Known> Host for FileHost<H, W> {
    ghost use Rattle.std.specs.FinMap.{get};
    ghost use Rattle.avs_meaning.specs.State.{clip_in, script_in};

    ghost told = { W.told };

    ghost clips = { λ name. clip_in (get W.world name) };

    ghost scripts = { λ name. script_in (get W.world name) };

    ghost opened = { λ host. host.listed.items };

    ghost fetched = { λ host. H.fetched host.files };

    ghost faults = { λ host. H.faults host.files };

    fn clip(&mut self, name: &Text) -> Result<Info, HostFault> {
        let Ok(own) = Text::from_str(self.alloc, name.as_str()) else {
            return Err(HostFault::Memory);
        };
        let Ok(_) = self.listed.reserve(1) else {
            return Err(HostFault::Memory);
        };
        let Ok(_) = self.sources.reserve(1) else {
            return Err(HostFault::Memory);
        };
        let (source, index) = open_clip(self.alloc, &mut self.files, name)?;
        let info = index.info();
        self.listed.push_reserved(SourceClip { name: own, info });
        self.sources
            .push_reserved(SeqSource::new(self.alloc, source, index));
        Ok(info)
    }

    fn script(&mut self, name: &Text) -> Result<Text, HostFault> {
        read_script(self.alloc, &mut self.files, name)
    }
}
