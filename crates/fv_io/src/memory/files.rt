// Files in memory, which fail where they are told to.
ghost use Rattle.std.specs.Prelude.{◌≡◌, ◌≤◌, ◌<◌, ◌+◌, ◌-◌, ◌↔◌, [], IfOk, OnOk, OnErr, IsErrOf, Some, None, true, false, option_copied};
ghost use Rattle.std.specs.FinMap.{get};
ghost use Rattle.std.specs.Option.{option_map};
ghost use Rattle.fv_io.specs.Faults.{with_faults, HasRisen};
ghost use Rattle.fv_io.specs.World.{InWorld};
ghost use Rattle.fv_io.specs.SourceState.{told_bytes};
ghost use Rattle.fv_io.specs.FilesState.{entry_among, entry_of, told_world, with_entry, with_stop, fetch_fails, failed, called, closed, Fetches};

use crate::memory::file::MemFile;
use crate::memory::source::MemSource;
use crate::memory::trip::Trip;
use crate::{FetchFault, Files, Text};
use std::alloc::{AllocError, Global};
use std::marker::Model;
use std::sync::Arc;

/// Files in memory.
#[derive(Drop)]
pub struct MemFiles {
    alloc: Global,
    files: Vec<MemFile>,
    stops: Vec<u64>,
    calls: u64,
    sources: u64,
    given: u64,
    faults: u64,
}

impl Model for MemFiles {
    ghost use Rattle.std.specs.Prelude.{◌≤◌};
    ghost use Rattle.fv_io.specs.FilesState.{FilesState};

    ghost Value = { FilesState };

    ghost view = { λ f. record {
      entries = f.files.items;
      stops = f.stops.items;
      calls = f.calls;
      sources = f.sources;
      given = f.given;
      faults = f.faults;
    } };

    ghost invariant = { λ f. (f.given ≤ f.sources) × (f.sources ≤ f.calls) };
}

// The newest file of this name.
fn find<'a>(files: &'a [MemFile], name: &Text) -> Option<&'a MemFile>
    ensures { option_copied result ≡ entry_among files.now name.now }
{
    files.iter().find(|file| name.as_str() == file.name())
}

impl MemFiles {
    /// No files.
    pub fn new(alloc: Global) -> MemFiles
        ensures { result ≡ record { entries = []; stops = []; calls = 0; sources = 0; given = 0; faults = 0 } }
    {
        MemFiles {
            alloc,
            files: Vec::new(alloc),
            stops: Vec::new(alloc),
            calls: 0,
            sources: 0,
            given: 0,
            faults: 0,
        }
    }

    /// Adds a file, in place of one of its name. Its sources give at most `piece` bytes a read and fail where the trips
    /// say. An `Err` means out of memory.
    pub fn add(
        &mut self,
        name: Text,
        bytes: Vec<u8>,
        piece: usize,
        trips: Vec<Trip>,
    ) -> Result<(), AllocError>
        requires { 0 < piece }
        ensures added { OnOk result (self.new ≡ with_entry self.old
            (record { name = name; first = bytes.items; later = None; piece = piece; trips = trips.items })) }
        ensures err { OnErr result (self.new ≡ self.old) }
    {
        let file = MemFile {
            name,
            first: Arc::new(self.alloc, bytes)?,
            later: None,
            piece,
            trips,
        };
        self.files.insert(0, file)?;
        Ok(())
    }

    /// Adds a file, in place of one of its name, whose sources give `first` up to the first rewind and `later`
    /// afterwards. From then on no world is told. An `Err` means out of memory.
    pub fn add_shrinking(
        &mut self,
        name: Text,
        first: Vec<u8>,
        later: Vec<u8>,
    ) -> Result<(), AllocError>
        ensures added { OnOk result (self.new ≡ with_entry self.old
            (record { name = name; first = first.items; later = Some later.items; piece = usize.MAX; trips = [] })) }
        ensures err { OnErr result (self.new ≡ self.old) }
    {
        let file = MemFile {
            name,
            first: Arc::new(self.alloc, first)?,
            later: Some(Arc::new(self.alloc, later)?),
            piece: usize::MAX,
            trips: Vec::new(self.alloc),
        };
        self.files.insert(0, file)?;
        Ok(())
    }

    /// Makes the fetch of this number fail. Fetches are counted from 1. An `Err` means out of memory.
    pub fn fail_fetch(&mut self, call: u64) -> Result<(), AllocError>
        ensures added { OnOk result (self.new ≡ with_stop self.old call) }
        ensures err { OnErr result (self.new ≡ self.old) }
    {
        self.stops.insert(0, call)?;
        Ok(())
    }

    /// How many sources were fetched.
    pub fn fetched(&self) -> u64
        ensures { result ≡ self.now.sources }
    {
        self.sources
    }

    /// How many sources were closed.
    pub fn closed(&self) -> u64
        ensures { result ≡ self.now.sources - self.now.given }
    {
        self.sources - self.given
    }

    /// How often a fetch failed, with the faults of the sources that were closed.
    pub fn faults(&self) -> u64
        ensures { result ≡ self.now.faults }
    {
        self.faults
    }

    // Whether the next fetch is to fail.
    fn fetch_fails(&self) -> bool
        ensures { result ≡ fetch_fails self.now }
    {
        self.calls == u64::MAX || self.stops.contains(&(self.calls + 1))
    }
}

impl Files for MemFiles {
    type Src = MemSource;

    ghost world = { told_world };

    ghost faults = { λ f. f.faults };

    ghost fetched = { λ f. f.sources };

    ghost given = { λ f. f.given };

    fn fetch(&mut self, name: &Text) -> Result<MemSource, FetchFault>
        ensures given { OnOk result (self.new.given ≡ self.old.given + 1) }
        ensures not_given { OnErr result (self.new.given ≡ self.old.given) }
        ensures fetched { OnOk result (self.new.sources ≡ self.old.sources + 1) }
        ensures not_fetched { OnErr result (self.new.sources ≡ self.old.sources) }
        ensures start { IfOk result (λ source. source.place ≡ 0) }
        ensures fresh { IfOk result (λ source. source.faults ≡ 0) }
        ensures told { IfOk result (λ source. InWorld (told_world self.old) (λ told.
            told_bytes source ≡ get told name.now)) }
        ensures there { OnOk result (InWorld (told_world self.old) (λ told. get told name.now ≡ None → ⊥)) }
        ensures not_there { IsErrOf result FetchFault.NotThere →
            InWorld (told_world self.old) (λ told. get told name.now ≡ None) }
        ensures failed { IsErrOf result FetchFault.Failed → HasRisen self.old.faults self.new.faults }
        ensures later { self.old.faults ≤ self.new.faults }
        ensures steady { (IsErrOf result FetchFault.Failed → ⊥) → self.new.faults ≡ self.old.faults }
        ensures world { told_world self.new ≡ told_world self.old }

        // Exactly the calls that are to fail answer `Failed`. Of the others exactly those of a name that wasn't added
        // answer `NotThere`.
        ensures only_missing { IsErrOf result FetchFault.NotThere → entry_of self.old name.now ≡ None }
        ensures stopped { fetch_fails self.old ≡ true →
            (result ≡ Err FetchFault.Failed) × (self.new ≡ failed self.old) }
        ensures not_stopped { fetch_fails self.old ≡ false → IsErrOf result FetchFault.Failed → ⊥ }
        ensures missing { fetch_fails self.old ≡ false → entry_of self.old name.now ≡ None →
            (result ≡ Err FetchFault.NotThere) × (self.new ≡ called self.old) }
        ensures memory { IsErrOf result FetchFault.Memory → self.new ≡ called self.old }
        ensures opened { IfOk result (Fetches self.old self.new name.now) }
    {
        if self.fetch_fails() {
            self.calls = self.calls.saturating_add(1);
            self.faults = self.faults.saturating_add(1);
            return Err(FetchFault::Failed);
        }
        self.calls += 1;
        match find(&self.files, name) {
            None => Err(FetchFault::NotThere),
            Some(file) => match file.open(self.alloc) {
                Ok(source) => {
                    self.sources += 1;
                    self.given += 1;
                    Ok(source)
                }
                Err(_) => Err(FetchFault::Memory),
            },
        }
    }

    fn close(&mut self, source: MemSource)
        ensures given { self.new.given ≡ self.old.given - 1 }
        ensures fetched { self.new.sources ≡ self.old.sources }
        ensures faults { self.new.faults ≡ with_faults self.old.faults source.faults }
        ensures world { told_world self.new ≡ told_world self.old }
        ensures closed { self.new ≡ closed self.old source.faults }
    {
        self.given = self.given.saturating_sub(1);
        self.faults = self.faults.saturating_add(source.faults());
    }
}
