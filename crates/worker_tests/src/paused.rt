// Files whose sources may be held at their reads after the first rewind: not while they are indexed.
ghost use Rattle.std.specs.Prelude.{◌≡◌};
ghost use Rattle.fv_io.specs.SourceState.{told_bytes};
ghost use Rattle.fv_io.specs.FilesState.{told_world};

use fv_io::{Failed, FetchFault, Files, MemFiles, MemSource, Source, Text};
use std::sync::Arc;

// What a source passes at each of these reads, into a buffer of this size. It may wait there.
pub trait Pause: Send + Sync {
    fn at_read(&self, party: u32, size: usize);
}

#[derive(Drop)]
pub struct PausedFiles<P: Pause + Drop> {
    pub files: MemFiles,
    pub fetched: u32,
    pub pause: Arc<P>,
}

// A source, and which party it is: the script is none, and the others are counted from 0.
#[derive(Drop)]
pub struct PausedSource<P: Pause + Drop> {
    source: MemSource,
    party: Option<u32>,
    rewound: bool,
    pause: Arc<P>,
}

impl<P: Pause + Drop> Source for PausedSource<P> {
    ghost bytes = { λ s. told_bytes s.source };

    ghost place = { λ s. s.source.place };

    ghost faults = { λ s. s.source.faults };

    ghost rewinds = { λ s. s.source.rewinds };

    fn read(&mut self, buf: &mut [u8]) -> Result<usize, Failed> {
        if self.rewound {
            if let Some(party) = self.party {
                self.pause.at_read(party, buf.len());
            }
        }
        self.source.read(buf)
    }

    fn rewind(&mut self) -> Result<(), Failed> {
        self.rewound = true;
        self.source.rewind()
    }
}

impl<P: Pause + Drop> Files for PausedFiles<P> {
    type Src = PausedSource<P>;

    ghost world = { λ f. told_world f.files };

    ghost faults = { λ f. f.files.faults };

    ghost fetched = { λ f. f.files.sources };

    ghost given = { λ f. f.files.given };

    fn fetch(&mut self, name: &Text) -> Result<PausedSource<P>, FetchFault> {
        let Ok(pause) = Arc::try_clone(&self.pause) else {
            return Err(FetchFault::Memory);
        };
        // the script is fetched first
        let party = self.fetched.checked_sub(1);
        self.fetched = self.fetched.saturating_add(1);
        match self.files.fetch(name) {
            Ok(source) => Ok(PausedSource {
                source,
                party,
                rewound: false,
                pause,
            }),
            Err(fault) => Err(fault),
        }
    }

    fn close(&mut self, source: PausedSource<P>) {
        let PausedSource {
            source,
            party: _,
            rewound: _,
            pause: _,
        } = source;
        self.files.close(source);
    }
}
