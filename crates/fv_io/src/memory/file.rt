// A file in memory under its name.
ghost use Rattle.std.specs.Prelude.{◌≡◌, IfOk};
ghost use Rattle.std.specs.Option.{option_map};
ghost use Rattle.fv_io.specs.Shared.{shared_bytes};

use crate::Text;
use crate::memory::source::MemSource;
use crate::memory::trip::Trip;
use std::alloc::{AllocError, Global};
use std::marker::Model;
use std::sync::Arc;

/// The bytes of a file, before and after the first rewind, and how a source over it is to behave.
#[derive(Drop)]
pub struct MemFile {
    pub(super) name: Text,
    pub(super) first: Arc<Vec<u8>>,
    pub(super) later: Option<Arc<Vec<u8>>>,
    pub(super) piece: usize,
    pub(super) trips: Vec<Trip>,
}

impl Model for MemFile {
    ghost use Rattle.std.specs.Prelude.{◌<◌};
    ghost use Rattle.std.specs.Option.{option_map};
    ghost use Rattle.fv_io.specs.Shared.{shared_bytes};
    ghost use Rattle.fv_io.specs.FilesState.{Entry};

    ghost Value = { Entry };

    ghost view = { λ f. record {
      name = f.name;
      first = shared_bytes f.first;
      later = option_map shared_bytes f.later;
      piece = f.piece;
      trips = f.trips.items;
    } };

    ghost invariant = { λ f. 0 < f.piece };
}

impl MemFile {
    ghost use Rattle.std.specs.Prelude.{◌≡◌, IfOk};
    ghost use Rattle.fv_io.specs.FilesState.{opened};

    /// The name under which it was added.
    pub fn name(&self) -> &str
        ensures { result.now ≡ self.now.name }
    {
        self.name.as_str()
    }

    /// A source over the file, at its start. An `Err` means out of memory.
    pub fn open(&self, alloc: Global) -> Result<MemSource, AllocError>
        ensures { IfOk result (λ source. source ≡ opened self.now) }
    {
        let first = Arc::try_clone(&self.first)?;
        let later = share(&self.later)?;
        let trips = self.trips.as_slice().to_vec(alloc)?;
        Ok(MemSource::over(first, later, self.piece, trips))
    }
}

// The same bytes, shared once more.
fn share(bytes: &Option<Arc<Vec<u8>>>) -> Result<Option<Arc<Vec<u8>>>, AllocError>
    ensures { IfOk result (λ shared. option_map shared_bytes shared ≡ option_map shared_bytes bytes.now) }
{
    match bytes {
        None => Ok(None),
        Some(bytes) => Ok(Some(Arc::try_clone(bytes)?)),
    }
}
