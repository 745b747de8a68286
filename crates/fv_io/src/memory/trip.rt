// Where a source in memory is to fail.
ghost use Rattle.std.specs.Prelude.{◌≡◌};

/// A failure that waits in a source.
#[derive(Clone, Copy, Debug, PartialEq, Eq)]
pub enum Trip {
    /// After this many rewinds, no read passes this place, and the first that begins at or past it fails.
    Read { rewinds: u32, place: u64 },
    /// After this many rewinds, the next one fails.
    Rewind { rewinds: u32 },
}

impl Trip {
    ghost use Rattle.fv_io.specs.Trips.{trips_read, trips_rewind, stop_of};

    // Whether a read from this place fails.
    pub(crate) fn trips_read(&self, rewinds: u64, from: usize) -> bool
        ensures { result ≡ trips_read rewinds from self.now }
    {
        match *self {
            Trip::Read {
                rewinds: after,
                place,
            } => after as u64 == rewinds && place <= from as u64,
            Trip::Rewind { .. } => false,
        }
    }

    // Whether a rewind fails.
    pub(crate) fn trips_rewind(&self, rewinds: u64) -> bool
        ensures { result ≡ trips_rewind rewinds self.now }
    {
        match *self {
            Trip::Read { .. } => false,
            Trip::Rewind { rewinds: after } => after as u64 == rewinds,
        }
    }

    // Where a read that could go up to the end has to stop.
    pub(crate) fn stop(&self, rewinds: u64, end: usize) -> usize
        ensures { result ≡ stop_of rewinds end self.now }
    {
        match *self {
            Trip::Read {
                rewinds: after,
                place,
            } if after as u64 == rewinds => end.min(place as usize),
            _ => end,
        }
    }
}
