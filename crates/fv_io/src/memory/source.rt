// A source over bytes in memory, which fails where its trips say.
ghost use Rattle.std.specs.Prelude.{◌≡◌, ◌<◌, ◌≤◌, ◌+◌, ◌++◌, List, [], ℕ, IfOk, IfSome, OnOk, OnErr, is_err, is_some, length, take, drop, Some, None, MatchOption};
ghost use Rattle.fv_io.specs.Shared.{shared_bytes};
ghost use Rattle.std.specs.Option.{option_map, ForSome};
ghost use Rattle.fv_io.specs.Faults.{risen};
ghost use Rattle.fv_io.specs.Told.{Reads};
ghost use Rattle.fv_io.specs.Trips.{reach as reach_of};
ghost use Rattle.fv_io.specs.SourceState.{bytes_now, told_bytes, at_start, read_trip, rewind_trip, after_trip, read_amount, read_on, rewound};

use crate::memory::trip::Trip;
use crate::{Failed, Source};
use std::marker::Model;
use std::sync::Arc;

/// A source over bytes in memory.
#[derive(Drop)]
pub struct MemSource {
    first: Arc<Vec<u8>>,
    later: Option<Arc<Vec<u8>>>,
    piece: usize,
    trips: Vec<Trip>,
    place: usize,
    rewinds: u64,
    faults: u64,
}

impl Model for MemSource {
    ghost use Rattle.std.specs.Option.{option_map};
    ghost use Rattle.fv_io.specs.Shared.{shared_bytes};
    ghost use Rattle.fv_io.specs.SourceState.{SourceState, bytes_after, IsSound};

    ghost Value = { SourceState };

    ghost view = { λ s. record {
      first = shared_bytes s.first;
      later = option_map shared_bytes s.later;
      piece = s.piece;
      trips = s.trips.items;
      place = s.place;
      rewinds = s.rewinds;
      faults = s.faults;
    } };

    ghost invariant = { λ s. IsSound (bytes_after s.rewinds (shared_bytes s.first) (option_map shared_bytes s.later))
        s.place s.piece };
}

// How far a read may go: to the end, or to the first place at which a trip waits.
fn reach(trips: &[Trip], rewinds: u64, end: usize) -> usize
    ensures { result ≡ reach_of rewinds trips.now end }
{
    trips.iter().fold(end, |end, trip| trip.stop(rewinds, end))
}

impl MemSource {
    /// A source that gives these bytes, at most `piece` of them a read, and fails where the trips say.
    pub fn new(bytes: Arc<Vec<u8>>, piece: usize, trips: Vec<Trip>) -> MemSource
        requires { 0 < piece }
        ensures { result ≡ at_start (shared_bytes bytes) None piece trips.items }
    {
        MemSource::over(bytes, None, piece, trips)
    }

    /// A source that gives `first` up to the first rewind and `later` afterwards, and tells no bytes.
    pub fn shrinking(first: Arc<Vec<u8>>, later: Arc<Vec<u8>>) -> MemSource
        ensures { result ≡ at_start (shared_bytes first) (Some (shared_bytes later)) usize.MAX [] }
    {
        let trips = Vec::new(*first.allocator());
        MemSource::over(first, Some(later), usize::MAX, trips)
    }

    // A source at its start.
    pub(super) fn over(
        first: Arc<Vec<u8>>,
        later: Option<Arc<Vec<u8>>>,
        piece: usize,
        trips: Vec<Trip>,
    ) -> MemSource
        requires { 0 < piece }
        ensures { result ≡ at_start (shared_bytes first) (option_map shared_bytes later) piece trips.items }
    {
        MemSource {
            first,
            later,
            piece,
            trips,
            place: 0,
            rewinds: 0,
            faults: 0,
        }
    }

    /// How often it failed.
    pub fn faults(&self) -> u64
        ensures { result ≡ self.now.faults }
    {
        self.faults
    }

    // The bytes that it gives now.
    fn bytes(&self) -> &[u8]
        ensures { result.now ≡ bytes_now self.now }
    {
        match &self.later {
            Some(later) if self.rewinds > 0 => later.as_slice(),
            _ => self.first.as_slice(),
        }
    }

    // The trip at which a read fails now.
    fn read_trip(&self) -> Option<usize>
        ensures trip { result ≡ read_trip self.now }
        ensures inside { IfSome result (λ i. i < length self.now.trips) }
    {
        let (rewinds, place) = (self.rewinds, self.place);
        self.trips
            .iter()
            .position(|trip| trip.trips_read(rewinds, place))
    }

    // The trip at which a rewind fails now.
    fn rewind_trip(&self) -> Option<usize>
        ensures trip { result ≡ rewind_trip self.now }
        ensures inside { IfSome result (λ i. i < length self.now.trips) }
    {
        let rewinds = self.rewinds;
        self.trips
            .iter()
            .position(|trip| trip.trips_rewind(rewinds))
    }

    // How many bytes a read gives into a buffer of this size, where no trip is met.
    fn amount(&self, room: usize) -> usize
        ensures amount { result ≡ read_amount self.now room }
        ensures inside { self.now.place + result ≤ length (bytes_now self.now) }
        ensures ended { read_trip self.now ≡ None → result ≡ 0 → 0 < room →
            length (bytes_now self.now) ≤ self.now.place }
    {
        let end = reach(&self.trips, self.rewinds, self.bytes().len());
        room.min(self.piece).min(end.saturating_sub(self.place))
    }

    // Counts a failure at a trip, and removes the trip, so that it fails once only.
    fn trip(&mut self, i: usize) -> Failed
        requires { i < length self.old.trips }
        ensures { self.new ≡ after_trip self.old i }
    {
        self.trips.remove(i);
        self.faults = self.faults.saturating_add(1);
        Failed
    }
}

impl Source for MemSource {
    ghost bytes = { told_bytes };

    ghost place = { λ s. s.place };

    ghost faults = { λ s. s.faults };

    ghost rewinds = { λ s. s.rewinds };

    fn read(&mut self, buf: &mut [u8]) -> Result<usize, Failed>
        ensures bound { IfOk result (λ count. count ≤ length buf.new) }
        ensures told { IfOk result (λ count. ForSome (told_bytes self.old) (λ told.
            Reads told self.old.place count buf.new)) }
        ensures moved { IfOk result (λ count. self.new.place ≡ self.old.place + count) }
        ensures bytes { told_bytes self.new ≡ told_bytes self.old }
        ensures rewinds { self.new.rewinds ≡ self.old.rewinds }
        ensures later { self.old.faults ≤ self.new.faults }
        ensures steady { OnOk result (self.new.faults ≡ self.old.faults) }
        ensures failed { OnErr result (self.new.faults ≡ risen self.old.faults) }

        // A read fails exactly at a trip, and removes it.
        ensures trips { is_err result ≡ is_some (read_trip self.old) }
        ensures spent { OnErr result (ForSome (read_trip self.old) (λ i. self.new ≡ after_trip self.old i)) }
        ensures kept { OnErr result (buf.new ≡ buf.old) }
        ensures amount { IfOk result (λ count. count ≡ read_amount self.old (length buf.old)) }
        ensures place { IfOk result (λ count. self.new ≡ read_on self.old count) }
        ensures given { IfOk result (λ count.
            buf.new ≡ take count (drop self.old.place (bytes_now self.old)) ++ drop count buf.old) }
    {
        if let Some(i) = self.read_trip() {
            return Err(self.trip(i));
        }
        let count = self.amount(buf.len());
        buf[..count].copy_from_slice(&self.bytes()[self.place..self.place + count]);
        self.place += count;
        Ok(count)
    }

    fn rewind(&mut self) -> Result<(), Failed>
        ensures start { OnOk result (self.new.place ≡ 0) }
        ensures counted { OnOk result (self.new.rewinds ≡ risen self.old.rewinds) }
        ensures not_counted { OnErr result (self.new.rewinds ≡ self.old.rewinds) }
        ensures bytes { told_bytes self.new ≡ told_bytes self.old }
        ensures later { self.old.faults ≤ self.new.faults }
        ensures steady { OnOk result (self.new.faults ≡ self.old.faults) }
        ensures failed { OnErr result (self.new.faults ≡ risen self.old.faults) }

        // A rewind fails exactly at a trip, and removes it.
        ensures trips { is_err result ≡ is_some (rewind_trip self.old) }
        ensures spent { OnErr result (ForSome (rewind_trip self.old) (λ i. self.new ≡ after_trip self.old i)) }
        ensures back { OnOk result (self.new ≡ rewound self.old) }
    {
        if let Some(i) = self.rewind_trip() {
            return Err(self.trip(i));
        }
        self.place = 0;
        self.rewinds = self.rewinds.saturating_add(1);
        Ok(())
    }
}
