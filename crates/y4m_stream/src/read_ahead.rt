// Bytes of a source that were read ahead.
ghost use Rattle.std.specs.Prelude.{◌≡◌, ◌<◌, ◌≤◌, ◌^◌, [], length, drop, IfOk, OnOk, OnErr};
ghost use Rattle.std.specs.Option.{ForSome};
ghost use Rattle.fv_io.specs.Source.{KeepsSource, IsSteady, SourceFailed};
ghost use Rattle.y4m_stream.specs.ReadAhead.{left_of, Passes};

use fv_io::{Failed, Source, read_full};
use std::alloc::{AllocError, Global};
use std::marker::Model;

/// How many bytes are read ahead at most.
pub const MOST_AHEAD: usize = 131_072;

/// Bytes that were read from a source and aren't consumed yet.
#[derive(Drop)]
pub struct ReadAhead {
    buf: Vec<u8>,
    start: usize,
    end: usize,
}

impl Model for ReadAhead {
    ghost use Rattle.std.specs.Prelude.{List, ℕ, ◌-◌, ◌≤◌, ◌≡◌, ◌^◌, length, take, drop};

    ghost Value = { List ℕ };

    ghost view = { λ a. take (a.end - a.start) (drop a.start a.buf.items) };

    ghost invariant = { λ a. (a.start ≤ a.end) × (a.end ≤ length a.buf.items) × (length a.buf.items ≡ 2 ^ 17) };
}

impl ReadAhead {
    /// No bytes yet, with room for `MOST_AHEAD`. An `Err` means out of memory.
    pub fn new(alloc: Global) -> Result<ReadAhead, AllocError>
        ensures { IfOk result (λ ahead. ahead ≡ []) }
    {
        Ok(ReadAhead {
            buf: vec![in alloc; 0; MOST_AHEAD]?,
            start: 0,
            end: 0,
        })
    }

    /// The bytes that aren't consumed yet.
    pub fn bytes(&self) -> &[u8]
        ensures { result.now ≡ self.now }
    {
        &self.buf[self.start..self.end]
    }

    /// The number of these bytes.
    pub fn len(&self) -> usize
        ensures { result ≡ length self.now }
    {
        self.end - self.start
    }

    /// Goes past the first `count` of the bytes.
    pub fn consume(&mut self, count: usize)
        requires { count ≤ length self.old }
        ensures { self.new ≡ drop count self.old }
    {
        self.start += count;
    }

    // Reads on until `most` bytes are ahead, or the source ends.
    fn refill<S: Source>(&mut self, source: &mut S, most: usize) -> Result<(), Failed>
        requires more { length self.old ≤ most }
        requires room { most ≤ 2 ^ 17 }
        ensures told { OnOk result (ForSome (S.bytes source.old) (λ told.
            left_of self.new told (S.place source.new) ≡ left_of self.old told (S.place source.old))) }
        ensures ended { OnOk result (ForSome (S.bytes source.old) (λ told. length self.new < most →
            drop (S.place source.new) told ≡ [])) }
        ensures keeps { KeepsSource S.Source source.old source.new }
        ensures steady { OnOk result (IsSteady S.Source source.old source.new) }
        ensures failed { OnErr result (SourceFailed S.Source source.old source.new) }
    {
        self.buf.copy_within(self.start..self.end, 0);
        self.end -= self.start;
        self.start = 0;
        let count = read_full(source, &mut self.buf[self.end..most])?;
        self.end += count;
        Ok(())
    }

    /// Where fewer than `least` bytes are ahead, reads on until `most` are, or the source ends. So fewer than `least`
    /// are ahead only where the source has ended.
    pub fn fill<S: Source>(
        &mut self,
        source: &mut S,
        least: usize,
        most: usize,
    ) -> Result<(), Failed>
        requires order { least ≤ most }
        requires room { most ≤ 2 ^ 17 }
        ensures told { OnOk result (ForSome (S.bytes source.old) (λ told.
            left_of self.new told (S.place source.new) ≡ left_of self.old told (S.place source.old))) }
        ensures ended { OnOk result (ForSome (S.bytes source.old) (λ told. length self.new < least →
            drop (S.place source.new) told ≡ [])) }
        ensures keeps { KeepsSource S.Source source.old source.new }
        ensures steady { OnOk result (IsSteady S.Source source.old source.new) }
        ensures failed { OnErr result (SourceFailed S.Source source.old source.new) }
    {
        if self.len() < least {
            self.refill(source, most)?;
        }
        Ok(())
    }

    /// Goes past `size` bytes, those that are ahead and then those of the source, and answers how many there were.
    pub fn skip<S: Source>(&mut self, source: &mut S, size: usize) -> Result<usize, Failed>
        ensures told { IfOk result (λ count. ForSome (S.bytes source.old) (λ told. Passes
            (left_of self.old told (S.place source.old)) (left_of self.new told (S.place source.new)) size count)) }
        ensures bound { IfOk result (λ count. count ≤ size) }
        ensures keeps { KeepsSource S.Source source.old source.new }
        ensures steady { OnOk result (IsSteady S.Source source.old source.new) }
        ensures failed { OnErr result (SourceFailed S.Source source.old source.new) }
    {
        let there = self.len().min(size);
        self.consume(there);
        if there == size {
            return Ok(size);
        }
        let count = source.skip((size - there) as u64)?;
        Ok(there + count as usize)
    }
}
