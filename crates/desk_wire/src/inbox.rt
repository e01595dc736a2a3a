//! Bytes that come in pieces, and the requests in them.
ghost use Rattle.std.specs.Prelude.{◌≡◌, ◌≢◌, ◌+◌, ◌-◌, ◌<◌, ◌≤◌, List, ℕ, ◌++◌, length, take, drop, slice_range, IfOk, OnErr, OnOk, IfSome};
ghost use Rattle.std.specs.Io.KnownBytes.{Consumes, IsAtEnd, Keeps};
ghost use Rattle.stock_io.specs.Counts.{Rose, NeverFalls};
ghost use Rattle.stock_io.specs.Streams.{Chained};
ghost use Rattle.desk_wire.specs.declared.wire.Wire.{Wire};
ghost use Rattle.desk_wire.specs.declared.heard.Heard.{Heard};
ghost use Rattle.desk_wire.specs.declared.heard.Stop.{Stop};
ghost use Rattle.desk_wire.specs.Rules.{Answers};
ghost use Rattle.desk_wire.specs.Waiting.{nothing_waits, after_passing};
ghost use Rattle.desk_wire.specs.Streams.{TakesIn, ReadsMore, LiesIn, IfNext, heard_answer, TellsLimit, IsOfStream, IsHeardAs};

use crate::heard::{Heard, Request, Stop};
use crate::wire::{BODY_LIMIT, HEAD_LIMIT, Wire, next_request};
use std::alloc::Global;
use std::marker::Model;
use stock_io::failed::Failed;
use stock_io::source::Source;
use stock_nums::memory::NoMemory;

/// The most bytes that wait: as many as the largest request has.
pub const INBOX_SIZE: usize = HEAD_LIMIT + BODY_LIMIT;

/// The bytes of a stream that came and were not passed on yet.
#[derive(Drop)]
pub struct Inbox {
    buffer: Vec<u8>,
    start: usize,
    end: usize,
    spare: u64,
}

impl Model for Inbox {
    ghost use Rattle.std.specs.Prelude.{◌≡◌, ◌≤◌, vec_len, slice_range};
    ghost use Rattle.desk_wire.specs.Waiting.{Waiting};

    ghost Value = { Waiting };

    ghost view = { λ s. record { bytes = slice_range s.buffer.items s.start s.end; spare = s.spare } };

    ghost invariant = { λ s. (s.start ≤ s.end) × (s.end ≤ vec_len s.buffer) × (vec_len s.buffer ≡ 131072) };
}

impl Inbox {
    /// An inbox that takes at most so many bytes in all, of whatever sources.
    ///
    /// # Errors
    ///
    /// `NoMemory` where its room, of `INBOX_SIZE` bytes, can't be had. It is taken now: no other call takes
    /// memory.
    pub fn new(alloc: Global, limit: u64) -> Result<Inbox, NoMemory>
        ensures { IfOk result (λ inbox. inbox ≡ nothing_waits limit) }
    {
        Ok(Inbox {
            buffer: vec![in alloc; 0; INBOX_SIZE]?,
            start: 0,
            end: 0,
            spare: limit,
        })
    }

    /// The bytes that came and were not passed on, in order. At most `INBOX_SIZE` wait.
    pub fn bytes(&self) -> &[u8]
        ensures { result.now ≡ self.now.bytes }
    {
        &self.buffer.as_slice()[self.start..self.end]
    }

    /// Passes on the first bytes that wait, as those of a request that was heard: they are gone from here. How
    /// many more may be taken stays as it is.
    pub fn pass(&mut self, count: usize)
        requires { count ≤ length self.old.bytes }
        ensures { self.new ≡ after_passing self.old count }
    {
        self.start += count;
    }

    /// Hears the next request, which waits then at the front until it is passed on, or why there is none. It
    /// reads only while more bytes are needed, so that a client that waits for its answer gets it.
    ///
    /// # Errors
    ///
    /// `Failed` where a read failed: the source counted a fault. What came before waits.
    pub fn hear<S: Source>(&mut self, source: &mut S) -> Result<Heard, Failed>
        ensures takes_in { TakesIn S.left S.taken self.old self.new source.old source.new }
        ensures heard { IfOk result (λ heard. Answers self.new.bytes (heard_answer heard)) }
        ensures there { IfOk result (λ heard. IfNext heard (LiesIn self.new.bytes)) }
        ensures limit { IfOk result (λ heard. TellsLimit heard self.new) }

        // Where the source tells its bytes, all that waited and was left decides, however it comes in pieces.
        ensures any_cut { IfSome (S.left source.old) (λ left. IfOk result (IsOfStream (self.old.bytes ++ left))) }
        ensures one_answer { IfSome (S.left source.old) (λ left. (wire : Wire) → Answers (self.old.bytes ++ left) wire
            → wire ≢ Wire.More → IfOk result (IsHeardAs (self.old.bytes ++ left) wire)) }

        // Each read begins where more bytes are needed, so none where a request is whole or refused. It reads to
        // the end where it says that the stream ended.
        ensures reads { Chained (ReadsMore S.left S.taken S.read_leaves)
            (self.old, source.old) (self.new, source.new) }
        ensures ready { ¬ Answers self.old.bytes Wire.More
            → (self.new ≡ self.old) × (source.new ≡ source.old) }
        ensures ended { result ≡ Ok (Heard.Last Stop.Ended)
            → IfSome (S.left source.old) (λ left. self.new.bytes ≡ self.old.bytes ++ left) }

        ensures faults_kept { OnOk result (S.faults source.new ≡ S.faults source.old) }
        ensures never_falls { NeverFalls (S.faults source.old) (S.faults source.new) }
        ensures fault { OnErr result (Rose (S.faults source.old) (S.faults source.new)) }
        ensures frame { Chained S.read_leaves source.old source.new }
    {
        self.take_until_heard(source)
    }

    // Takes pieces until the next request is heard.
    fn take_until_heard<S: Source>(&mut self, source: &mut S) -> Result<Heard, Failed>
        ensures reads { Chained (ReadsMore S.left S.taken S.read_leaves)
            (self.old, source.old) (self.new, source.new) }
        ensures heard { IfOk result (λ heard. Answers self.new.bytes (heard_answer heard)) }
        ensures limit { IfOk result (λ heard. TellsLimit heard self.new) }
        ensures ended { result ≡ Ok (Heard.Last Stop.Ended)
            → IfSome (S.left source.old) (λ left. self.new.bytes ≡ self.old.bytes ++ left) }
        ensures faults_kept { OnOk result (S.faults source.new ≡ S.faults source.old) }
        ensures never_falls { NeverFalls (S.faults source.old) (S.faults source.new) }
        ensures fault { OnErr result (Rose (S.faults source.old) (S.faults source.new)) }
    {
        loop {
            match next_request(self.bytes()) {
                Wire::Whole { head, body, close } => {
                    return Ok(Heard::Next(Request { head, body, close }));
                }
                Wire::Bad { status } => return Ok(Heard::Last(Stop::Refused { status })),
                Wire::More if self.spare == 0 => return Ok(Heard::Last(Stop::TooMuch)),
                Wire::More => {
                    let piece = self.take_piece(source)?;
                    if piece == 0 {
                        return Ok(Heard::Last(Stop::Ended));
                    }
                }
            }
        }
    }

    // Takes a piece of the source by one read, and says how many bytes it has.
    fn take_piece<S: Source>(&mut self, source: &mut S) -> Result<usize, Failed>
        requires room { length self.old.bytes < INBOX_SIZE }
        requires spare { 0 < self.old.spare }
        ensures takes_in { TakesIn S.left S.taken self.old self.new source.old source.new }
        ensures amount { IfOk result (λ n. length self.new.bytes ≡ length self.old.bytes + n) }
        ensures end { IfOk result (λ n. n ≡ 0 → IsAtEnd (S.left source.old)) }
        ensures faults_kept { OnOk result (S.faults source.new ≡ S.faults source.old) }
        ensures never_falls { NeverFalls (S.faults source.old) (S.faults source.new) }
        ensures fault { OnErr result (Rose (S.faults source.old) (S.faults source.new)) }
        ensures frame { S.read_leaves source.old source.new }
    {
        move_to_front(self.buffer.as_mut_slice(), self.start, self.end);
        self.end -= self.start;
        self.start = 0;
        let room = (INBOX_SIZE - self.end) as u64;
        let most = room.min(self.spare) as usize;
        let end = self.end;
        let n = read_at(self.buffer.as_mut_slice(), end, most, source)?;
        self.end += n;
        self.spare -= n as u64;
        Ok(n)
    }
}

// Moves a part of the buffer to its front.
fn move_to_front(buffer: &mut [u8], start: usize, end: usize)
    requires ordered { start ≤ end }
    requires in_range { end ≤ length buffer.old }
    ensures { take (end - start) buffer.new ≡ slice_range buffer.old start end }
{
    buffer.copy_within(start..end, 0);
}

// Reads a piece into a part of the buffer.
fn read_at<S: Source>(
    buffer: &mut [u8],
    at: usize,
    most: usize,
    source: &mut S,
) -> Result<usize, Failed>
    requires some { 0 < most }
    requires room { at + most ≤ length buffer.old }
    ensures bound { IfOk result (λ n. n ≤ most) }
    ensures before { take at buffer.new ≡ take at buffer.old }
    ensures bytes { IfOk result (λ n. Consumes (S.left source.old) (S.left source.new) (slice_range buffer.new at (at + n))) }
    ensures count { IfOk result (λ n. S.taken source.new ≡ S.taken source.old + n) }
    ensures end { IfOk result (λ n. n ≡ 0 → IsAtEnd (S.left source.old)) }
    ensures faults_kept { OnOk result (S.faults source.new ≡ S.faults source.old) }
    ensures left_kept { OnErr result (Keeps (S.left source.old) (S.left source.new)) }
    ensures taken_kept { OnErr result (S.taken source.new ≡ S.taken source.old) }
    ensures never_falls { NeverFalls (S.faults source.old) (S.faults source.new) }
    ensures fault { OnErr result (Rose (S.faults source.old) (S.faults source.new)) }
    ensures frame { S.read_leaves source.old source.new }
{
    source.read(&mut buffer[at..at + most])
}
