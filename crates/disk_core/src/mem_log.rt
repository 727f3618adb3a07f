//! A log volume in memory. A crash leaves what was synced, what was written, or a mixture of both.
ghost use Rattle.std.specs.Prelude.{◌≡◌, ◌⊎◌, ◌+◌, ◌-◌, ◌≤◌, ◌%◌, ◌==◌, ◌++◌, [], length, min, take, drop, replicate, is_ok, OnOk, OnErr, slice_index};
ghost use Rattle.disk_core.specs.Faults.{CountsFault, counted_by};
ghost use Rattle.disk_core.specs.Volume.{overlaid, IsRead};
ghost use Rattle.disk_core.specs.MemLog.{mixed_bytes};

use crate::{Crash, Extent, Failed, LogDisk};
use notes::Note;
use std::alloc::{AllocError, Global};
use std::collections::LinkedList;

// What a log volume in memory held at a moment.
pub struct LogMoment {
    pub start: u64,
    pub bytes: LinkedList<u8>,
    pub synced_start: u64,
    pub synced: LinkedList<u8>,
}

#[derive(Drop)]
pub struct MemLog {
    bytes: Vec<u8>,
    start: u64,
    // From here on bytes were written since the last sync.
    low: usize,
    // What was synced from there on.
    tail: Vec<u8>,
    synced_start: u64,
    faults: u64,
    past: Note<LinkedList<LogMoment>>,
    ghost within: { low + length tail.items ≤ length bytes.items },
}

// A refused growth is a fault.
pub(crate) fn count(outcome: Result<(), AllocError>, faults: &mut u64) -> Result<(), Failed>
    ensures variant { is_ok result ≡ is_ok outcome }
    ensures cause { CountsFault result faults.old faults.new }
    ensures counted { faults.new ≡ counted_by result faults.old }
{
    if outcome.is_err() {
        *faults = faults.saturating_add(1);
        return Err(Failed);
    }
    Ok(())
}

fn pad(bytes: &mut Vec<u8>, to: usize) -> Result<(), AllocError>
    requires { length bytes.old.items ≤ to }
    ensures ok { OnOk result (bytes.new.items ≡ bytes.old.items ++ replicate (to - length bytes.old.items) 0) }
    ensures err { OnErr result (bytes.new.items ≡ bytes.old.items) }
{
    bytes.resize(to, 0)
}

fn put(bytes: &mut [u8], at: usize, from: &[u8])
    requires { at + length from.now ≤ length bytes.old }
    ensures { bytes.new ≡ take at bytes.old ++ from.now ++ drop (at + length from.now) bytes.old }
{
    let end = at + from.len();
    bytes[at..end].copy_from_slice(from);
}

// Zeros up to a length, if it isn't reached.
fn reach(bytes: &mut Vec<u8>, to: usize) -> Result<(), AllocError>
    ensures ok { OnOk result (bytes.new.items ≡ bytes.old.items ++ replicate (to - length bytes.old.items) 0) }
    ensures err { OnErr result (bytes.new.items ≡ bytes.old.items) }
{
    if bytes.len() < to {
        return pad(bytes, to);
    }
    Ok(())
}

fn overwrite(bytes: &mut Vec<u8>, at: usize, from: &[u8]) -> Result<(), AllocError>
    ensures ok { OnOk result (bytes.new.items ≡ overlaid bytes.old.items at from.now) }
    ensures err { OnErr result (bytes.new.items ≡ bytes.old.items) }
{
    if from.len() > usize::MAX - at {
        return Err(AllocError);
    }
    reach(bytes, at + from.len())?;
    put(bytes, at, from);
    Ok(())
}

// Puts bytes before those that stand here. Where none stand, they are copied once.
fn put_before(bytes: &[u8], tail: &mut Vec<u8>) -> Result<(), AllocError>
    ensures ok { OnOk result (tail.new.items ≡ bytes.now ++ tail.old.items) }
    ensures length { OnOk result (length tail.new.items ≡ length bytes.now + length tail.old.items) }
    ensures err { OnErr result (tail.new.items ≡ tail.old.items) }
{
    tail.extend_from_slice(bytes)?;
    tail.rotate_right(bytes.len());
    Ok(())
}

// Keeps what was synced before a write at a place.
fn set_aside(bytes: &[u8], low: &mut usize, tail: &mut Vec<u8>, at: usize) -> Result<(), AllocError>
    requires { low.old + length tail.old.items ≤ length bytes.now }
    ensures low { OnOk result (low.new ≡ min low.old at) }
    ensures within { low.new + length tail.new.items ≡ low.old + length tail.old.items }
    ensures synced { take low.new bytes.now ++ tail.new.items ≡ take low.old bytes.now ++ tail.old.items }
{
    if at < *low {
        put_before(&bytes[at..*low], tail)?;
        *low = at;
    }
    Ok(())
}

// Writes, and keeps what was synced.
fn write_in(
    bytes: &mut Vec<u8>,
    low: &mut usize,
    tail: &mut Vec<u8>,
    at: usize,
    from: &[u8],
) -> Result<(), AllocError>
    requires { low.old + length tail.old.items ≤ length bytes.old.items }
    ensures ok { OnOk result (bytes.new.items ≡ overlaid bytes.old.items at from.now) }
    ensures err { OnErr result (bytes.new.items ≡ bytes.old.items) }
    ensures within { low.new + length tail.new.items ≤ length bytes.new.items }
    ensures synced { take low.new bytes.new.items ++ tail.new.items ≡ take low.old bytes.old.items ++ tail.old.items }
{
    set_aside(bytes, low, tail, at)?;
    overwrite(bytes, at, from)
}

fn byte_or_zero(bytes: &[u8], i: usize) -> u8
    ensures { result ≡ slice_index bytes.now i }
{
    if i < bytes.len() { bytes[i] } else { 0 }
}

// Puts the synced bytes back at even places, the first of which is the first here unless that is odd.
pub(crate) fn mix(bytes: &mut [u8], synced: &[u8], is_odd: bool)
    ensures { bytes.new ≡ mixed_bytes is_odd synced.now bytes.old }
{
    let mut is_odd = is_odd;
    for i in 0..bytes.len() {
        if !is_odd {
            bytes[i] = byte_or_zero(synced, i);
        }
        is_odd = !is_odd;
    }
}

fn mix_from(bytes: &mut Vec<u8>, low: usize, tail: &[u8])
    requires { low ≤ length bytes.old.items }
    ensures length { length bytes.new.items ≡ length bytes.old.items }
    ensures bytes { bytes.new.items ≡ take low bytes.old.items ++ mixed_bytes (low % 2 == 1) tail.now (drop low bytes.old.items) }
{
    mix(&mut bytes[low..], tail, low % 2 == 1);
}

// Puts back what was synced.
fn put_back(bytes: &mut Vec<u8>, low: usize, tail: &[u8])
    requires { low + length tail.now ≤ length bytes.old.items }
    ensures { bytes.new.items ≡ take low bytes.old.items ++ tail.now }
{
    bytes.truncate(low + tail.len());
    put(bytes, low, tail);
}

fn read_from(bytes: &[u8], at: u64, into: &mut [u8]) -> usize
    ensures count { result ≤ length into.old }
    ensures read { IsRead bytes.now at into.old result into.new }
{
    let at = at as usize;
    if at >= bytes.len() {
        return 0;
    }
    let rest = &bytes[at..];
    let n = into.len().min(rest.len());
    into[..n].copy_from_slice(&rest[..n]);
    n
}

impl MemLog {
    ghost use Rattle.std.specs.Prelude.{◌≡◌};
    ghost use Rattle.disk_core.specs.MemLogViews.{written, synced};

    /// A volume with these bytes, all of them synced, which has counted no fault.
    pub fn of(alloc: Global, bytes: Vec<u8>) -> MemLog
        ensures written { written result ≡ record { start = 0; bytes = bytes.items } }
        ensures synced { synced result ≡ record { start = 0; bytes = bytes.items } }
        ensures faults { result.faults ≡ 0 }
    {
        let past = Note::by(&bytes);
        MemLog {
            low: bytes.len(),
            bytes,
            start: 0,
            tail: Vec::new(alloc),
            synced_start: 0,
            faults: 0,
            past,
        }
    }

    // All of it is synced.
    fn settle(&mut self)
        ensures written { written self.new ≡ written self.old }
        ensures synced { synced self.new ≡ written self.old }
        ensures faults { self.new.faults ≡ self.old.faults }
        ensures past { self.new.past ≡ self.old.past }
    {
        self.low = self.bytes.len();
        self.tail.clear();
        self.synced_start = self.start;
    }
}

impl LogDisk for MemLog {
    ghost use Rattle.std.specs.Prelude.{◌≡◌, ◌⊎◌, ◌≤◌, true, refl, length, max, IfOk, OnOk};
    ghost use Rattle.std.proofs.Common.{inl};
    ghost use Rattle.disk_core.specs.Faults.{CountsFault, counted_by};
    ghost use Rattle.disk_core.specs.Images.{NoMore, Follows, Only};
    ghost use Rattle.disk_core.specs.Past.{is_now, only_now};
    ghost use Rattle.disk_core.specs.Volume.{overlaid, Wrote, Forgot, IsRead};
    ghost use Rattle.disk_core.specs.MemLogViews.{written, log_images, log_left, log_left_at, LogElapses};

    ghost tells = { true };

    ghost reads = { λ m. written m };

    ghost images = { λ m. log_images m };

    ghost moment = { λ m. length m.past.value };

    ghost left_at = { λ m t. log_left_at m t };

    ghost faults = { λ m. m.faults };

    ghost reads_image = { λ m told. inl refl };

    ghost counts_now = { λ m c told now. is_now log_left m.past.value (log_images m) c now };

    ghost only_now = { λ m c told now. only_now log_left m.past.value (log_images m) c now };

    fn read(&mut self, at: u64, into: &mut [u8]) -> Result<usize, Failed>
        ensures count { IfOk result (λ n. n ≤ length into.old) }
        ensures bytes { IfOk result (λ n. IsRead (written self.old).bytes at into.old n into.new) }
        ensures same { written self.new ≡ written self.old }
        ensures crash { NoMore (log_images self.old) (log_images self.new) }
        ensures time { LogElapses self.old self.new }
        ensures cause { CountsFault result self.old.faults self.new.faults }
        ensures counted { self.new.faults ≡ counted_by result self.old.faults }
    {
        Ok(read_from(&self.bytes, at, into))
    }

    fn write_at(&mut self, at: u64, from: &[u8]) -> Result<(), Failed>
        ensures written { OnOk result ((written self.new).bytes ≡ overlaid (written self.old).bytes at from.now) }
        ensures others { Wrote at (length from.now) (written self.old) (written self.new) }
        ensures crash { Follows (Wrote at (length from.now)) (log_images self.old) (log_images self.new) }
        ensures time { LogElapses self.old self.new }
        ensures cause { CountsFault result self.old.faults self.new.faults }
        ensures counted { self.new.faults ≡ counted_by result self.old.faults }
    {
        let past = Note::by(&*self);
        let outcome = write_in(
            &mut self.bytes,
            &mut self.low,
            &mut self.tail,
            at as usize,
            from,
        );
        self.past = past;
        count(outcome, &mut self.faults)
    }

    fn sync(&mut self) -> Result<(), Failed>
        ensures durable { OnOk result (Only (written self.old) (log_images self.new)) }
        ensures same { written self.new ≡ written self.old }
        ensures crash { NoMore (log_images self.old) (log_images self.new) }
        ensures time { LogElapses self.old self.new }
        ensures cause { CountsFault result self.old.faults self.new.faults }
        ensures counted { self.new.faults ≡ counted_by result self.old.faults }
    {
        let past = Note::by(&*self);
        self.settle();
        self.past = past;
        Ok(())
    }

    fn forget(&mut self, upto: u64) -> Result<(), Failed>
        ensures raised { OnOk result ((written self.new).start ≡ max (written self.old).start upto) }
        ensures others { Forgot upto (written self.old) (written self.new) }
        ensures crash { Follows (Forgot upto) (log_images self.old) (log_images self.new) }
        ensures time { LogElapses self.old self.new }
        ensures cause { CountsFault result self.old.faults self.new.faults }
        ensures counted { self.new.faults ≡ counted_by result self.old.faults }
    {
        let past = Note::by(&*self);
        self.start = self.start.max(upto);
        self.past = past;
        Ok(())
    }

    fn extent(&mut self) -> Result<Extent, Failed>
        ensures start { IfOk result (λ e. e.start ≡ (written self.old).start) }
        ensures length { IfOk result (λ e. e.length ≡ length (written self.old).bytes) }
        ensures same { written self.new ≡ written self.old }
        ensures crash { NoMore (log_images self.old) (log_images self.new) }
        ensures time { LogElapses self.old self.new }
        ensures cause { CountsFault result self.old.faults self.new.faults }
        ensures counted { self.new.faults ≡ counted_by result self.old.faults }
    {
        Ok(Extent {
            start: self.start,
            length: self.bytes.len() as u64,
        })
    }
}

impl MemLog {
    ghost use Rattle.std.specs.Prelude.{◌≡◌};
    ghost use Rattle.disk_core.specs.MemLog.{outcome_of};
    ghost use Rattle.disk_core.specs.MemLogViews.{written, synced, log_crashed, LogFell};

    fn fall_back(&mut self, how: Crash)
        ensures written { written self.new ≡ outcome_of how (synced self.old) (written self.old) }
        ensures synced { synced self.new ≡ written self.new }
        ensures faults { self.new.faults ≡ self.old.faults }
    {
        match how {
            Crash::Lost => {
                put_back(&mut self.bytes, self.low, &self.tail);
                self.start = self.synced_start;
            }
            Crash::Kept => {}
            Crash::Torn => mix_from(&mut self.bytes, self.low, &self.tail),
        }
        self.settle();
    }

    /// What a crash makes of it. It takes no memory.
    pub fn crash(&mut self, how: Crash)
        ensures written { written self.new ≡ outcome_of how (synced self.old) (written self.old) }
        ensures fell { LogFell how self.old self.new }
        ensures crashed { log_crashed self.old self.new }
        ensures faults { self.new.faults ≡ self.old.faults }
    {
        self.fall_back(how);
    }
}
