//! A disk in memory that remembers all that was done to it.
ghost use Rattle.std.specs.Prelude.{◌≡◌, ◌≤◌, IfOk, length, vec_len, vec_capacity};
ghost use Rattle.kn_disk.specs.Steps.{contents_after};
ghost use Rattle.kn_disk.specs.History.{kept_steps};

use crate::calls::CallCounter;
use crate::disk::Disk;
use crate::fill::Fill;
use crate::history::History;
use crate::replay::{resize, write_over};
use kn_io::{Failed, NoMemory};
use std::alloc::Global;

/// A disk in memory. It keeps its first bytes and all that was done to them, so that what a crash
/// may leave can be made of it at any time, and fails at the calls that it is told.
#[derive(Drop)]
pub struct MemoryDisk {
    first: Vec<u8>,
    bytes: Vec<u8>,
    room: u64,
    history: History,
    calls: CallCounter,
    ghost held: { bytes.items ≡ contents_after first.items (kept_steps history) },
    ghost within: { vec_len bytes ≤ room },
    ghost reserved: { room ≤ vec_capacity bytes },
}

// A copy of bytes.
fn copy_of(alloc: Global, bytes: &Vec<u8>) -> Result<Vec<u8>, NoMemory>
    ensures { IfOk result (λ copy. copy.items ≡ bytes.now.items) }
{
    match bytes.to_vec(alloc) {
        Ok(copy) => Ok(copy),
        Err(_) => Err(NoMemory),
    }
}

// Bytes for which so much memory is taken.
fn bytes_with_room(alloc: Global, bytes: &[u8], room: u64) -> Result<Vec<u8>, NoMemory>
    requires { length bytes.now ≤ room }
    ensures items { IfOk result (λ copy. copy.items ≡ bytes.now) }
    ensures room { IfOk result (λ copy. room ≤ vec_capacity copy) }
{
    let mut copy = match Vec::with_capacity(alloc, room as usize) {
        Ok(copy) => copy,
        Err(_) => return Err(NoMemory),
    };
    match copy.extend_from_slice(bytes) {
        Ok(()) => Ok(copy),
        Err(_) => Err(NoMemory),
    }
}

impl MemoryDisk {
    ghost use Rattle.kn_disk.specs.Steps.{crash_image, settled};
    ghost use Rattle.kn_disk.specs.MemoryDisk.{tape_of, new_tape, disk_bytes, disk_image};

    /// A disk with these bytes, which may grow up to `room` bytes. It takes all its memory. Of the
    /// `history` bytes each set_length or sync takes 16, and each write 16 and the bytes written.
    ///
    /// The calls numbered in `fails`, from 0, fail, those from number `stop` on, and those for which
    /// room or history don't suffice. They change nothing.
    ///
    /// # Errors
    ///
    /// `NoMemory` where host memory ran out.
    #[tactic(auto, using(crate::proofs::HistoryLaws::noting, crate::proofs::TapeLaws::fresh))]
    pub fn new(
        alloc: Global,
        room: u64,
        history: u64,
        first: &[u8],
        fails: Vec<u32>,
        stop: Option<u32>,
    ) -> Result<MemoryDisk, NoMemory>
        requires { length first.now ≤ room }
        ensures tape { IfOk result (λ disk. tape_of disk ≡ new_tape room history first.now fails.items stop) }
        ensures bytes { IfOk result (λ disk. disk_bytes disk ≡ first.now) }
    {
        let bytes = match bytes_with_room(alloc, first, room) {
            Ok(bytes) => bytes,
            Err(_) => return Err(NoMemory),
        };
        let first = match first.to_vec(alloc) {
            Ok(first) => first,
            Err(_) => return Err(NoMemory),
        };
        let history = match History::new(alloc, history) {
            Ok(history) => history,
            Err(_) => return Err(NoMemory),
        };
        Ok(MemoryDisk {
            first,
            bytes,
            room,
            history,
            calls: CallCounter::new(fails, stop),
        })
    }

    // What was there at the last sync.
    fn settled_bytes(&self, alloc: Global) -> Result<Vec<u8>, NoMemory>
        ensures { IfOk result (λ bytes. bytes.items ≡ contents_after self.now.first.items (settled (kept_steps self.now.history))) }
    {
        let mut bytes = match copy_of(alloc, &self.first) {
            Ok(bytes) => bytes,
            Err(_) => return Err(NoMemory),
        };
        match self.history.replay_settled(&mut bytes) {
            Ok(()) => Ok(bytes),
            Err(_) => Err(NoMemory),
        }
    }

    /// One image that a crash now may leave. With `Fill::New` it is what a read gives.
    ///
    /// # Errors
    ///
    /// `NoMemory` where host memory ran out.
    #[tactic(auto, using(crate::proofs::TapeLaws::crashes))]
    pub fn image(&self, alloc: Global, fill: Fill) -> Result<Vec<u8>, NoMemory>
        ensures image { IfOk result (λ image. disk_image self.now image.items) }
        ensures which { IfOk result (λ image. image.items ≡ crash_image fill (tape_of self.now).first (tape_of self.now).steps) }
        ensures read { IfOk result (λ image. fill ≡ Fill.New → image.items ≡ disk_bytes self.now) }
    {
        match fill {
            Fill::New => copy_of(alloc, &self.bytes),
            Fill::Old => self.settled_bytes(alloc),
            Fill::Byte(byte) => {
                let mut image = match self.settled_bytes(alloc) {
                    Ok(image) => image,
                    Err(_) => return Err(NoMemory),
                };
                self.history.spoil_pending(&mut image, byte);
                Ok(image)
            }
        }
    }
}

impl Disk for MemoryDisk {
    ghost use Rattle.std.specs.Prelude.{◌+◌, ℕ, List, OnOk, OnErr, false};
    ghost use Rattle.std.specs.Result.{is_err};
    ghost use Rattle.kn_base.specs.Rows.{part_at, overwritten};
    ghost use Rattle.kn_io.specs.Faults.{Rose};
    ghost use Rattle.kn_disk.specs.Images.{Scarred, Resized, After, resized, Only, Elapses};
    ghost use Rattle.kn_disk.specs.Steps.{Written, Cut, Synced};
    ghost use Rattle.kn_disk.specs.Calls.{fails_now};
    ghost use Rattle.kn_disk.specs.MemoryDisk.{tape_of, disk_bytes, called, stepped_tape, refuses, disk_moment, disk_image, disk_since, disk_faults, disk-contents_image, disk-counts_now, disk-only_now};

    ghost tells = { Unit {0} };

    ghost contents = { disk_bytes };

    ghost image = { disk_image };

    ghost moment = { disk_moment };

    ghost since = { disk_since };

    ghost faults = { disk_faults };

    /// How many bytes there are.
    ///
    /// # Errors
    ///
    /// `Failed` exactly at a call that is to fail.
    #[tactic(auto, using(crate::proofs::DiskLaws::still))]
    fn length(&mut self) -> Result<u64, Failed>
        ensures value { IfOk result (λ bytes. bytes ≡ length (disk_bytes self.old)) }
        ensures contents { disk_bytes self.new ≡ disk_bytes self.old }
        ensures images { (c : List ℕ) → disk_image self.new c → disk_image self.old c }
        ensures kept { (c : List ℕ) → disk_image self.old c → disk_image self.new c }
        ensures time { Elapses disk_moment disk_image disk_since self.old self.new }
        ensures same { OnOk result (disk_faults self.new ≡ disk_faults self.old) }
        ensures counted { disk_faults self.old ≤ disk_faults self.new }
        ensures failed { OnErr result (Rose (disk_faults self.old) (disk_faults self.new)) }
        ensures fails { is_err result ≡ fails_now (tape_of self.old).calls (tape_of self.old).stop }
        ensures tape { tape_of self.new ≡ called (tape_of self.old) (is_err result) }
    {
        match self.calls.count_call(true) {
            Ok(()) => Ok(self.bytes.len() as u64),
            Err(failed) => Err(failed),
        }
    }

    /// Makes the disk so many bytes long.
    ///
    /// # Errors
    ///
    /// `Failed` exactly at a call that is to fail, or where the disk or its history has no room for it.
    /// It then changes nothing.
    #[tactic(auto, using(crate::proofs::DiskLaws::cut))]
    fn set_length(&mut self, length: u64) -> Result<(), Failed>
        ensures resized { OnOk result (disk_bytes self.new ≡ resized length (disk_bytes self.old)) }
        ensures images { (c : List ℕ) → disk_image self.new c → After (Resized length) (disk_image self.old) c }
        ensures time { Elapses disk_moment disk_image disk_since self.old self.new }
        ensures same { OnOk result (disk_faults self.new ≡ disk_faults self.old) }
        ensures counted { disk_faults self.old ≤ disk_faults self.new }
        ensures failed { OnErr result (Rose (disk_faults self.old) (disk_faults self.new)) }
        ensures fails { is_err result ≡ refuses (tape_of self.old) (Cut length) }
        ensures nothing { OnErr result (disk_bytes self.new ≡ disk_bytes self.old) }
        ensures tape { tape_of self.new ≡ stepped_tape (tape_of self.old) (Cut length) (is_err result) }
    {
        let possible = length <= self.room && self.history.fits(0);
        match self.calls.count_call(possible) {
            Ok(()) => {}
            Err(failed) => return Err(failed),
        }
        match resize(&mut self.bytes, length as usize) {
            Ok(()) => {}
            Err(_) => unreachable!(),
        }
        self.history.note_cut(length);
        Ok(())
    }

    /// Reads as many bytes as `into` has, from the byte `at` on.
    ///
    /// # Errors
    ///
    /// `Failed` exactly at a call that is to fail.
    #[tactic(auto, using(crate::proofs::DiskLaws::still))]
    fn read_at(&mut self, at: u64, into: &mut [u8]) -> Result<(), Failed>
        requires { at + length into.old ≤ length (disk_bytes self.old) }
        ensures read { OnOk result (into.new ≡ part_at (disk_bytes self.old) at (length into.old)) }
        ensures contents { disk_bytes self.new ≡ disk_bytes self.old }
        ensures images { (c : List ℕ) → disk_image self.new c → disk_image self.old c }
        ensures kept { (c : List ℕ) → disk_image self.old c → disk_image self.new c }
        ensures time { Elapses disk_moment disk_image disk_since self.old self.new }
        ensures same { OnOk result (disk_faults self.new ≡ disk_faults self.old) }
        ensures counted { disk_faults self.old ≤ disk_faults self.new }
        ensures failed { OnErr result (Rose (disk_faults self.old) (disk_faults self.new)) }
        ensures fails { is_err result ≡ fails_now (tape_of self.old).calls (tape_of self.old).stop }
        ensures tape { tape_of self.new ≡ called (tape_of self.old) (is_err result) }
    {
        match self.calls.count_call(true) {
            Ok(()) => {}
            Err(failed) => return Err(failed),
        }
        let at = at as usize;
        into.copy_from_slice(&self.bytes[at..at + into.len()]);
        Ok(())
    }

    /// Writes the bytes over what stands from the byte `at` on.
    ///
    /// # Errors
    ///
    /// `Failed` exactly at a call that is to fail, or where the history has no room for it. It then
    /// changes nothing.
    #[tactic(auto, using(crate::proofs::DiskLaws::written))]
    fn write_at(&mut self, at: u64, from: &[u8]) -> Result<(), Failed>
        requires { at + length from.now ≤ length (disk_bytes self.old) }
        ensures written { OnOk result (disk_bytes self.new ≡ overwritten (disk_bytes self.old) at from.now) }
        ensures images { (c : List ℕ) → disk_image self.new c → After (Scarred at (length from.now)) (disk_image self.old) c }
        ensures time { Elapses disk_moment disk_image disk_since self.old self.new }
        ensures same { OnOk result (disk_faults self.new ≡ disk_faults self.old) }
        ensures counted { disk_faults self.old ≤ disk_faults self.new }
        ensures failed { OnErr result (Rose (disk_faults self.old) (disk_faults self.new)) }
        ensures fails { is_err result ≡ refuses (tape_of self.old) (Written at from.now) }
        ensures nothing { OnErr result (disk_bytes self.new ≡ disk_bytes self.old) }
        ensures tape { tape_of self.new ≡ stepped_tape (tape_of self.old) (Written at from.now) (is_err result) }
    {
        let possible = self.history.fits(from.len());
        match self.calls.count_call(possible) {
            Ok(()) => {}
            Err(failed) => return Err(failed),
        }
        write_over(&mut self.bytes, at as usize, from);
        self.history.note_write(at, from);
        Ok(())
    }

    /// Brings all that was written to where a crash leaves it.
    ///
    /// # Errors
    ///
    /// `Failed` exactly at a call that is to fail, or where the history has no room for it. It then
    /// changes nothing.
    #[tactic(auto, using(crate::proofs::DiskLaws::synced))]
    fn sync(&mut self) -> Result<(), Failed>
        ensures durable { OnOk result (Only (disk_bytes self.new) (disk_image self.new)) }
        ensures contents { disk_bytes self.new ≡ disk_bytes self.old }
        ensures images { (c : List ℕ) → disk_image self.new c → disk_image self.old c }
        ensures kept { OnErr result ((c : List ℕ) → disk_image self.old c → disk_image self.new c) }
        ensures time { Elapses disk_moment disk_image disk_since self.old self.new }
        ensures same { OnOk result (disk_faults self.new ≡ disk_faults self.old) }
        ensures counted { disk_faults self.old ≤ disk_faults self.new }
        ensures failed { OnErr result (Rose (disk_faults self.old) (disk_faults self.new)) }
        ensures fails { is_err result ≡ refuses (tape_of self.old) Synced }
        ensures tape { tape_of self.new ≡ stepped_tape (tape_of self.old) Synced (is_err result) }
    {
        let possible = self.history.fits(0);
        match self.calls.count_call(possible) {
            Ok(()) => {}
            Err(failed) => return Err(failed),
        }
        self.history.note_sync();
        Ok(())
    }

    ghost contents_image = { disk-contents_image };

    ghost counts_now = { disk-counts_now };

    ghost only_now = { disk-only_now };
}
