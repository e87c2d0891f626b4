//! The reader of a bundle.

ghost use Rattle.std.specs.Prelude.{◌≡◌, ◌≢◌, ◌+◌, ◌-◌, ◌*◌, ◌^◌, ◌<◌, ◌≤◌, [], option_map, IfOk, OnOk, IfErr, OnErr, IfSome};
ghost use Rattle.std.specs.Option.{option_to_list};
ghost use Rattle.kn_io.specs.Faults.{Rose};
ghost use Rattle.bundle.specs.Lines as lines;
ghost use Rattle.bundle.specs.Lines.{lines_begun};
ghost use Rattle.bundle.specs.Bundles.{start};
ghost use Rattle.bundle.specs.Contents.{Content, made_of};
ghost use Rattle.bundle.specs.EntryLines.{makes_directory};
ghost use Rattle.bundle.specs.Keys.{known_of};
ghost use Rattle.bundle.specs.Paths as paths;
ghost use Rattle.bundle.specs.Paths.{with_path};
ghost use Rattle.bundle.specs.Streams.{CountsSame, TakesEntry, FailsEntry, Begins, FailsToBegin, Says, SaysNothing, TakesGiven, FailsToMake};
ghost use Rattle.bundle.specs.Views.{AreFew, IsContent, IsEntry, IsOpen, named_view, pending, place_of, what_view};

use crate::contents::content;
use crate::entry::{Bytes, Entry};
use crate::fault::{BundleFault, BundleKind, NotAdded};
use crate::known::Known;
use crate::line::Line;
use crate::lines::{Lines, read_line};
use crate::said::{Named, entry_line};
use kn_io::{NoMemory, Source};
use std::alloc::Global;

/// The first line of a bundle.
const FIRST_LINE: &[u8] = b"keynix bundle 1";

/// The last line of a bundle.
const LAST_LINE: &[u8] = b"end";

/// The most entries that a bundle has.
const MOST_ENTRIES: u32 = 4096;

/// Reads the entries of a bundle, one at a time.
#[derive(Drop)]
pub struct BundleReader {
    lines: Lines,
    line: Line,
    room: u32,
    known: Known,
}

impl BundleReader {
    /// A reader of a bundle whose first byte is `first`, where that was taken from its source already.
    ///
    /// # Errors
    ///
    /// `NoMemory` where host memory ran out.
    pub fn new(alloc: Global, first: Option<u8>) -> Result<BundleReader, NoMemory>
        ensures place { IfOk result (λ reader. place_of reader ≡ start) }
        ensures pending { IfOk result (λ reader. pending reader ≡ option_to_list first) }
        ensures open { IfOk result IsOpen }
    {
        match Known::new(alloc) {
            Ok(known) => Ok(BundleReader {
                lines: Lines::new(first),
                line: Line::new(),
                room: MOST_ENTRIES,
                known,
            }),
            Err(_) => Err(NoMemory),
        }
    }

    // Reads the first line, where that wasn't done.
    fn begin<S: Source>(&mut self, from: &mut S) -> Result<(), BundleFault>
        requires { IsOpen self.old }
        ensures begun { OnOk result (Begins (place_of self.old) (pending self.old) (S.left from.old) (place_of self.new) (pending self.new) (S.left from.new)) }
        ensures fault { IfErr result (FailsToBegin (place_of self.old) (pending self.old) (S.left from.old)) }
        ensures room { self.new.room ≡ self.old.room }
        ensures open { OnOk result (IsOpen self.new) }
        ensures pending { OnErr result (pending self.new ≡ []) }
        ensures same { CountsSame (S.faults from.new ≡ S.faults from.old) result }
        ensures counted { S.faults from.old ≤ S.faults from.new }
        ensures failed { IfErr result (λ fault. fault ≡ BundleFault.ReadFault → Rose (S.faults from.old) (S.faults from.new)) }
    {
        if self.lines.line() != 0 {
            return Ok(());
        }
        match read_line(&mut self.lines, from, &mut self.line) {
            Ok(()) => {}
            Err(fault) => return Err(fault),
        }
        if self.line.as_slice() == FIRST_LINE {
            Ok(())
        } else {
            Err(self.refused(BundleKind::Syntax))
        }
    }

    // The entry that the line says that was read last, or None where it is the last of the bundle. Its path is known from now
    // on.
    #[tactic(auto, unfolding(crate::specs::Bundles::accepted, crate::specs::Bundles::line_said))]
    fn accepted(&mut self, alloc: Global) -> Result<Option<Named>, BundleFault>
        ensures says { IfOk result (λ told. Says self.old.room (known_of self.old.known.paths) (lines_begun self.old.lines) self.old.line (option_map named_view told)) }
        ensures nothing { IfErr result (SaysNothing self.old.room (known_of self.old.known.paths) (lines_begun self.old.lines) self.old.line) }
        ensures known { IfOk result (λ told. IfSome told (λ named. known_of self.new.known.paths ≡ with_path (known_of self.old.known.paths) named.path (makes_directory (what_view named.what)))) }
        ensures room { IfOk result (λ told. IfSome told (λ named. 0 < self.old.room)) }
        ensures few { IfOk result (λ told. IfSome told (λ named. AreFew named.what)) }
        ensures same_lines { self.new.lines ≡ self.old.lines }
        ensures same_room { self.new.room ≡ self.old.room }
        ensures unread { IfErr result (λ fault. fault ≢ BundleFault.ReadFault) }
    {
        if self.line.as_slice() == LAST_LINE {
            if self.known.has_init() {
                return Ok(None);
            }
            return Err(self.refused(BundleKind::NoInit));
        }
        if self.room == 0 {
            return Err(self.refused(BundleKind::TooLong));
        }
        let told = match entry_line(self.line.as_slice()) {
            Some(told) => told,
            None => return Err(self.refused(BundleKind::Syntax)),
        };
        match self.known.add(alloc, told.path, told.what.is_directory()) {
            Ok(()) => {}
            Err(NotAdded::Refused(kind)) => return Err(self.refused(kind)),
            Err(NotAdded::NoMemory) => return Err(BundleFault::NoMemory),
        }
        match Vec::from_slice(alloc, told.path) {
            Ok(path) => Ok(Some(Named {
                path: Bytes::new(path),
                what: told.what,
            })),
            Err(_) => Err(BundleFault::NoMemory),
        }
    }

    // That the line is refused that was read last.
    fn refused(&self, kind: BundleKind) -> BundleFault
        ensures { result ≡ BundleFault.At kind (lines_begun self.now.lines) }
    {
        BundleFault::At {
            kind,
            line: self.lines.line(),
        }
    }

    // The entry of a line, made from what follows it.
    fn entry_of<S: Source>(
        &mut self,
        alloc: Global,
        named: Named,
        from: &mut S,
    ) -> Result<Entry, BundleFault>
        requires begins { lines.pending self.old.lines ≡ [] }
        requires few_lines { AreFew named.what }
        requires room { 0 < self.old.room }
        requires fits { lines_begun self.old.lines ≤ 409604097 }
        ensures given { IfOk result (λ entry. (known : paths.Known) → known_of self.old.known.paths ≡ with_path known named.path (makes_directory (what_view named.what)) → TakesGiven (record { line = lines_begun self.old.lines; room = self.old.room; known = known }) (named_view named) (S.left from.old) entry (place_of self.new) (S.left from.new)) }
        ensures fault { IfErr result (FailsToMake (λ bytes. made_of (lines_begun self.old.lines) (what_view named.what) bytes) (S.left from.old)) }
        ensures pending { lines.pending self.new.lines ≡ [] }
        ensures few { OnOk result (lines_begun self.new.lines ≤ lines_begun self.old.lines + 100000) }
        ensures room_left { OnOk result (self.new.room + 1 ≡ self.old.room) }
        ensures same { CountsSame (S.faults from.new ≡ S.faults from.old) result }
        ensures counted { S.faults from.old ≤ S.faults from.new }
        ensures failed { IfErr result (λ fault. fault ≡ BundleFault.ReadFault → Rose (S.faults from.old) (S.faults from.new)) }
    {
        let line = self.lines.line();
        let file = match content(alloc, named.what, &mut self.lines, &mut self.line, from) {
            Ok(file) => file,
            Err(fault) => return Err(fault),
        };
        self.room -= 1;
        Ok(entry(named.path, file, line))
    }
}

// An entry of a path and a file, or a directory.
fn entry(path: Bytes, file: Option<Vec<u8>>, line: u32) -> Entry
    ensures { (content : Content) → IsContent content file → IsEntry (record { path = path; content = content; line = line }) result }
{
    match file {
        Some(bytes) => Entry::File {
            path,
            bytes: Bytes::new(bytes),
            line,
        },
        None => Entry::Dir { path, line },
    }
}

/// Reads the next entry of a bundle. The source loses the entry's lines, and nothing more. The answer is None exactly after the
/// line `end`: what is left is what follows that line.
///
/// The reader is not to be used any more once it has answered None or a fault.
///
/// # Errors
///
/// `At` exactly where a line is refused, with why and its number; a bundle that ends early is refused at the line after the
/// last. `ReadFault` only where the source's count of faults rose. `NoMemory` only once an entry's line was accepted.
pub fn next_entry<S: Source>(
    alloc: Global,
    reader: &mut BundleReader,
    from: &mut S,
) -> Result<Option<Entry>, BundleFault>
    requires { IsOpen reader.old }
    ensures taken { IfOk result (λ entry. TakesEntry (place_of reader.old) (pending reader.old) (S.left from.old) entry (place_of reader.new) (S.left from.new)) }
    ensures fault { IfErr result (FailsEntry (place_of reader.old) (pending reader.old) (S.left from.old)) }
    ensures pending { pending reader.new ≡ [] }
    ensures open { IfOk result (λ entry. IfSome entry (λ told. IsOpen reader.new)) }
    ensures room { IfOk result (λ entry. IfSome entry (λ told. (place_of reader.new).room + 1 ≡ (place_of reader.old).room)) }
    ensures same { CountsSame (S.faults from.new ≡ S.faults from.old) result }
    ensures counted { S.faults from.old ≤ S.faults from.new }
    ensures failed { IfErr result (λ fault. fault ≡ BundleFault.ReadFault → Rose (S.faults from.old) (S.faults from.new)) }
{
    match reader.begin(from) {
        Ok(()) => {}
        Err(fault) => return Err(fault),
    }
    match read_line(&mut reader.lines, from, &mut reader.line) {
        Ok(()) => {}
        Err(fault) => return Err(fault),
    }
    let named = match reader.accepted(alloc) {
        Ok(Some(named)) => named,
        Ok(None) => return Ok(None),
        Err(fault) => return Err(fault),
    };
    match reader.entry_of(alloc, named, from) {
        Ok(entry) => Ok(Some(entry)),
        Err(fault) => Err(fault),
    }
}
