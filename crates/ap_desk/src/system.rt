ghost use Rattle.std.specs.Prelude.{◌≡◌, ◌≢◌, ◌↔◌, ℕ, ◌<◌, ◌≤◌, length, take, [], OnOk, OnErr, IfOk, IfSome, IsErr, IsErrAnd, None, Ok};
ghost use Rattle.std.specs.IoError.{error_kind};
ghost use Rattle.std.specs.Io.KnownBytes.{Appends, Consumes, IsAtEnd};
ghost use Rattle.ap_desk.specs.Files.{Goes, Reads, Becomes, BecomesEmptyOrStays, Gains, GainsFront};
ghost use Rattle.ap_desk.specs.Causes.{HasCause};
ghost use Rattle.ap_desk.specs.Calls.{counts_after, no_counts};

use crate::counts::Counts;
use crate::desk::{Desk, DeskFault};
use std::fs::{File, OpenOptions};
use std::io;
use std::io::{ErrorKind, Read, Seek, SeekFrom, Write};
use std::rt::Files;

/// The name under which a desk takes what goes to standard output.
const STDOUT: &str = "-";

/// The desk over the system's files and standard output. It tells nothing of what they hold.
///
/// Each call opens its file, makes its reads or writes until all is done, and closes it. The two counts rise by one,
/// up to 2^64 - 1, at each `Failed` and at each `Missing`.
#[derive(Drop)]
pub struct FileDesk<'a, R> {
    runtime: &'a R,
    counts: Counts,
}

impl<'a, R> FileDesk<'a, R> {
    /// A desk over this runtime's files, with both counts at 0.
    pub fn new(runtime: &'a R) -> FileDesk<'a, R>
        ensures { result.counts ≡ no_counts }
    {
        FileDesk {
            runtime,
            counts: Counts {
                faults: 0,
                absent: 0,
            },
        }
    }

    /// How many calls failed, up to 2^64 - 1.
    pub fn fault_count(&self) -> u64
        ensures { result ≡ self.now.counts.faults }
    {
        self.counts.faults
    }

    /// How many reads missed their file, up to 2^64 - 1.
    pub fn absent_count(&self) -> u64
        ensures { result ≡ self.now.counts.absent }
    {
        self.counts.absent
    }

    // Raises the count of the answer's fault, and hands the answer on.
    fn counted<T>(&mut self, answer: Result<T, DeskFault>) -> Result<T, DeskFault>
        ensures same { result ≡ answer }
        ensures counts { self.new.counts ≡ counts_after answer self.old.counts }
        ensures cause { HasCause self.old.counts self.new.counts result }
    {
        match answer {
            Ok(value) => Ok(value),
            Err(DeskFault::Failed) => {
                self.counts.faults = self.counts.faults.saturating_add(1);
                Err(DeskFault::Failed)
            }
            Err(DeskFault::Missing) => {
                self.counts.absent = self.counts.absent.saturating_add(1);
                Err(DeskFault::Missing)
            }
            Err(DeskFault::NoMemory) => Err(DeskFault::NoMemory),
        }
    }
}

impl<R: Files + Print> Desk for FileDesk<'_, R> {
    ghost files = { λ _. None };

    ghost counts = { λ d. d.counts };

    /// Answers `Missing` where no file of this name is found, and `Failed` at any other error of the system.
    fn read(&mut self, name: &str, at: u64, into: &mut [u8]) -> Result<usize, DeskFault>
        ensures bound { IfOk result (λ n. n ≤ length into.new) }
        ensures bytes { IfOk result (λ n. IfSome None (λ told. Reads told name.now at n into.new)) }
        ensures counts { self.new.counts ≡ counts_after result self.old.counts }
        ensures cause { HasCause self.old.counts self.new.counts result }
    {
        let answer = read_file(self.runtime, name, at, into);
        self.counted(answer)
    }

    fn create(&mut self, name: &str) -> Result<(), DeskFault>
        ensures ok { OnOk result (Goes (Becomes name.now []) None None) }
        ensures err { OnErr result (Goes (BecomesEmptyOrStays name.now) None None) }
        ensures not_missing { result ≢ Err DeskFault.Missing }
        ensures counts { self.new.counts ≡ counts_after result self.old.counts }
        ensures cause { HasCause self.old.counts self.new.counts result }
    {
        let answer = create_file(self.runtime, name);
        self.counted(answer)
    }

    fn append(&mut self, name: &str, piece: &[u8]) -> Result<(), DeskFault>
        ensures ok { OnOk result (Goes (Gains name.now piece.now) None None) }
        ensures err { OnErr result (Goes (GainsFront name.now piece.now) None None) }
        ensures not_missing { result ≢ Err DeskFault.Missing }
        ensures counts { self.new.counts ≡ counts_after result self.old.counts }
        ensures cause { HasCause self.old.counts self.new.counts result }
    {
        let answer = append_file(self.runtime, name, piece);
        self.counted(answer)
    }
}

// What an error of the system is to the desk: want of memory, or a failed call.
fn fault_of(error: &io::Error) -> DeskFault
    ensures memory { (result ≡ DeskFault.NoMemory)
        ↔ (error_kind error.now ≡ ErrorKind.OutOfMemory) }
    ensures not_missing { result ≢ DeskFault.Missing }
{
    match error.kind() {
        ErrorKind::OutOfMemory => DeskFault::NoMemory,
        _ => DeskFault::Failed,
    }
}

// What it is to a call that opens a file to read it: the file isn't there where none of the name is found.
fn opening_fault(error: &io::Error) -> DeskFault
    ensures missing { (result ≡ DeskFault.Missing) ↔ (error_kind error.now ≡ ErrorKind.NotFound) }
    ensures memory { (result ≡ DeskFault.NoMemory)
        ↔ (error_kind error.now ≡ ErrorKind.OutOfMemory) }
{
    match error.kind() {
        ErrorKind::NotFound => DeskFault::Missing,
        _ => fault_of(error),
    }
}

// What the answer of one read is to the loop that fills a buffer.
enum Reading {
    // So many bytes came.
    More(usize),
    // The end was met, which is no failure.
    End,
    // The read was interrupted, and is made again.
    Again,
    // The read gave up.
    Fault(DeskFault),
}

fn reading_of(answer: io::Result<usize>) -> Reading
    ensures more { IfOk answer (λ n. n ≢ 0 → result ≡ Reading.More n) }
    ensures end { (result ≡ Reading.End) ↔ (answer ≡ Ok 0) }
    ensures again { (result ≡ Reading.Again)
        ↔ IsErrAnd answer (λ e. error_kind e ≡ ErrorKind.Interrupted) }
    ensures came { (n : ℕ) → result ≡ Reading.More n → answer ≡ Ok n }
    ensures fault { (fault : DeskFault) → result ≡ Reading.Fault fault
        → IsErr answer × (fault ≢ DeskFault.Missing) }
{
    match answer {
        Ok(0) => Reading::End,
        Ok(count) => Reading::More(count),
        Err(error) => match error.kind() {
            ErrorKind::Interrupted => Reading::Again,
            _ => Reading::Fault(fault_of(&error)),
        },
    }
}

// The file, opened to read.
fn open_file<R: Files>(runtime: &R, name: &str) -> Result<R::File, DeskFault> {
    match File::open(runtime, name) {
        Ok(file) => Ok(file),
        Err(error) => Err(opening_fault(&error)),
    }
}

fn read_file<R: Files>(
    runtime: &R,
    name: &str,
    at: u64,
    into: &mut [u8],
) -> Result<usize, DeskFault>
    ensures { IfOk result (λ n. n ≤ length into.new) }
{
    let mut file = open_file(runtime, name)?;
    if let Err(error) = file.seek(SeekFrom::Start(at)) {
        return Err(fault_of(&error));
    }
    fill(&mut file, into)
}

fn create_file<R: Files>(runtime: &R, name: &str) -> Result<(), DeskFault>
    ensures { result ≢ Err DeskFault.Missing }
{
    match File::create(runtime, name) {
        Ok(_) => Ok(()),
        Err(error) => Err(fault_of(&error)),
    }
}

fn append_file<R: Files + Print>(runtime: &R, name: &str, piece: &[u8]) -> Result<(), DeskFault>
    ensures { result ≢ Err DeskFault.Missing }
{
    if name == STDOUT {
        return write_whole(&mut io::writer(runtime), piece);
    }
    match OpenOptions::new()
        .append(true)
        .create(true)
        .open(runtime, name)
    {
        Ok(mut file) => write_whole(&mut file, piece),
        Err(error) => Err(fault_of(&error)),
    }
}

// Reads until `into` is full or the end is met, and says how many bytes came.
fn fill<S: Read>(source: &mut S, into: &mut [u8]) -> Result<usize, DeskFault>
    ensures bound { IfOk result (λ n. n ≤ length into.new) }
    ensures bytes { IfOk result
        (λ n. Consumes (S.remaining source.old) (S.remaining source.new) (take n into.new)) }
    ensures end { IfOk result (λ n. n < length into.new → IsAtEnd (S.remaining source.new)) }
    ensures not_missing { result ≢ Err DeskFault.Missing }
{
    let mut count = 0usize;
    for _ in 0..u64::MAX {
        if count >= into.len() {
            return Ok(count);
        }
        let answer = source.read(&mut into[count..]);
        match reading_of(answer) {
            Reading::More(more) => count += more,
            Reading::End => return Ok(count),
            Reading::Again => {}
            Reading::Fault(fault) => return Err(fault),
        }
    }
    Err(DeskFault::Failed)
}

// Writes until all of the bytes are taken.
fn write_whole<W: Write>(target: &mut W, bytes: &[u8]) -> Result<(), DeskFault>
    ensures ok { OnOk result (Appends (W.contents target.old) (W.contents target.new) bytes.now) }
    ensures not_missing { result ≢ Err DeskFault.Missing }
{
    let mut rest = bytes;
    for _ in 0..u64::MAX {
        if rest.is_empty() {
            return Ok(());
        }
        match target.write(rest) {
            Ok(0) => return Err(DeskFault::Failed),
            Ok(count) => rest = &rest[count..],
            Err(error) => {
                if error.kind() != ErrorKind::Interrupted {
                    return Err(fault_of(&error));
                }
            }
        }
    }
    Err(DeskFault::Failed)
}
