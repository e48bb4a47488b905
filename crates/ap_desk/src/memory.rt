ghost use Rattle.std.specs.Prelude.{◌≡◌, ◌≢◌, ◌≤◌, ◌/◌, ◌↔◌, ◌⊎◌, [], length, take, OnOk, OnErr, IfOk, IfSome, IsNone, Some};
ghost use Rattle.std.specs.FinMap as map;
ghost use Rattle.ap_desk.specs.Files.{IsFileName, Goes, Reads, Becomes, BecomesEmptyOrStays, Gains, GainsFront};
ghost use Rattle.ap_desk.specs.Causes.{HasCause};
ghost use Rattle.ap_desk.specs.Calls.{IsDue, new_state, counted, counts_after};

use crate::calls::Calls;
use crate::counts::Counts;
use crate::desk::{Desk, DeskFault};
use crate::table::FileTable;
use std::alloc::{AllocError, Global};
use std::marker::Model;

/// Memory ran out; what was lent is unchanged.
#[derive(Clone, Copy, Debug, PartialEq, Eq)]
pub struct NoMemory;

impl From<AllocError> for NoMemory {
    fn from(_: AllocError) -> NoMemory {
        NoMemory
    }
}

/// A kind of call of a desk.
#[derive(Clone, Copy, Debug, PartialEq, Eq)]
pub enum DeskCall {
    /// `Desk::read`
    Read,
    /// `Desk::create`
    Create,
    /// `Desk::append`
    Append,
}

/// A desk in memory, which tells its files, with calls that are to fail.
///
/// The calls of each kind are counted from 0. A call fails exactly where its number was given to `fail`; it raises
/// the fault count, and a read of a file that isn't there raises the absent count. All numbers and counts rise by
/// one, up to 2^64 - 1.
#[derive(Drop)]
pub struct MemDesk {
    table: FileTable,
    reads: Calls,
    creates: Calls,
    appends: Calls,
    counts: Counts,
}

impl Model for MemDesk {
    ghost use Rattle.ap_desk.specs.Calls.{MemState, mem_state_code};

    ghost Value = { MemState };

    ghost coded = { mem_state_code };

    ghost view = { λ d. record {
      files = d.table;
      reads = d.reads;
      creates = d.creates;
      appends = d.appends;
      counts = d.counts;
    } };
}

impl MemDesk {
    ghost use Rattle.ap_desk.specs.Plans.{failing_at};

    /// A desk that holds no file and fails no call. It takes no memory.
    pub fn new(alloc: Global) -> MemDesk
        ensures { result ≡ new_state }
    {
        MemDesk {
            table: FileTable::new(alloc),
            reads: Calls::new(alloc),
            creates: Calls::new(alloc),
            appends: Calls::new(alloc),
            counts: Counts {
                faults: 0,
                absent: 0,
            },
        }
    }

    /// Sets the file of this name. After `NoMemory` the desk is as it was.
    pub fn put(&mut self, name: &str, bytes: &[u8]) -> Result<(), NoMemory>
        ensures ok { OnOk result (self.new
            ≡ record self.old { files = map.insert self.old.files name.now bytes.now }) }
        ensures err { OnErr result (self.new ≡ self.old) }
    {
        self.table.put(name, bytes)?;
        Ok(())
    }

    /// Makes the call of this kind and number fail, counted from 0. After `NoMemory` the desk is as it was.
    pub fn fail(&mut self, call: DeskCall, number: u64) -> Result<(), NoMemory>
        ensures ok { OnOk result (self.new ≡ failing_at self.old call number) }
        ensures err { OnErr result (self.new ≡ self.old) }
    {
        match call {
            DeskCall::Read => self.reads.fail(number)?,
            DeskCall::Create => self.creates.fail(number)?,
            DeskCall::Append => self.appends.fail(number)?,
        }
        Ok(())
    }

    /// The bytes of the file, and None exactly where the name isn't there.
    pub fn file(&self, name: &str) -> Option<&[u8]>
        ensures found { IfSome result (λ bytes. map.get self.now.files name.now ≡ Some bytes.now) }
        ensures none { IsNone result ↔ (map.get self.now.files name.now ≡ None) }
    {
        self.table.get(name)
    }

    /// How many calls failed, up to 2^64 - 1.
    pub fn fault_count(&self) -> u64
        ensures { result ≡ self.now.counts.faults }
    {
        self.counts.faults
    }

    /// How many reads missed their file, up to 2^64 - 1.
    pub fn absent_count(&self) -> u64
        ensures { result ≡ self.now.counts.absent }
    {
        self.counts.absent
    }
}

impl Desk for MemDesk {
    ghost files = { λ d. Some d.files };

    ghost counts = { λ d. d.counts };

    /// Fails exactly where the call's number is in the list of reads; `Missing` comes exactly where it isn't and the
    /// file isn't there.
    fn read(&mut self, name: &str, at: u64, into: &mut [u8]) -> Result<usize, DeskFault>
        ensures bound { IfOk result (λ n. n ≤ length into.new) }
        ensures bytes { IfOk result (λ n. Reads self.old.files name.now at n into.new) }
        ensures failed { (result ≡ Err DeskFault.Failed) ↔ IsDue self.old.reads }
        ensures missing { (result ≡ Err DeskFault.Missing)
            ↔ (¬ IsDue self.old.reads × (map.get self.old.files name.now ≡ None)) }
        ensures state { self.new ≡ record self.old {
          reads = counted self.old.reads;
          counts = counts_after result self.old.counts;
        } }
        ensures cause { HasCause self.old.counts self.new.counts result }
    {
        if self.reads.advance() {
            self.counts.faults = self.counts.faults.saturating_add(1);
            return Err(DeskFault::Failed);
        }
        match self.table.read(name, at, into) {
            Some(count) => Ok(count),
            None => {
                self.counts.absent = self.counts.absent.saturating_add(1);
                Err(DeskFault::Missing)
            }
        }
    }

    /// Fails exactly where the call's number is in the list of creates. After any error the files are as they were.
    fn create(&mut self, name: &str) -> Result<(), DeskFault>
        ensures ok { OnOk result (Becomes name.now [] self.old.files self.new.files) }
        ensures err { OnErr result (self.new.files ≡ self.old.files) }
        ensures failed { (result ≡ Err DeskFault.Failed) ↔ IsDue self.old.creates }
        ensures not_missing { result ≢ Err DeskFault.Missing }
        ensures state { self.new ≡ record self.old {
          files = self.new.files;
          creates = counted self.old.creates;
          counts = counts_after result self.old.counts;
        } }
        ensures cause { HasCause self.old.counts self.new.counts result }
    {
        if self.creates.advance() {
            self.counts.faults = self.counts.faults.saturating_add(1);
            return Err(DeskFault::Failed);
        }
        self.table.put(name, &[])?;
        Ok(())
    }

    /// Fails exactly where the call's number is in the list of appends. A failing append keeps the first half of the
    /// piece, rounded down, where the memory for it is had, and else nothing; want of memory keeps nothing.
    fn append(&mut self, name: &str, piece: &[u8]) -> Result<(), DeskFault>
        ensures ok { OnOk result (Gains name.now piece.now self.old.files self.new.files) }
        ensures half { result ≡ Err DeskFault.Failed → (self.new.files ≡ self.old.files)
            ⊎ Gains name.now (take (length piece.now / 2) piece.now) self.old.files self.new.files }
        ensures no_memory { result ≡ Err DeskFault.NoMemory → self.new.files ≡ self.old.files }
        ensures err { OnErr result (GainsFront name.now piece.now self.old.files self.new.files) }
        ensures failed { (result ≡ Err DeskFault.Failed) ↔ IsDue self.old.appends }
        ensures not_missing { result ≢ Err DeskFault.Missing }
        ensures state { self.new ≡ record self.old {
          files = self.new.files;
          appends = counted self.old.appends;
          counts = counts_after result self.old.counts;
        } }
        ensures cause { HasCause self.old.counts self.new.counts result }
    {
        if self.appends.advance() {
            let _ = self.table.append(name, &piece[..piece.len() / 2]);
            self.counts.faults = self.counts.faults.saturating_add(1);
            return Err(DeskFault::Failed);
        }
        self.table.append(name, piece)?;
        Ok(())
    }
}
