ghost use Rattle.std.specs.Prelude.{◌≡◌, ◌≢◌, ◌≤◌, ◌↔◌, [], length, OnOk, OnErr, IfOk, IfSome, IsNone, Some};
ghost use Rattle.std.specs.FinMap as map;
ghost use Rattle.ap_desk.specs.Files.{Reads, Becomes, Gains};
ghost use Rattle.ap_desk.specs.Causes.{HasCause};
ghost use Rattle.ap_desk.specs.Calls.{counts_after, counts_of};

use crate::desk::{Desk, DeskFault};
use crate::memory::NoMemory;
use crate::table::FileTable;
use std::alloc::Global;
use std::marker::Model;

/// A desk in memory, which tells its files and on which no call fails.
#[derive(Drop)]
pub struct SureDesk {
    table: FileTable,
    absent: u64,
}

impl Model for SureDesk {
    ghost use Rattle.ap_desk.specs.Calls.{SureState, sure_state_code};

    ghost Value = { SureState };

    ghost coded = { sure_state_code };

    ghost view = { λ d. record { files = d.table; absent = d.absent } };
}

impl SureDesk {
    /// A desk that holds no file. It takes no memory.
    pub fn new(alloc: Global) -> SureDesk
        ensures { result ≡ record { files = map.empty; absent = 0 } }
    {
        SureDesk {
            table: FileTable::new(alloc),
            absent: 0,
        }
    }

    /// Sets the file of this name. After `NoMemory` the desk is as it was.
    pub fn put(&mut self, name: &str, bytes: &[u8]) -> Result<(), NoMemory>
        ensures ok { OnOk result (self.new
            ≡ record self.old { files = map.insert self.old.files name.now bytes.now }) }
        ensures err { OnErr result (self.new ≡ self.old) }
    {
        self.table.put(name, bytes)?;
        Ok(())
    }

    /// The bytes of the file, and None exactly where the name isn't there.
    pub fn file(&self, name: &str) -> Option<&[u8]>
        ensures found { IfSome result (λ bytes. map.get self.now.files name.now ≡ Some bytes.now) }
        ensures none { IsNone result ↔ (map.get self.now.files name.now ≡ None) }
    {
        self.table.get(name)
    }
}

impl Desk for SureDesk {
    ghost files = { λ d. Some d.files };

    ghost counts = { λ d. counts_of d };

    /// Answers `Missing` exactly where the file isn't there, and no other error.
    fn read(&mut self, name: &str, at: u64, into: &mut [u8]) -> Result<usize, DeskFault>
        ensures bound { IfOk result (λ n. n ≤ length into.new) }
        ensures bytes { IfOk result (λ n. Reads self.old.files name.now at n into.new) }
        ensures missing { (result ≡ Err DeskFault.Missing)
            ↔ (map.get self.old.files name.now ≡ None) }
        ensures only_missing { OnErr result (result ≡ Err DeskFault.Missing) }
        ensures state { self.new
            ≡ record self.old { absent = (counts_after result (counts_of self.old)).absent } }
        ensures cause { HasCause (counts_of self.old) (counts_of self.new) result }
    {
        match self.table.read(name, at, into) {
            Some(count) => Ok(count),
            None => {
                self.absent = self.absent.saturating_add(1);
                Err(DeskFault::Missing)
            }
        }
    }

    /// Gives up for want of memory alone; then the desk is as it was.
    fn create(&mut self, name: &str) -> Result<(), DeskFault>
        ensures ok { OnOk result (self.new
            ≡ record self.old { files = map.insert self.old.files name.now [] }) }
        ensures err { OnErr result (self.new ≡ self.old) }
        ensures only_no_memory { OnErr result (result ≡ Err DeskFault.NoMemory) }
        ensures cause { HasCause (counts_of self.old) (counts_of self.new) result }
    {
        self.table.put(name, &[])?;
        Ok(())
    }

    /// Gives up for want of memory alone; then the desk is as it was.
    fn append(&mut self, name: &str, piece: &[u8]) -> Result<(), DeskFault>
        ensures ok { OnOk result (Gains name.now piece.now self.old.files self.new.files) }
        ensures err { OnErr result (self.new ≡ self.old) }
        ensures only_no_memory { OnErr result (result ≡ Err DeskFault.NoMemory) }
        ensures same { self.new.absent ≡ self.old.absent }
        ensures cause { HasCause (counts_of self.old) (counts_of self.new) result }
    {
        self.table.append(name, piece)?;
        Ok(())
    }
}
