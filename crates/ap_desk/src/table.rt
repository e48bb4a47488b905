ghost use Rattle.std.specs.Prelude.{◌≡◌, ◌<◌, ◌≤◌, ◌++◌, ◌↔◌, length, take, drop, min, IsTrue, OnOk, OnErr, IfSome, IfNone, IsNone};
ghost use Rattle.std.specs.String.{string_bytes};
ghost use Rattle.std.specs.FinMap as map;
ghost use Rattle.ap_desk.specs.Files.{Gains, Becomes, Reads};
ghost use Rattle.ap_desk.specs.Places.{IsPlace, pairs_of, files_of};

use std::alloc::{AllocError, Global};
use std::marker::Model;

/// A file in memory.
#[derive(Drop)]
pub struct MemFile {
    name: String,
    bytes: Vec<u8>,
}

fn is_named(file: &MemFile, name: &str) -> bool
    ensures { IsTrue result ↔ (string_bytes file.now.name ≡ name.now) }
{
    file.name.as_str() == name
}

// Where the file of this name stands.
fn place_of(files: &[MemFile], name: &str) -> Option<usize>
    ensures found { IfSome result
        (λ i. IsPlace (pairs_of files.now) name.now i × (i < length files.now)) }
    ensures none { IfNone result (map.get (files_of files.now) name.now ≡ None) }
{
    for (i, file) in files.iter().enumerate() {
        if is_named(file, name) {
            return Some(i);
        }
    }
    None
}

// The bytes of the file, where it is there.
fn bytes_of<'a>(files: &'a [MemFile], name: &str) -> Option<&'a [u8]>
    ensures found { IfSome result
        (λ bytes. map.get (files_of files.now) name.now ≡ Some bytes.now) }
    ensures none { IsNone result ↔ (map.get (files_of files.now) name.now ≡ None) }
{
    match place_of(files, name) {
        Some(i) => Some(files[i].bytes.as_slice()),
        None => None,
    }
}

// Sets the file; after an error all files are as they were.
fn put_file(
    files: &mut Vec<MemFile>,
    alloc: Global,
    name: &str,
    bytes: Vec<u8>,
) -> Result<(), AllocError>
    ensures ok { OnOk result
        (Becomes name.now bytes.items (files_of files.old.items) (files_of files.new.items)) }
    ensures err { OnErr result (files_of files.new.items ≡ files_of files.old.items) }
{
    match place_of(files, name) {
        Some(i) => {
            files[i].bytes = bytes;
            Ok(())
        }
        None => {
            let name = String::from_str(alloc, name)?;
            files.push(MemFile { name, bytes })?;
            Ok(())
        }
    }
}

// Adds the piece at the end of the file; after an error all files are as they were.
fn append_file(
    files: &mut Vec<MemFile>,
    alloc: Global,
    name: &str,
    piece: &[u8],
) -> Result<(), AllocError>
    ensures ok { OnOk result
        (Gains name.now piece.now (files_of files.old.items) (files_of files.new.items)) }
    ensures err { OnErr result (files_of files.new.items ≡ files_of files.old.items) }
{
    match place_of(files, name) {
        Some(i) => {
            files[i].bytes.extend_from_slice(piece)?;
            Ok(())
        }
        None => {
            let name = String::from_str(alloc, name)?;
            let bytes = Vec::from_slice(alloc, piece)?;
            files.push(MemFile { name, bytes })?;
            Ok(())
        }
    }
}

// Copies the bytes from place `at` on into the front of `into`, as many as there are and as it holds.
fn copy_from(bytes: &[u8], at: u64, into: &mut [u8]) -> usize
    ensures count { result ≡ min (length into.new) (length (drop at bytes.now)) }
    ensures bytes { take result into.new ≡ take result (drop at bytes.now) }
{
    let at = at as usize;
    if at >= bytes.len() {
        return 0;
    }
    let rest = &bytes[at..];
    let count = into.len().min(rest.len());
    into[..count].copy_from_slice(&rest[..count]);
    count
}

/// Files in memory, which contracts see as the map from names to bytes.
#[derive(Drop)]
pub struct FileTable {
    alloc: Global,
    files: Vec<MemFile>,
}

impl Model for FileTable {
    ghost use Rattle.std.specs.Coded.{coded_ℕ, coded_list};
    ghost use Rattle.std.specs.FinMap as map;
    ghost use Rattle.ap_desk.specs.Files.{Files};
    ghost use Rattle.ap_desk.specs.Places.{files_of};

    ghost Value = { Files };

    ghost coded = { map.code (coded_list coded_ℕ) (coded_list coded_ℕ) };

    ghost view = { λ t. files_of t.files.items };
}

impl FileTable {
    pub fn new(alloc: Global) -> FileTable
        ensures { result ≡ map.empty }
    {
        FileTable {
            alloc,
            files: Vec::new(alloc),
        }
    }

    /// The bytes of the file, where it is there.
    pub fn get(&self, name: &str) -> Option<&[u8]>
        ensures found { IfSome result (λ bytes. map.get self.now name.now ≡ Some bytes.now) }
        ensures none { IsNone result ↔ (map.get self.now name.now ≡ None) }
    {
        bytes_of(&self.files, name)
    }

    /// Copies bytes of the file from place `at` on into the front of `into`; None where the file isn't there.
    pub fn read(&self, name: &str, at: u64, into: &mut [u8]) -> Option<usize>
        ensures bound { IfSome result (λ n. n ≤ length into.new) }
        ensures found { IfSome result (λ n. Reads self.now name.now at n into.new) }
        ensures none { IsNone result ↔ (map.get self.now name.now ≡ None) }
    {
        match self.get(name) {
            Some(bytes) => Some(copy_from(bytes, at, into)),
            None => None,
        }
    }

    /// Sets the file; after an error all files are as they were.
    pub fn put(&mut self, name: &str, bytes: &[u8]) -> Result<(), AllocError>
        ensures ok { OnOk result (Becomes name.now bytes.now self.old self.new) }
        ensures err { OnErr result (self.new ≡ self.old) }
    {
        let bytes = Vec::from_slice(self.alloc, bytes)?;
        put_file(&mut self.files, self.alloc, name, bytes)?;
        Ok(())
    }

    /// Adds the piece at the end of the file; after an error all files are as they were.
    pub fn append(&mut self, name: &str, piece: &[u8]) -> Result<(), AllocError>
        ensures ok { OnOk result (Gains name.now piece.now self.old self.new) }
        ensures err { OnErr result (self.new ≡ self.old) }
    {
        append_file(&mut self.files, self.alloc, name, piece)?;
        Ok(())
    }
}
