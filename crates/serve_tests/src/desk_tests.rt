use ap_desk::desk::{Desk, DeskFault};
use ap_desk::memory::{DeskCall, MemDesk};
use ap_desk::pieces::{append_all, read_all, write_all};
use ap_desk::sure::SureDesk;
use ap_desk::system::FileDesk;
use std::alloc::Global;
use std::test::Fail;
use std::{env, fs};

// A text of 5,000 bytes, so that two pieces are needed.
fn long_text(alloc: Global) -> Result<Vec<u8>, Fail> {
    let mut text = Vec::new(alloc);
    for i in 0..5000u32 {
        text.push((i % 251) as u8)?;
    }
    Ok(text)
}

fn holds(desk: &MemDesk, name: &str, bytes: &[u8]) -> bool {
    match desk.file(name) {
        Some(held) => held == bytes,
        None => false,
    }
}

#[test]
fn memory_keeps_files(rt: HostRuntime) -> Result<(), Fail> {
    let mut desk = MemDesk::new(rt.alloc());
    desk.put("a", b"one")?;
    desk.put("a", b"three")?;
    assert_eq!(rt; desk.file("a"), Some(b"three".as_slice()));
    assert_eq!(rt; desk.file("b"), None);
    Ok(())
}

#[test]
fn memory_is_read(rt: HostRuntime) -> Result<(), Fail> {
    let mut desk = MemDesk::new(rt.alloc());
    desk.put("a", b"three")?;
    let mut into = [0u8; 4];
    assert_eq!(rt; desk.read("a", 3, &mut into), Ok(2));
    assert_eq!(rt; into.as_slice(), b"ee\0\0".as_slice());
    assert_eq!(rt; desk.read("c", 0, &mut into), Err(DeskFault::Missing));
    assert_eq!(rt; desk.absent_count(), 1);
    Ok(())
}

#[test]
fn memory_is_written(rt: HostRuntime) -> Result<(), Fail> {
    let mut desk = MemDesk::new(rt.alloc());
    assert_eq!(rt; desk.create("a"), Ok(()));
    assert_eq!(rt; desk.append("a", b"lines"), Ok(()));
    assert!(rt; holds(&desk, "a", b"lines"));
    Ok(())
}

#[test]
fn appends_fail_by_number(rt: HostRuntime) -> Result<(), Fail> {
    let mut desk = MemDesk::new(rt.alloc());
    desk.fail(DeskCall::Append, 1)?;
    assert_eq!(rt; desk.append("a", b"er"), Ok(()));
    assert_eq!(rt; desk.append("a", b"first"), Err(DeskFault::Failed));
    assert!(rt; holds(&desk, "a", b"erfi"));
    assert_eq!(rt; desk.fault_count(), 1);
    Ok(())
}

#[test]
fn reads_and_creates_fail_by_number(rt: HostRuntime) -> Result<(), Fail> {
    let mut desk = MemDesk::new(rt.alloc());
    desk.fail(DeskCall::Read, 0)?;
    desk.fail(DeskCall::Create, 0)?;
    let mut into = [0u8; 3];
    assert_eq!(rt; desk.read("c", 0, &mut into), Err(DeskFault::Failed));
    assert_eq!(rt; desk.create("a"), Err(DeskFault::Failed));
    Ok(())
}

#[test]
fn sure_desk_is_read_and_written(rt: HostRuntime) -> Result<(), Fail> {
    let mut desk = SureDesk::new(rt.alloc());
    desk.put("a", b"xyz")?;
    let mut into = [0u8; 2];
    assert_eq!(rt; desk.read("a", 2, &mut into), Ok(1));
    assert_eq!(rt; desk.append("b", b"q"), Ok(()));
    assert_eq!(rt; desk.file("b"), Some(b"q".as_slice()));
    Ok(())
}

#[test]
fn long_texts_go_in_pieces(rt: HostRuntime) -> Result<(), Fail> {
    let text = long_text(rt.alloc())?;
    let mut desk = MemDesk::new(rt.alloc());
    assert_eq!(rt; write_all(&mut desk, "a", &text), Ok(()));
    assert!(rt; holds(&desk, "a", &text));
    Ok(())
}

#[test]
fn long_files_are_read(rt: HostRuntime) -> Result<(), Fail> {
    let text = long_text(rt.alloc())?;
    let mut desk = SureDesk::new(rt.alloc());
    desk.put("a", &text)?;
    let bytes = read_all(rt.alloc(), &mut desk, "a", 4096)?;
    assert_eq!(rt; bytes.as_slice(), text.as_slice());
    Ok(())
}

// The name of a file that no other run of the test uses.
fn new_name(rt: &HostRuntime) -> Result<String, Fail> {
    let folder = env::temp_dir(rt)?;
    let folder = folder.as_path().display();
    let id = std::process::id(rt.process());
    let name = format!(in rt.alloc(); "{folder}/ap_desk_{id}")?;
    Ok(name)
}

#[test]
fn real_files(rt: HostRuntime) -> Result<(), Fail> {
    let name = new_name(&rt)?;
    let name = name.as_str();
    assert!(rt; name.len() > 1);
    let text = long_text(rt.alloc())?;
    let mut desk = FileDesk::new(&rt);
    assert_eq!(rt; desk.create(name), Ok(()));
    assert_eq!(rt; append_all(&mut desk, name, &text), Ok(()));
    let bytes = read_all(rt.alloc(), &mut desk, name, 1_000_000)?;
    assert_eq!(rt; bytes.as_slice(), text.as_slice());
    fs::remove_file(&rt, name)?;
    let mut into = [0u8; 3];
    assert_eq!(rt; desk.read(name, 0, &mut into), Err(DeskFault::Missing));
    assert_eq!(rt; (desk.fault_count(), desk.absent_count()), (0, 1));
    Ok(())
}
