//! Texts that are read back are written as their own bytes.
use crate::example_tests::{b1, b3};
use crate::texts::{gate, small};
use crate::top_text::top;
use crate::unit_texts::units;
use ap_flat::flatten;
use ap_vr::{faultless_modules_build, read_back, read_modules, read_named, texts_spell_one};
use ap_vw::write;
use std::alloc::Global;
use std::process::Abort;
use std::test::Fail;

/// Whether a text is read back, and the netlist that it gives is written as the text's own bytes.
fn comes_back(alloc: Global, text: &[u8]) -> Result<bool, Fail> {
    match read_back(alloc, text) {
        Ok(net) => {
            let mut out = Vec::new(alloc);
            write(&net, &mut out)?;
            Ok(out.as_slice() == text)
        }
        Err(_fault) => Ok(false),
    }
}

/// Two texts, one after the other.
fn joined(alloc: Global, first: &str, second: &str) -> Result<String, Fail> {
    let mut both = String::from_str(alloc, first)?;
    both.push_str(second)?;
    Ok(both)
}

#[test]
fn texts_come_back(rt: HostRuntime) -> Result<(), Fail> {
    let alloc = rt.alloc();
    let with_gate = joined(alloc, gate(), small())?;
    let larger = joined(alloc, units(), top())?;
    for text in [b1(), b3(), small(), with_gate.as_str(), larger.as_str()] {
        let back = comes_back(alloc, text.as_bytes())?;
        assert!(rt; back);
    }
    texts_spell_one();
    faultless_modules_build();
    Ok(())
}

/// Whether a text is read back and its netlist is opened.
fn is_opened(alloc: Global, text: &[u8]) -> bool {
    match read_back(alloc, text) {
        Ok(net) => flatten(alloc, &net).is_ok(),
        Err(_fault) => false,
    }
}

#[test]
fn texts_are_opened(rt: HostRuntime) -> Result<(), Fail> {
    let alloc = rt.alloc();
    let larger = joined(alloc, units(), top())?;
    for text in [b1(), b3(), small(), larger.as_str()] {
        let opened = is_opened(alloc, text.as_bytes());
        assert!(rt; opened);
    }
    Ok(())
}

#[test]
fn texts_without_top_stay(rt: HostRuntime) -> Result<(), Fail> {
    let alloc = rt.alloc();
    let back = comes_back(alloc, gate().as_bytes())?;
    assert!(rt; !back);
    Ok(())
}

/// How many modules the text with a gate has, by each reader.
#[test]
fn modules_are_two(rt: HostRuntime) -> Result<(), Fail> {
    let alloc = rt.alloc();
    let text = joined(alloc, gate(), small())?;
    match read_modules(alloc, text.as_bytes()) {
        Ok(modules) => assert_eq!(rt; modules.len(), 2),
        Err(_fault) => assert!(rt; false),
    }
    match read_named(alloc, text.as_bytes()) {
        Ok(modules) => assert_eq!(rt; modules.len(), 2),
        Err(_fault) => assert!(rt; false),
    }
    match read_back(alloc, text.as_bytes()) {
        Ok(net) => assert_eq!(rt; net.modules().len(), 2),
        Err(_fault) => assert!(rt; false),
    }
    Ok(())
}
