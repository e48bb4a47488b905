//! Which ports of a design its lines use.
ghost use Rattle.std.specs.Prelude.{◌≡◌};
ghost use Rattle.std.specs.List.{list_any};
ghost use Rattle.std.specs.Option.{option_map};
ghost use Rattle.ap_desc.specs.Ports.{is_same_port, port_of};
ghost use Rattle.ap_desc.specs.PortsApart.{uses_port};
ghost use Rattle.ap_desc.specs.declared.design.Instr.{Instr};
ghost use Rattle.ap_desc.specs.declared.design.Micro.{Micro};
ghost use Rattle.ap_rest.specs.Uses.{is_port_used, port_named, uses_in};

use ap_desc::design::{Act, Design, Instr, Micro};
use ap_path::PathPort;

/// The port that a line uses.
fn port_of_line(act: Act) -> Option<PathPort>
    ensures { option_map port_named result ≡ port_of act }
{
    match act {
        Act::Compute { unit, .. } => Some(PathPort::Unit(unit)),
        Act::ReadFile { file, port, .. } => Some(PathPort::FileRead { file, port }),
        Act::ReadMem { mem, .. } => Some(PathPort::MemRead(mem)),
        Act::WriteFile { file, port, .. } => Some(PathPort::FileWrite { file, port }),
        Act::WriteReg { reg, .. } => Some(PathPort::RegWrite(reg)),
        Act::WriteMem { mem, .. } => Some(PathPort::MemWrite(mem)),
        Act::Branch { .. } | Act::Jump { .. } => Some(PathPort::Transfer),
        _ => None,
    }
}

/// Whether both are the same port.
fn is_same_port(one: PathPort, other: PathPort) -> bool
    ensures { result ≡ is_same_port (port_named one) (port_named other) }
{
    match (one, other) {
        (PathPort::Unit(a), PathPort::Unit(b)) => a == b,
        (PathPort::FileRead { file: a, port: p }, PathPort::FileRead { file: b, port: q }) => {
            a == b && p == q
        }
        (PathPort::FileWrite { file: a, port: p }, PathPort::FileWrite { file: b, port: q }) => {
            a == b && p == q
        }
        (PathPort::RegWrite(a), PathPort::RegWrite(b)) => a == b,
        (PathPort::MemRead(a), PathPort::MemRead(b)) => a == b,
        (PathPort::MemWrite(a), PathPort::MemWrite(b)) => a == b,
        (PathPort::Transfer, PathPort::Transfer) => true,
        _ => false,
    }
}

/// Whether the line uses the port.
fn uses_port(act: Act, port: PathPort) -> bool
    ensures { result ≡ uses_port (port_named port) act }
{
    match port_of_line(act) {
        Some(other) => is_same_port(port, other),
        None => false,
    }
}

/// Whether one of these lines uses the port.
fn some_line_uses(micros: &[Micro], port: PathPort) -> bool
    ensures { result ≡ list_any (λ (m : Micro). uses_port (port_named port) m.act) micros.now }
{
    let mut micros = micros.iter();
    micros.any(|m| uses_port(m.act, port))
}

/// Whether a line of one of these instructions uses the port.
fn some_instr_uses(instrs: &[Instr], port: PathPort) -> bool
    ensures { result ≡ list_any (uses_in (port_named port)) instrs.now }
{
    let mut instrs = instrs.iter();
    instrs.any(|i| some_line_uses(i.micros.as_slice(), port))
}

/// Whether some line of the design uses the port.
pub fn is_port_used(design: &Design, port: PathPort) -> bool
    ensures { result ≡ is_port_used design.now (port_named port) }
{
    some_instr_uses(design.instrs.as_slice(), port)
}
