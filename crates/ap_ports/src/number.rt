//! Numbers of ports and nodes: a node has the number of its port.
ghost use Rattle.std.specs.Prelude.{◌≡◌, ◌<◌, ◌↔◌, IfSome, true};
ghost use Rattle.ap_desc.specs.Chains.{is_wiring};
ghost use Rattle.ap_desc.specs.Designs.{assigned_count};
ghost use Rattle.ap_desc.specs.Ports.{is_transfer};
ghost use Rattle.ap_desc.specs.StageFaults.{is_write};
ghost use Rattle.ap_ports.specs.Numbers.{IsNumbered, node_number, port_number};

use ap_desc::design::Act;

/// How many ports a design has at most: 32 units, 32 read ports and 16 write ports of 8 files, the writes of 64 registers, reads and
/// writes of 4 memories, and the transfer.
pub(crate) const PORTS: usize = 153;

/// How many of these are nodes of a stage: the units, the read ports and the reads of memories. They have the lowest numbers.
pub(crate) const NODES: usize = 68;

/// The number of the port that a line uses.
pub(crate) fn port_number(act: Act) -> Option<usize>
    requires { IsNumbered act }
    ensures number { result ≡ port_number act }
    ensures within { IfSome result (λ port. port < 153) }
{
    match act {
        Act::Compute { unit, .. } => Some(unit as usize),
        Act::ReadFile { file, port, .. } => Some(32 + 4 * file as usize + port as usize),
        Act::ReadMem { mem, .. } => Some(64 + mem as usize),
        Act::WriteFile { file, port, .. } => Some(68 + 2 * file as usize + port as usize),
        Act::WriteReg { reg, .. } => Some(84 + reg as usize),
        Act::WriteMem { mem, .. } => Some(148 + mem as usize),
        Act::Branch { .. } | Act::Jump { .. } => Some(152),
        _ => None,
    }
}

/// The number of the node that a line uses.
pub(crate) fn node_number(act: Act) -> Option<usize>
    requires { IsNumbered act }
    ensures number { result ≡ node_number act }
    ensures within { IfSome result (λ node. node < 68) }
{
    match act {
        Act::Compute { unit, .. } => Some(unit as usize),
        Act::ReadFile { file, port, .. } => Some(32 + 4 * file as usize + port as usize),
        Act::ReadMem { mem, .. } => Some(64 + mem as usize),
        _ => None,
    }
}

/// Whether the line is a transfer.
pub(crate) fn is_transfer(act: Act) -> bool
    ensures { result ≡ is_transfer act }
{
    matches!(act, Act::Branch { .. } | Act::Jump { .. })
}

/// Whether the line writes a register, a file or a memory.
pub(crate) fn is_write(act: Act) -> bool
    ensures { result ≡ is_write act }
{
    matches!(
        act,
        Act::WriteFile { .. } | Act::WriteReg { .. } | Act::WriteMem { .. }
    )
}

/// Whether the line only rearranges bits.
pub(crate) fn is_wiring(act: Act) -> bool
    ensures { result ≡ is_wiring act }
{
    matches!(
        act,
        Act::Zext { .. } | Act::Sext { .. } | Act::Slice { .. } | Act::Cat { .. }
    )
}

/// Whether the line assigns a local.
pub(crate) fn assigns(act: Act) -> bool
    ensures { (result ≡ true) ↔ (assigned_count act ≡ 1) }
{
    !(is_transfer(act) || is_write(act))
}
