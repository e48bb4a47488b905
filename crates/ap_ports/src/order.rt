//! The order in which a stage's nodes are computed.
ghost use Rattle.std.specs.Prelude.{◌≡◌, ◌+◌, ◌<◌, ◌≤◌, ◌↔◌, ℕ, Err, IfOk, OnOk, length, slice_index, true};
ghost use Rattle.ap_desc.specs.Chains.{ClosesLoop, IsChainOrder, IsLooped};
ghost use Rattle.ap_desc.specs.Sound.{IsSound};
ghost use Rattle.ap_ports.specs.Numbered.{AreNumbered};
ghost use Rattle.ap_ports.specs.Numbers.{IsNumberedNode, number_of_node};
ghost use Rattle.ap_ports.specs.Orders.{AreAhead, IsPicked, UsesNode, UsesNodeIn};
ghost use Rattle.ap_ports.specs.Ways.{Has};
ghost use Rattle.ap_ports.specs.declared.order.ChainFault.TheVariants as fault;

use crate::edges::stage_ways;
use crate::number::{NODES, node_number};
use crate::ways::{has, single};
use ap_bits::{Items, NoMemory};
use ap_desc::design::{Design, Micro, Node};
use std::alloc::Global;

/// Why a stage has no order of its nodes.
#[derive(Clone, Copy, Debug, PartialEq, Eq)]
pub enum ChainFault {
    /// This line closes a loop.
    Loop { line: u32 },
    /// Memory ran out.
    NoMemory,
}

impl From<NoMemory> for ChainFault {
    ghost from_gives = { λ _ given. given ≡ fault.NoMemory };

    fn from(_: NoMemory) -> ChainFault {
        ChainFault::NoMemory
    }
}

/// The node of a number.
fn node_at(number: usize) -> Node
    requires { number < 68 }
    ensures number { number_of_node result ≡ number }
    ensures low { IsNumberedNode result }
{
    let number = number as u32;
    if number < 32 {
        return Node::Unit(number);
    }
    if number < 64 {
        let port = number - 32;
        return Node::FileRead {
            file: port / 4,
            port: port % 4,
        };
    }
    Node::MemRead(number - 64)
}

/// The nodes that these lines use in the stage, and those of a set.
fn with_nodes(before: u128, micros: &[Micro], stage: u32) -> u128
    requires { AreNumbered micros.now }
    ensures { (n : ℕ) → Has result n ↔ UsesNodeIn before stage micros.now n }
{
    let mut nodes = before;
    for micro in micros {
        if micro.stage == stage {
            if let Some(node) = node_number(micro.act) {
                nodes |= single(node);
            }
        }
    }
    nodes
}

/// The nodes that lines of the stage use.
fn nodes_of(design: &Design, stage: u32) -> u128
    requires { IsSound design.now }
    ensures { (n : ℕ) → Has result n ↔ UsesNode design.now stage n }
{
    let mut nodes = 0;
    for instr in design.instrs.as_slice() {
        nodes = with_nodes(nodes, instr.micros.as_slice(), stage);
    }
    nodes
}

/// Adds the nodes of the set that lead to so many.
fn push_leading(
    order: &mut Items<Node>,
    nodes: u128,
    ahead: &[usize],
    behind: usize,
) -> Result<(), NoMemory>
    requires long { length ahead.now ≡ 68 }
    requires turn { behind ≤ 68 }
    requires picked { IsPicked nodes ahead.now behind 0 order.old }
    ensures { OnOk result (IsPicked nodes ahead.now (behind + 1) 0 order.new) }
{
    for number in 0..NODES {
        if has(nodes, number) {
            if ahead[number] == NODES - behind {
                order.push(node_at(number))?;
            }
        }
    }
    Ok(())
}

/// An order of the nodes of a stage in which every edge of its union graph goes forward. `Loop` comes exactly where the graph has a loop,
/// with the line that closes it, and `NoMemory` only where it has none. A stage that no line is in has an empty order.
pub fn chain_order(alloc: Global, design: &Design, stage: u32) -> Result<Items<Node>, ChainFault>
    requires { IsSound design.now }
    ensures order { IfOk result (IsChainOrder design.now stage) }
    ensures closed { (line : ℕ) → result ≡ Err (fault.Loop line) → ClosesLoop design.now stage line }
    ensures unlooped { result ≡ Err fault.NoMemory → IsLooped design.now stage (λ n. true) → ⊥ }
{
    let ways = match stage_ways(design, stage) {
        Ok(ways) => ways,
        Err(line) => return Err(ChainFault::Loop { line }),
    };
    let nodes = nodes_of(design, stage);
    let ahead = ways.ahead();
    let mut order = Items::new(alloc);
    // An edge leads from a node to one that leads to fewer.
    for behind in 0..NODES + 1 {
        push_leading(&mut order, nodes, &ahead, behind)?;
    }
    Ok(order)
}
