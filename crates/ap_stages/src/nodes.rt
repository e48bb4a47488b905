//! The ports that a stage serves, from the nodes that its lines use: each is found among what was placed for the design.
ghost use Rattle.std.specs.Prelude.{◌≡◌, ◌<◌, Any, IfOk, Some, find, length, option_copied, slice_get};
ghost use Rattle.std.specs.List.{AllByRecursion as Each};
ghost use Rattle.ap_course.specs.Choices.{port_of_node};
ghost use Rattle.ap_merge.specs.Choices.{HasOperand};
ghost use Rattle.ap_desc.specs.declared.design.Unit.{Unit as Resource};
ghost use Rattle.ap_net.specs.Names.{IsNetName};
ghost use Rattle.ap_path.specs.Uses.{path_port};
ghost use Rattle.ap_ports.specs.Numbers.{IsNumberedNode, number_of_node};
ghost use Rattle.ap_signals.specs.NetRuns.{unit_part};
ghost use Rattle.ap_stages.specs.Supplies.{AreNodesFor, CanMake, IsNodeBy, IsNodeFor, IsSelectionOf, Suits, is_first_of, is_its_port, quick_of, supply_of};

use crate::copy::copied;
use ap_bits::{Items, NoMemory};
use ap_desc::design::{Design, Node as DesignNode, Unit};
use ap_merge::{Choice, Select};
use ap_net::cell::Wire;
use ap_path::PathPort;
use ap_stage::chain::Node;
use ap_stage::serve::{QuickUnit, ReadPort, SlowUnit};
use std::alloc::Global;

/// With what a node is served.
#[derive(Clone, Copy, Debug, PartialEq, Eq)]
pub enum Supply {
    /// A unit that takes one cycle and is to be placed: the place of its module among those of the netlist, and how many bits the number of
    /// an operation has.
    Quick {
        place: u32,
        select_width: u32,
    },
    /// A unit of several cycles that stands already: the wires that reach it, which are driven later, and its result.
    Slow {
        sel: Wire,
        a: Wire,
        b: Wire,
        y: Wire,
    },
    /// A read port of a file or a memory that stands already: the wire of the index, which is driven later, and what is read.
    Read {
        index: Wire,
        value: Wire,
    },
}

/// With what the node of a number is served.
#[derive(Clone, Copy, Debug, PartialEq, Eq)]
pub struct Supplied {
    /// The number of the node.
    pub number: u32,
    pub supply: Supply,
}

/// The number of a node.
fn number_of(node: DesignNode) -> u32
    requires { IsNumberedNode node }
    ensures { result ≡ number_of_node node }
{
    match node {
        DesignNode::Unit(unit) => unit,
        DesignNode::FileRead { file, port } => 32 + 4 * file + port,
        DesignNode::MemRead(mem) => 64 + mem,
    }
}

/// With what the node of a number is served, if it is with anything.
fn supply_of(supplies: &[Supplied], number: u32) -> Option<Supply>
    ensures { result ≡ supply_of supplies.now number }
{
    let found = supplies.iter().find(|one| one.number == number).copied();
    match found {
        Some(one) => Some(one.supply),
        None => None,
    }
}

/// Whether the port is that of the node.
fn is_its_port(node: DesignNode, port: PathPort) -> bool
    ensures { result ≡ is_its_port node port }
{
    match (node, port) {
        (DesignNode::Unit(unit), PathPort::Unit(other)) => other == unit,
        (
            DesignNode::FileRead { file, port },
            PathPort::FileRead {
                file: other,
                port: number,
            },
        ) => other == file && number == port,
        (DesignNode::MemRead(mem), PathPort::MemRead(other)) => other == mem,
        _ => false,
    }
}

/// Whether the choice is for the first operand of the node.
fn is_first_of(node: DesignNode, choice: &Choice) -> bool
    ensures { result ≡ is_first_of node choice.now }
{
    choice.operand == 0 && is_its_port(node, choice.port)
}

/// The first choice for the first operand of the node, if there is one.
fn first_choice<'a>(choices: &'a [Choice], node: DesignNode) -> Option<&'a Choice>
    ensures { option_copied result ≡ find (is_first_of node) choices.now }
{
    choices.iter().find(|choice| is_first_of(node, choice))
}

/// The selection for the first operand of the node.
fn selection(alloc: Global, choices: &[Choice], node: DesignNode) -> Result<Select, NoMemory>
    requires { Any (HasOperand (path_port (port_of_node node)) 0) choices.now }
    ensures { IfOk result (IsSelectionOf choices.now node) }
{
    let Some(choice) = first_choice(choices, node) else {
        unreachable!();
    };
    let select = copied(alloc, &choice.select)?;
    Ok(select)
}

/// The unit at a place.
fn unit_at(design: &Design, unit: u32) -> &Unit
    requires { unit < length design.now.units }
    ensures { slice_get design.now.units unit ≡ Some result.now }
{
    let units = design.units.as_slice();
    &units[unit as usize]
}

/// The name of a unit's instance: `u_NAME`.
fn instance_name(alloc: Global, unit: &Unit) -> Result<Items<u8>, NoMemory>
    ensures is { IfOk result (λ name. name ≡ unit_part unit.now) }
    ensures is_name { IfOk result (λ name. IsNetName (unit_part unit.now)) }
{
    let name = format!(in alloc; "u_{}", unit.name.as_str())?;
    let name = Items::copy_of(alloc, name.as_bytes())?;
    Ok(name)
}

/// A unit of the design that takes one cycle, as a stage places it.
fn quick_unit(
    alloc: Global,
    design: &Design,
    unit: u32,
    select: Select,
    place: u32,
    select_width: u32,
) -> Result<QuickUnit, NoMemory>
    requires { unit < length design.now.units }
    ensures { IfOk result (λ q. (u : Resource) × (slice_get design.now.units unit ≡ Some u)
        × IsNetName (unit_part u) × (q ≡ quick_of u unit select place select_width)) }
{
    let of = unit_at(design, unit);
    let name = instance_name(alloc, of)?;
    Ok(QuickUnit {
        port: unit,
        select,
        name,
        module: place,
        select_width,
        width: of.width,
    })
}

/// The port of a stage that is a node of the design, with its selection and this to serve it with.
fn node_by(
    alloc: Global,
    design: &Design,
    node: DesignNode,
    select: Select,
    supply: Supply,
) -> Result<Node, NoMemory>
    requires numbered { IsNumberedNode node }
    requires suits { Suits design.now node supply }
    ensures { IfOk result (IsNodeBy design.now select node supply) }
{
    let port = number_of(node);
    match supply {
        Supply::Quick {
            place,
            select_width,
        } => {
            let unit = quick_unit(alloc, design, port, select, place, select_width)?;
            Ok(Node::Quick(unit))
        }
        Supply::Slow { sel, a, b, y } => Ok(Node::Slow(SlowUnit {
            port,
            select,
            sel,
            a,
            b,
            y,
        })),
        Supply::Read { index, value } => Ok(Node::Read(ReadPort {
            port,
            select,
            index,
            value,
        })),
    }
}

/// The port of a stage that is a node of the design.
fn node_for(
    alloc: Global,
    design: &Design,
    choices: &[Choice],
    supplies: &[Supplied],
    node: DesignNode,
) -> Result<Node, NoMemory>
    requires { CanMake design.now choices.now supplies.now node }
    ensures { IfOk result (IsNodeFor design.now choices.now supplies.now node) }
{
    let Some(supply) = supply_of(supplies, number_of(node)) else {
        unreachable!();
    };
    let select = selection(alloc, choices, node)?;
    let made = node_by(alloc, design, node, select, supply)?;
    Ok(made)
}

/// The ports of a stage, in the order of the nodes that its lines use: `order` is a chain order of the stage, `choices` are those of the
/// design's paths.
pub fn stage_nodes(
    alloc: Global,
    design: &Design,
    choices: &[Choice],
    supplies: &[Supplied],
    order: &[DesignNode],
) -> Result<Vec<Node>, NoMemory>
    requires { Each (CanMake design.now choices.now supplies.now) order.now }
    ensures { IfOk result (λ nodes.
        AreNodesFor design.now choices.now supplies.now order.now nodes.items) }
{
    let mut nodes = Vec::new(alloc);
    for node in order {
        let made = node_for(alloc, design, choices, supplies, *node)?;
        nodes.push(made)?;
    }
    Ok(nodes)
}
