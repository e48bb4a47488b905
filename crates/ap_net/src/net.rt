use crate::cell::{Cell, Wire};
use crate::name::NetName;
use ap_bits::Items;

/// What a net is in its module.
#[derive(Clone, Copy, Debug, PartialEq, Eq)]
pub enum Role {
    /// An input port, which the outside drives.
    Input,
    /// An output port, which an assign drives.
    Output,
    /// A wire, which an assign drives.
    Plain,
    /// A register, with its value after the reset edge.
    Register(u64),
}

/// A declared net of a module: its name, its width in bits and what it is.
#[derive(Drop)]
pub struct ModuleNet {
    pub name: NetName,
    pub width: u32,
    pub role: Role,
}

/// A port after `clk` and `rst`.
#[derive(Drop)]
pub struct Port {
    pub name: NetName,
    pub width: u32,
    pub output: bool,
}

/// A wire.
#[derive(Drop)]
pub struct Net {
    pub name: NetName,
    pub width: u32,
}

/// A register, with its value after the reset edge.
#[derive(Drop)]
pub struct RegNet {
    pub name: NetName,
    pub width: u32,
    pub reset: u64,
}

/// A net and the cell that drives it.
#[derive(Clone, Copy, Debug, PartialEq, Eq)]
pub struct Assign {
    pub to: Wire,
    pub cell: Cell,
}

/// A register and the net whose value it takes at the clock edge.
#[derive(Clone, Copy, Debug, PartialEq, Eq)]
pub struct Next {
    pub register: Wire,
    pub from: Wire,
}

/// An instance of an earlier module, with the nets that its ports after `clk` and `rst` are connected to, in order. The text
/// doesn't spell `drives`, which says for each of these ports whether it is an output.
#[derive(Drop)]
pub struct Instance {
    pub name: NetName,
    pub module: NetName,
    pub nets: Items<Wire>,
    pub drives: Items<bool>,
}

/// A net of an opened netlist: the part that it stands in, `top` being part 0 and the instances the next ones in order; its
/// name there, its width in bits, and what it is in the whole. A port of an instance is a plain net of the whole.
#[derive(Drop)]
pub struct FlatNet {
    pub part: usize,
    pub name: NetName,
    pub width: u32,
    pub role: Role,
}

/// A connection of an instance in an opened netlist: the net `to` equals the net `from`, and depends on it.
#[derive(Clone, Copy, Debug, PartialEq, Eq)]
pub struct Join {
    pub to: Wire,
    pub from: Wire,
}
