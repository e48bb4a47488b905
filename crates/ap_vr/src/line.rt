//! The lines of a netlist's text, by the names that stand in them.
use ap_bits::Items;
use ap_net::cell::TwoOp;
use ap_net::name::NetName;
use ap_net::net::{Net, Port};

/// The right side of an assign.
#[derive(Drop)]
pub enum Right {
    /// A constant of this many bits.
    Const { width: u32, value: u64 },
    /// The net itself.
    Copy(NetName),
    /// `~a`.
    Not(NetName),
    /// An operator between two nets.
    Two(TwoOp, NetName, NetName),
    /// `s ? a : b`.
    Choose(NetName, NetName, NetName),
    /// `{a, b}`.
    Cat(NetName, NetName),
    /// `a[h:l]`.
    Slice(NetName, u64, u64),
}

/// A net and what drives it.
#[derive(Drop)]
pub struct NamedAssign {
    pub to: NetName,
    pub right: Right,
}

/// A register, the constant that it takes at the reset edge, with the bits as they stand in the line, and
/// the net whose value it takes at any other edge.
#[derive(Drop)]
pub struct NamedNext {
    pub register: NetName,
    pub width: u32,
    pub reset: u64,
    pub from: NetName,
}

/// A port of an instance's module, and the net that it is connected to.
#[derive(Drop)]
pub struct Connection {
    pub port: NetName,
    pub net: NetName,
}

/// An instance of an earlier module, with its connections after `clk` and `rst`.
#[derive(Drop)]
pub struct NamedInstance {
    pub name: NetName,
    pub module: NetName,
    pub connections: Items<Connection>,
}

/// A line of a netlist's text.
#[derive(Drop)]
pub enum Line {
    /// `module NAME (`
    Module(NetName),
    /// `  input clk,`
    Clock,
    /// `  input rst,`
    Reset,
    /// A port, and whether a comma follows.
    Port { port: Port, more: bool },
    /// `);`
    Close,
    /// A wire.
    Wire(Net),
    /// A register.
    Reg(Net),
    /// An assign.
    Assign(NamedAssign),
    /// What drives a register.
    Always(NamedNext),
    /// An instance.
    Instance(NamedInstance),
    /// `endmodule`
    End,
}
