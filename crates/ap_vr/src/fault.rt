ghost use Rattle.std.specs.Prelude.{◌≡◌};
ghost use Rattle.ap_vr.specs.Kinds.{code_of, number_of};
ghost use Rattle.ap_vr.specs.declared.fault.NetFault.TheVariants as fault;

use std::alloc::AllocFailed;

/// The most bytes that a netlist's text may have.
pub const TEXT_LIMIT: usize = 67_108_864;

/// A kind of fault of a netlist's text. A kind is looked at only where none of lower number holds.
#[derive(Clone, Copy, Debug, PartialEq, Eq)]
pub enum NetKind {
    /// The line isn't of the form that is due in its place, the last module isn't `top`, the text ends
    /// early, or it is too long.
    BadForm,
    /// A name that the line uses isn't declared in the module, or an instance's module isn't an earlier
    /// one, or its connections aren't that module's ports in order.
    UnknownName,
    /// A net, an instance or a module has a name that was declared before.
    TwiceNamed,
    /// The line drives an input, or a net that is driven already, or what only a line of another kind
    /// may drive.
    TwiceDriven,
    /// The wire, output or register that the line declares has no driver.
    NotDriven,
    /// The widths of operands and result aren't those of the operator, a constant doesn't fit, or a
    /// connected net isn't as wide as the port.
    WidthDiffers,
}

impl NetKind {
    /// The number of the kind, from 1 to 6.
    pub fn number(self) -> u32
        ensures { result ≡ number_of self }
    {
        match self {
            NetKind::BadForm => 1,
            NetKind::UnknownName => 2,
            NetKind::TwiceNamed => 3,
            NetKind::TwiceDriven => 4,
            NetKind::NotDriven => 5,
            NetKind::WidthDiffers => 6,
        }
    }

    /// The kind as it is printed, as `V6 WidthDiffers`.
    pub fn code(self) -> &'static str
        ensures { result.now ≡ code_of self }
    {
        match self {
            NetKind::BadForm => "V1 BadForm",
            NetKind::UnknownName => "V2 UnknownName",
            NetKind::TwiceNamed => "V3 TwiceNamed",
            NetKind::TwiceDriven => "V4 TwiceDriven",
            NetKind::NotDriven => "V5 NotDriven",
            NetKind::WidthDiffers => "V6 WidthDiffers",
        }
    }
}

/// Why a netlist's text gives no netlist.
#[derive(Clone, Copy, Debug, PartialEq, Eq)]
pub enum NetFault {
    /// Memory ran out.
    NoMemory,
    /// It has a fault of this kind at this line, counted from 1. Line 0 is the text as a whole.
    At { line: u32, kind: NetKind },
}

/// A fault of this kind at this line.
pub(crate) fn at(line: u32, kind: NetKind) -> NetFault
    ensures { result ≡ fault.At line kind }
{
    NetFault::At { line, kind }
}

impl From<ap_bits::NoMemory> for NetFault {
    ghost from_gives = { λ _ given. given ≡ fault.NoMemory };

    fn from(_: ap_bits::NoMemory) -> NetFault {
        NetFault::NoMemory
    }
}

impl<T: Drop> From<AllocFailed<T>> for NetFault {
    ghost from_gives = { λ _ given. given ≡ fault.NoMemory };

    fn from(_: AllocFailed<T>) -> NetFault {
        NetFault::NoMemory
    }
}
