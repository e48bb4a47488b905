ghost use Rattle.std.specs.Prelude.{◌≡◌};
ghost use Rattle.ap_sim.specs.Faults.{of_flat, of_text};
ghost use Rattle.ap_sim.specs.Kinds.{code_of};

use ap_flat::FlatFault;
use ap_vr::{NetFault, NetKind};

/// A kind of fault for which a netlist isn't run. A kind is looked at only where none of lower number holds.
#[derive(Clone, Copy, Debug, PartialEq, Eq)]
pub enum RunKind {
    /// A fault of the text, V1 to V6.
    Text(NetKind),
    /// V7: once instances are opened, some net depends on itself.
    Loop,
    /// V8: the ports of `top` are those of no outside.
    BadPorts,
}

impl RunKind {
    /// The kind as it is printed, as `V6 WidthDiffers`.
    pub fn code(self) -> &'static str
        ensures { result.now ≡ code_of self }
    {
        match self {
            RunKind::Text(kind) => kind.code(),
            RunKind::Loop => "V7 Loop",
            RunKind::BadPorts => "V8 BadPorts",
        }
    }
}

/// Why the text of a netlist isn't run.
#[derive(Clone, Copy, Debug, PartialEq, Eq)]
pub enum RunFault {
    /// Memory ran out.
    NoMemory,
    /// It has a fault of this kind at this line, counted from 1. Line 0 is the text as a whole.
    At { line: u32, kind: RunKind },
}

impl From<NetFault> for RunFault {
    ghost from_gives = { λ fault given. given ≡ of_text fault };

    fn from(fault: NetFault) -> RunFault {
        match fault {
            NetFault::NoMemory => RunFault::NoMemory,
            NetFault::At { line, kind } => RunFault::At {
                line,
                kind: RunKind::Text(kind),
            },
        }
    }
}

impl From<FlatFault> for RunFault {
    ghost from_gives = { λ fault given. given ≡ of_flat fault };

    fn from(fault: FlatFault) -> RunFault {
        match fault {
            FlatFault::NoMemory => RunFault::NoMemory,
            FlatFault::Loop => RunFault::At {
                line: 0,
                kind: RunKind::Loop,
            },
            FlatFault::BadPorts => RunFault::At {
                line: 0,
                kind: RunKind::BadPorts,
            },
        }
    }
}
