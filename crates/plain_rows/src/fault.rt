use ap_bits::NoMemory;
use ap_desc::{DescFault, Refusal};
use ap_desk::desk::DeskFault;
use ap_image::{TextFault, TextKind};
use std::alloc::AllocError;
use std::fmt;

/// Why no rows are printed.
#[derive(Clone, Copy, Debug, PartialEq, Eq)]
pub(crate) enum Fault {
    /// The words aren't a description, an image, a trace and a number of cycles.
    Usage,
    /// The description has this fault.
    Description(Refusal),
    /// The image has a fault of this kind at this line.
    Image { line: u32, kind: TextKind },
    /// The trace has one.
    Trace { line: u32, kind: TextKind },
    /// A file isn't there or can't be read.
    Desk,
    /// Memory ran out.
    Memory,
}

impl Fault {
    /// The status with which the program ends.
    pub(crate) fn status(self) -> u8 {
        match self {
            Fault::Usage => 1,
            Fault::Description(_) => 2,
            Fault::Image { .. } | Fault::Trace { .. } => 5,
            Fault::Desk => 6,
            Fault::Memory => 7,
        }
    }
}

impl fmt::Display for Fault {
    fn fmt<W: fmt::Write>(&self, f: &mut fmt::Formatter<W>) -> fmt::Result {
        match self {
            Fault::Usage => write!(f, "usage"),
            Fault::Description(refusal) => {
                let line = refusal.line;
                let code = refusal.kind.code();
                write!(f, "description: line {line}: {code}")
            }
            Fault::Image { line, kind } => {
                let code = kind.code();
                write!(f, "image: line {line}: {code}")
            }
            Fault::Trace { line, kind } => {
                let code = kind.code();
                write!(f, "trace: line {line}: {code}")
            }
            Fault::Desk => write!(f, "desk fault"),
            Fault::Memory => write!(f, "want of memory"),
        }
    }
}

impl From<NoMemory> for Fault {
    fn from(_: NoMemory) -> Fault {
        Fault::Memory
    }
}

impl From<AllocError> for Fault {
    fn from(_: AllocError) -> Fault {
        Fault::Memory
    }
}

impl From<DescFault> for Fault {
    fn from(fault: DescFault) -> Fault {
        match fault {
            DescFault::Refused(refusal) => Fault::Description(refusal),
            DescFault::NoMemory => Fault::Memory,
        }
    }
}

impl From<DeskFault> for Fault {
    fn from(fault: DeskFault) -> Fault {
        match fault {
            DeskFault::Failed | DeskFault::Missing => Fault::Desk,
            DeskFault::NoMemory => Fault::Memory,
        }
    }
}

/// The fault of an image.
pub(crate) fn of_image(fault: TextFault) -> Fault {
    match fault {
        TextFault::At { line, kind } => Fault::Image { line, kind },
        TextFault::NoMemory => Fault::Memory,
    }
}

/// The fault of a trace.
pub(crate) fn of_trace(fault: TextFault) -> Fault {
    match fault {
        TextFault::At { line, kind } => Fault::Trace { line, kind },
        TextFault::NoMemory => Fault::Memory,
    }
}
