ghost use Rattle.std.specs.Prelude.{◌≡◌, Some, IfOk};
ghost use Rattle.std.specs.String.{string_bytes};
ghost use Rattle.ap_top.specs.declared.refusal.Trouble.TheVariants.{Memory};
ghost use Rattle.ap_top.specs.declared.refusal.Stop.TheVariants.{Broken};
ghost use Rattle.ap_top.specs.Form.{reading_of};
ghost use Rattle.ap_top.specs.Refusals.{fault_text, refusal_line, refusal_status, refusal_text, trouble_line, trouble_of, trouble_status};
ghost use Rattle.ap_top.specs.Refusals.{stop_of, stop_of_image, stop_of_netlist, stop_of_program, stop_of_trace};

use crate::form::{Judged, ReadFault};
use ap_asm::{AsmFault, AsmKind};
use ap_bits::NoMemory;
use ap_desc::DescFault;
use ap_desk::desk::DeskFault;
use ap_image::{TextFault, TextKind};
use ap_sim::{RunFault, RunKind};
use std::alloc::{AllocError, Global};
use std::fmt;

/// Why a command isn't done although the desk and the memory sufficed.
#[derive(Clone, Copy, Debug, PartialEq, Eq)]
pub enum Refusal {
    /// The words are no command.
    Usage,
    /// The description has this fault.
    Description(Judged),
    /// The program has a fault of this kind at this line, counted from 1. Line 0 is the text as a whole.
    Program { line: u32, kind: AsmKind },
    /// The netlist has a fault of this kind at this line, in the same way.
    Netlist { line: u32, kind: RunKind },
    /// The image has one.
    Image { line: u32, kind: TextKind },
    /// The trace has one.
    Trace { line: u32, kind: TextKind },
}

/// What kept a command from being done or refused.
#[derive(Clone, Copy, Debug, PartialEq, Eq)]
pub enum Trouble {
    /// The desk failed, or an input isn't there.
    Desk,
    /// Memory ran out.
    Memory,
}

impl fmt::Display for Judged {
    ghost output = { λ judged. Some (fault_text judged) };

    fn fmt<W: fmt::Write>(&self, f: &mut fmt::Formatter<W>) -> fmt::Result {
        match self {
            Judged::Refused(refusal) => {
                let line = refusal.line;
                let code = refusal.kind.code();
                write!(f, "line {line}: {code}")
            }
            Judged::NotBuilt { line } => write!(f, "line {line}: F0 NotBuilt"),
        }
    }
}

impl fmt::Display for Refusal {
    ghost output = { λ refusal. Some (refusal_text refusal) };

    fn fmt<W: fmt::Write>(&self, f: &mut fmt::Formatter<W>) -> fmt::Result {
        match self {
            Refusal::Usage => write!(f, "usage"),
            Refusal::Description(judged) => write!(f, "description: {judged}"),
            Refusal::Program { line, kind } => {
                let code = kind.code();
                write!(f, "program: line {line}: {code}")
            }
            Refusal::Netlist { line, kind } => {
                let code = kind.code();
                write!(f, "netlist: line {line}: {code}")
            }
            Refusal::Image { line, kind } => {
                let code = kind.code();
                write!(f, "image: line {line}: {code}")
            }
            Refusal::Trace { line, kind } => {
                let code = kind.code();
                write!(f, "trace: line {line}: {code}")
            }
        }
    }
}

impl Refusal {
    /// The status that the program answers.
    pub fn status(self) -> u8
        ensures { result ≡ refusal_status self }
    {
        match self {
            Refusal::Usage => 1,
            Refusal::Description(_) => 2,
            Refusal::Program { .. } => 3,
            Refusal::Netlist { .. } => 4,
            Refusal::Image { .. } | Refusal::Trace { .. } => 5,
        }
    }

    /// The line that is printed, with its line feed.
    pub fn line(self, alloc: Global) -> Result<String, AllocError>
        ensures { IfOk result (λ line. string_bytes line ≡ refusal_line self) }
    {
        format!(in alloc; "{self}\n")
    }
}

impl Trouble {
    /// The status that the program answers.
    pub fn status(self) -> u8
        ensures { result ≡ trouble_status self }
    {
        match self {
            Trouble::Desk => 6,
            Trouble::Memory => 7,
        }
    }

    /// The line that is printed, with its line feed.
    pub fn line(self) -> &'static str
        ensures { result.now ≡ trouble_line self }
    {
        match self {
            Trouble::Desk => "desk fault\n",
            Trouble::Memory => "want of memory\n",
        }
    }
}

impl From<DeskFault> for Trouble {
    ghost from_gives = { λ fault trouble. trouble ≡ trouble_of fault };

    fn from(fault: DeskFault) -> Trouble {
        match fault {
            DeskFault::Failed | DeskFault::Missing => Trouble::Desk,
            DeskFault::NoMemory => Trouble::Memory,
        }
    }
}

/// What ended the work on a command before it was done.
#[derive(Clone, Copy, Debug, PartialEq, Eq)]
pub enum Stop {
    /// It is refused.
    Refused(Refusal),
    /// A trouble kept it from being done.
    Broken(Trouble),
}

impl From<Trouble> for Stop {
    ghost from_gives = { λ trouble stop. stop ≡ Broken trouble };

    fn from(trouble: Trouble) -> Stop {
        Stop::Broken(trouble)
    }
}

impl From<DeskFault> for Stop {
    ghost from_gives = { λ fault stop. stop ≡ Broken (trouble_of fault) };

    fn from(fault: DeskFault) -> Stop {
        Stop::Broken(Trouble::from(fault))
    }
}

impl From<NoMemory> for Stop {
    ghost from_gives = { λ _ stop. stop ≡ Broken Memory };

    fn from(_: NoMemory) -> Stop {
        Stop::Broken(Trouble::Memory)
    }
}

impl From<ReadFault> for Stop {
    ghost from_gives = { λ fault stop. stop ≡ stop_of fault };

    fn from(fault: ReadFault) -> Stop {
        match fault {
            ReadFault::Refused(judged) => Stop::Refused(Refusal::Description(judged)),
            ReadFault::NoMemory => Stop::Broken(Trouble::Memory),
        }
    }
}

impl From<DescFault> for Stop {
    ghost from_gives = { λ fault stop. stop ≡ stop_of (reading_of fault) };

    fn from(fault: DescFault) -> Stop {
        Stop::from(ReadFault::from(fault))
    }
}

impl From<AsmFault> for Stop {
    ghost from_gives = { λ fault stop. stop ≡ stop_of_program fault };

    fn from(fault: AsmFault) -> Stop {
        match fault {
            AsmFault::At { line, kind } => Stop::Refused(Refusal::Program { line, kind }),
            AsmFault::NoMemory => Stop::Broken(Trouble::Memory),
        }
    }
}

impl From<RunFault> for Stop {
    ghost from_gives = { λ fault stop. stop ≡ stop_of_netlist fault };

    fn from(fault: RunFault) -> Stop {
        match fault {
            RunFault::At { line, kind } => Stop::Refused(Refusal::Netlist { line, kind }),
            RunFault::NoMemory => Stop::Broken(Trouble::Memory),
        }
    }
}

/// What a fault of the text of an image ends the work with.
pub(crate) fn stop_of_image(fault: TextFault) -> Stop
    ensures { result ≡ stop_of_image fault }
{
    match fault {
        TextFault::At { line, kind } => Stop::Refused(Refusal::Image { line, kind }),
        TextFault::NoMemory => Stop::Broken(Trouble::Memory),
    }
}

/// What a fault of the text of a trace ends the work with.
pub(crate) fn stop_of_trace(fault: TextFault) -> Stop
    ensures { result ≡ stop_of_trace fault }
{
    match fault {
        TextFault::At { line, kind } => Stop::Refused(Refusal::Trace { line, kind }),
        TextFault::NoMemory => Stop::Broken(Trouble::Memory),
    }
}
