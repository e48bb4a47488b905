//! Why a statement is stopped.
ghost use Rattle.std.specs.Prelude.{◌≡◌, IfErr, OnOk, true, false};
ghost use Rattle.ap_check.specs.declared.stop.Stop.TheVariants as stop;

use ap_bits::NoMemory;
use ap_desc::Fault;

/// Why a statement is stopped.
#[derive(Clone, Copy, Debug, PartialEq, Eq)]
pub(crate) enum Stop {
    /// It has this fault.
    Fault(Fault),
    /// Memory ran out.
    NoMemory,
}

impl From<Fault> for Stop {
    ghost from_gives = { λ kind given. given ≡ stop.Fault kind };

    fn from(kind: Fault) -> Stop {
        Stop::Fault(kind)
    }
}

impl From<NoMemory> for Stop {
    ghost from_gives = { λ _ given. given ≡ stop.NoMemory };

    fn from(_: NoMemory) -> Stop {
        Stop::NoMemory
    }
}

/// The fault, where what is needed doesn't hold.
pub(crate) fn need(holds: bool, kind: Fault) -> Result<(), Fault>
    ensures holds { OnOk result (holds ≡ true) }
    ensures fails { IfErr result (λ _. holds ≡ false) }
    ensures kind { IfErr result (λ fault. fault ≡ kind) }
{
    if holds { Ok(()) } else { Err(kind) }
}
