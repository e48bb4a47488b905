ghost use Rattle.std.specs.Prelude.{◌≡◌};
ghost use Rattle.ap_program.specs.AsmKinds.{code_of, number_of};
ghost use Rattle.ap_program.specs.declared.fault.AsmFault.TheVariants as fault;

/// A kind of fault of a program's text.
#[derive(Clone, Copy, Debug, PartialEq, Eq)]
pub enum AsmKind {
    /// The line is bad or of no form, or the text is too long.
    BadForm,
    /// There is no such instruction.
    UnknownInstruction,
    /// No line of the text is this label.
    UnknownLabel,
    /// An earlier line is the same label.
    LabelTwice,
    /// There are more or fewer operands than the instruction has free fields.
    OperandCount,
    /// An operand doesn't fit its field, or a label stands for a field that is too narrow for an address or names a cell.
    FieldRange,
    /// The instruction of a slot line is a transfer.
    TransferInSlot,
    /// A slot line is too near to its transfer or to an earlier slot line.
    SlotConflict,
    /// The slot line is one more than its transfer has slots, or stands behind no transfer.
    TooManySlots,
    /// The program doesn't fit the code memory.
    ImageFull,
    /// A slot line follows the label.
    LabelInSlot,
    /// There is no such memory, a word doesn't fit it, or there are too many words.
    BadData,
}

impl AsmKind {
    /// The number of the kind, from 1 to 12: of two kinds at one line the lower one is named.
    pub fn number(self) -> u32
        ensures { result ≡ number_of self }
    {
        match self {
            AsmKind::BadForm => 1,
            AsmKind::UnknownInstruction => 2,
            AsmKind::UnknownLabel => 3,
            AsmKind::LabelTwice => 4,
            AsmKind::OperandCount => 5,
            AsmKind::FieldRange => 6,
            AsmKind::TransferInSlot => 7,
            AsmKind::SlotConflict => 8,
            AsmKind::TooManySlots => 9,
            AsmKind::ImageFull => 10,
            AsmKind::LabelInSlot => 11,
            AsmKind::BadData => 12,
        }
    }

    /// The kind as it is printed, as `A8 SlotConflict`.
    pub fn code(self) -> &'static str
        ensures { result.now ≡ code_of self }
    {
        match self {
            AsmKind::BadForm => "A1 BadForm",
            AsmKind::UnknownInstruction => "A2 UnknownInstruction",
            AsmKind::UnknownLabel => "A3 UnknownLabel",
            AsmKind::LabelTwice => "A4 LabelTwice",
            AsmKind::OperandCount => "A5 OperandCount",
            AsmKind::FieldRange => "A6 FieldRange",
            AsmKind::TransferInSlot => "A7 TransferInSlot",
            AsmKind::SlotConflict => "A8 SlotConflict",
            AsmKind::TooManySlots => "A9 TooManySlots",
            AsmKind::ImageFull => "A10 ImageFull",
            AsmKind::LabelInSlot => "A11 LabelInSlot",
            AsmKind::BadData => "A12 BadData",
        }
    }
}

/// Why a program isn't assembled.
#[derive(Clone, Copy, Debug, PartialEq, Eq)]
pub enum AsmFault {
    /// Memory ran out.
    NoMemory,
    /// The text has a fault of this kind at this line, counted from 1. Line 0 is the text as a whole.
    At { line: u32, kind: AsmKind },
}

/// A fault of this kind at this line.
pub fn at(line: u32, kind: AsmKind) -> AsmFault
    ensures { result ≡ fault.At line kind }
{
    AsmFault::At { line, kind }
}

impl From<ap_bits::NoMemory> for AsmFault {
    ghost from_gives = { λ _ given. given ≡ fault.NoMemory };

    fn from(_: ap_bits::NoMemory) -> AsmFault {
        AsmFault::NoMemory
    }
}
