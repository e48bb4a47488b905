ghost use Rattle.std.specs.Prelude.{◌≡◌, codes};
ghost use Rattle.ap_desc.specs.FaultTable.{phase_of, number_of, code_of};
ghost use Rattle.ap_desc.specs.declared.fault.DescFault.TheVariants as fault;

/// A kind of fault of a description.
#[derive(Clone, Copy, Debug, PartialEq, Eq)]
pub enum Fault {
    /// The line is bad or of no form, or has a name that is none or reserved, or a number that is none.
    BadLine,
    /// The line doesn't stand where its section is due.
    BadOrder,
    /// The statement, field or micro-operation is the first beyond its limit.
    TooMany,
    /// A header line, the instruction `NOP` or the last `end` is missing.
    Missing,
    /// The text has more than 1,048,576 bytes.
    TooLong,
    /// Nothing of that name and sort is declared, or the port's number isn't below the count.
    Unknown,
    /// The name is declared already, or the field is fixed twice.
    Twice,
    /// The shelf has no such kind.
    NoKind,
    /// The unit's kind has no such operation.
    NoOperation,
    /// A number is outside its limits.
    Range,
    /// An operand hasn't the width that is needed, or an extension is narrower than its operand.
    Differs,
    /// The slice has its bounds in the wrong order, or goes beyond its operand.
    Slice,
    /// A constant or reset value doesn't fit.
    TooWideConstant,
    /// A guard or condition hasn't width 1.
    NotOneBit,
    /// A target isn't as wide as a code address.
    Target,
    /// The kind doesn't fit the width.
    KindRefuses,
    /// The fields' widths don't sum to that of a code word.
    FormatSum,
    /// A fixed value doesn't fit its field.
    FieldValue,
    /// Some word matches this instruction and an earlier one.
    Overlap,
    /// `NOP` has a micro-operation.
    NopNotEmpty,
    /// An earlier line of the instruction uses the same port.
    TwiceInInstruction,
    /// An earlier line uses the port in another stage, or a transfer isn't in its stage.
    TwoStages,
    /// The stage is 0.
    StageZero,
    /// The stage is less than that of the instruction's line before.
    StageOrder,
    /// A write stands in a stage from which an instruction may still be killed.
    EarlyCommit,
    /// The line closes a loop of units and reads within its stage.
    ChainLoop,
    /// An operand of a slow unit comes, within the stage, from what may change while the unit works.
    UnstableOperand,
    /// There are more slots than stages before the transfer.
    TooManySlots,
}

impl Fault {
    /// The phase in which the kind is looked for, from 1 to 6; a later phase only where the earlier ones found nothing.
    pub fn phase(self) -> u32
        ensures { result ≡ phase_of self }
    {
        match self {
            Fault::BadLine | Fault::BadOrder | Fault::TooMany | Fault::Missing | Fault::TooLong =>
                1,
            Fault::Unknown | Fault::Twice | Fault::NoKind | Fault::NoOperation => 2,
            Fault::Range
            | Fault::Differs
            | Fault::Slice
            | Fault::TooWideConstant
            | Fault::NotOneBit
            | Fault::Target
            | Fault::KindRefuses => 3,
            Fault::FormatSum | Fault::FieldValue | Fault::Overlap | Fault::NopNotEmpty => 4,
            Fault::TwiceInInstruction | Fault::TwoStages => 5,
            Fault::StageZero
            | Fault::StageOrder
            | Fault::EarlyCommit
            | Fault::ChainLoop
            | Fault::UnstableOperand
            | Fault::TooManySlots => 6,
        }
    }

    /// The number of the kind within its phase, from 1 on: of two kinds at one line the lower one is named.
    pub fn number(self) -> u32
        ensures { result ≡ number_of self }
    {
        match self {
            Fault::BadLine
            | Fault::Unknown
            | Fault::Range
            | Fault::FormatSum
            | Fault::TwiceInInstruction
            | Fault::StageZero => 1,
            Fault::BadOrder
            | Fault::Twice
            | Fault::Differs
            | Fault::FieldValue
            | Fault::TwoStages
            | Fault::StageOrder => 2,
            Fault::TooMany | Fault::NoKind | Fault::Slice | Fault::Overlap | Fault::EarlyCommit =>
                3,
            Fault::Missing
            | Fault::NoOperation
            | Fault::TooWideConstant
            | Fault::NopNotEmpty
            | Fault::ChainLoop => 4,
            Fault::TooLong | Fault::NotOneBit | Fault::UnstableOperand => 5,
            Fault::Target | Fault::TooManySlots => 6,
            Fault::KindRefuses => 7,
        }
    }

    /// The kind as it is printed, as `E3 Overlap`.
    pub fn code(self) -> &'static str
        ensures { result.now ≡ code_of self }
    {
        match self {
            Fault::BadLine => "F1 BadLine",
            Fault::BadOrder => "F2 BadOrder",
            Fault::TooMany => "F3 TooMany",
            Fault::Missing => "F4 Missing",
            Fault::TooLong => "F5 TooLong",
            Fault::Unknown => "N1 Unknown",
            Fault::Twice => "N2 Twice",
            Fault::NoKind => "N3 NoKind",
            Fault::NoOperation => "N4 NoOperation",
            Fault::Range => "W1 Range",
            Fault::Differs => "W2 Differs",
            Fault::Slice => "W3 Slice",
            Fault::TooWideConstant => "W4 TooWideConstant",
            Fault::NotOneBit => "W5 NotOneBit",
            Fault::Target => "W6 Target",
            Fault::KindRefuses => "W7 KindRefuses",
            Fault::FormatSum => "E1 FormatSum",
            Fault::FieldValue => "E2 FieldValue",
            Fault::Overlap => "E3 Overlap",
            Fault::NopNotEmpty => "E4 NopNotEmpty",
            Fault::TwiceInInstruction => "P1 TwiceInInstruction",
            Fault::TwoStages => "P2 TwoStages",
            Fault::StageZero => "S1 StageZero",
            Fault::StageOrder => "S2 StageOrder",
            Fault::EarlyCommit => "S3 EarlyCommit",
            Fault::ChainLoop => "S4 ChainLoop",
            Fault::UnstableOperand => "S5 UnstableOperand",
            Fault::TooManySlots => "S6 TooManySlots",
        }
    }
}

/// A description is refused: for a fault of this kind, of this phase, at this line. Line 0 is the text as a whole.
#[derive(Clone, Copy, Debug, PartialEq, Eq)]
pub struct Refusal {
    pub phase: u32,
    pub line: u32,
    pub kind: Fault,
}

/// Why a description gives nothing.
#[derive(Clone, Copy, Debug, PartialEq, Eq)]
pub enum DescFault {
    /// It has this fault.
    Refused(Refusal),
    /// Memory ran out.
    NoMemory,
}

impl From<ap_bits::NoMemory> for DescFault {
    ghost from_gives = { λ _ given. given ≡ fault.NoMemory };

    fn from(_: ap_bits::NoMemory) -> DescFault {
        DescFault::NoMemory
    }
}
