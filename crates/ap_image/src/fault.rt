ghost use Rattle.std.specs.Prelude.{◌≡◌};
ghost use Rattle.ap_image.specs.TextFaults.{code_of, number_of};
ghost use Rattle.ap_image.specs.declared.fault.TextFault.TheVariants as fault;

/// The most bytes that the text of an image or a trace may have.
pub const TEXT_LIMIT: usize = 67_108_864;

/// A kind of fault of the text of an image or a trace.
#[derive(Clone, Copy, Debug, PartialEq, Eq)]
pub enum TextKind {
    /// The line is bad or of no form, a word stands before any part, a part comes a second time, a
    /// line of a trace has a wrong count of numbers, or the text is too long.
    BadForm,
    /// There is no such part: it is neither `code` nor a data memory.
    NoSuchPart,
    /// A value doesn't fit its word, its port or the wait bit.
    ValueTooWide,
    /// The word is the first beyond the end of its memory.
    TooManyWords,
}

impl TextKind {
    /// The number of the kind, from 1 to 4: of two kinds at one line the lower one is named.
    pub fn number(self) -> u32
        ensures { result ≡ number_of self }
    {
        match self {
            TextKind::BadForm => 1,
            TextKind::NoSuchPart => 2,
            TextKind::ValueTooWide => 3,
            TextKind::TooManyWords => 4,
        }
    }

    /// The kind as it is printed, as `G3 ValueTooWide`.
    pub fn code(self) -> &'static str
        ensures { result.now ≡ code_of self }
    {
        match self {
            TextKind::BadForm => "G1 BadForm",
            TextKind::NoSuchPart => "G2 NoSuchPart",
            TextKind::ValueTooWide => "G3 ValueTooWide",
            TextKind::TooManyWords => "G4 TooManyWords",
        }
    }
}

/// Why the text of an image or a trace gives no value.
#[derive(Clone, Copy, Debug, PartialEq, Eq)]
pub enum TextFault {
    /// Memory ran out.
    NoMemory,
    /// It has a fault of this kind at this line, counted from 1. Line 0 is the text as a whole.
    At { line: u32, kind: TextKind },
}

/// A fault of this kind at this line.
pub(crate) fn at(line: u32, kind: TextKind) -> TextFault
    ensures { result ≡ fault.At line kind }
{
    TextFault::At { line, kind }
}

impl From<ap_bits::NoMemory> for TextFault {
    ghost from_gives = { λ _ given. given ≡ fault.NoMemory };

    fn from(_: ap_bits::NoMemory) -> TextFault {
        TextFault::NoMemory
    }
}
