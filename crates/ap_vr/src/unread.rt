/// Why bytes give nothing.
#[derive(Clone, Copy, Debug, PartialEq, Eq)]
pub(crate) enum Unread {
    /// They are of no form.
    NoForm,
    /// Memory ran out.
    NoMemory,
}

impl From<ap_bits::NoMemory> for Unread {
    ghost use Rattle.std.specs.Prelude.{◌≡◌};
    ghost use Rattle.ap_vr.specs.declared.unread.Unread.TheVariants.{NoMemory};

    ghost from_gives = { λ _ why. why ≡ NoMemory };

    fn from(_: ap_bits::NoMemory) -> Unread {
        Unread::NoMemory
    }
}
