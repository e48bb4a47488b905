ghost use Rattle.std.specs.Prelude.{◌≡◌, ℕ, ◌<◌, ◌^◌, OnOk, length, slice_get, Some};
ghost use Rattle.ap_bits.specs.declared.card.Card.{Card};
ghost use Rattle.ap_bits.specs.Cards.{FitsWidth, allows, latency_at, operation_names, operation_value};
ghost use Rattle.ap_unit.specs.Cards.{IsKindCard};
ghost use Rattle.ap_unit.specs.Built.{IsBlank, IsUnitDraft};

use ap_bits::NoMemory;
use ap_net::builder::Builder;

/// A kind of unit. Its meaning is its card: its name, its operations in order, its widths and its latency.
pub trait UnitKind: Drop {
    /// The kind's card.
    ghost card: { Self → Card };

    /// The name of the kind. Here stands what every card keeps, too.
    fn name(&self) -> &str
        ensures same { result.now ≡ (card self.now).name }
        ensures rules { IsKindCard (card self.now) };

    /// How many operations it has, from 1 to 64. They are numbered from 0.
    fn op_count(&self) -> u32
        ensures { result ≡ length (card self.now).ops };

    /// The name of an operation.
    fn op_name(&self, i: u32) -> &str
        requires { i < length (card self.now).ops }
        ensures { slice_get (operation_names (card self.now)) i ≡ Some result.now };

    /// Whether it can have this width, in bits.
    fn fits(&self, w: u32) -> bool
        ensures { result ≡ allows (card self.now).widths w };

    /// How many cycles a unit of this width takes, the one in which its result stands included.
    fn latency(&self, w: u32) -> u32
        requires { FitsWidth (card self.now) w }
        ensures { result ≡ latency_at (card self.now) w };

    /// The value of an operation at this width. It takes no memory.
    fn value(&self, w: u32, op: u32, a: u64, b: u64) -> u64
        requires width { FitsWidth (card self.now) w }
        requires op { op < length (card self.now).ops }
        requires a { a < 2 ^ w }
        requires b { b < 2 ^ w }
        ensures { result ≡ operation_value (card self.now) w op a b };

    /// Builds a unit of this width in a new builder, which may be finished afterwards. After an error the builder is good
    /// for nothing but to be dropped.
    fn build(&self, w: u32, out: &mut Builder) -> Result<(), NoMemory>
        requires width { FitsWidth (card self.now) w }
        requires new { IsBlank out.old }
        ensures name { OnOk result (out.new.name ≡ out.old.name) }
        ensures unit { OnOk result (IsUnitDraft out.new (card self.now) w) };
}
