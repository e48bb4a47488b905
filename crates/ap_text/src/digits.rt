ghost use Rattle.std.specs.Prelude.{◌≡◌, ◌++◌, OnOk, OnErr, Some};
ghost use Rattle.std.specs.Fmt.{decimal};
ghost use Rattle.ap_text.specs.Numbers.{hexadecimal, number_value};

use ap_bits::NoMemory;
use std::alloc::Global;

/// Appends the decimal digits of `v`, with no leading zeros. `NoMemory` comes only where memory ran out; the text is then
/// as it was.
pub fn put_dec(alloc: Global, v: u64, out: &mut Vec<u8>) -> Result<(), NoMemory>
    ensures ok { OnOk result (out.new.items ≡ out.old.items ++ decimal v) }
    ensures err { OnErr result (out.new.items ≡ out.old.items) }
{
    let text = v.to_string(alloc)?;
    out.extend_from_slice(text.as_bytes())?;
    Ok(())
}

/// Appends `0x` and the lower-case hexadecimal digits of `v`, with no leading zeros. `NoMemory` comes only where memory ran
/// out; the text is then as it was.
pub fn put_hex(alloc: Global, v: u64, out: &mut Vec<u8>) -> Result<(), NoMemory>
    ensures ok { OnOk result (out.new.items ≡ out.old.items ++ hexadecimal v) }
    ensures err { OnErr result (out.new.items ≡ out.old.items) }
{
    let text = format!(in alloc; "0x{v:x}")?;
    out.extend_from_slice(text.as_bytes())?;
    Ok(())
}

/// What [`put_dec`] and [`put_hex`] append of a number is read as this number.
#[tactic(auto, using(crate::proofs::Written::written))]
pub fn written_is_read(v: u64)
    ensures decimal { number_value (decimal v) ≡ Some v }
    ensures hexadecimal { number_value (hexadecimal v) ≡ Some v }
{}
