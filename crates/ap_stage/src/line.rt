//! The nets of what lines give that use no port but a register's or an input's.
ghost use Rattle.std.specs.Prelude.{◌≡◌, ◌↔◌, ◌<◌, IfNone, IfOk, IfSome, IsSome, Some, length, slice_get};
ghost use Rattle.ap_desc.specs.Designs.{IsArg};
ghost use Rattle.ap_desc.specs.declared.design.Act.TheVariants as act;
ghost use Rattle.ap_net.specs.Draft.{CanFresh};
ghost use Rattle.ap_stage.specs.Sources.{HasNet, HasRoom, IsGround, IsLineNet, IsRow, IsWired, LieIn, NamesNets, source_numbers};
ghost use Rattle.ap_stage.specs.Wiring.{IsWiring, ReadsOnly};

use crate::source::{Ground, Scope, operand_net};
use crate::wiring::{constant, joined, sign_extended, sliced, zero_extended};
use ap_bits::NoMemory;
use ap_desc::design::{Act, Arg};
use ap_net::builder::Builder;
use ap_net::cell::Wire;

/// The net of a register.
fn reg_net(ground: &Ground, reg: u32) -> Wire
    requires { reg < length ground.now.regs }
    ensures { slice_get ground.now.regs reg ≡ Some result }
{
    let regs = ground.regs.as_slice();
    regs[reg as usize]
}

/// The net of an input port.
fn input_net(ground: &Ground, input: u32) -> Wire
    requires { input < length ground.now.inputs }
    ensures { slice_get ground.now.inputs input ≡ Some result }
{
    let inputs = ground.inputs.as_slice();
    inputs[input as usize]
}

/// The net of an operand, extended by zeros.
fn zext_net(
    out: &mut Builder,
    ground: &Ground,
    scope: &Scope,
    row: &[Option<Wire>],
    width: u32,
    a: Arg,
) -> Result<Option<Wire>, NoMemory>
    requires fresh { CanFresh out.old }
    requires ground { IsGround out.old.nets ground.now }
    requires fields { LieIn ground.now.word.width scope.now }
    requires row { IsRow out.old.nets scope.now row.now }
    requires a { IsArg (length scope.now.widths) scope.now.fields a }
    requires room { HasRoom ground.now scope.now (act.Zext width a) }
    ensures net { IfOk result (λ o.
        IfSome o (IsLineNet out.new ground.now scope.now row.now (act.Zext width a))) }
    ensures wiring { IfOk result (λ o.
        IfSome o (IsWiring (source_numbers ground.now row.now) out.old out.new)) }
    ensures none { IfOk result (λ o.
        IfNone o (ReadsOnly (source_numbers ground.now row.now) out.old out.new)) }
    ensures found { IfOk result (λ o. IsWired row.now (act.Zext width a) ↔ IsSome o) }
{
    let found = operand_net(out, ground, scope, row, a)?;
    let Some(x) = found else {
        return Ok(None);
    };
    let wide = zero_extended(out, x, width)?;
    Ok(Some(wide))
}

/// The net of an operand, extended by its high bit.
fn sext_net(
    out: &mut Builder,
    ground: &Ground,
    scope: &Scope,
    row: &[Option<Wire>],
    width: u32,
    a: Arg,
) -> Result<Option<Wire>, NoMemory>
    requires fresh { CanFresh out.old }
    requires ground { IsGround out.old.nets ground.now }
    requires fields { LieIn ground.now.word.width scope.now }
    requires row { IsRow out.old.nets scope.now row.now }
    requires a { IsArg (length scope.now.widths) scope.now.fields a }
    requires room { HasRoom ground.now scope.now (act.Sext width a) }
    ensures net { IfOk result (λ o.
        IfSome o (IsLineNet out.new ground.now scope.now row.now (act.Sext width a))) }
    ensures wiring { IfOk result (λ o.
        IfSome o (IsWiring (source_numbers ground.now row.now) out.old out.new)) }
    ensures none { IfOk result (λ o.
        IfNone o (ReadsOnly (source_numbers ground.now row.now) out.old out.new)) }
    ensures found { IfOk result (λ o. IsWired row.now (act.Sext width a) ↔ IsSome o) }
{
    let found = operand_net(out, ground, scope, row, a)?;
    let Some(x) = found else {
        return Ok(None);
    };
    let wide = sign_extended(out, x, width)?;
    Ok(Some(wide))
}

/// Some bits of an operand's net.
fn slice_net(
    out: &mut Builder,
    ground: &Ground,
    scope: &Scope,
    row: &[Option<Wire>],
    high: u32,
    low: u32,
    a: Arg,
) -> Result<Option<Wire>, NoMemory>
    requires fresh { CanFresh out.old }
    requires ground { IsGround out.old.nets ground.now }
    requires fields { LieIn ground.now.word.width scope.now }
    requires row { IsRow out.old.nets scope.now row.now }
    requires a { IsArg (length scope.now.widths) scope.now.fields a }
    requires room { HasRoom ground.now scope.now (act.Slice high low a) }
    ensures net { IfOk result (λ o.
        IfSome o (IsLineNet out.new ground.now scope.now row.now (act.Slice high low a))) }
    ensures wiring { IfOk result (λ o.
        IfSome o (IsWiring (source_numbers ground.now row.now) out.old out.new)) }
    ensures none { IfOk result (λ o.
        IfNone o (ReadsOnly (source_numbers ground.now row.now) out.old out.new)) }
    ensures found { IfOk result (λ o. IsWired row.now (act.Slice high low a) ↔ IsSome o) }
{
    let found = operand_net(out, ground, scope, row, a)?;
    let Some(x) = found else {
        return Ok(None);
    };
    let bits = sliced(out, x, high, low)?;
    Ok(Some(bits))
}

/// The net of an operand above that of another.
fn cat_net(
    out: &mut Builder,
    ground: &Ground,
    scope: &Scope,
    row: &[Option<Wire>],
    a: Arg,
    b: Arg,
) -> Result<Option<Wire>, NoMemory>
    requires fresh { CanFresh out.old }
    requires ground { IsGround out.old.nets ground.now }
    requires fields { LieIn ground.now.word.width scope.now }
    requires row { IsRow out.old.nets scope.now row.now }
    requires a { IsArg (length scope.now.widths) scope.now.fields a }
    requires b { IsArg (length scope.now.widths) scope.now.fields b }
    requires room { HasRoom ground.now scope.now (act.Cat a b) }
    ensures net { IfOk result (λ o.
        IfSome o (IsLineNet out.new ground.now scope.now row.now (act.Cat a b))) }
    ensures wiring { IfOk result (λ o.
        IfSome o (IsWiring (source_numbers ground.now row.now) out.old out.new)) }
    ensures none { IfOk result (λ o.
        IfNone o (ReadsOnly (source_numbers ground.now row.now) out.old out.new)) }
    ensures found { IfOk result (λ o. IsWired row.now (act.Cat a b) ↔ IsSome o) }
{
    let first = operand_net(out, ground, scope, row, a)?;
    let Some(x) = first else {
        return Ok(None);
    };
    let second = operand_net(out, ground, scope, row, b)?;
    let Some(y) = second else {
        return Ok(None);
    };
    let both = joined(out, x, y)?;
    Ok(Some(both))
}

/// The net of what a line gives that uses no port but a register's or an input's, where its operands have nets. It meets no further
/// `? :`.
pub fn line_net(
    out: &mut Builder,
    ground: &Ground,
    scope: &Scope,
    row: &[Option<Wire>],
    line: Act,
) -> Result<Option<Wire>, NoMemory>
    requires fresh { CanFresh out.old }
    requires ground { IsGround out.old.nets ground.now }
    requires fields { LieIn ground.now.word.width scope.now }
    requires row { IsRow out.old.nets scope.now row.now }
    requires names { NamesNets ground.now scope.now line }
    requires room { HasRoom ground.now scope.now line }
    ensures net { IfOk result (λ o.
        IfSome o (IsLineNet out.new ground.now scope.now row.now line)) }
    ensures wiring { IfOk result (λ o.
        IfSome o (IsWiring (source_numbers ground.now row.now) out.old out.new)) }
    ensures none { IfOk result (λ o.
        IfNone o (ReadsOnly (source_numbers ground.now row.now) out.old out.new)) }
    ensures found { IfOk result (λ o. IsWired row.now line ↔ IsSome o) }
{
    match line {
        Act::ReadReg { reg } => Ok(Some(reg_net(ground, reg))),
        Act::ReadIn { input } => Ok(Some(input_net(ground, input))),
        Act::Const { width, value } => {
            let net = constant(out, width, value)?;
            Ok(Some(net))
        }
        Act::Zext { width, a } => {
            let net = zext_net(out, ground, scope, row, width, a)?;
            Ok(net)
        }
        Act::Sext { width, a } => {
            let net = sext_net(out, ground, scope, row, width, a)?;
            Ok(net)
        }
        Act::Slice { high, low, a } => {
            let net = slice_net(out, ground, scope, row, high, low, a)?;
            Ok(net)
        }
        Act::Cat { a, b } => {
            let net = cat_net(out, ground, scope, row, a, b)?;
            Ok(net)
        }
        _ => Ok(None),
    }
}
