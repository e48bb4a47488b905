//! Judges the lines of a text by the modules that they make, and reads a text without fault.
ghost use Rattle.std.specs.Prelude.{◌≡◌, ℕ, [], Some, None, IfErr, IfOk, map};
ghost use Rattle.std.specs.List.{AllByRecursion as Each};
ghost use Rattle.ap_vr.specs.declared.fault.NetFault.TheVariants as fault;
ghost use Rattle.ap_vr.specs.Judged as judged;
ghost use Rattle.ap_vr.specs.Judged.{IsFaultOf, IsFaultless, IsTextFault};
ghost use Rattle.ap_vr.specs.Reading.{AreModulesOf, HasFewLines, IsWellFormed};
ghost use Rattle.ap_vr.specs.Scope.{first_by, module_name, module_named};
ghost use Rattle.ap_vr.specs.Tables.{IsDistinct, listed};

use crate::driving::{undriven_line, wrong_line};
use crate::fault::{NetFault, NetKind, at};
use crate::module::NamedModule;
use crate::names::Names;
use crate::nets::Nets;
use crate::reading::read_modules;
use crate::scope::{add_module, first_repeated, first_unknown};
use crate::widths::misfit_line;
use ap_bits::NoMemory;
use std::alloc::Global;

/// What lines are judged by, where their names are declared, and once.
#[derive(Clone, Copy, Debug, PartialEq, Eq)]
pub(crate) enum Rule {
    /// A line drives what it may not.
    DrivenTwice,
    /// A net has no driver.
    Undriven,
    /// Widths differ.
    Misfit,
}

/// The first line of a module that a rule finds, after these modules.
fn line_by(
    alloc: Global,
    rule: Rule,
    known: &Names,
    modules: &[&NamedModule],
    named: &NamedModule,
) -> Result<Option<u32>, NoMemory>
    requires known { known.now ≡ map module_name (listed modules.now) }
    requires few { HasFewLines named.now }
    requires distinct { IsDistinct named.now }
    ensures { IfOk result (λ line. line
        ≡ judged.line_by rule (module_named (listed modules.now)) named.now) }
{
    let nets = Nets::of(alloc, named)?;
    match rule {
        Rule::DrivenTwice => {
            let line = wrong_line(alloc, known, modules, &nets, named)?;
            Ok(line)
        }
        Rule::Undriven => {
            let line = undriven_line(alloc, known, modules, &nets, named)?;
            Ok(line)
        }
        Rule::Misfit => Ok(misfit_line(known, modules, &nets, named)),
    }
}

/// The first line that a rule finds.
fn first_line(alloc: Global, rule: Rule, modules: &[NamedModule]) -> Result<Option<u32>, NoMemory>
    requires few { Each HasFewLines modules.now }
    requires distinct { Each IsDistinct modules.now }
    ensures { IfOk result (λ line. line ≡ first_by (judged.line_by rule) [] modules.now) }
{
    let mut known = Names::new(alloc);
    let mut earlier = Vec::new(alloc);
    for module in modules {
        let line = line_by(alloc, rule, &known, &earlier, module)?;
        if line.is_some() {
            return Ok(line);
        }
        add_module(alloc, &mut known, &mut earlier, module)?;
    }
    Ok(None)
}

/// A fault of this kind, where there is a line.
fn none_at(line: Option<u32>, kind: NetKind) -> Result<(), NetFault>
    ensures ok { IfOk result (λ _. line ≡ None) }
    ensures err { IfErr result (λ why. (n : ℕ) × (line ≡ Some n) × (why ≡ fault.At n kind)) }
{
    match line {
        Some(line) => Err(at(line, kind)),
        None => Ok(()),
    }
}

/// Judges the names of some modules.
fn judge_names(alloc: Global, modules: &[NamedModule]) -> Result<(), NetFault>
    requires { Each HasFewLines modules.now }
    ensures ok { IfOk result (λ _. judged.AreNamed modules.now) }
    ensures err { IfErr result (IsFaultOf modules.now) }
{
    let unknown = first_unknown(alloc, modules)?;
    none_at(unknown, NetKind::UnknownName)?;
    let repeated = first_repeated(alloc, modules)?;
    none_at(repeated, NetKind::TwiceNamed)?;
    Ok(())
}

/// Judges drivers and widths of some modules whose names are right.
fn judge_nets(alloc: Global, modules: &[NamedModule]) -> Result<(), NetFault>
    requires few { Each HasFewLines modules.now }
    requires named { judged.AreNamed modules.now }
    requires distinct { Each IsDistinct modules.now }
    ensures ok { IfOk result (λ _. IsFaultless modules.now) }
    ensures err { IfErr result (IsFaultOf modules.now) }
{
    let twice = first_line(alloc, Rule::DrivenTwice, modules)?;
    none_at(twice, NetKind::TwiceDriven)?;
    let undriven = first_line(alloc, Rule::Undriven, modules)?;
    none_at(undriven, NetKind::NotDriven)?;
    let misfit = first_line(alloc, Rule::Misfit, modules)?;
    none_at(misfit, NetKind::WidthDiffers)?;
    Ok(())
}

/// Judges some modules.
fn judge(alloc: Global, modules: &[NamedModule]) -> Result<(), NetFault>
    requires { Each HasFewLines modules.now }
    ensures ok { IfOk result (λ _. IsFaultless modules.now) }
    ensures err { IfErr result (IsFaultOf modules.now) }
{
    judge_names(alloc, modules)?;
    judge_nets(alloc, modules)?;
    Ok(())
}

/// Reads the modules of a netlist's text, where it has no fault.
///
/// `BadForm` comes as [`read_modules`] says. Where the lines have their form, the other kinds are looked
/// at one after another over the whole text, each only where none before it holds: `UnknownName`,
/// `TwiceNamed`, `TwiceDriven`, `NotDriven` and `WidthDiffers`; the first line that has the fault is
/// named. `NoMemory` comes only where memory ran out. The time goes with the number of bytes.
pub fn read_named(alloc: Global, text: &[u8]) -> Result<Vec<NamedModule>, NetFault>
    ensures well_formed { IfOk result (λ _. IsWellFormed text.now) }
    ensures modules { IfOk result (λ modules. AreModulesOf text.now modules.items) }
    ensures faultless { IfOk result (λ modules. IsFaultless modules.items) }
    ensures refused { IfErr result (IsTextFault text.now) }
{
    let modules = read_modules(alloc, text)?;
    judge(alloc, &modules)?;
    Ok(modules)
}
