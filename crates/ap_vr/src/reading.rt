//! Reads the modules of a text, line by line.
ghost use Rattle.std.specs.Prelude.{codes, ◌≡◌, ◌≢◌, ◌+◌, ◌<◌, ◌≤◌, IfErr, IfOk, length};
ghost use Rattle.std.specs.Str.{bytes_eq};
ghost use Rattle.ap_net.specs.Names.{IsNetName};
ghost use Rattle.ap_vr.specs.declared.fault.NetFault.TheVariants as fault;
ghost use Rattle.ap_vr.specs.declared.fault.NetKind.TheVariants as kind;
ghost use Rattle.ap_vr.specs.declared.line.Line.TheVariants as said;
ghost use Rattle.ap_vr.specs.Reading.{AreModulesOf, HasRoom, IsBadRead, IsFormFault, IsModuleRead, IsNoFirst, IsNoModule, IsNoNext, IsWellFormed, TakesLine, place_in, text_limit};
ghost use Rattle.ap_vr.specs.TextLines.{first_len};

use crate::fault::{NetFault, NetKind, TEXT_LIMIT, at};
use crate::line::Line;
use crate::line_reading::read_line;
use crate::module::NamedModule;
use crate::place::Part;
use crate::unread::Unread;
use ap_net::name::NetName;
use std::alloc::Global;

/// What is left of a text, and the number of its next line.
#[derive(Drop)]
pub(crate) struct Lines<'a> {
    rest: &'a [u8],
    number: u32,
}

/// A line that isn't of the form due.
fn bad(line: u32) -> NetFault
    ensures { result ≡ fault.At line kind.BadForm }
{
    at(line, NetKind::BadForm)
}

/// Whether a module of this name is `top`.
fn is_top(name: &NetName) -> bool
    ensures { result ≡ bytes_eq name.now (codes "top") }
{
    name.as_str() == "top"
}

/// How many bytes the first line has, with the line feed that ends it.
#[tactic(auto, using(crate::proofs::TextLines::len_step, crate::proofs::TextLines::len_found))]
fn line_len(rest: &[u8]) -> usize
    ensures { result ≡ first_len rest.now }
{
    for (place, byte) in rest.iter().enumerate() {
        if *byte == b'\n' {
            return place + 1;
        }
    }
    rest.len()
}

impl Lines<'_> {
    /// Reads the next line.
    #[tactic(auto, using(crate::proofs::TextLines::len_within))]
    fn next(&mut self, alloc: Global) -> Result<Line, NetFault>
        requires { HasRoom self.old }
        ensures ok { IfOk result (λ line. TakesLine self.old line self.new) }
        ensures err { IfErr result (IsNoNext self.old) }
    {
        let (bytes, rest) = self.rest.split_at(line_len(self.rest));
        match read_line(alloc, bytes) {
            Ok(line) => {
                self.rest = rest;
                self.number += 1;
                Ok(line)
            }
            Err(Unread::NoForm) => Err(bad(self.number)),
            Err(Unread::NoMemory) => Err(NetFault::NoMemory),
        }
    }
}

/// Reads a module after its first line.
fn read_module(
    alloc: Global,
    lines: &mut Lines,
    first: u32,
    name: NetName,
) -> Result<NamedModule, NetFault>
    requires room { HasRoom lines.old }
    requires first { first + 1 ≡ lines.old.number }
    requires name { IsNetName name }
    ensures ok { IfOk result (λ m. IsModuleRead first name lines.old m lines.new) }
    ensures err { IfErr result (IsBadRead (place_in first name lines.old) lines.old.rest.now) }
{
    let top = is_top(&name);
    let mut module = NamedModule::begin(alloc, first, name);
    let mut part = Part::Clock;
    'inner: while !part.is_start() {
        let number = lines.number;
        let line = match lines.next(alloc) {
            Ok(line) => line,
            Err(fault) => return Err(fault),
        };
        if !part.is_due(top, &line) {
            return Err(bad(number));
        }
        part = Part::after(&line);
        module.add(line)?;
    }
    Ok(module)
}

/// The name of a module that begins in this line.
fn first_name(line: Line, number: u32) -> Result<NetName, NetFault>
    ensures ok { IfOk result (λ name. line ≡ said.Module name) }
    ensures err { IfErr result (λ why. (why ≡ fault.At number kind.BadForm) × IsNoFirst line) }
{
    match line {
        Line::Module(name) => Ok(name),
        _other => Err(bad(number)),
    }
}

/// The name in the first line of a module.
fn module_name(lines: &mut Lines, alloc: Global) -> Result<NetName, NetFault>
    requires { HasRoom lines.old }
    ensures ok { IfOk result (λ name. TakesLine lines.old (said.Module name) lines.new) }
    ensures err { IfErr result (IsNoModule lines.old) }
{
    let number = lines.number;
    match lines.next(alloc) {
        Ok(line) => first_name(line, number),
        Err(fault) => Err(fault),
    }
}

/// The modules of a text that isn't too long.
fn read_short(alloc: Global, text: &[u8]) -> Result<Vec<NamedModule>, NetFault>
    requires { length text.now ≤ text_limit }
    ensures well_formed { IfOk result (λ _. IsWellFormed text.now) }
    ensures modules { IfOk result (λ modules. AreModulesOf text.now modules.items) }
    ensures refused { IfErr result (IsFormFault text.now) }
{
    let mut modules = Vec::new(alloc);
    let mut lines = Lines {
        rest: text,
        number: 1,
    };
    let mut began = 1;
    let mut ends_in_top = false;
    'outer: while !lines.rest.is_empty() {
        began = lines.number;
        let name = match module_name(&mut lines, alloc) {
            Ok(name) => name,
            Err(fault) => return Err(fault),
        };
        ends_in_top = is_top(&name);
        let module = match read_module(alloc, &mut lines, began, name) {
            Ok(module) => module,
            Err(fault) => return Err(fault),
        };
        modules.push(module)?;
    }
    if !ends_in_top {
        return Err(bad(began));
    }
    Ok(modules)
}

/// Reads the modules of a netlist's text, by the names that stand in its lines.
///
/// `BadForm` comes exactly where the text isn't of the form of a netlist, and names the first line that
/// isn't due in its place; where the text ends early, the line in which it ends; where all lines are due
/// and the last module isn't `top`, that module's first line; and line 0 where the text has more than
/// 67,108,864 bytes. No other fault comes. `NoMemory` comes only where memory ran out. The time goes with
/// the number of bytes.
#[tactic(auto, using(crate::proofs::TextRead::too_long))]
pub fn read_modules(alloc: Global, text: &[u8]) -> Result<Vec<NamedModule>, NetFault>
    // A text that is accepted is of the form, and it is the text of these modules. One that is refused
    // isn't, and this is the line where that shows.
    ensures well_formed { IfOk result (λ _. IsWellFormed text.now) }
    ensures modules { IfOk result (λ modules. AreModulesOf text.now modules.items) }
    ensures refused { IfErr result (IsFormFault text.now) }
{
    if text.len() > TEXT_LIMIT {
        return Err(bad(0));
    }
    read_short(alloc, text)
}
