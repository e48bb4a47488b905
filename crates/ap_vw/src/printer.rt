//! Prints a netlist line by line.
ghost use Rattle.std.specs.Prelude.{◌≡◌, ◌++◌, IfOk, OnErr, OnOk};
ghost use Rattle.ap_net.specs.Text.{AppendsFront, netlist_text};
ghost use Rattle.ap_vw.specs.NetLines.{netlist_lines, text_of};
ghost use Rattle.ap_vw.specs.LeftLines.{IsLeft};
ghost use Rattle.ap_vw.specs.Printing.{AreInstancesIn, Prints, printed_later};

use crate::left::{Due, Left};
use ap_bits::NoMemory;
use ap_net::module::{Module, Netlist};
use std::marker::Model;

/// What is left of the lines of a netlist's text. Contracts see the list of these lines.
#[derive(Drop)]
pub struct Printer<'a> {
    /// What is left of the module that has begun.
    left: Left<'a>,
    /// The modules after it.
    modules: &'a [Module],
}

impl<'a> Model for Printer<'a> {
    ghost use Rattle.std.specs.Prelude.{List, ℕ};
    ghost use Rattle.ap_vw.specs.Printing.{IsPrinter, printed_later};

    ghost Value = { List (List ℕ) };

    ghost view = { λ p. printed_later p.left p.modules.now };

    ghost invariant = { λ p. IsPrinter p.left p.modules.now };
}

/// What is left where this is left of a module: of the next module, where that one is done.
fn left_of<'a>(left: Left<'a>, modules: &'a [Module]) -> Printer<'a>
    requires begun { IsLeft left }
    requires instances { AreInstancesIn left.earlier.now modules.now }
    ensures { result ≡ printed_later left.entry modules.now }
{
    match left.due {
        Due::Nothing => match modules {
            [next, modules @ ..] => Printer {
                left: Left::all(left.earlier, next),
                modules,
            },
            [] => Printer { left, modules },
        },
        _ => Printer { left, modules },
    }
}

impl<'a> Printer<'a> {
    /// All lines of a netlist. It takes no memory.
    pub fn new(net: &'a Netlist) -> Printer<'a>
        ensures lines { result ≡ netlist_lines net.now }
        ensures text { text_of result ≡ netlist_text net.now }
    {
        net.rules();
        let modules = net.modules();
        let earlier = &modules[..modules.len() - 1];
        let left = Left::all(earlier, &modules[0]);
        left_of(left, &modules[1..])
    }

    /// Appends the next line of the text and answers true, or false exactly where all lines were
    /// given. It takes no memory but that of `out`. `NoMemory` comes only where memory ran out; the
    /// text and what is left are then as they were.
    pub fn line(&mut self, out: &mut Vec<u8>) -> Result<bool, NoMemory>
        ensures ok { IfOk result (Prints self.old self.new out.old.items out.new.items) }
        ensures left { OnErr result (self.new ≡ self.old) }
        ensures text { OnErr result (out.new.items ≡ out.old.items) }
    {
        let len = out.len();
        match self.left.put_line(out) {
            Ok(false) => Ok(false),
            Ok(true) => {
                *self = left_of(self.left.after(), self.modules);
                Ok(true)
            }
            Err(fault) => {
                out.truncate(len);
                Err(fault)
            }
        }
    }
}

/// Appends the one spelling of a netlist. After an error a front of it was appended.
pub fn write(net: &Netlist, out: &mut Vec<u8>) -> Result<(), NoMemory>
    ensures ok { OnOk result (out.new.items ≡ out.old.items ++ netlist_text net.now) }
    ensures err { OnErr result (AppendsFront (netlist_text net.now) out.old.items out.new.items) }
{
    net.rules();
    let mut printer = Printer::new(net);
    let mut more = true;
    while more {
        match printer.line(out) {
            Ok(next) => more = next,
            Err(fault) => return Err(fault),
        }
    }
    Ok(())
}
