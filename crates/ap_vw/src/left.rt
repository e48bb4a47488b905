//! What is left of the lines of a module.
ghost use Rattle.std.specs.Prelude.{◌≡◌, ◌≢◌, IfOk, OnOk};
ghost use Rattle.std.specs.List.{AllByRecursion as Each};
ghost use Rattle.ap_image.specs.Kept.{IsKept};
ghost use Rattle.ap_net.specs.Modules.{IsInstanceIn};
ghost use Rattle.ap_vw.specs.NetLines.{module_lines};
ghost use Rattle.ap_vw.specs.declared.left.Due.TheVariants as due;
ghost use Rattle.ap_vw.specs.LeftLines.{AppendsFirst, AppendsNext, IsLeft, body_left, lines_by, lines_left, rest_of};

use crate::line::{put_assign, put_instance, put_module, put_next, put_port, put_reg, put_wire};
use crate::piece::Piece::Text;
use crate::piece::put;
use ap_bits::NoMemory;
use ap_net::module::Module;
use ap_net::net::{Assign, Instance, Net, Next, Port, RegNet};

/// Which line of a module is next.
#[derive(Clone, Copy, Debug)]
pub(crate) enum Due {
    /// The first line.
    Module,
    /// The clock.
    Clock,
    /// The reset.
    Reset,
    /// A port, or the end of the ports.
    Ports,
    /// A wire, a register, an assign, a driver of a register or an instance; or the end.
    Body,
    /// None.
    Nothing,
}

/// What is left of the lines of a module, whose instances are of the earlier ones.
#[derive(Clone, Copy)]
pub(crate) struct Left<'a> {
    pub(crate) earlier: &'a [Module],
    pub(crate) whole: &'a Module,
    pub(crate) due: Due,
    pub(crate) ports: &'a [Port],
    pub(crate) wires: &'a [Net],
    pub(crate) regs: &'a [RegNet],
    pub(crate) assigns: &'a [Assign],
    pub(crate) nexts: &'a [Next],
    pub(crate) instances: &'a [Instance],
}

impl<'a> Left<'a> {
    /// All lines of a module.
    pub(crate) fn all(earlier: &'a [Module], whole: &'a Module) -> Left<'a>
        requires { Each (IsInstanceIn earlier.now) whole.now.instances }
        ensures lines { lines_left result ≡ module_lines earlier.now whole.now }
        ensures rules { IsLeft result }
        ensures earlier { result.earlier.now ≡ earlier.now }
    {
        whole.rules();
        Left {
            earlier,
            whole,
            due: Due::Module,
            ports: whole.ports(),
            wires: whole.wires(),
            regs: whole.regs(),
            assigns: whole.assigns(),
            nexts: whole.nexts(),
            instances: whole.instances(),
        }
    }

    /// Appends the next line between the head and the end, or the end.
    fn put_body(&self, out: &mut Vec<u8>) -> Result<(), NoMemory>
        requires { IsLeft self.now }
        ensures ok { OnOk result (AppendsFirst (body_left self.now) out.old.items out.new.items) }
        ensures kept { IsKept out.old.items out.new.items }
    {
        if let [wire, ..] = self.wires {
            return put_wire(wire, out);
        }
        if let [reg, ..] = self.regs {
            return put_reg(reg, out);
        }
        if let [assign, ..] = self.assigns {
            return put_assign(self.whole, *assign, out);
        }
        if let [next, ..] = self.nexts {
            return put_next(self.whole, *next, out);
        }
        if let [instance, ..] = self.instances {
            return put_instance(self.earlier, self.whole, instance, out);
        }
        put(&[Text("endmodule\n")], out)
    }

    /// Appends the next port's line, or the one after the ports.
    fn put_ports(&self, out: &mut Vec<u8>) -> Result<(), NoMemory>
        requires rules { IsLeft self.now }
        requires due { self.now.due ≡ due.Ports }
        ensures ok { OnOk result (AppendsFirst (lines_left self.now) out.old.items out.new.items) }
        ensures kept { IsKept out.old.items out.new.items }
    {
        match self.ports {
            [port, more @ ..] => put_port(port, !more.is_empty(), out),
            [] => put(&[Text(");\n")], out),
        }
    }

    /// Appends the line that is due.
    fn put_due(&self, out: &mut Vec<u8>) -> Result<(), NoMemory>
        requires rules { IsLeft self.now }
        requires due { self.now.due ≢ due.Nothing }
        ensures ok { OnOk result (AppendsFirst (lines_left self.now) out.old.items out.new.items) }
        ensures kept { IsKept out.old.items out.new.items }
    {
        match self.due {
            Due::Module => put_module(self.whole.name().as_str(), out),
            Due::Clock => put(&[Text("  input clk,\n")], out),
            Due::Reset => put(&[Text("  input rst,\n")], out),
            Due::Ports => self.put_ports(out),
            Due::Body => self.put_body(out),
            Due::Nothing => Ok(()),
        }
    }

    /// Appends the next line and answers true, or false where none is left.
    pub(crate) fn put_line(&self, out: &mut Vec<u8>) -> Result<bool, NoMemory>
        requires { IsLeft self.now }
        ensures ok { IfOk result (AppendsNext (lines_left self.now) out.old.items out.new.items) }
        ensures kept { IsKept out.old.items out.new.items }
    {
        match self.due {
            Due::Nothing => Ok(false),
            _ => {
                self.put_due(out)?;
                Ok(true)
            }
        }
    }

    /// What is left between the head and the end after the next line.
    fn after_body(self) -> Left<'a>
        requires rules { IsLeft self }
        requires due { self.due ≡ due.Body }
        ensures lines { lines_left result ≡ rest_of (lines_left self.entry) }
        ensures rules { IsLeft result }
        ensures earlier { result.earlier.now ≡ self.entry.earlier.now }
    {
        if let [_, wires @ ..] = self.wires {
            return Left { wires, ..self };
        }
        if let [_, regs @ ..] = self.regs {
            return Left { regs, ..self };
        }
        if let [_, assigns @ ..] = self.assigns {
            return Left { assigns, ..self };
        }
        if let [_, nexts @ ..] = self.nexts {
            return Left { nexts, ..self };
        }
        if let [_, instances @ ..] = self.instances {
            return Left { instances, ..self };
        }
        self.at(Due::Nothing)
    }

    /// What is left of the ports after the next line.
    fn after_port(self) -> Left<'a>
        requires rules { IsLeft self }
        requires due { self.due ≡ due.Ports }
        ensures lines { lines_left result ≡ rest_of (lines_left self.entry) }
        ensures rules { IsLeft result }
        ensures earlier { result.earlier.now ≡ self.entry.earlier.now }
    {
        match self.ports {
            [_, ports @ ..] => Left { ports, ..self },
            [] => self.at(Due::Body),
        }
    }

    /// The same with another line due.
    fn at(self, due: Due) -> Left<'a>
        requires { IsLeft self }
        ensures lines { lines_left result ≡ lines_by due self.entry }
        ensures rules { IsLeft result }
        ensures earlier { result.earlier.now ≡ self.entry.earlier.now }
    {
        Left { due, ..self }
    }

    /// What is left after the next line.
    pub(crate) fn after(self) -> Left<'a>
        requires { IsLeft self }
        ensures lines { lines_left result ≡ rest_of (lines_left self.entry) }
        ensures rules { IsLeft result }
        ensures earlier { result.earlier.now ≡ self.entry.earlier.now }
    {
        match self.due {
            Due::Module => self.at(Due::Clock),
            Due::Clock => self.at(Due::Reset),
            Due::Reset => self.at(Due::Ports),
            Due::Ports => self.after_port(),
            Due::Body => self.after_body(),
            Due::Nothing => self,
        }
    }
}
