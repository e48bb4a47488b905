//! The nets of a module, by numbers and by names.
ghost use Rattle.std.specs.Prelude.{◌≡◌, ◌++◌, if◌then◌else◌, map, IfOk, OnOk};
ghost use Rattle.ap_vr.specs.Nets as forms_of;
ghost use Rattle.ap_vr.specs.Reading.{HasFewLines};
ghost use Rattle.ap_vr.specs.Tables.{IsDistinct};

use crate::module::NamedModule;
use crate::names::Names;
use crate::scope::scope;
use ap_bits::{Items, NoMemory};
use ap_net::name::NetName;
use ap_net::net::{Net, Port, Role};
use std::alloc::Global;

/// What a net is, and how wide.
#[derive(Clone, Copy, Debug, PartialEq, Eq)]
pub(crate) struct NetForm {
    pub(crate) width: u32,
    pub(crate) role: Role,
}

/// The nets of a module: their names, and what each is, by the same numbers.
#[derive(Drop)]
pub(crate) struct Nets {
    pub(crate) names: Names,
    pub(crate) forms: Items<NetForm>,
}

/// What a port is by its direction.
fn port_role(output: bool) -> Role
    ensures { result ≡ (if output then Role.Output else Role.Input) }
{
    if output { Role::Output } else { Role::Input }
}

/// What a port is.
fn port_form(port: &Port) -> NetForm
    ensures { result ≡ forms_of.port_form port.now }
{
    NetForm {
        width: port.width,
        role: port_role(port.output),
    }
}

/// Adds what ports are.
fn push_ports(forms: &mut Items<NetForm>, ports: &[Port]) -> Result<(), NoMemory>
    ensures { OnOk result (forms.new ≡ forms.old ++ map forms_of.port_form ports.now) }
{
    for port in ports {
        forms.push(port_form(port))?;
    }
    Ok(())
}

/// Adds what wires are.
fn push_wires(forms: &mut Items<NetForm>, wires: &[Net]) -> Result<(), NoMemory>
    ensures { OnOk result (forms.new ≡ forms.old ++ map forms_of.wire_form wires.now) }
{
    for wire in wires {
        forms.push(NetForm {
            width: wire.width,
            role: Role::Plain,
        })?;
    }
    Ok(())
}

/// Adds what registers are.
fn push_regs(forms: &mut Items<NetForm>, regs: &[Net]) -> Result<(), NoMemory>
    ensures { OnOk result (forms.new ≡ forms.old ++ map forms_of.reg_form regs.now) }
{
    for reg in regs {
        forms.push(NetForm {
            width: reg.width,
            role: Role::Register(0),
        })?;
    }
    Ok(())
}

/// What clk and rst are.
fn own_form() -> NetForm
    ensures { result ≡ forms_of.own_form }
{
    NetForm {
        width: 1,
        role: Role::Input,
    }
}

/// What the nets of a module are.
fn net_forms(alloc: Global, named: &NamedModule) -> Result<Items<NetForm>, NoMemory>
    ensures { IfOk result (λ forms. forms ≡ forms_of.net_forms named.now) }
{
    let mut forms = Items::new(alloc);
    push_ports(&mut forms, named.ports.as_slice())?;
    push_wires(&mut forms, named.wires.as_slice())?;
    push_regs(&mut forms, named.regs.as_slice())?;
    forms.push(own_form())?;
    forms.push(own_form())?;
    Ok(forms)
}

impl Nets {
    ghost use Rattle.ap_vr.specs.Marks.{IsNetsOf};

    /// The nets of a module whose names differ.
    pub(crate) fn of(alloc: Global, named: &NamedModule) -> Result<Nets, NoMemory>
        requires few { HasFewLines named.now }
        requires distinct { IsDistinct named.now }
        ensures { IfOk result (IsNetsOf named.now) }
    {
        let names = scope(alloc, named)?;
        let forms = net_forms(alloc, named)?;
        Ok(Nets { names, forms })
    }

    /// The number of a name.
    pub(crate) fn number(&self, name: &NetName) -> usize
        ensures { result ≡ forms_of.number_of self.now.names name.now }
    {
        self.names.place(name.as_str()).unwrap_or(0)
    }

    /// What the net of a number is.
    pub(crate) fn form(&self, number: usize) -> NetForm
        ensures { result ≡ forms_of.form_at self.now.forms number }
    {
        match self.forms.as_slice().get(number) {
            Some(form) => *form,
            None => own_form(),
        }
    }

    /// The width of the net of a name.
    pub(crate) fn width(&self, name: &NetName) -> u32
        ensures { result ≡ forms_of.width_of self.now.names self.now.forms name.now }
    {
        let form = self.form(self.number(name));
        form.width
    }
}
