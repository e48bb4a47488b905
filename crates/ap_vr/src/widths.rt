//! Lines whose widths aren't those that they need.
ghost use Rattle.std.specs.Prelude.{◌≡◌, ◌<◌, ◌^◌, ◌+◌, ◌==◌, ◌&&◌, length, map, nat_le, nat_lt};
ghost use Rattle.ap_vr.specs.Marks.{IsNetsOf};
ghost use Rattle.ap_vr.specs.Nets.{width_of};
ghost use Rattle.ap_vr.specs.Scope.{module_name, module_named};
ghost use Rattle.ap_vr.specs.Tables.{listed};
ghost use Rattle.ap_vr.specs.Widths as widths;
ghost use Rattle.ap_vr.specs.Reading.{HasFewLines};

use crate::line::{Connection, NamedAssign, NamedInstance, NamedNext, Right};
use crate::module::NamedModule;
use crate::names::Names;
use crate::nets::Nets;
use crate::scope::module_named;
use ap_net::cell::TwoOp;
use ap_net::net::Port;

/// Whether the value has at most so many bits.
fn has_bits(value: u64, bits: u32) -> bool
    ensures { result ≡ nat_lt value (2 ^ bits) }
{
    bits >= 64 || value >> bits == 0
}

/// How wide an operator's result is, for operands of this width.
fn result_bits(op: TwoOp, width: u32) -> u32
    ensures { result ≡ widths.result_bits op width }
{
    match op {
        TwoOp::Eq | TwoOp::Ltu => 1,
        TwoOp::Add | TwoOp::Sub | TwoOp::And | TwoOp::Or | TwoOp::Xor => width,
    }
}

/// Whether two widths sum to this one.
fn sums_to(high: u32, low: u32, bits: u32) -> bool
    ensures { result ≡ (high + low == bits) }
{
    u64::from(high) + u64::from(low) == u64::from(bits)
}

/// Whether bits from the high one down to the low one are so many, and within a width.
fn is_slice(width: u32, high: u64, low: u64, bits: u32) -> bool
    ensures { result ≡ (nat_le low high && nat_lt high width && (high + 1 == low + bits)) }
{
    low <= high && high < u64::from(width) && high + 1 == low + u64::from(bits)
}

/// Whether a right side is as its operator needs it for a result of these bits.
fn right_fits(nets: &Nets, bits: u32, right: &Right) -> bool
    ensures { result ≡ widths.right_fits (width_of nets.now.names nets.now.forms) bits right.now }
{
    match right {
        Right::Const { width, value } => *width == bits && has_bits(*value, *width),
        Right::Copy(a) => nets.width(a) == bits,
        Right::Not(a) => nets.width(a) == bits,
        Right::Two(op, a, b) => {
            nets.width(a) == nets.width(b) && result_bits(*op, nets.width(a)) == bits
        }
        Right::Choose(s, a, b) => {
            nets.width(s) == 1 && nets.width(a) == bits && nets.width(b) == bits
        }
        Right::Cat(a, b) => sums_to(nets.width(a), nets.width(b), bits),
        Right::Slice(a, high, low) => is_slice(nets.width(a), *high, *low, bits),
    }
}

/// Whether an assign's widths are those that it needs.
fn assign_fits(nets: &Nets, assign: &NamedAssign) -> bool
    ensures { result ≡ widths.assign_fits (width_of nets.now.names nets.now.forms) assign.now }
{
    right_fits(nets, nets.width(&assign.to), &assign.right)
}

/// Whether a register's driver and its reset value are as wide as the register.
fn next_fits(nets: &Nets, next: &NamedNext) -> bool
    ensures { result ≡ widths.next_fits (width_of nets.now.names nets.now.forms) next.now }
{
    next.width == nets.width(&next.register)
        && has_bits(next.reset, next.width)
        && nets.width(&next.from) == next.width
}

/// Whether each net that is connected is as wide as its port.
fn connections_fit(nets: &Nets, connections: &[Connection], ports: &[Port]) -> bool
    ensures { result ≡ widths.connections_fit (width_of nets.now.names nets.now.forms)
        connections.now ports.now }
{
    connections
        .iter()
        .zip(ports)
        .all(|(c, p)| nets.width(&c.net) == p.width)
}

/// Whether an instance connects nets that are as wide as its module's ports.
fn instance_fits(
    known: &Names,
    modules: &[&NamedModule],
    nets: &Nets,
    instance: &NamedInstance,
) -> bool
    requires { known.now ≡ map module_name (listed modules.now) }
    ensures { result ≡ widths.instance_fits (module_named (listed modules.now))
        (width_of nets.now.names nets.now.forms) instance.now }
{
    match module_named(known, modules, instance.module.as_str()) {
        None => true,
        Some(module) => {
            connections_fit(
                nets,
                instance.connections.as_slice(),
                module.ports.as_slice(),
            )
        }
    }
}

/// The first assign whose widths differ, as its line, where their lines begin with this one.
fn misfit_assign(nets: &Nets, from: u32, assigns: &[NamedAssign]) -> Option<u32>
    requires { from + length assigns.now < 2 ^ 32 }
    ensures { result ≡ widths.misfit_assign (width_of nets.now.names nets.now.forms) from assigns.now }
{
    for (place, assign) in assigns.iter().enumerate() {
        if !assign_fits(nets, assign) {
            return Some(from + place as u32);
        }
    }
    None
}

/// The first driver of a register whose widths differ.
fn misfit_next(nets: &Nets, from: u32, nexts: &[NamedNext]) -> Option<u32>
    requires { from + length nexts.now < 2 ^ 32 }
    ensures { result ≡ widths.misfit_next (width_of nets.now.names nets.now.forms) from nexts.now }
{
    for (place, next) in nexts.iter().enumerate() {
        if !next_fits(nets, next) {
            return Some(from + place as u32);
        }
    }
    None
}

/// The first instance whose widths differ.
fn misfit_instance(
    known: &Names,
    modules: &[&NamedModule],
    nets: &Nets,
    from: u32,
    instances: &[NamedInstance],
) -> Option<u32>
    requires known { known.now ≡ map module_name (listed modules.now) }
    requires few { from + length instances.now < 2 ^ 32 }
    ensures { result ≡ widths.misfit_instance (module_named (listed modules.now))
        (width_of nets.now.names nets.now.forms) from instances.now }
{
    for (place, instance) in instances.iter().enumerate() {
        if !instance_fits(known, modules, nets, instance) {
            return Some(from + place as u32);
        }
    }
    None
}

/// The first line of a module whose widths differ.
pub(crate) fn misfit_line(
    known: &Names,
    modules: &[&NamedModule],
    nets: &Nets,
    named: &NamedModule,
) -> Option<u32>
    requires known { known.now ≡ map module_name (listed modules.now) }
    requires few { HasFewLines named.now }
    requires nets { IsNetsOf named.now nets.now }
    ensures { result ≡ widths.misfit_in (module_named (listed modules.now)) named.now }
{
    let assigns = named.assigns.as_slice();
    let assign = misfit_assign(nets, named.assigns_from(), assigns);
    let nexts = named.nexts.as_slice();
    let next = misfit_next(nets, named.nexts_from(), nexts);
    let instances = named.instances.as_slice();
    let from = named.instances_from();
    let instance = misfit_instance(known, modules, nets, from, instances);
    assign.or(next).or(instance)
}
