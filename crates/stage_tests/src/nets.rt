//! Nets of selections and of wiring. What they are made of are constants, so that a module needs no ports but the one that shows a net.
ghost use Rattle.std.specs.Prelude.{◌≡◌, ◌<◌, ◌≤◌, codes, length, IfOk, OnOk};
ghost use Rattle.std.specs.List.{AllByRecursion as Each};
ghost use Rattle.ap_merge.specs.Selects.{GoesOver};
ghost use Rattle.ap_net.specs.Cells.{IsNet};
ghost use Rattle.ap_net.specs.Draft.{Adds, CanFresh, blank, names_of};
ghost use Rattle.ap_net.specs.Making.{Closes, Makes};
ghost use Rattle.ap_net.specs.Names.{IsNew};
ghost use Rattle.ap_stage.specs.Offers.{IsOffer};

use crate::evaluate::{Bench, or_count};
use ap_bits::{Boxed, NoMemory};
use ap_merge::Select;
use ap_net::builder::Builder;
use ap_net::cell::{Cell, Wire};
use ap_net::module::Module;
use ap_stage::choose::chosen;
use ap_stage::offer::Offer;
use ap_stage::wiring::{constant, sign_extended};
use std::alloc::Global;
use std::test::Fail;

/// A selection among the entries from `from` up to the one before `to`, by halves.
pub(crate) fn halves(alloc: Global, from: u32, to: u32) -> Result<Select, NoMemory>
    requires { from < to }
    ensures { IfOk result (λ made. GoesOver made from to) }
{
    if to - from == 1 {
        return Ok(Select::Take(from));
    }
    let middle = from + (to - from) / 2;
    let yes = halves(alloc, from, middle)?;
    let no = halves(alloc, middle, to)?;
    let yes = Boxed::new(alloc, yes)?;
    let no = Boxed::new(alloc, no)?;
    Ok(Select::Ask {
        from,
        to: middle,
        yes,
        no,
    })
}

/// The module of what was built, in which the output `y` shows a net.
pub(crate) fn shown(mut out: Builder, net: Wire, width: u32) -> Result<Module, NoMemory>
    requires adds { Adds (blank out.name) out }
    requires closes { Closes (blank out.name) out }
    requires new { IsNew (codes "y") (names_of out) }
    requires net { IsNet out.nets net }
    requires wide { net.width ≡ width }
    requires low { 1 ≤ width }
    requires high { width ≤ 64 }
{
    out.show(b"y", width, Cell::Copy(net))?;
    out.finish()
}

/// Nine constants of 8 bits from 10 on, each offered under a condition that is 1 at one place alone.
fn nine_offers(out: &mut Builder, on: usize) -> Result<Vec<Offer>, NoMemory>
    requires { CanFresh out.old }
    ensures offers { IfOk result (λ offers. Each (IsOffer out.new.nets 8) offers.items) }
    ensures count { IfOk result (λ offers. length offers.items ≡ 9) }
    ensures makes { OnOk result (Makes out.old out.new) }
{
    let mut offers = Vec::new(out.allocator());
    for place in 0..9usize {
        let cond = constant(out, 1, u64::from(place == on))?;
        let net = constant(out, 8, 10 + place as u64)?;
        offers.push(Offer { cond, net })?;
    }
    Ok(offers)
}

/// The module in which `y` shows what is selected of nine offers, of which the condition at one place alone is 1.
fn one_of_nine(alloc: Global, on: usize) -> Result<Module, NoMemory> {
    let mut out = Builder::new(alloc, b"nine")?;
    let offers = nine_offers(&mut out, on)?;
    let select = halves(alloc, 0, 9)?;
    let y = chosen(&mut out, &select, &offers, 8)?;
    shown(out, y, 8)
}

#[test]
fn one_of_nine_is_selected(rt: HostRuntime) -> Result<(), Fail> {
    for on in 0..9usize {
        let module = one_of_nine(rt.alloc(), on)?;
        let mut bench = Bench::new(rt.alloc(), &module)?;
        bench.run(&module);
        assert_eq!(rt; bench.get(0), 10 + on as u64);
        assert_eq!(rt; bench.depth(0), 4);
        // The root asks for the or of four, its second answer for one of two, and that one's second answer for single ones.
        assert_eq!(rt; or_count(&module), 4);
    }
    Ok(())
}

/// The module in which `y` shows four bits, extended by the high one to eight.
fn four_to_eight(alloc: Global, a: u64) -> Result<Module, NoMemory>
    requires { a < 16 }
{
    let mut out = Builder::new(alloc, b"wide")?;
    let a = constant(&mut out, 4, a)?;
    let wide = sign_extended(&mut out, a, 8)?;
    shown(out, wide, 8)
}

#[test]
fn four_bits_are_extended(rt: HostRuntime) -> Result<(), Fail> {
    for a in 0..16u64 {
        let module = four_to_eight(rt.alloc(), a)?;
        let mut bench = Bench::new(rt.alloc(), &module)?;
        bench.run(&module);
        let wide = if a < 8 { a } else { a + 240 };
        assert_eq!(rt; bench.get(0), wide);
        assert_eq!(rt; bench.depth(0), 0);
    }
    Ok(())
}
