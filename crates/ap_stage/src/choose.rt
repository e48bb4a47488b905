//! The nets of a selection: a tree of `? :` with the shape of the selection.
ghost use Rattle.std.specs.Prelude.{◌≡◌, [], ◌∷◌, ◌<◌, ◌==◌, if◌then◌else◌, length, slice_get, IfOk, OnOk, Some};
ghost use Rattle.std.specs.List.{AllByRecursion as Each};
ghost use Rattle.ap_net.specs.Cells.{IsNet};
ghost use Rattle.ap_net.specs.Draft.{CanFresh};
ghost use Rattle.ap_net.specs.Making.{Makes};
ghost use Rattle.ap_net.specs.Pending.{Yields};
ghost use Rattle.ap_net.specs.Readings.{Carries};
ghost use Rattle.ap_stage.specs.Offers.{IsAnyOn, IsOffer, IsOver, IsSelected, nets_of, numbers_of};
ghost use Rattle.ap_merge.specs.Selects.{depth};
ghost use Rattle.ap_stage.specs.Trees.{IsEither, IsTree, StandsOver};

use crate::offer::Offer;
use ap_bits::NoMemory;
use ap_merge::Select;
use ap_net::builder::Builder;
use ap_net::cell::{Cell, TwoOp, Wire};

/// Of two nets the first where the condition is 1, else the second. Where both are one net, it is that net.
#[tactic(auto, using(ap_net::proofs::Laws::laws))]
fn either(out: &mut Builder, cond: Wire, yes: Wire, no: Wire, width: u32) -> Result<Wire, NoMemory>
    requires fresh { CanFresh out.old }
    requires cond { IsNet out.old.nets cond }
    requires one_bit { cond.width ≡ 1 }
    requires yes { IsNet out.old.nets yes }
    requires wide { yes.width ≡ width }
    requires no { IsNet out.old.nets no }
    requires same { no.width ≡ width }
    ensures carries { IfOk result (Carries out.new width (λ r y. y
        ≡ (if r.read cond.number == 1 then r.read yes.number else r.read no.number))) }
    ensures reads { IfOk result (Yields (cond.number ∷ yes.number ∷ no.number ∷ []) out.old out.new) }
    ensures makes { OnOk result (Makes out.old out.new) }
    ensures tree { IfOk result (IsEither out.new cond yes no) }
{
    if yes.number == no.number {
        return Ok(yes);
    }
    let net = out.make(width, Cell::Choose(cond, yes, no))?;
    Ok(net)
}

/// The offer at a place.
fn offer_at(offers: &[Offer], place: u32) -> Offer
    requires { place < length offers.now }
    ensures { slice_get offers.now place ≡ Some result }
{
    offers[place as usize]
}

/// One offer for those that the selection goes over: its condition is 1 where one of theirs is.
#[tactic(auto, using(ap_net::proofs::Laws::laws))]
fn offered(
    out: &mut Builder,
    select: &Select,
    offers: &[Offer],
    width: u32,
) -> Result<Offer, NoMemory>
    requires fresh { CanFresh out.old }
    requires offers { Each (IsOffer out.old.nets width) offers.now }
    requires over { IsOver (length offers.now) select.now }
    ensures cond { IfOk result (λ o. Carries out.new 1 (IsAnyOn offers.now select.now) o.cond) }
    ensures net { IfOk result (λ o. Carries out.new width (IsSelected offers.now select.now) o.net) }
    ensures cond_reads { IfOk result (λ o. Yields (numbers_of offers.now) out.old out.new o.cond) }
    ensures net_reads { IfOk result (λ o. Yields (numbers_of offers.now) out.old out.new o.net) }
    ensures makes { OnOk result (Makes out.old out.new) }
    ensures tree { IfOk result (λ o. IsTree out.new (nets_of offers.now) (depth select.now)
        o.net.number) }
{
    match select {
        Select::Take(place) => Ok(offer_at(offers, *place)),
        Select::Ask { yes, no, .. } => {
            let first = offered(out, yes.get(), offers, width)?;
            let second = offered(out, no.get(), offers, width)?;
            let cond = out.make(1, Cell::Two(TwoOp::Or, first.cond, second.cond))?;
            let net = either(out, first.cond, first.net, second.net, width)?;
            Ok(Offer { cond, net })
        }
    }
}

/// What a selection takes of these offers: where the condition of one alone is 1, what it offers. From the net each path back by the sides of
/// `? :` comes to an offered net over no more of them than the selection asks questions. A condition is made only where it is asked for.
#[tactic(auto, using(ap_net::proofs::Laws::laws))]
pub fn chosen(
    out: &mut Builder,
    select: &Select,
    offers: &[Offer],
    width: u32,
) -> Result<Wire, NoMemory>
    requires fresh { CanFresh out.old }
    requires offers { Each (IsOffer out.old.nets width) offers.now }
    requires over { IsOver (length offers.now) select.now }
    ensures carries { IfOk result (Carries out.new width (IsSelected offers.now select.now)) }
    ensures reads { IfOk result (Yields (numbers_of offers.now) out.old out.new) }
    ensures makes { OnOk result (Makes out.old out.new) }
    ensures tree { IfOk result (λ y. IsTree out.new (nets_of offers.now) (depth select.now) y.number) }
    ensures shallow { IfOk result (λ y.
        StandsOver (depth select.now) (nets_of offers.now) out.old out.new y.number) }
{
    match select {
        Select::Take(place) => Ok(offer_at(offers, *place).net),
        Select::Ask { yes, no, .. } => {
            let first = offered(out, yes.get(), offers, width)?;
            let second = chosen(out, no.get(), offers, width)?;
            let net = either(out, first.cond, first.net, second, width)?;
            Ok(net)
        }
    }
}
