//! Ports of a stage, each for all instructions that use it. What reaches a port is selected from what these ask.
ghost use Rattle.std.specs.Prelude.{◌≡◌, ◌∷◌, [], codes, length, IfOk, OnOk};
ghost use Rattle.std.specs.List.{AllByRecursion as Each};
ghost use Rattle.ap_net.specs.Draft.{CanFresh};
ghost use Rattle.ap_net.specs.Late.{IsLate};
ghost use Rattle.ap_net.specs.Making.{Makes};
ghost use Rattle.ap_net.specs.Pending.{Yields};
ghost use Rattle.ap_net.specs.Readings.{Carries};
ghost use Rattle.ap_merge.specs.Selects.{GoesOver, depth};
ghost use Rattle.ap_stage.specs.Courses.{AddsOffers, CanServe, FitsPart, GoOn, HandsIn, IsCourse, course_numbers, courses_numbers, users_of};
ghost use Rattle.ap_stage.specs.Reads.{AreFrom, DrivesLate, Serves};
ghost use Rattle.ap_stage.specs.Served.{IsPartOf, IsQuick, IsReader, IsServed, IsServedRead, IsServedSlow, IsSlow, PlacesOnce, StayReady, wires_of};
ghost use Rattle.ap_stage.specs.Sources.{IsGround};
ghost use Rattle.ap_stage.specs.Trees.{IsShallow};

use crate::chain::Node;
use crate::choose::chosen;
use crate::node::{Course, take_results, use_of};
use crate::offer::Offer;
use crate::place::place_quick;
use crate::source::Ground;
use crate::user::{Part, handed_in, handed_net};
use ap_bits::{Items, NoMemory};
use ap_merge::Select;
use ap_net::builder::Builder;
use ap_net::cell::{Cell, Wire};
use ap_net::module::Module;

/// A unit of several cycles that stands already. The wires that reach it are declared and are driven later; its result is known.
#[derive(Drop)]
pub struct SlowUnit {
    /// The number by which the stage knows the port.
    pub port: u32,
    /// How what reaches it is selected among the instructions that use it.
    pub select: Select,
    /// The number of the operation.
    pub sel: Wire,
    /// The first operand.
    pub a: Wire,
    /// The second operand.
    pub b: Wire,
    /// The result.
    pub y: Wire,
}

/// A read port of a file or a memory that stands already. The wire of the index is declared and is driven later; what is read is known.
#[derive(Drop)]
pub struct ReadPort {
    /// The number by which the stage knows the port.
    pub port: u32,
    /// How the index is selected among the instructions that use it.
    pub select: Select,
    pub index: Wire,
    /// What is read.
    pub value: Wire,
}

/// A unit that takes one cycle and is to be placed.
#[derive(Drop)]
pub struct QuickUnit {
    /// The number by which the stage knows the port.
    pub port: u32,
    /// How what reaches it is selected among the instructions that use it.
    pub select: Select,
    /// The name of the instance.
    pub name: Items<u8>,
    /// The place of its module among those of the netlist.
    pub module: u32,
    /// How many bits the number of an operation has.
    pub select_width: u32,
    /// How many bits operands and results have.
    pub width: u32,
}

/// Adds what an instruction hands in for a part of a port, where a line of it uses the port.
fn add_offer(
    out: &mut Builder,
    ground: &Ground,
    course: &Course,
    port: u32,
    part: Part,
    width: u32,
    offers: &mut Items<Offer>,
) -> Result<(), NoMemory>
    requires fresh { CanFresh out.old }
    requires ground { IsGround out.old.nets ground.now }
    requires course { IsCourse out.old ground.now course.now }
    requires fit { Each (FitsPart ground.now width part) (users_of port (course.now ∷ [])) }
    requires can { CanServe (users_of port (course.now ∷ [])) }
    ensures adds { OnOk result (AddsOffers (course_numbers ground.now course.now) out.old out.new
        ground.now part width (users_of port (course.now ∷ [])) offers.old offers.new) }
    ensures makes { OnOk result (Makes out.old out.new) }
{
    let Some(used) = use_of(course, port) else {
        return Ok(());
    };
    let Some(given) = handed_in(used.asked, part) else {
        unreachable!();
    };
    let row = course.row.as_slice();
    let net = handed_net(out, ground, &course.scope, row, given, width)?;
    offers.push(Offer {
        cond: course.cond,
        net,
    })?;
    Ok(())
}

/// What all instructions hand in for a part of a port that use it, in their order.
fn offers_of(
    out: &mut Builder,
    ground: &Ground,
    courses: &[Course],
    port: u32,
    part: Part,
    width: u32,
) -> Result<Items<Offer>, NoMemory>
    requires fresh { CanFresh out.old }
    requires ground { IsGround out.old.nets ground.now }
    requires courses { Each (IsCourse out.old ground.now) courses.now }
    requires fit { Each (FitsPart ground.now width part) (users_of port courses.now) }
    requires can { CanServe (users_of port courses.now) }
    ensures adds { IfOk result (AddsOffers (courses_numbers ground.now courses.now) out.old out.new
        ground.now part width (users_of port courses.now) []) }
    ensures makes { OnOk result (Makes out.old out.new) }
{
    let mut offers = Items::new(out.allocator());
    for course in courses {
        add_offer(out, ground, course, port, part, width, &mut offers)?;
    }
    Ok(offers)
}

/// What is selected for a part of a port: what that user hands in whose condition alone is 1.
fn part_chosen(
    out: &mut Builder,
    ground: &Ground,
    courses: &[Course],
    port: u32,
    part: Part,
    select: &Select,
    width: u32,
) -> Result<Wire, NoMemory>
    requires fresh { CanFresh out.old }
    requires ground { IsGround out.old.nets ground.now }
    requires courses { Each (IsCourse out.old ground.now) courses.now }
    requires fit { Each (FitsPart ground.now width part) (users_of port courses.now) }
    requires can { CanServe (users_of port courses.now) }
    requires over { GoesOver select.now 0 (length (users_of port courses.now)) }
    ensures carries { IfOk result (Carries out.new width
        (HandsIn ground.now (users_of port courses.now) part)) }
    ensures low { IfOk result (λ y. IsShallow out.new (depth select.now) y.number) }
    ensures yields { IfOk result
        (Yields (courses_numbers ground.now courses.now) out.old out.new) }
    ensures makes { OnOk result (Makes out.old out.new) }
{
    let offers = offers_of(out, ground, courses, port, part, width)?;
    let net = chosen(out, select, offers.as_slice(), width)?;
    Ok(net)
}

/// Drives a wire that was declared earlier by what is selected for a part of a port.
pub fn drive_part(
    out: &mut Builder,
    ground: &Ground,
    courses: &[Course],
    port: u32,
    part: Part,
    select: &Select,
    to: Wire,
) -> Result<(), NoMemory>
    requires fresh { CanFresh out.old }
    requires ground { IsGround out.old.nets ground.now }
    requires courses { Each (IsCourse out.old ground.now) courses.now }
    requires fit { Each (FitsPart ground.now to.width part) (users_of port courses.now) }
    requires can { CanServe (users_of port courses.now) }
    requires over { GoesOver select.now 0 (length (users_of port courses.now)) }
    requires late { IsLate out.old to }
    ensures part { OnOk result
        (IsPartOf out.new ground.now courses.now port part select.now to) }
    ensures drives { OnOk result
        (DrivesLate (courses_numbers ground.now courses.now) to out.old out.new) }
{
    let net = part_chosen(out, ground, courses, port, part, select, to.width)?;
    out.cell(to, Cell::Copy(net))?;
    Ok(())
}

/// Places a unit that takes one cycle once for all instructions that use it, and gives its result to their locals. In every netlist whose
/// module of the unit's name computes by a card, the result is the value of that user's operation on its operands whose condition alone
/// is 1.
pub fn serve_quick(
    out: &mut Builder,
    ground: &Ground,
    courses: &mut [Course],
    unit: &QuickUnit,
    whole: &Module,
) -> Result<(), NoMemory>
    requires top { out.old.name ≡ codes "top" }
    requires fresh { CanFresh out.old }
    requires ground { IsGround out.old.nets ground.now }
    requires courses { Each (IsCourse out.old ground.now) courses.old }
    requires unit { IsQuick out.old ground.now courses.old unit.now whole.now }
    requires can { CanServe (users_of unit.now.port courses.old) }
    ensures courses { OnOk result (Each (IsCourse out.new ground.now) courses.new) }
    ensures go_on { OnOk result (GoOn unit.now.port courses.old courses.new) }
    ensures served { OnOk result (IsServed out.new ground.now whole.now.name unit.now.port
        unit.now.width courses.new) }
    ensures places { OnOk result
        (PlacesOnce unit.now.name whole.now unit.now.select out.old out.new) }
    ensures from { OnOk result (AreFrom (courses_numbers ground.now courses.old) out.old out.new
        (courses_numbers ground.now courses.new)) }
{
    let port = unit.port;
    let select = &unit.select;
    let sel = part_chosen(
        out,
        ground,
        courses,
        port,
        Part::Operation,
        select,
        unit.select_width,
    )?;
    let a = part_chosen(out, ground, courses, port, Part::First, select, unit.width)?;
    let b = part_chosen(out, ground, courses, port, Part::Second, select, unit.width)?;
    let y = place_quick(out, unit.name.as_slice(), whole, sel, a, b)?;
    take_results(out, ground, courses, port, y)?;
    Ok(())
}

/// Drives the wires that reach a unit of several cycles by what that user asks whose condition alone is 1, and gives the unit's result to
/// the locals of all users.
pub fn serve_slow(
    out: &mut Builder,
    ground: &Ground,
    courses: &mut [Course],
    unit: &SlowUnit,
) -> Result<(), NoMemory>
    requires fresh { CanFresh out.old }
    requires ground { IsGround out.old.nets ground.now }
    requires courses { Each (IsCourse out.old ground.now) courses.old }
    requires unit { IsSlow out.old ground.now courses.old unit.now }
    requires can { CanServe (users_of unit.now.port courses.old) }
    ensures courses { OnOk result (Each (IsCourse out.new ground.now) courses.new) }
    ensures go_on { OnOk result (GoOn unit.now.port courses.old courses.new) }
    ensures served { OnOk result (IsServedSlow out.new ground.now unit.now courses.new) }
    ensures serves { OnOk result
        (Serves [] (wires_of (Node.Slow unit.now)) out.old out.new) }
    ensures ready { OnOk result (StayReady ground.now (Node.Slow unit.now ∷ []) out.old courses.old
        out.new courses.new) }
{
    let port = unit.port;
    let select = &unit.select;
    drive_part(
        out,
        ground,
        courses,
        port,
        Part::Operation,
        select,
        unit.sel,
    )?;
    drive_part(out, ground, courses, port, Part::First, select, unit.a)?;
    drive_part(out, ground, courses, port, Part::Second, select, unit.b)?;
    take_results(out, ground, courses, port, unit.y)?;
    Ok(())
}

/// Drives the wire of a read port's index by the index of that user whose condition alone is 1, and gives what is read to the locals of
/// all users.
pub fn serve_read(
    out: &mut Builder,
    ground: &Ground,
    courses: &mut [Course],
    read: &ReadPort,
) -> Result<(), NoMemory>
    requires fresh { CanFresh out.old }
    requires ground { IsGround out.old.nets ground.now }
    requires courses { Each (IsCourse out.old ground.now) courses.old }
    requires read { IsReader out.old ground.now courses.old read.now }
    requires can { CanServe (users_of read.now.port courses.old) }
    ensures courses { OnOk result (Each (IsCourse out.new ground.now) courses.new) }
    ensures go_on { OnOk result (GoOn read.now.port courses.old courses.new) }
    ensures served { OnOk result (IsServedRead out.new ground.now read.now courses.new) }
    ensures serves { OnOk result
        (Serves [] (wires_of (Node.Read read.now)) out.old out.new) }
    ensures ready { OnOk result (StayReady ground.now (Node.Read read.now ∷ []) out.old courses.old
        out.new courses.new) }
{
    drive_part(
        out,
        ground,
        courses,
        read.port,
        Part::First,
        &read.select,
        read.index,
    )?;
    take_results(out, ground, courses, read.port, read.value)?;
    Ok(())
}
