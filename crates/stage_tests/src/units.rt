//! A unit for nine instructions.
ghost use Rattle.std.specs.Prelude.{◌≡◌, ◌∷◌, [], ◌<◌, codes, length, IfOk, None, OnOk};
ghost use Rattle.std.specs.List.{AllByRecursion as Each};
ghost use Rattle.ap_bits.specs.declared.card.Latency.TheVariants.{One};
ghost use Rattle.ap_net.specs.Draft.{CanFresh};
ghost use Rattle.ap_net.specs.Making.{Makes};
ghost use Rattle.ap_unit.specs.Units.{ports_by};
ghost use Rattle.ap_stage.specs.Courses.{CanServe, FitsUnit, IsCourse, IsUnserved, users_of};
ghost use Rattle.stage_tests.specs.Doubling.{HasWord, IsDoubling, IsWordGround};

use crate::evaluate::Bench;
use crate::nets::{halves, shown};
use ap_bits::{Items, Name, NoMemory};
use ap_comb::Alu;
use ap_desc::design::{Arg, Field};
use ap_net::builder::Builder;
use ap_net::cell::Wire;
use ap_net::module::Module;
use ap_stage::node::{Course, PortUse};
use ap_stage::serve::{QuickUnit, serve_quick};
use ap_stage::source::{Ground, Scope};
use ap_stage::user::{Asked, Use};
use ap_stage::wiring::constant;
use ap_unit::UnitKind;
use std::alloc::Global;
use std::test::Fail;

/// The module of an adder of 8 bits.
fn adder(alloc: Global) -> Result<Module, NoMemory>
    ensures { IfOk result (λ unit. unit.ports ≡ ports_by One 4 8) }
{
    let mut out = Builder::new(alloc, b"u_ALU")?;
    Alu.build(8, &mut out)?;
    let unit = out.finish()?;
    unit.rules();
    Ok(unit)
}

/// A stage of a word of 8 bits, without registers and inputs.
fn word_ground(alloc: Global, word: Wire) -> Ground
    ensures { IsWordGround word result }
{
    Ground {
        word,
        place: word,
        link: word,
        regs: Items::new(alloc),
        inputs: Items::new(alloc),
    }
}

/// An instruction with a field of 8 bits, whose one line adds the field to itself on the port 0.
fn doubling(alloc: Global, cond: Wire) -> Result<Course, NoMemory>
    ensures { IfOk result (IsDoubling cond) }
{
    let mut fields = Items::new(alloc);
    fields.push(Field {
        name: Name::new(alloc, b"f")?,
        width: 8,
        low: 0,
    })?;
    let asked = Asked::Operate(Use {
        op: 0,
        a: Arg::Field(0),
        b: Arg::Field(0),
    });
    let used = PortUse {
        port: 0,
        asked,
        local: 0,
    };
    Ok(Course {
        cond,
        scope: Scope {
            fields,
            widths: Items::copy_of(alloc, &[8])?,
        },
        lines: Items::new(alloc),
        uses: Items::copy_of(alloc, &[used])?,
        row: vec![in alloc; None; 1]?,
    })
}

/// Nine of these instructions, of which the condition of one alone is 1.
fn nine_courses(
    out: &mut Builder,
    word: Wire,
    ground: &Ground,
    on: usize,
) -> Result<Vec<Course>, NoMemory>
    requires fresh { CanFresh out.old }
    requires word { HasWord out.old word }
    requires ground { IsWordGround word ground.now }
    ensures courses { IfOk result (λ all. Each (IsCourse out.new ground.now) all.items) }
    ensures unserved { IfOk result (λ all. Each (IsUnserved 0) all.items) }
    ensures fit { IfOk result (λ all. Each (FitsUnit ground.now 4 8) (users_of 0 all.items)) }
    ensures can { IfOk result (λ all. CanServe (users_of 0 all.items)) }
    ensures count { IfOk result (λ all. length (users_of 0 all.items) ≡ 9) }
    ensures makes { OnOk result (Makes out.old out.new) }
{
    let alloc = out.allocator();
    let mut courses = Vec::new(alloc);
    for place in 0..9usize {
        let cond = constant(out, 1, u64::from(place == on))?;
        let course = doubling(alloc, cond)?;
        courses.push(course)?;
    }
    Ok(courses)
}

/// A module with an adder that nine instructions use, each for the double of the word 21. It shows the word.
fn nine_users(alloc: Global, on: usize) -> Result<Module, NoMemory> {
    let mut out = Builder::new(alloc, b"top")?;
    let word = constant(&mut out, 8, 21)?;
    let ground = word_ground(alloc, word);
    let mut courses = nine_courses(&mut out, word, &ground, on)?;
    let unit = adder(alloc)?;
    let quick = QuickUnit {
        port: 0,
        select: halves(alloc, 0, 9)?,
        name: Items::copy_of(alloc, b"u_U")?,
        module: 0,
        select_width: 4,
        width: 8,
    };
    serve_quick(&mut out, &ground, &mut courses, &quick, &unit)?;
    shown(out, word, 8)
}

#[test]
fn nine_users_have_one_instance(rt: HostRuntime) -> Result<(), Fail> {
    for on in 0..9usize {
        let module = nine_users(rt.alloc(), on)?;
        assert_eq!(rt; module.instances().len(), 1);
        let mut bench = Bench::new(rt.alloc(), &module)?;
        bench.run(&module);
        for instance in module.instances() {
            let nets = instance.nets.as_slice();
            assert_eq!(rt; nets.len(), 4);
            let asked = [bench.get(nets[0].number), bench.get(nets[1].number)];
            assert_eq!(rt; asked, [0, 21]);
            assert_eq!(rt; bench.get(nets[2].number), 21);
            for net in nets {
                assert!(rt; bench.depth(net.number) <= 4);
            }
        }
    }
    Ok(())
}
