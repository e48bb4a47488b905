//! Which instructions the word of a stage matches. A test of a field is made once for a stage, and shared by all instructions that
//! fix the field to the value.
ghost use Rattle.std.specs.Prelude.{◌≡◌, ◌∷◌, [], ◌+◌, ◌^◌, ◌<◌, ◌≤◌, IfOk, OnOk, map, filter, flat_map};
ghost use Rattle.std.specs.List.{AllByRecursion as Each, list_all, list_any};
ghost use Rattle.ap_desc.specs.Clean.{IsClean};
ghost use Rattle.ap_net.specs.Cells.{IsNet};
ghost use Rattle.ap_net.specs.Draft.{CanFresh};
ghost use Rattle.ap_net.specs.Pending.{IsFrom};
ghost use Rattle.ap_net.specs.Ready.{numbers};
ghost use Rattle.ap_ctl.specs.Building.{BuildsComparing, Gives, GivesComparing, GivesEachComparing, Tells};
ghost use Rattle.ap_ctl.specs.Decoding.{field_tests, is_same_test, passes, tests_of, FitsWord, IsCompared, is_wanted, compared_in, compared_net, with_tests};
ghost use Rattle.ap_ctl.specs.Given.{IsWordNet};
ghost use Rattle.ap_ctl.specs.Lists.{EachPair};
ghost use Rattle.ap_ctl.specs.Nets.{AreDecoded, FollowsWord};

use crate::field::{FieldTest, field_tests, is_among, tests_of};
use crate::gate::all_of;
use ap_bits::{Items, NoMemory};
use ap_desc::design::Design;
use ap_desc::laws::clean_is_encoded;
use ap_net::builder::Builder;
use ap_net::cell::{Cell, TwoOp, Wire};
use std::alloc::{AllocError, Global};

/// A test, and the net that says whether a word passes it.
#[derive(Clone, Copy, Debug, PartialEq, Eq)]
struct Compared {
    test: FieldTest,
    net: Wire,
}

/// Whether the word passes the test.
fn compare(out: &mut Builder, word: Wire, test: FieldTest) -> Result<Wire, NoMemory>
    requires fresh { CanFresh out.old }
    requires word { IsNet out.old.nets word }
    requires test { FitsWord word.width test }
    ensures tells { IfOk result (Tells out.new (λ r. passes (r.read word.number) test)) }
    ensures gives { IfOk result (GivesComparing ((word, test) ∷ []) (word.number ∷ [])
        out.old out.new) }
{
    let high = test.low + test.width - 1;
    let bits = out.make(test.width, Cell::Slice(word, high, test.low))?;
    let wanted = out.make(test.width, Cell::Const(test.value))?;
    let hit = out.make(1, Cell::Two(TwoOp::Eq, bits, wanted))?;
    Ok(hit)
}

/// Makes each of the tests once.
fn compare_all(
    out: &mut Builder,
    word: Wire,
    tests: &[FieldTest],
) -> Result<Items<Compared>, NoMemory>
    requires fresh { CanFresh out.old }
    requires word { IsNet out.old.nets word }
    requires tests { Each (FitsWord word.width) tests.now }
    ensures tests { IfOk result (λ made. map (λ c. c.test) made ≡ tests.now) }
    ensures tells { IfOk result (Each (IsCompared out.new word)) }
    ensures gives { IfOk result (λ made. GivesEachComparing (with_tests tests.now word)
        (word.number ∷ []) out.old out.new (map compared_net made)) }
{
    let mut made = Items::new(out.allocator());
    for test in tests {
        let net = compare(out, word, *test)?;
        made.push(Compared { test: *test, net })?;
    }
    Ok(made)
}

/// The nets of those tests that are wanted.
fn nets_of(alloc: Global, made: &[Compared], wanted: &[FieldTest]) -> Result<Vec<Wire>, AllocError>
    ensures { IfOk result (λ nets.
        nets.items ≡ map compared_net (filter (is_wanted wanted.now) made.now)) }
{
    made.iter()
        .filter(|c| is_among(c.test, wanted))
        .map(|c| c.net)
        .collect(alloc)
}

/// Whether the word passes the tests that are wanted.
fn condition(
    out: &mut Builder,
    word: Wire,
    made: &[Compared],
    wanted: &[FieldTest],
) -> Result<Wire, NoMemory>
    requires fresh { CanFresh out.old }
    requires made { Each (IsCompared out.old word) made.now }
    ensures tells { IfOk result (Tells out.new (λ r.
        list_all (λ (c : Compared). passes (r.read word.number) c.test)
        (filter (is_wanted wanted.now) made.now))) }
    ensures gives { IfOk result (Gives (numbers (map compared_net made.now)) out.old out.new) }
{
    let chosen = nets_of(out.allocator(), made, wanted)?;
    let nets = Items::of(chosen);
    let hit = all_of(out, nets.as_slice())?;
    Ok(hit)
}

/// The conditions of a stage: for each instruction whether the word matches it.
fn conditions(
    out: &mut Builder,
    design: &Design,
    tests: &[FieldTest],
    word: Wire,
) -> Result<Items<Wire>, NoMemory>
    requires clean { IsClean design.now }
    requires fresh { CanFresh out.old }
    requires tests { tests.now ≡ field_tests design.now }
    requires word { IsWordNet design.now out.old.nets word }
    ensures tells { IfOk result (AreDecoded design.now out.new word) }
    ensures gives { IfOk result (GivesEachComparing (with_tests (field_tests design.now) word)
        (word.number ∷ []) out.old out.new) }
{
    clean_is_encoded();
    let alloc = out.allocator();
    let made = compare_all(out, word, tests)?;
    let table = made.as_slice();
    let mut conditions = Items::new(alloc);
    for instr in design.instrs.as_slice() {
        let wanted = tests_of(alloc, design, instr)?;
        let hit = condition(out, word, table, wanted.as_slice())?;
        conditions.push(hit)?;
    }
    Ok(conditions)
}

/// For each of these words and each instruction whether the word matches it.
pub fn decoded(
    out: &mut Builder,
    design: &Design,
    words: &[Wire],
) -> Result<Items<Items<Wire>>, NoMemory>
    requires clean { IsClean design.now }
    requires fresh { CanFresh out.old }
    requires words { Each (IsWordNet design.now out.old.nets) words.now }
    ensures tells { IfOk result (EachPair (AreDecoded design.now out.new) words.now) }
    ensures builds { OnOk result (BuildsComparing (compared_in design.now words.now)
        (numbers words.now) out.old out.new) }
    ensures came { IfOk result (λ lists.
        Each (IsFrom (numbers words.now) out.old out.new) (flat_map numbers lists)) }
    ensures follows { IfOk result (EachPair (FollowsWord out.new) words.now) }
{
    let alloc = out.allocator();
    let tests = field_tests(alloc, design)?;
    let mut decoded = Items::new(alloc);
    for word in words {
        let stage = conditions(out, design, tests.as_slice(), *word)?;
        decoded.push(stage)?;
    }
    Ok(decoded)
}
