//! What the operands of a line come from within its stage: the nodes behind them, and what may change while a slow unit works.
ghost use Rattle.std.specs.Prelude.{◌≡◌, ◌<◌, ◌++◌, ◌↔◌, ℕ, Contains, IfSome, option_to_list, true};
ghost use Rattle.std.specs.List.{AllByRecursion as Each};
ghost use Rattle.ap_desc.specs.Chains.{operands_of};
ghost use Rattle.ap_desc.specs.Designs.{assigned_count};
ghost use Rattle.ap_desc.specs.Sound.{IsSound};
ghost use Rattle.ap_desc.specs.StageFaults.{is_slow, is_unstable};
ghost use Rattle.ap_desc.specs.declared.design.Micro.{Micro};
ghost use Rattle.ap_ports.specs.Firsts.{IsFirst, IsUnsteady, LineAt};
ghost use Rattle.ap_ports.specs.Numbers.{IsNumbered};
ghost use Rattle.ap_ports.specs.Ways.{Has};

use crate::number::{assigns, is_wiring, node_number};
use crate::ways::single;
use ap_desc::design::{Act, Arg, Design, Instr, Micro};

/// How many locals an instruction has at most.
const LOCALS: usize = 64;

/// What each local of an instruction comes from within the stage of its line, in the order of assignment.
#[derive(Drop)]
pub(crate) struct Locals {
    /// How many were assigned.
    count: usize,
    /// The stage of the line that assigned it.
    stages: [u32; LOCALS],
    /// The nodes from which it comes by wiring.
    nodes: [u128; LOCALS],
    /// Whether it reaches what may change while a slow unit works.
    unstable: [bool; LOCALS],
}

/// The operands of a line.
fn operands(act: Act) -> (Option<Arg>, Option<Arg>, Option<Arg>)
    ensures { option_to_list result.0 ++ (option_to_list result.1 ++ option_to_list result.2)
        ≡ operands_of act }
{
    match act {
        Act::Compute { a, b, .. } | Act::Cat { a, b } => (Some(a), Some(b), None),
        Act::ReadFile { index, .. } => (Some(index), None, None),
        Act::ReadMem { at, .. } => (Some(at), None, None),
        Act::Zext { a, .. } | Act::Sext { a, .. } | Act::Slice { a, .. } => (Some(a), None, None),
        Act::WriteFile {
            index,
            value,
            guard,
            ..
        } => (Some(index), Some(value), guard),
        Act::WriteReg { value, guard, .. } => (Some(value), None, guard),
        Act::WriteMem {
            at,
            value,
            guard,
            ..
        } => (Some(at), Some(value), guard),
        Act::Branch { cond, target } => (Some(cond), Some(target), None),
        Act::Jump { target } => (Some(target), None, None),
        Act::ReadReg { .. } | Act::ReadIn { .. } | Act::Const { .. } => (None, None, None),
    }
}

impl Locals {
    ghost use Rattle.ap_ports.specs.Flow.{GivesNode, IsLocalOf, IsTaken, TakesNode, TakesShaky, nodes_at, shaky_at};

    /// None assigned yet.
    pub(crate) fn new() -> Locals
        ensures { result.count ≡ 0 }
    {
        Locals {
            count: 0,
            stages: [0; LOCALS],
            nodes: [0; LOCALS],
            unstable: [false; LOCALS],
        }
    }

    /// The nodes from which an operand that was assigned in this stage comes by wiring.
    fn nodes_at(&self, operand: Option<Arg>, stage: u32) -> u128
        requires { IfSome operand (IsLocalOf 64) }
        ensures { result ≡ nodes_at self.now stage operand }
    {
        if let Some(Arg::Local(i)) = operand {
            if self.stages[i as usize] == stage {
                return self.nodes[i as usize];
            }
        }
        0
    }

    /// Whether an operand that was assigned in this stage reaches what may change.
    fn is_shaky(&self, operand: Option<Arg>, stage: u32) -> bool
        requires { IfSome operand (IsLocalOf 64) }
        ensures { result ≡ shaky_at self.now stage operand }
    {
        if let Some(Arg::Local(i)) = operand {
            if self.stages[i as usize] == stage {
                return self.unstable[i as usize];
            }
        }
        false
    }

    /// The nodes from which a line's operands come by wiring.
    pub(crate) fn sources(&self, micro: &Micro) -> u128
        requires { Each (IsLocalOf 64) (operands_of micro.now.act) }
        ensures { (node : ℕ) → Has result node ↔ TakesNode self.now micro.now node }
    {
        let (a, b, c) = operands(micro.act);
        let stage = micro.stage;
        self.nodes_at(a, stage) | (self.nodes_at(b, stage) | self.nodes_at(c, stage))
    }

    /// Whether one of the line's operands reaches what may change while a slow unit works.
    fn is_unsteady(&self, micro: &Micro) -> bool
        requires { Each (IsLocalOf 64) (operands_of micro.now.act) }
        ensures { (result ≡ true) ↔ TakesShaky self.now micro.now }
    {
        let (a, b, c) = operands(micro.act);
        let stage = micro.stage;
        if self.is_shaky(a, stage) {
            return true;
        }
        if self.is_shaky(b, stage) {
            return true;
        }
        self.is_shaky(c, stage)
    }

    /// The nodes from which the local of a line comes by wiring.
    fn nodes_given(&self, micro: &Micro) -> u128
        requires operands { Each (IsLocalOf 64) (operands_of micro.now.act) }
        requires numbered { IsNumbered micro.now.act }
        ensures { (node : ℕ) → Has result node ↔ GivesNode self.now micro.now node }
    {
        match node_number(micro.act) {
            Some(node) => single(node),
            None => {
                if is_wiring(micro.act) {
                    self.sources(micro)
                } else {
                    0
                }
            }
        }
    }

    /// Takes a line that assigns a local, and keeps what the local comes from.
    fn keep(&mut self, design: &Design, micro: &Micro)
        requires room { self.old.count < 64 }
        requires operands { Each (IsLocalOf 64) (operands_of micro.now.act) }
        requires numbered { IsNumbered micro.now.act }
        ensures { IsTaken design.now micro.now self.old self.new }
    {
        let nodes = self.nodes_given(micro);
        let unstable = if is_unstable(design, micro.act) {
            true
        } else {
            self.is_unsteady(micro)
        };
        self.stages[self.count] = micro.stage;
        self.nodes[self.count] = nodes;
        self.unstable[self.count] = unstable;
        self.count += 1;
    }

    /// Takes a line.
    pub(crate) fn take(&mut self, design: &Design, micro: &Micro)
        requires room { self.old.count < 64 }
        requires operands { Each (IsLocalOf 64) (operands_of micro.now.act) }
        requires numbered { IsNumbered micro.now.act }
        ensures assigns { assigned_count micro.now.act ≡ 1
            → IsTaken design.now micro.now self.old self.new }
        ensures other { assigned_count micro.now.act ≡ 0 → self.new ≡ self.old }
    {
        if assigns(micro.act) {
            self.keep(design, micro);
        }
    }
}

/// Whether the line uses a unit that takes more than one cycle.
fn is_slow(design: &Design, act: Act) -> bool
    ensures { result ≡ is_slow design.now act }
{
    match act {
        Act::Compute { unit, .. } => match design.units.as_slice().get(unit as usize) {
            Some(unit) => unit.latency > 1,
            None => false,
        },
        _ => false,
    }
}

/// Whether what the line gives may change while a slow unit works.
fn is_unstable(design: &Design, act: Act) -> bool
    ensures { result ≡ is_unstable design.now act }
{
    match act {
        Act::ReadIn { .. } | Act::ReadMem { .. } => true,
        _ => is_slow(design, act),
    }
}

/// The first line of an instruction that uses a slow unit with an operand that may change.
pub(crate) fn first_unsteady(design: &Design, instr: &Instr) -> Option<usize>
    requires sound { IsSound design.now }
    requires instr { Contains design.now.instrs instr.now }
    ensures { IsFirst (λ place. LineAt instr.now.micros place (IsUnsteady design.now instr.now))
        result }
{
    let mut locals = Locals::new();
    for (place, micro) in instr.micros.as_slice().iter().enumerate() {
        if is_slow(design, micro.act) {
            if locals.is_unsteady(micro) {
                return Some(place);
            }
        }
        locals.take(design, micro);
    }
    None
}
