//! The labels of a program and their landings.
ghost use Rattle.std.specs.Prelude.{◌≡◌, ◌≤◌, [], if◌then◌else◌, IfOk, List, None, OnOk, Some, ℕ};
ghost use Rattle.std.specs.Option.{option_or};
ghost use Rattle.ap_program.specs.Labels.{landing_among, with_label};
ghost use Rattle.ap_program.specs.Programs.{group_count, is_label_named, landing_of};

use crate::statement::{ProgramLine, Statement};
use ap_bits::NoMemory;
use indexmap::IndexMap;
use std::alloc::Global;
use std::marker::Model;

/// Labels, each with the number of the groups before it. Contracts see a list of pairs.
#[derive(Drop)]
pub(crate) struct Labels {
    landings: IndexMap<String, usize>,
}

impl Model for Labels {
    ghost use Rattle.std.specs.Prelude.{List, ℕ, map};
    ghost use Rattle.std.specs.String.{string_bytes};

    ghost Value = { List (List ℕ × ℕ) };

    ghost view = { λ l. map (λ e. (string_bytes e.0, e.1)) l.landings.entries };
}

impl Labels {
    /// No labels.
    pub(crate) fn new(alloc: Global) -> Labels
        ensures { result ≡ [] }
    {
        Labels {
            landings: IndexMap::new(alloc),
        }
    }

    /// The landing of the label of this name.
    pub(crate) fn landing(&self, name: &str) -> Option<usize>
        ensures { result ≡ landing_among self.now name.now }
    {
        self.landings.get(name).copied()
    }

    /// Adds a label. One that is there stays.
    pub(crate) fn add(&mut self, alloc: Global, name: &str, landing: usize) -> Result<(), NoMemory>
        ensures { OnOk result (self.new ≡ with_label self.old name.now landing) }
    {
        if self.landing(name).is_some() {
            return Ok(());
        }
        let name = String::from_str(alloc, name)?;
        let _before = self.landings.insert(name, landing)?;
        Ok(())
    }
}

/// Adds the label that a line is, if it is one; so many groups stand before it.
#[tactic(auto, using(crate::proofs::LabelTables::among_with, crate::proofs::LabelTables::among_none))]
fn add_label(
    alloc: Global,
    labels: &mut Labels,
    line: &ProgramLine,
    groups: usize,
) -> Result<(), NoMemory>
    ensures { OnOk result ((name : List ℕ) → landing_among labels.new name
        ≡ option_or (landing_among labels.old name)
        (if is_label_named name line.now then Some groups else None)) }
{
    let Some(Statement::Label(name)) = &line.says else {
        return Ok(());
    };
    labels.add(alloc, name.as_str(), groups)?;
    Ok(())
}

/// How many groups a line begins.
fn groups_in(line: &ProgramLine) -> usize
    ensures count { result ≡ group_count line.now }
    ensures few { result ≤ 1 }
{
    match &line.says {
        Some(Statement::Instr(_)) => 1,
        _ => 0,
    }
}

/// The labels of a program.
#[tactic(auto, using(crate::proofs::LabelTables::table_more, crate::proofs::LabelTables::landing_by_none, crate::proofs::LabelTables::landing_by_all))]
pub(crate) fn labels_of(alloc: Global, lines: &[ProgramLine]) -> Result<Labels, NoMemory>
    ensures { IfOk result (λ labels. (name : List ℕ)
        → landing_among labels name ≡ landing_of name lines.now) }
{
    let mut labels = Labels::new(alloc);
    let mut groups = 0;
    for line in lines {
        add_label(alloc, &mut labels, line, groups)?;
        groups += groups_in(line);
    }
    Ok(labels)
}
