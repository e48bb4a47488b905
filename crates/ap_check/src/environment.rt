//! What the statements so far declare and describe, and what one more statement does there.
ghost use Rattle.std.specs.Prelude.{◌≡◌, ◌≤◌, IfErr, IfOk, List, None, OnOk, Some, []};
ghost use Rattle.ap_desc.specs.FaultTable.{phase_of};

use crate::declared::Declared;
use crate::draft::Draft;
use crate::stop::Stop;
use crate::uses::Use;
use ap_bits::NoMemory;
use ap_desc::design::Design;
use ap_desc::laws::descriptions_grow;
use ap_desc::{DescFault, Fault, Numbered, Refusal};
use ap_unit::{Shelf, UnitKind};
use std::alloc::Global;

/// What the statements so far declare and describe, and the first fault of widths among them.
#[derive(Drop)]
pub(crate) struct Environment {
    /// The first fault of widths.
    pub(crate) noted: Option<Refusal>,
    pub(crate) declared: Declared,
    /// The design so far. It stays as it is once a fault is noted.
    pub(crate) draft: Draft,
}

/// The refusal of a line.
fn refusal(line: u32, kind: Fault) -> Refusal
    ensures { result ≡ record { phase = phase_of kind; line = line; kind = kind } }
{
    Refusal {
        phase: kind.phase(),
        line,
        kind,
    }
}

impl Environment {
    ghost use Rattle.ap_bits.specs.declared.card.Card.{Card};
    ghost use Rattle.ap_check.specs.Added.{HasFewFields, HasFixed};
    ghost use Rattle.ap_check.specs.Drafts.{completed};
    ghost use Rattle.ap_check.specs.Tables.{name_fault};
    ghost use Rattle.ap_check.specs.Taking.{IsDescribedAfter, IsRefusedAt};
    ghost use Rattle.ap_check.specs.Uses.{use_of};
    ghost use Rattle.ap_desc.specs.NameFaults.{is_no_kind};
    ghost use Rattle.std.specs.Prelude.{false};
    ghost use Rattle.ap_check.specs.Known.{IsTaken, Knows};
    ghost use Rattle.ap_desc.specs.Descriptions.{IsDescription};
    ghost use Rattle.ap_desc.specs.declared.description.Numbered.{Numbered as DeclaredNumbered};
    ghost use Rattle.ap_desc.specs.declared.fault.DescFault.TheVariants as why;
    ghost use Rattle.ap_desc.specs.declared.fault.Refusal.{Refusal as DeclaredRefusal};
    ghost use Rattle.ap_unit.specs.Shelves.{cards_of};
    ghost use Rattle.std.specs.Prelude.{◌++◌, ◌∷◌};

    /// Before the first statement.
    pub(crate) fn new(alloc: Global) -> Environment
        ensures { (cards : List Card) (statements : List DeclaredNumbered)
            → Knows cards statements [] result }
    {
        Environment {
            noted: None,
            declared: Declared::new(alloc),
            draft: Draft::new(alloc),
        }
    }

    /// What a statement uses. `Refused` comes for its first fault of names.
    fn used(&self, alloc: Global, shelf: &Shelf, n: &Numbered) -> Result<Use, DescFault>
        ensures clean { IfOk result (λ _. name_fault (cards_of card shelf.now) self.now.declared
            n.now.statement ≡ None) }
        ensures used { IfOk result (λ used. used
            ≡ use_of (cards_of card shelf.now) self.now.declared n.now.statement) }
        ensures refused { IfErr result (IsRefusedAt n.now.line
            (name_fault (cards_of card shelf.now) self.now.declared n.now.statement)) }
    {
        match self.declared.uses(alloc, shelf, &n.statement) {
            Ok(used) => Ok(used),
            Err(Stop::Fault(kind)) => Err(DescFault::Refused(refusal(n.line, kind))),
            Err(Stop::NoMemory) => Err(DescFault::NoMemory),
        }
    }

    /// Adds what a statement describes, or notes its first fault of widths. After one nothing more is added.
    fn describe(
        &mut self,
        alloc: Global,
        shelf: &Shelf,
        n: &Numbered,
        used: &Use,
    ) -> Result<(), NoMemory>
        requires word { self.old.noted ≡ None → self.old.draft.design.word ≤ 64 }
        requires few { HasFewFields n.now.statement }
        requires fixed { HasFixed n.now.statement used.now }
        requires kind { is_no_kind (cards_of card shelf.now) n.now.statement ≡ false }
        ensures declared { OnOk result (self.new.declared ≡ self.old.declared) }
        ensures described { OnOk result (IsDescribedAfter self.old.noted (cards_of card shelf.now)
            n.now used.now self.old self.new) }
    {
        if self.noted.is_some() {
            return Ok(());
        }
        match self.draft.add(alloc, shelf, n, used) {
            Ok(()) => Ok(()),
            Err(Stop::Fault(kind)) => {
                self.noted = Some(refusal(n.line, kind));
                Ok(())
            }
            Err(Stop::NoMemory) => Err(NoMemory),
        }
    }

    /// Judges one more statement, and adds what it declares and describes.
    ///
    /// `Refused` comes for a fault of names. A fault of widths is noted, and after one only names are looked at.
    pub(crate) fn take(
        &mut self,
        alloc: Global,
        shelf: &Shelf,
        n: &Numbered,
    ) -> Result<(), DescFault>
        requires word { self.old.noted ≡ None → self.old.draft.design.word ≤ 64 }
        requires few { HasFewFields n.now.statement }
        ensures { (statements before after : List DeclaredNumbered) → IsDescription statements
            → statements ≡ before ++ n.now ∷ after
            → Knows (cards_of card shelf.now) statements before self.old
            → IsTaken (cards_of card shelf.now) statements before n.now self.new result }
    {
        descriptions_grow();
        let used = self.used(alloc, shelf, n)?;
        self.describe(alloc, shelf, n, &used)?;
        self.declared.declare(alloc, shelf, &n.statement, used)?;
        Ok(())
    }

    /// The design of all statements, or the first fault of widths.
    pub(crate) fn finish(mut self) -> Result<Design, DescFault>
        ensures design { IfOk result (λ design. design ≡ completed self.draft) }
        ensures right { OnOk result (self.noted ≡ None) }
        ensures refused { IfErr result (λ fault. (refusal : DeclaredRefusal)
            → fault ≡ why.Refused refusal → self.noted ≡ Some refusal) }
    {
        if let Some(refusal) = self.noted {
            return Err(DescFault::Refused(refusal));
        }
        match self.draft.close() {
            Ok(()) => {}
            Err(_) => return Err(DescFault::NoMemory),
        }
        let Environment {
            noted: _,
            declared: _,
            draft,
        } = self;
        let Draft { design, begun: _ } = draft;
        Ok(design)
    }
}
