ghost use Rattle.std.specs.Prelude.{◌≡◌};

use crate::statement::Statement;
use ap_bits::Items;
use std::marker::Model;

/// A statement and the number of its line in the text, counted from 1.
#[derive(Drop)]
pub struct Numbered {
    pub line: u32,
    pub statement: Statement,
}

/// The statements of a description, in order. Contracts see them as a list.
///
/// A description keeps in its type that each of its statements has a spelling, that no name in them is reserved, that their
/// lines rise from 1 on, and that they have no fault of form.
#[derive(Drop)]
pub struct Description {
    statements: Items<Numbered>,
}

impl Model for Description {
    ghost use Rattle.std.specs.Prelude.{List};
    ghost use Rattle.ap_desc.specs.declared.description.Numbered.{Numbered};
    ghost use Rattle.ap_desc.specs.Descriptions.{IsDescription};

    ghost Value = { List Numbered };

    ghost view = { λ d. d.statements };

    ghost invariant = { λ d. IsDescription d.statements };
}

impl Description {
    ghost use Rattle.ap_desc.specs.Descriptions.{IsDescription};

    /// The description with these statements.
    pub fn new(statements: Items<Numbered>) -> Description
        requires { IsDescription statements }
        ensures { result ≡ statements }
    {
        Description { statements }
    }

    /// What every description keeps, as a fact that callers can use.
    pub fn rules(&self)
        ensures { IsDescription self.now }
    {
        let _ = &self.statements;
    }

    /// The statements in order.
    pub fn statements(&self) -> &[Numbered]
        ensures { result.now ≡ self.now }
    {
        self.statements.as_slice()
    }
}
