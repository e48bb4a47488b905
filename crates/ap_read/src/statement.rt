ghost use Rattle.std.specs.Prelude.{IfOk, map};
ghost use Rattle.ap_desc.specs.Forms.{statement_in};
ghost use Rattle.ap_read.specs.Answers.{Answers};
ghost use Rattle.ap_read.specs.SaidBy.{IsSaidBy};
ghost use Rattle.ap_read.specs.Texts.{texts};

use crate::declaration::declaration;
use crate::micro::micro_operation;
use crate::token::Unread;
use ap_bits::NoMemory;
use ap_desc::Statement;
use ap_desc::laws::forms_are_exact;
use ap_text::number;
use std::alloc::Global;

/// The statement that the tokens of a line spell, and None where they spell none.
pub fn statement(alloc: Global, tokens: &[&[u8]]) -> Result<Option<Statement>, NoMemory>
    ensures said { IfOk result (λ found. IsSaidBy found (map (λ token. token.now) tokens.now)) }
{
    forms_are_exact();
    match spelled(alloc, tokens) {
        Ok(statement) => Ok(Some(statement)),
        Err(Unread::NoForm) => Ok(None),
        Err(Unread::NoMemory) => Err(NoMemory),
    }
}

/// The statement that tokens spell.
#[tactic(auto, unfolding(ap_desc::specs::Forms::statement_in))]
fn spelled(alloc: Global, tokens: &[&[u8]]) -> Result<Statement, Unread>
    ensures { Answers result (statement_in (texts tokens.now)) }
{
    let [first, rest @ ..] = tokens else {
        return Err(Unread::NoForm);
    };
    match number(first) {
        Ok(stage) => micro_operation(alloc, stage, rest),
        Err(_) => declaration(alloc, first, rest),
    }
}
