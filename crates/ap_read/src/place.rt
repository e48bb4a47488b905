ghost use Rattle.std.specs.Prelude.{◌≡◌, ◌+◌, ◌<◌, ◌^◌, [], if◌then◌else◌};
ghost use Rattle.ap_desc.specs.Order as order;
ghost use Rattle.ap_read.specs.Places as places;
ghost use Rattle.ap_read.specs.Places.{IsFaultAt, IsPlaceAfter};

use ap_desc::limits::{
    MAX_FIELDS, MAX_FILES, MAX_FORMATS, MAX_INPUTS, MAX_INSTRUCTIONS, MAX_MEMORIES,
    MAX_MICRO_OPERATIONS, MAX_REGISTERS, MAX_UNITS,
};
use ap_desc::{Fault, Statement};

/// The number of the first section that isn't one of the four header statements.
const FIRST_AFTER_HEADER: u32 = 4;

/// The number of the last section, in which the instructions stand with their lines.
const LAST_SECTION: u32 = 10;

/// Where a description stands after its statements so far, as much of it as says what may follow.
#[derive(Clone, Copy, Debug)]
pub(crate) struct Place {
    /// One more than the number of the last section that was begun, and 0 before the first statement.
    begun: u32,
    /// How many statements of that section there are.
    count: usize,
    /// How many instructions were begun.
    instructions: usize,
    /// Whether the last of them has no `end` yet.
    inside: bool,
    /// How many micro-operations it has.
    micros: usize,
}

/// The number of the statement's section, counted from 0 in the order in which they stand.
fn section(statement: &Statement) -> u32
    ensures { result ≡ order.section statement.now }
{
    match statement {
        Statement::Stages { .. } => 0,
        Statement::Address { .. } => 1,
        Statement::Word { .. } => 2,
        Statement::Transfer { .. } => 3,
        Statement::Reg { .. } => 4,
        Statement::File { .. } => 5,
        Statement::Mem { .. } => 6,
        Statement::In { .. } => 7,
        Statement::Unit { .. } => 8,
        Statement::Format { .. } => 9,
        _ => LAST_SECTION,
    }
}

/// Whether the statement is a micro-operation.
fn is_micro(statement: &Statement) -> bool
    ensures { result ≡ order.is_micro statement.now }
{
    match statement {
        Statement::Instr { .. } | Statement::End => false,
        _ => section(statement) == LAST_SECTION,
    }
}

/// Whether the statement is `end`.
fn is_end(statement: &Statement) -> bool
    ensures { result ≡ order.is_end statement.now }
{
    match statement {
        Statement::End => true,
        _ => false,
    }
}

impl Place {
    /// Before the first statement.
    pub(crate) fn start() -> Place
        ensures { IsPlaceAfter [] result }
    {
        Place {
            begun: 0,
            count: 0,
            instructions: 0,
            inside: false,
            micros: 0,
        }
    }

    /// The fault of the statement if it stands here: its order is looked at before its number.
    pub(crate) fn fault(&self, statement: &Statement) -> Option<Fault>
        ensures { IsFaultAt self.now statement.now result }
    {
        if self.is_late(statement) || self.is_misplaced(statement) {
            return Some(Fault::BadOrder);
        }
        if self.is_past_limit(statement) {
            return Some(Fault::TooMany);
        }
        None
    }

    /// Whether a section stands already that comes after the statement's.
    fn is_late(&self, statement: &Statement) -> bool
        ensures { result ≡ places.is_late_at self.now.begun statement.now }
    {
        let number = section(statement);
        if number < FIRST_AFTER_HEADER {
            number < self.begun
        } else {
            number + 1 < self.begun
        }
    }

    /// Whether the statement belongs inside an instruction and stands outside, or the other way round.
    fn is_misplaced(&self, statement: &Statement) -> bool
        ensures { result ≡ order.is_misplaced self.now.inside statement.now }
    {
        if is_micro(statement) || is_end(statement) {
            !self.inside
        } else {
            self.inside
        }
    }

    /// How many of the statement's section stand before it.
    fn count_before(&self, statement: &Statement) -> usize
        ensures { result ≡ places.count_at self.now statement.now }
    {
        if section(statement) < self.begun {
            self.count
        } else {
            0
        }
    }

    /// Whether the statement, a field of it or the micro-operation is the first beyond its limit.
    fn is_past_limit(&self, statement: &Statement) -> bool
        ensures { result ≡ places.is_past_limit self.now statement.now }
    {
        let before = self.count_before(statement);
        match statement {
            Statement::Reg { .. } => before == MAX_REGISTERS,
            Statement::File { .. } => before == MAX_FILES,
            Statement::Mem { .. } => before == MAX_MEMORIES,
            Statement::In { .. } => before == MAX_INPUTS,
            Statement::Unit { .. } => before == MAX_UNITS,
            Statement::Format { fields, .. } => before == MAX_FORMATS || fields.len() > MAX_FIELDS,
            Statement::Instr { .. } => self.instructions == MAX_INSTRUCTIONS,
            _ => is_micro(statement) && self.micros == MAX_MICRO_OPERATIONS,
        }
    }

    /// The place after this statement.
    pub(crate) fn after(self, statement: &Statement) -> Place
        requires count { self.count + 1 < 2 ^ 64 }
        requires instructions { self.instructions + 1 < 2 ^ 64 }
        requires micros { self.micros + 1 < 2 ^ 64 }
        ensures { result ≡ places.place_after self statement.now }
    {
        let number = section(statement);
        let is_new = self.begun <= number;
        Place {
            begun: if is_new { number + 1 } else { self.begun },
            count: if is_new { 1 } else { self.count + 1 },
            instructions: self.instructions_after(statement),
            inside: self.is_inside_after(statement),
            micros: self.micros_after(statement),
        }
    }

    fn instructions_after(self, statement: &Statement) -> usize
        requires { self.instructions + 1 < 2 ^ 64 }
        ensures { result ≡ (if order.is_instr statement.now then self.instructions
            + 1 else self.instructions) }
    {
        match statement {
            Statement::Instr { .. } => self.instructions + 1,
            _ => self.instructions,
        }
    }

    fn is_inside_after(self, statement: &Statement) -> bool
        ensures { result ≡ order.inside_after self.inside statement.now }
    {
        match statement {
            Statement::Instr { .. } => true,
            Statement::End => false,
            _ => self.inside,
        }
    }

    fn micros_after(self, statement: &Statement) -> usize
        requires { self.micros + 1 < 2 ^ 64 }
        ensures { result ≡ order.micros_after self.micros statement.now }
    {
        match statement {
            Statement::Instr { .. } => 0,
            _ if is_micro(statement) => self.micros + 1,
            _ => self.micros,
        }
    }
}
