ghost use Rattle.std.specs.Prelude.{◌≡◌, ◌↔◌, ◌+◌, ◌<◌, ◌≤◌, length, map, unwrap_or, IsTrue, IfSome, IfNone};
ghost use Rattle.std.specs.List.{AllByRecursion as Each, zip};
ghost use Rattle.std.specs.String.{string_bytes};
ghost use Rattle.ap_desk.specs.Files.{IsFileName};
ghost use Rattle.ap_top.specs.Commands.{AreOperandsOf, AreWordsApart, IsCall, IsCommand, IsFitting, IsWordFor, MayShare, MayStandWith};
ghost use Rattle.ap_top.specs.Commands.{count_in, counted, name_of, slots_of};

use ap_text::number;

/// The most cycles that a command makes.
pub const CYCLE_LIMIT: u64 = 1_000_000;

/// What a text that a command reads holds.
#[derive(Clone, Copy, Debug, PartialEq, Eq)]
pub enum Input {
    /// The description of a processor that is built.
    Description,
    /// The description of any processor, for which a program is assembled.
    Processor,
    /// A program for it.
    Program,
    /// A netlist in Verilog, which is run.
    Netlist,
    /// The words of the memories that it is run on.
    Image,
    /// The values of its inputs in each cycle.
    Trace,
}

/// What a text that a command writes holds.
#[derive(Clone, Copy, Debug, PartialEq, Eq)]
pub enum Output {
    /// The processor in Verilog.
    Verilog,
    /// The words of the program, at their places in the processor's memories.
    Image,
    /// The listing of the program.
    Listing,
    /// What each cycle shows.
    Rows,
}

/// What a word after a command's name stands for.
#[derive(Clone, Copy, Debug, PartialEq, Eq)]
pub enum Slot {
    /// The name of a file that is read.
    Input(Input),
    /// The name of a file that is written.
    Output(Output),
    /// The number of cycles that are made.
    Count,
}

/// A command of the program.
#[derive(Clone, Copy, Debug, PartialEq, Eq)]
pub enum Command {
    /// `gen D V` reads a description and writes the processor in Verilog.
    Gen,
    /// `asm D P I L` reads a description and a program for its processor, and writes the program's image and its listing.
    Asm,
    /// `sim V I T N O` runs a netlist in Verilog on an image and a trace for N cycles, and writes what each cycle shows.
    Sim,
}

impl Slot {
    /// Whether two words that stand for these may be the same: where both name files that are read, or one names none.
    pub fn may_share(self, other: Slot) -> bool
        ensures { IsTrue result ↔ MayShare self other }
    {
        match (self, other) {
            (Slot::Count, _) | (_, Slot::Count) => true,
            (Slot::Input(_), Slot::Input(_)) => true,
            (Slot::Output(_), _) | (_, Slot::Output(_)) => false,
        }
    }

    /// Whether a word may stand there: the name of a file, or a number of cycles within the limit.
    pub fn fits(self, word: &str) -> bool
        ensures { IsTrue result ↔ IsWordFor self word.now }
    {
        match self {
            Slot::Input(_) | Slot::Output(_) => is_file_name(word),
            Slot::Count => count_of(word).is_some(),
        }
    }
}

impl Command {
    /// The command that begins with this word, if there is one.
    pub fn named(name: &str) -> Option<Command>
        ensures found { IfSome result (λ command. name.now ≡ name_of command) }
        ensures unknown { IfNone result ((command : Command) → ¬ (name.now ≡ name_of command)) }
    {
        match name {
            "gen" => Some(Command::Gen),
            "asm" => Some(Command::Asm),
            "sim" => Some(Command::Sim),
            _ => None,
        }
    }

    /// What each word after the name stands for, in order.
    pub fn slots(self) -> &'static [Slot]
        ensures { result.now ≡ slots_of self }
    {
        match self {
            Command::Gen => &[
                Slot::Input(Input::Description),
                Slot::Output(Output::Verilog),
            ],
            Command::Asm => &[
                Slot::Input(Input::Processor),
                Slot::Input(Input::Program),
                Slot::Output(Output::Image),
                Slot::Output(Output::Listing),
            ],
            Command::Sim => &[
                Slot::Input(Input::Netlist),
                Slot::Input(Input::Image),
                Slot::Input(Input::Trace),
                Slot::Count,
                Slot::Output(Output::Rows),
            ],
        }
    }

    /// Whether the words after the name are right: their number, each by itself, and no file that is written named twice.
    pub fn takes(self, words: &[String]) -> bool
        ensures { IsTrue result ↔ AreOperandsOf self (map string_bytes words.now) }
    {
        let slots = self.slots();
        slots.len() == words.len() && are_fitting(slots, words) && are_apart(slots, words)
    }
}

/// The command that the words are, if they are one.
pub fn command_of(words: &[String]) -> Option<Command>
    ensures found { IfSome result (λ command. IsCall command (map string_bytes words.now)) }
    ensures none { IfNone result (¬ IsCommand (map string_bytes words.now)) }
{
    let (name, rest) = words.split_first()?;
    let command = Command::named(name.as_str())?;
    if command.takes(rest) {
        Some(command)
    } else {
        None
    }
}

fn is_file_name(word: &str) -> bool
    ensures { IsTrue result ↔ IsFileName word.now }
{
    !word.is_empty() && word != "-"
}

/// The number of cycles that a word names, if it names one within the limit.
pub(crate) fn count_of(word: &str) -> Option<u64>
    ensures value { result ≡ count_in word.now }
    ensures most { IfSome result (λ count. count ≤ 1000000) }
{
    match number(word.as_bytes()) {
        Ok(count) => within_limit(count),
        Err(_) => None,
    }
}

/// The number of cycles that a word names, and 0 where it names none within the limit.
pub(crate) fn cycles_of(word: &str) -> u64
    ensures value { result ≡ unwrap_or (count_in word.now) 0 }
    ensures most { result ≤ 1000000 }
{
    match count_of(word) {
        Some(count) => count,
        None => 0,
    }
}

fn within_limit(count: u64) -> Option<u64>
    ensures value { result ≡ counted count }
    ensures most { IfSome result (λ count. count ≤ 1000000) }
{
    if count <= CYCLE_LIMIT {
        Some(count)
    } else {
        None
    }
}

fn are_fitting(slots: &[Slot], words: &[String]) -> bool
    requires { length slots.now ≡ length words.now }
    ensures { IsTrue result ↔ Each IsFitting (zip slots.now (map string_bytes words.now)) }
{
    for (i, slot) in slots.iter().enumerate() {
        if !slot.fits(words[i].as_str()) {
            return false;
        }
    }
    true
}

fn are_apart(slots: &[Slot], words: &[String]) -> bool
    requires { length slots.now ≡ length words.now }
    ensures { IsTrue result ↔ AreWordsApart (zip slots.now (map string_bytes words.now)) }
{
    for (i, slot) in slots.iter().enumerate() {
        if !may_stand_before(*slot, words[i].as_str(), &slots[i + 1..], &words[i + 1..]) {
            return false;
        }
    }
    true
}

fn may_stand_before(slot: Slot, word: &str, slots: &[Slot], words: &[String]) -> bool
    requires { length slots.now ≡ length words.now }
    ensures { let others = zip slots.now (map string_bytes words.now) in
        IsTrue result ↔ Each (MayStandWith (slot, word.now)) others }
{
    for (i, other) in slots.iter().enumerate() {
        if !may_stand_with(slot, word, *other, words[i].as_str()) {
            return false;
        }
    }
    true
}

fn may_stand_with(slot: Slot, word: &str, other_slot: Slot, other: &str) -> bool
    ensures { IsTrue result ↔ MayStandWith (slot, word.now) (other_slot, other.now) }
{
    word != other || slot.may_share(other_slot)
}
