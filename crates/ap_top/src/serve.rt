ghost use Rattle.std.specs.Prelude.{◌≡◌, ◌≢◌, ◌≤◌, map, OnOk, OnErr, IfOk, IfErr, Some};
ghost use Rattle.std.specs.String.{string_bytes};
ghost use Rattle.ap_desk.specs.Files.{Goes};
ghost use Rattle.ap_unit.specs.Shelves.{cards_of};
ghost use Rattle.ap_top.specs.Calls.{call_of};
ghost use Rattle.ap_top.specs.Commands.{IsCommand};
ghost use Rattle.ap_top.specs.Endings.{IsAnswer, IsCompleted, IsCutShort, IsDone, IsPartDone, Refuses};
ghost use Rattle.ap_top.specs.Inputs.{AsksRefusal, HasFailed, HasGoodInputs};
ghost use Rattle.ap_top.specs.Troubles.{IsCaused, StopsAs, desk_stop};
ghost use Rattle.ap_top.specs.Refusals.{IsOrMemory, IsRefusalStatus, IsStatus, IsTroubleStatus, refusal_status, trouble_status};

use crate::assembling::assemble;
use crate::command::{Command, command_of, cycles_of};
use crate::generate::generate;
use crate::printing::{give_up, print_line};
use crate::refusal::{Refusal, Stop, Trouble};
use crate::simulating::simulate;
use ap_desk::desk::Desk;
use ap_desk::sure::SureDesk;
use ap_unit::{Shelf, UnitKind};
use std::alloc::Global;

/// Does the command that the words are.
fn run<D: Desk>(alloc: Global, words: &[String], shelf: &Shelf, desk: &mut D) -> Result<(), Stop>
    ensures command { OnOk result (IsCommand (map string_bytes words.now)) }
    ensures done { let call = call_of (cards_of card shelf.now) words.now (D.files desk.old) in
        OnOk result (Goes (IsDone call.cards call.words) call.told (D.files desk.new)) }
    ensures stopped { let call = call_of (cards_of card shelf.now) words.now (D.files desk.old) in
        IfErr result (StopsAs call.cards call.words call.told (D.files desk.new)) }
    ensures cause { let call = call_of (cards_of card shelf.now) words.now (D.files desk.old) in
        IsCaused desk_stop (HasFailed call) (D.counts desk.old) (D.counts desk.new) result }
{
    match command_of(words) {
        None => Err(Stop::Refused(Refusal::Usage)),
        Some(Command::Gen) => generate(alloc, words[1].as_str(), words[2].as_str(), shelf, desk),
        Some(Command::Asm) => assemble(
            alloc,
            words[1].as_str(),
            words[2].as_str(),
            words[3].as_str(),
            words[4].as_str(),
            shelf,
            desk,
        ),
        Some(Command::Sim) => simulate(
            alloc,
            words[1].as_str(),
            words[2].as_str(),
            words[3].as_str(),
            cycles_of(words[4].as_str()),
            words[5].as_str(),
            desk,
        ),
    }
}

/// Does the command that the words are, or prints why it is refused, and gives the status.
fn answer<D: Desk>(
    alloc: Global,
    words: &[String],
    shelf: &Shelf,
    desk: &mut D,
) -> Result<u8, Trouble>
    ensures answered { let call = call_of (cards_of card shelf.now) words.now (D.files desk.old) in
        IfOk result (λ status. IsAnswer call status (D.files desk.new)) }
    ensures stopped { let call = call_of (cards_of card shelf.now) words.now (D.files desk.old) in
        OnErr result (Goes (IsPartDone call.cards call.words) call.told (D.files desk.new)) }
    ensures cause { let call = call_of (cards_of card shelf.now) words.now (D.files desk.old) in
        IsCaused Trouble.Desk (HasFailed call) (D.counts desk.old) (D.counts desk.new) result }
{
    match run(alloc, words, shelf, desk) {
        Ok(()) => Ok(0),
        Err(Stop::Refused(refusal)) => {
            print_line(alloc, refusal, desk)?;
            Ok(refusal.status())
        }
        Err(Stop::Broken(trouble)) => Err(trouble),
    }
}

/// Does all that the program does: it takes the words after the program's name, does the command that they are on the
/// desk, with the kinds of units of the shelf, and answers the program's status.
///
/// 0: the command is done. 1: the words are no command. 2: the description has a fault, or asks for a unit that the shelf
/// hasn't. 3: the program has a fault. 4: the netlist has a fault. 5: the image or the trace has one. 6: the desk failed, or an
/// input isn't there. 7: memory ran out. For all but 0 a line on the file `-` says why. Where a call of the desk failed or missed its file, the answer is 6 or 7, and 7 only where it missed none.
pub fn serve<D: Desk>(alloc: Global, words: &[String], shelf: &Shelf, desk: &mut D) -> u8
    ensures status { IsStatus result }

    // What each status says of the words, the files and the desk's counts.
    ensures done { let call = call_of (cards_of card shelf.now) words.now (D.files desk.old) in
        result ≡ 0 → IsCompleted call (D.files desk.new) }
    ensures refused { let call = call_of (cards_of card shelf.now) words.now (D.files desk.old) in
        IsRefusalStatus result → Refuses call result (D.files desk.new) }
    ensures failed { let call = call_of (cards_of card shelf.now) words.now (D.files desk.old) in
        result ≡ trouble_status Trouble.Desk
        → HasFailed call (D.counts desk.old) (D.counts desk.new) }
    ensures stopped { let call = call_of (cards_of card shelf.now) words.now (D.files desk.old) in
        (trouble : Trouble) → result ≡ trouble_status trouble
        → IsCutShort call trouble (D.files desk.new) }

    // Which status comes where the desk didn't fail.
    ensures usage { let call = call_of (cards_of card shelf.now) words.now (D.files desk.old) in
        ¬ IsCommand call.words
        → ¬ HasFailed call (D.counts desk.old) (D.counts desk.new) → IsOrMemory 1 result }
    ensures refuses { let call = call_of (cards_of card shelf.now) words.now (D.files desk.old) in
        (refusal : Refusal) → AsksRefusal call refusal
        → ¬ HasFailed call (D.counts desk.old) (D.counts desk.new)
        → IsOrMemory (refusal_status refusal) result }
    ensures completes { let call = call_of (cards_of card shelf.now) words.now (D.files desk.old) in
        HasGoodInputs call
        → ¬ HasFailed call (D.counts desk.old) (D.counts desk.new) → IsOrMemory 0 result }

    // No count falls. One rises only where the answer is 6 or 7, and the absent files only where it is 6.
    ensures faults { (D.counts desk.old).faults ≤ (D.counts desk.new).faults }
    ensures absent { (D.counts desk.old).absent ≤ (D.counts desk.new).absent }
    ensures rises { D.counts desk.new ≢ D.counts desk.old → IsTroubleStatus result }
    ensures memory { result ≡ trouble_status Trouble.Memory
        → (D.counts desk.new).absent ≡ (D.counts desk.old).absent }
{
    match answer(alloc, words, shelf, desk) {
        Ok(status) => status,
        Err(trouble) => give_up(trouble, desk),
    }
}

/// The same on the desk in memory that never fails: a command whose inputs are there and without fault is done, or
/// memory ran out.
pub fn serve_on_sure_desk(alloc: Global, words: &[String], shelf: &Shelf, desk: &mut SureDesk) -> u8
    requires { HasGoodInputs (call_of (cards_of card shelf.now) words.now (Some desk.old.files)) }
    ensures { IsOrMemory 0 result }
{
    serve(alloc, words, shelf, desk)
}
