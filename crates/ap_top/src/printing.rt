ghost use Rattle.std.specs.Prelude.{◌≡◌, ◌≤◌, OnOk, OnErr};
ghost use Rattle.ap_desk.specs.Files.{Goes, Gains, GainsFront, stdout_name};
ghost use Rattle.ap_top.specs.Refusals.{refusal_line, trouble_line, trouble_status};
ghost use Rattle.ap_top.specs.Troubles.{HasFaulted, IsCaused};

use crate::refusal::{Refusal, Trouble};
use ap_desk::desk::Desk;
use ap_desk::pieces::append_all;
use std::alloc::Global;

/// The name of standard output on a desk.
const STDOUT: &str = "-";

/// Prints the line of a refusal. After an error a front of the line was printed, or nothing.
pub(crate) fn print_line<D: Desk>(
    alloc: Global,
    refusal: Refusal,
    desk: &mut D,
) -> Result<(), Trouble>
    ensures ok { let line = refusal_line refusal in
        OnOk result (Goes (Gains stdout_name line) (D.files desk.old) (D.files desk.new)) }
    ensures err { let line = refusal_line refusal in
        OnErr result (Goes (GainsFront stdout_name line) (D.files desk.old) (D.files desk.new)) }
    ensures cause { IsCaused Trouble.Desk HasFaulted
        (D.counts desk.old) (D.counts desk.new) result }
{
    let line = match refusal.line(alloc) {
        Ok(line) => line,
        Err(_) => return Err(Trouble::Memory),
    };
    append_all(desk, STDOUT, line.as_bytes())?;
    Ok(())
}

/// Tries once to print the line of a trouble, and gives the trouble's status.
pub(crate) fn give_up<D: Desk>(trouble: Trouble, desk: &mut D) -> u8
    ensures status { result ≡ trouble_status trouble }
    ensures line { let line = trouble_line trouble in
        Goes (GainsFront stdout_name line) (D.files desk.old) (D.files desk.new) }
    ensures faults { (D.counts desk.old).faults ≤ (D.counts desk.new).faults }
    ensures absent { (D.counts desk.new).absent ≡ (D.counts desk.old).absent }
{
    let _ = desk.append(STDOUT, trouble.line().as_bytes());
    trouble.status()
}
