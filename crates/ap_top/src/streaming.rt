//! Writes the text of a netlist to a file as it is printed.
ghost use Rattle.std.specs.Prelude.{◌≡◌, ◌≢◌, ◌≤◌, ◌<◌, [], vec_len, OnOk, OnErr};
ghost use Rattle.ap_desk.specs.Causes.{HasCause};
ghost use Rattle.ap_desk.specs.Files.{Becomes, BecomesFrontOrStays, Gains, GainsFront, Goes, IsFileName, Stands};
ghost use Rattle.ap_net.specs.Text.{netlist_text};
ghost use Rattle.ap_top.specs.Streaming.{Moves};

use ap_desk::desk::{Desk, DeskFault};
use ap_desk::pieces::{PIECE, append_all};
use ap_net::module::Netlist;
use ap_vw::Printer;
use std::alloc::Global;

/// Appends what is held to the file, where that is at least so many bytes, and then holds nothing.
pub(crate) fn flush<D: Desk>(
    desk: &mut D,
    name: &str,
    least: usize,
    held: &mut Vec<u8>,
) -> Result<(), DeskFault>
    requires name { name.now ≢ [] }
    requires least { 1 ≤ least }
    ensures ok { OnOk result
        (Moves name.now held.old.items held.new.items (D.files desk.old) (D.files desk.new)) }
    ensures few { OnOk result (vec_len held.new < least) }
    ensures err { OnErr result
        (Goes (GainsFront name.now held.old.items) (D.files desk.old) (D.files desk.new)) }
    ensures not_missing { result ≢ Err DeskFault.Missing }
    ensures cause { HasCause (D.counts desk.old) (D.counts desk.new) result }
{
    if held.len() < least {
        return Ok(());
    }
    append_all(desk, name, held)?;
    held.clear();
    Ok(())
}

/// Appends the text of a netlist to the file as it is printed, in pieces of at most 4,096 bytes. It holds no more of it than
/// one piece and one line.
fn append_netlist<D: Desk>(
    alloc: Global,
    desk: &mut D,
    name: &str,
    net: &Netlist,
) -> Result<(), DeskFault>
    requires name { name.now ≢ [] }
    requires there { Stands name.now (D.files desk.old) }
    ensures ok { OnOk result
        (Goes (Gains name.now (netlist_text net.now)) (D.files desk.old) (D.files desk.new)) }
    ensures err { OnErr result
        (Goes (GainsFront name.now (netlist_text net.now)) (D.files desk.old) (D.files desk.new)) }
    ensures not_missing { result ≢ Err DeskFault.Missing }
    ensures cause { HasCause (D.counts desk.old) (D.counts desk.new) result }
{
    let mut printer = Printer::new(net);
    let mut held = Vec::new(alloc);
    let mut more = true;
    while more {
        let Ok(next) = printer.line(&mut held) else {
            return Err(DeskFault::NoMemory);
        };
        more = next;
        flush(desk, name, PIECE, &mut held)?;
    }
    flush(desk, name, 1, &mut held)?;
    Ok(())
}

/// Makes the file hold exactly the text of a netlist: creates it, and appends the text as it is printed.
///
/// The first call of the desk that gives up ends it with its fault, which is never `Missing`, and so does want of memory for a
/// line; then the file is as it was, or holds a front of the text. All other files stay, and so do the counts, but for that
/// fault's.
pub(crate) fn write_netlist<D: Desk>(
    alloc: Global,
    desk: &mut D,
    name: &str,
    net: &Netlist,
) -> Result<(), DeskFault>
    requires { IsFileName name.now }
    ensures ok { OnOk result
        (Goes (Becomes name.now (netlist_text net.now)) (D.files desk.old) (D.files desk.new)) }
    ensures err { let text = netlist_text net.now in OnErr result
        (Goes (BecomesFrontOrStays name.now text) (D.files desk.old) (D.files desk.new)) }
    ensures not_missing { result ≢ Err DeskFault.Missing }
    ensures cause { HasCause (D.counts desk.old) (D.counts desk.new) result }
{
    desk.create(name)?;
    append_netlist(alloc, desk, name, net)?;
    Ok(())
}
