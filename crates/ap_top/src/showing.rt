//! Writes the rows of a netlist that is run to a file as they are made.
ghost use Rattle.std.specs.Prelude.{◌≡◌, ◌≢◌, [], ℕ, List, OnOk, OnErr};
ghost use Rattle.ap_desk.specs.Causes.{HasCause};
ghost use Rattle.ap_desk.specs.Files.{Becomes, BecomesFrontOrStays, Gains, GainsFront, Goes, IsFileName, Stands};
ghost use Rattle.ap_sim.specs.RowLines.{Shows};
ghost use Rattle.ap_vw.specs.NetLines.{text_of};

use crate::streaming::flush;
use ap_desk::desk::{Desk, DeskFault};
use ap_desk::pieces::PIECE;
use ap_sim::Rows;
use std::alloc::Global;

/// Makes all rows that are left and appends their lines to the file, in pieces of at most 4,096 bytes. It holds no more of them
/// than one piece and one line.
fn append_rows<D: Desk>(
    alloc: Global,
    desk: &mut D,
    name: &str,
    rows: &mut Rows,
) -> Result<(), DeskFault>
    requires name { name.now ≢ [] }
    requires there { Stands name.now (D.files desk.old) }
    ensures ok { OnOk result ((lines : List (List ℕ)) → Shows rows.old lines
        → Goes (Gains name.now (text_of lines)) (D.files desk.old) (D.files desk.new)) }
    ensures err { OnErr result ((lines : List (List ℕ)) → Shows rows.old lines
        → Goes (GainsFront name.now (text_of lines)) (D.files desk.old) (D.files desk.new)) }
    ensures not_missing { result ≢ Err DeskFault.Missing }
    ensures cause { HasCause (D.counts desk.old) (D.counts desk.new) result }
{
    let mut held = Vec::new(alloc);
    let mut more = true;
    while more {
        let Ok(next) = rows.line(&mut held) else {
            return Err(DeskFault::NoMemory);
        };
        more = next;
        flush(desk, name, PIECE, &mut held)?;
    }
    flush(desk, name, 1, &mut held)?;
    Ok(())
}

/// Makes the file hold exactly the lines of the rows that are left: creates it, and appends them as they are made.
///
/// The first call of the desk that gives up ends it with its fault, which is never `Missing`, and so does want of memory for a
/// line; then the file is as it was, or holds a front of the lines. All other files stay, and so do the counts, but for that
/// fault's.
pub(crate) fn write_rows<D: Desk>(
    alloc: Global,
    desk: &mut D,
    name: &str,
    rows: &mut Rows,
) -> Result<(), DeskFault>
    requires { IsFileName name.now }
    ensures ok { OnOk result ((lines : List (List ℕ)) → Shows rows.old lines
        → Goes (Becomes name.now (text_of lines)) (D.files desk.old) (D.files desk.new)) }
    ensures err { OnErr result ((lines : List (List ℕ)) → Shows rows.old lines
        → Goes (BecomesFrontOrStays name.now (text_of lines)) (D.files desk.old) (D.files desk.new)) }
    ensures not_missing { result ≢ Err DeskFault.Missing }
    ensures cause { HasCause (D.counts desk.old) (D.counts desk.new) result }
{
    desk.create(name)?;
    append_rows(alloc, desk, name, rows)?;
    Ok(())
}
