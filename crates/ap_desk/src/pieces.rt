ghost use Rattle.std.specs.Prelude.{◌≡◌, ◌≢◌, ◌+◌, ◌≤◌, [], length, vec_len, OnOk, OnErr, IfOk, IfSome};
ghost use Rattle.std.specs.FinMap as map;
ghost use Rattle.ap_desk.specs.Files.{IsFileName, Goes, Becomes, BecomesFrontOrStays, Gains, GainsFront, Stands, ReadsUpTo};
ghost use Rattle.ap_desk.specs.Causes.{HasCause};

use crate::desk::{Desk, DeskFault};
use std::alloc::Global;

/// The most bytes that one call of these loops adds to a file or reads.
pub const PIECE: usize = 4096;

/// Adds the text at the end of the file, in pieces of at most 4,096 bytes in order.
///
/// An empty text makes no call, so for one the file has to be there already. A text that isn't empty may go to a file
/// that isn't there yet, or to `-`: the first piece makes it. The first call that gives up ends the loop with its
/// fault, which is never `Missing`; then a front of the text was added, or nothing was done. The counts are as they
/// were, but for that fault's.
pub fn append_all<D: Desk>(desk: &mut D, name: &str, text: &[u8]) -> Result<(), DeskFault>
    requires name { name.now ≢ [] }
    requires there { text.now ≡ [] → Stands name.now (D.files desk.old) }
    ensures ok { OnOk result
        (Goes (Gains name.now text.now) (D.files desk.old) (D.files desk.new)) }
    ensures err { OnErr result
        (Goes (GainsFront name.now text.now) (D.files desk.old) (D.files desk.new)) }
    ensures not_missing { result ≢ Err DeskFault.Missing }
    ensures cause { HasCause (D.counts desk.old) (D.counts desk.new) result }
{
    let mut at = 0usize;
    while at < text.len() {
        let end = at + PIECE.min(text.len() - at);
        desk.append(name, &text[at..end])?;
        at = end;
    }
    Ok(())
}

/// Makes the file hold exactly this text: creates it, and adds the text in pieces of at most 4,096 bytes in order.
///
/// The first call that gives up ends it with its fault, which is never `Missing`; then the file is as it was, or holds
/// a front of the text. All other files stay, and so do the counts, but for that fault's.
pub fn write_all<D: Desk>(desk: &mut D, name: &str, text: &[u8]) -> Result<(), DeskFault>
    requires { IsFileName name.now }
    ensures ok { OnOk result
        (Goes (Becomes name.now text.now) (D.files desk.old) (D.files desk.new)) }
    ensures err { OnErr result
        (Goes (BecomesFrontOrStays name.now text.now) (D.files desk.old) (D.files desk.new)) }
    ensures not_missing { result ≢ Err DeskFault.Missing }
    ensures cause { HasCause (D.counts desk.old) (D.counts desk.new) result }
{
    desk.create(name)?;
    append_all(desk, name, text)?;
    Ok(())
}

/// Reads the file from its start until a call answers 0 bytes or more bytes than `limit` are held.
///
/// Where the desk tells its files, the answered bytes are the whole file if it has at most `limit` bytes; a longer
/// file gives a front of it that is longer than `limit`. The first call that gives up ends it with its fault, and no
/// count but that fault's changed; want of memory for the bytes is `NoMemory`. It ends on every desk, since each call
/// that goes on took at least one byte: its measure is how many bytes are missing at most, `limit` + 1 at the start.
pub fn read_all<D: Desk>(
    alloc: Global,
    desk: &mut D,
    name: &str,
    limit: usize,
) -> Result<Vec<u8>, DeskFault>
    requires name { IsFileName name.now }
    requires limit { limit ≤ 67108864 }
    ensures bound { IfOk result (λ bytes. vec_len bytes ≤ limit + 4096) }
    ensures whole { IfOk result (λ bytes. IfSome (D.files desk.old)
        (λ told. ReadsUpTo told name.now limit bytes.items)) }
    ensures missing { result ≡ Err DeskFault.Missing
        → IfSome (D.files desk.old) (λ told. map.get told name.now ≡ None) }
    ensures same { D.files desk.new ≡ D.files desk.old }
    ensures cause { HasCause (D.counts desk.old) (D.counts desk.new) result }
{
    let mut bytes = Vec::new(alloc);
    let mut piece = [0u8; PIECE];
    while bytes.len() <= limit {
        let count = desk.read(name, bytes.len() as u64, &mut piece)?;
        if count == 0 {
            return Ok(bytes);
        }
        bytes.extend_from_slice(&piece[..count])?;
    }
    Ok(bytes)
}
