ghost use Rattle.std.specs.Prelude.{◌≡◌, ◌≢◌, ◌≤◌, [], length, IfOk, OnOk, OnErr, IfSome, Option};
ghost use Rattle.std.specs.FinMap as map;
ghost use Rattle.ap_desk.specs.Files.{Files, IsFileName, Goes, Reads, Becomes, BecomesEmptyOrStays, Gains, GainsFront};
ghost use Rattle.ap_desk.specs.Causes.{HasCause};
ghost use Rattle.ap_desk.specs.declared.counts.Counts.{Counts};
ghost use Rattle.ap_desk.specs.declared.desk.DeskFault.TheVariants.{NoMemory};

use std::alloc::AllocError;

/// Why a call of a desk gave up.
#[derive(Clone, Copy, Debug, PartialEq, Eq)]
pub enum DeskFault {
    /// The system, or the desk's own list of calls that are to fail, refused the call.
    Failed,
    /// A file that was to be read isn't there.
    Missing,
    /// Memory ran out.
    NoMemory,
}

impl From<AllocError> for DeskFault {
    ghost from_gives = { λ _ e. e ≡ NoMemory };

    fn from(_: AllocError) -> DeskFault {
        DeskFault::NoMemory
    }
}

/// Named files, and standard output under the name `-`, which is only appended to.
///
/// A desk may tell its files to contracts; one over a real disk tells nothing. It counts the calls that failed and
/// the files that it missed. A call that fails or misses its file raises that count, or leaves it at its last value,
/// and a call leaves a count as it was where it doesn't answer that count's fault.
pub trait Desk {
    /// The files, where the desk tells them.
    ghost files: { Self → Option Files };
    /// How often a call failed, `faults`, and how often a file that was to be read wasn't there, `absent`.
    ghost counts: { Self → Counts };

    /// Reads bytes of the file from place `at` on into the front of `into`, and says how many. It reads none only
    /// where `into` is empty or `at` is at or past the end.
    fn read(&mut self, name: &str, at: u64, into: &mut [u8]) -> Result<usize, DeskFault>
        requires name { IsFileName name.now }
        requires place { at ≤ 67108864 }
        ensures bound { IfOk result (λ n. n ≤ length into.new) }
        ensures bytes { IfOk result (λ n. IfSome (files self.old)
            (λ told. Reads told name.now at n into.new)) }
        ensures missing { result ≡ Err DeskFault.Missing
            → IfSome (files self.old) (λ told. map.get told name.now ≡ None) }
        ensures same { files self.new ≡ files self.old }
        ensures cause { HasCause (counts self.old) (counts self.new) result };

    /// Makes the file, and empties it where it was there. After an error it is as before, or empty.
    fn create(&mut self, name: &str) -> Result<(), DeskFault>
        requires { IsFileName name.now }
        ensures ok { OnOk result (Goes (Becomes name.now []) (files self.old) (files self.new)) }
        ensures err { OnErr result
            (Goes (BecomesEmptyOrStays name.now) (files self.old) (files self.new)) }
        ensures not_missing { result ≢ Err DeskFault.Missing }
        ensures cause { HasCause (counts self.old) (counts self.new) result };

    /// Adds the piece, of at most 4,096 bytes, at the end of the file; one that wasn't there held nothing. After an
    /// error a front of the piece was added, or nothing was done.
    fn append(&mut self, name: &str, piece: &[u8]) -> Result<(), DeskFault>
        requires name { name.now ≢ [] }
        requires piece { length piece.now ≤ 4096 }
        ensures ok { OnOk result
            (Goes (Gains name.now piece.now) (files self.old) (files self.new)) }
        ensures err { OnErr result
            (Goes (GainsFront name.now piece.now) (files self.old) (files self.new)) }
        ensures not_missing { result ≢ Err DeskFault.Missing }
        ensures cause { HasCause (counts self.old) (counts self.new) result };
}
