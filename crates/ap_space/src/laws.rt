//! Laws of the definitions. They do nothing: their contracts are what they say.
ghost use Rattle.std.specs.Prelude.{◌≡◌, ◌↔◌, ◌≤◌, ◌<◌, ℕ, List, Contains};
ghost use Rattle.ap_bits.specs.declared.card.Card.{Card};
ghost use Rattle.ap_desc.specs.Clean.{IsClean};
ghost use Rattle.ap_desc.specs.declared.design.Design.{Design};
ghost use Rattle.ap_image.specs.declared.image.Image.{Image};
ghost use Rattle.ap_image.specs.declared.trace.Trace.{Trace};
ghost use Rattle.ap_model.specs.Cycles.{over};
ghost use Rattle.ap_model.specs.ShownRows.{rows_of};
ghost use Rattle.ap_model.specs.WritesOf.{log_writes, rows_writes, writes_of};
ghost use Rattle.ap_model.specs.declared.state.Entry.{Entry};
ghost use Rattle.ap_model.specs.declared.storage.Storage.{Storage};
ghost use Rattle.ap_space.specs.Prefix.{IsPrefix, IsSpacedRun, entries_to, passed_entries, one_at_a_time};

/// A spaced program's pipeline writes, storage by storage, a prefix of what its instructions write one at a time: as many of them as
/// were fetched and not killed, with the samples that the pipeline's input reads took.
///
/// - `entries`: to each storage went exactly the writes, with their instructions and stages, that come one at a time from the stages
///   which were passed, in the same order.
/// - `members`: so the log has exactly these writes.
/// - `writes`: and the storage's writes begin those of one at a time.
/// - `stands`: no instruction that wrote is killed afterwards, for its number stays below the next one's.
/// - `rows`: the storage's writes in the rows are those of the log, for every clean design and image.
pub fn prefix()
    ensures entries { (design : Design) (cards : List Card) (image : Image) (trace : Trace) (c : ℕ)
        (landings : List ℕ) (drain : ℕ) (storage : Storage)
        → IsSpacedRun design cards image trace c landings drain
        → entries_to storage (over design cards image trace c).log
        ≡ entries_to storage (passed_entries design cards image trace c) }
    ensures members { (design : Design) (cards : List Card) (image : Image) (trace : Trace) (c : ℕ)
        (landings : List ℕ) (drain : ℕ) (entry : Entry)
        → IsSpacedRun design cards image trace c landings drain
        → Contains (over design cards image trace c).log entry
        ↔ Contains (passed_entries design cards image trace c) entry }
    ensures writes { (design : Design) (cards : List Card) (image : Image) (trace : Trace) (c : ℕ)
        (landings : List ℕ) (drain : ℕ) (storage : Storage)
        → IsSpacedRun design cards image trace c landings drain
        → IsPrefix (writes_of storage (log_writes (over design cards image trace c).log))
        (writes_of storage (log_writes (one_at_a_time design cards image trace c).log)) }
    ensures stands { (design : Design) (cards : List Card) (image : Image) (trace : Trace) (c later : ℕ)
        (landings : List ℕ) (drain : ℕ) (entry : Entry)
        → IsSpacedRun design cards image trace c landings drain
        → c ≤ later → Contains (over design cards image trace c).log entry
        → entry.number < (over design cards image trace later).next }
    ensures rows { (design : Design) (cards : List Card) (image : Image) (trace : Trace) (c : ℕ)
        (storage : Storage) → IsClean design
        → writes_of storage (rows_writes design (rows_of design cards image trace c))
        ≡ writes_of storage (log_writes (over design cards image trace c).log) }
{}
