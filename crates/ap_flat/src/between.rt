//! What stands between the beginning and the end of a text.
ghost use Rattle.std.specs.Prelude.{◌≡◌, ◌≢◌, ◌++◌, ℕ, List, IfNone, IfOk, IfSome, MatchOption};
ghost use Rattle.ap_bits.specs.Names.{IsName};

use ap_bits::{Name, NoMemory};
use std::alloc::Global;

/// What of a text follows its beginning, if that is so.
fn after_start<'a>(text: &'a [u8], start: &[u8]) -> Option<&'a [u8]>
    ensures { MatchOption result ((rest : List ℕ) → text.now ≢ start.now ++ rest)
        (λ rest. text.now ≡ start.now ++ rest.now) }
{
    text.strip_prefix(start)
}

/// What of a text is before its end, if that is so.
fn before_end<'a>(text: &'a [u8], end: &[u8]) -> Option<&'a [u8]>
    ensures { MatchOption result ((front : List ℕ) → text.now ≢ front ++ end.now)
        (λ front. text.now ≡ front.now ++ end.now) }
{
    text.strip_suffix(end)
}

/// What of the text stands between these two.
pub(crate) fn between<'a>(text: &'a [u8], before: &[u8], after: &[u8]) -> Option<&'a [u8]>
    ensures some { IfSome result (λ middle. text.now ≡ before.now ++ middle.now ++ after.now) }
    ensures none { IfNone result ((middle : List ℕ)
        → text.now ≢ before.now ++ middle ++ after.now) }
{
    let Some(rest) = after_start(text, before) else {
        return None;
    };
    before_end(rest, after)
}

/// The name that stands between these two, if one does.
pub(crate) fn name_between(
    alloc: Global,
    text: &[u8],
    before: &[u8],
    after: &[u8],
) -> Result<Option<Name>, NoMemory>
    ensures some { IfOk result (λ found. IfSome found (λ middle.
        IsName middle × (text.now ≡ before.now ++ middle ++ after.now))) }
    ensures none { IfOk result (λ found. IfNone found ((middle : List ℕ)
        → IsName middle → text.now ≢ before.now ++ middle ++ after.now)) }
{
    let Some(middle) = between(text, before, after) else {
        return Ok(None);
    };
    let name = Name::parse(alloc, middle)?;
    Ok(name)
}
