// One value, checked (document 01, "Check and depths"): its token, its text and its target, and its items.
#![tactic(auto)]

ghost use Rattle.std.specs.Prelude.{◌≡◌, not, ◌&&◌, ◌≤◌, ◌<◌, ◌^◌, eqb, leb, length};
ghost use Rattle.utf8.specs.Text.{is_text};
ghost use Rattle.scan.specs.Answers as scans;
ghost use Rattle.checker_value.specs.Walk.{has_target};
ghost use Rattle.checker_value.specs.Internal.{ChecksItems, ChecksValue};

use error::{Error, ErrorKind};
use scan::{Head, Region};
use table_search::Starts;

// ---- one token

// Whether a token with head h is a text whose bytes are not UTF-8.
fn is_bad_text(region: &[u8], h: Head) -> bool
    requires { (h.first ≤ h.end) × (h.end ≤ length region.now) }
    ensures { result ≡ eqb h.kind 4 && not (is_text (scans.body_on region.now h)) }
{
    h.kind == kind::KIND_TEXT && !utf8::is_text(&region[h.first..h.end])
}

// Whether the target of the reference or pointer with head h at `at` is one of the starts.
fn has_target(starts: Starts, at: usize, h: Head) -> bool
    requires { at < 2 ^ 32 }
    ensures { result ≡ has_target starts.entry.words.now at h }
{
    let q = at as u64;
    h.n < q && starts.is_among((q - h.n - 1) as u32)
}

// Whether the token with head h at `at` is a reference or pointer whose target is not a start.
fn is_bad_target(starts: Starts, at: usize, h: Head) -> bool
    requires { at < 2 ^ 32 }
    ensures { result ≡ leb 14 h.kind && not (has_target starts.entry.words.now at h) }
{
    kind::KIND_REFERENCE <= h.kind && !has_target(starts, at, h)
}

// ---- a value

// Checks that many items of a value, the first at `from`, after the values that begin at `starts`; returns the offset after them.
// This function and `check_value` build their answers themselves: returning them through a shared helper costs more
// than the tests.
fn check_items(region: Region, starts: Starts, from: usize, items: u64) -> Result<usize, Error>
    requires { from ≤ length region.bytes.now }
    ensures { ChecksItems region.entry.mode result region.entry.bytes.now starts.entry.words.now from items }
{
    let mut at = from;
    for _ in 0..items {
        let h = checker_item::scan_item(region.bytes, at, region.mode)?;
        if is_bad_text(region.bytes, h) {
            return Err(Error {
                kind: ErrorKind::BadText,
                place: at,
            });
        }
        if is_bad_target(starts, at, h) {
            return Err(Error {
                kind: ErrorKind::BadTarget,
                place: at,
            });
        }
        at = h.end;
    }
    Ok(at)
}

// Checks the value at `at` with its items, after the values that begin at `starts`; returns the offset after it.
pub fn check_value(region: Region, starts: Starts, at: usize) -> Result<usize, Error>
    requires { at < length region.bytes.now }
    ensures { ChecksValue region.entry.mode result region.entry.bytes.now starts.entry.words.now at }
{
    let h = scan::scan(region.bytes, at, false, region.mode)?;
    if is_bad_text(region.bytes, h) {
        return Err(Error {
            kind: ErrorKind::BadText,
            place: at,
        });
    }
    if is_bad_target(starts, at, h) {
        return Err(Error {
            kind: ErrorKind::BadTarget,
            place: at,
        });
    }
    check_items(region, starts, h.end, h.items)
}
