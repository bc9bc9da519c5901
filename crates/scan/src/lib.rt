// One token, read at an offset of a region.
#![tactic(auto)]

ghost use Rattle.std.specs.Prelude.{◌≡◌, ◌≤◌, length};
ghost use Rattle.error.specs.Error.{LIMIT};
ghost use Rattle.scan.specs.Answers.{answer_of, scan_at};

use error::{Error, ErrorKind};
use leb128::Mode;

// A region that check and depths go through: of at most LIMIT bytes; and the mode in which its numbers are read.
#[derive(Clone, Copy)]
pub struct Region<'a> {
    pub bytes: &'a [u8],
    pub mode: Mode,
    ghost short: { length bytes.now ≤ LIMIT },
}

// A token by its offsets in a region.
#[derive(Clone, Copy)]
pub struct Head {
    pub kind: u8,
    // The number of the header.
    pub n: u64,
    // How many items follow the token.
    pub items: u64,
    // The offset just after the numbers, where the body starts.
    pub first: usize,
    // The offset just after the body.
    pub end: usize,
}

// Reads the token at the offset `at` of a region, as an item if `inner` is true. At the region's end and past it:
// TRUNC, placed at `at`. One function on purpose: returning the answer through a helper costs more than the parse.
pub fn scan(region: &[u8], at: usize, inner: bool, mode: Mode) -> Result<Head, Error>
    ensures { answer_of result ≡ scan_at mode inner region.now at }
{
    let len = region.len();
    // TRUNC: a token is wanted at the region's end
    if len <= at {
        return Err(Error {
            kind: ErrorKind::Trunc,
            place: at,
        });
    }
    let header = region[at];
    let kind = header / 16;
    let low = header % 16;
    let rule = kind::rule_of(kind);
    // RESERVED: the kind, or the low nibble
    if rule.lows <= low {
        return Err(Error {
            kind: ErrorKind::Reserved,
            place: at,
        });
    }
    // NESTED: an item that is not an immediate
    let immediate = kind::is_immediate(rule);
    if inner & !immediate {
        return Err(Error {
            kind: ErrorKind::Nested,
            place: at,
        });
    }
    let rest = &region[at + 1..];
    let placed = |kind| Error { kind, place: at };
    let number = scan_number::number(low, rule.most, rest, mode).map_err(placed)?;
    let n = number.value;
    let first = len - number.left;
    // items that a second number counts, and no body
    if rule.args {
        let args = leb128::get(&region[first..], mode).map_err(placed)?;
        let after = len - args.left;
        // LONG_LIST: the count of arguments exceeds the bytes left
        if (args.left as u64) < args.value {
            return Err(Error {
                kind: ErrorKind::LongList,
                place: after,
            });
        }
        return Ok(Head {
            kind,
            n,
            items: args.value,
            first: after,
            end: after,
        });
    }
    // nothing that n counts
    if (rule.scale == 0) & (rule.each == 0) {
        return Ok(Head {
            kind,
            n,
            items: rule.single,
            first,
            end: first,
        });
    }
    // TRUNC of a float, LONG_BODY, LONG_LIST: the body or the counted items exceed the bytes left
    let room = scan_number::has_room(rule, n, number.left as u64);
    if !room {
        return Err(scan_number::shortage(rule, at, first));
    }
    let body = rule.fixed + rule.scale * n;
    Ok(Head {
        kind,
        n,
        items: rule.single + rule.each * n,
        first,
        end: first + body as usize,
    })
}
