// An item, read at an offset of a region.
#![tactic(auto)]

ghost use Rattle.std.specs.Prelude.{◌≡◌, true};
ghost use Rattle.scan.specs.Answers.{answer_of, scan_at};

use error::Error;
use leb128::Mode;
use scan::Head;

// Reads an item, as `scan::scan` does. One without a fault is read here: the function is short enough to be inlined
// into a loop over items.
pub fn scan_item(region: &[u8], at: usize, mode: Mode) -> Result<Head, Error>
    ensures { answer_of result ≡ scan_at mode true region.now at }
{
    let len = region.len();
    if len <= at {
        return scan::scan(region, at, true, mode);
    }
    let header = region[at];
    let kind = header / 16;
    let low = header % 16;
    let rule = kind::rule_of(kind);
    let immediate = kind::is_immediate(rule);
    let plain = (low < rule.lows) & immediate;
    if !plain {
        return scan::scan(region, at, true, mode);
    }
    let rest = &region[at + 1..];
    let Ok(number) = scan_number::number(low, rule.most, rest, mode) else {
        return scan::scan(region, at, true, mode);
    };
    let n = number.value;
    let first = len - number.left;
    // nothing after n
    if rule.scale == 0 {
        return Ok(Head {
            kind,
            n,
            items: 0,
            first,
            end: first,
        });
    }
    let room = scan_number::has_room(rule, n, number.left as u64);
    if !room {
        return scan::scan(region, at, true, mode);
    }
    let bytes = rule.fixed + rule.scale * n;
    Ok(Head {
        kind,
        n,
        items: 0,
        first,
        end: first + bytes as usize,
    })
}
