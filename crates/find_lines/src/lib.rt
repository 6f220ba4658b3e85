// Where lines of given codes stand, found by their codes alone: blocks without one are passed by vector code.

#![tactic(auto)]

ghost use Rattle.std.specs.Prelude.{◌≡◌, false, cond, suc, ◌+◌, ◌-◌, ◌≤◌, ◌<◌, eqb, length, drop, get_or};
ghost use Rattle.rules.specs.Lines.{lines_of};
ghost use Rattle.base_codes.specs.CodeMeaning.{code_meant, bytes_meant};
ghost use Rattle.find_lines.specs.LinesOfCode.{may_begin, NoEnd, Quiet, begins_either, line_ends, ahead_len, NextBetween, bytes_before};

use base_codes::{Code, Digits};
use base_quantities::Place;

// So many bytes are tested at once.
const BLOCK: usize = 128;

// One of the two codes stands there.
fn begins_either(s: &[u8], start: Place, x: Digits, y: Digits) -> bool
    ensures { result ≡ begins_either (bytes_meant x) (bytes_meant y) (drop start.0 s.now) }
{
    read_lines::begins_with(s, start, x.0, x.1) || read_lines::begins_with(s, start, y.0, y.1)
}

// 255 where the two bytes are the same, else 0.
fn same(a: u8, b: u8) -> u8
    ensures { result ≡ cond (eqb a b) 255 0 }
{
    if a == b {
        return 255;
    }
    0
}

// The larger of two.
fn larger(a: u8, b: u8) -> u8
    ensures { (a ≤ result) × (b ≤ result) }
{
    if a < b {
        return b;
    }
    a
}

// Above 0 where something was found before, or where these two bytes end a line and begin one with x or y.
fn meets(found: u8, a: u8, b: u8, x: u8, y: u8) -> u8
    ensures { result ≡ 0 → (found ≡ 0) × (may_begin x y a b ≡ false) }
{
    larger(
        found,
        base_slices::smaller(same(a, b'\n'), larger(same(b, x), same(b, y))),
    )
}

// After some byte of the block that starts there such a line may begin; no test leaves the block early, so it compiles to vector code.
fn block_meets(s: &[u8], start: Place, x: Digits, y: Digits) -> bool
    requires { start.0 + 128 < length s.now }
    ensures { result ≡ false → Quiet (bytes_meant x) (bytes_meant y) s.now start.0 128 }
{
    let at = start.0;
    let mut found = 0;
    for i in 0..BLOCK {
        let k = at + i;
        found = meets(found, s[k], s[k + 1], x.0, y.0);
    }
    found != 0
}

// Some byte of the block that starts there is no more than a line feed; this compiles to vector code too, and to less of it.
fn block_ends(s: &[u8], start: Place) -> bool
    requires { start.0 + 128 < length s.now }
    ensures { result ≡ false → NoEnd s.now start.0 128 }
{
    let at = start.0;
    let mut lowest = 255;
    for i in 0..BLOCK {
        lowest = base_slices::smaller(lowest, s[at + i]);
    }
    lowest <= b'\n'
}

// After some byte of the block that starts there such a line may begin: the lesser test comes first, and mostly suffices where lines are long.
fn may_meet(s: &[u8], start: Place, x: Digits, y: Digits) -> bool
    requires { start.0 + 128 < length s.now }
    ensures { result ≡ false → Quiet (bytes_meant x) (bytes_meant y) s.now start.0 128 }
{
    block_ends(s, start) && block_meets(s, start, x, y)
}

// This byte ends a line, and such a line begins after it.
fn ends_before_line(s: &[u8], byte: Place, x: Digits, y: Digits) -> bool
    requires { byte.0 < length s.now }
    ensures { result ≡ line_ends (bytes_meant x) (bytes_meant y) (get_or s.now byte.0 0) (drop (suc byte.0) s.now) }
{
    let at = byte.0;
    s[at] == b'\n' && begins_either(s, Place(at + 1), x, y)
}

// Where the first such line starts after a byte from `start` on and before `end`; none where none does.
fn line_between(s: &[u8], start: Place, end: Place, x: Digits, y: Digits) -> Option<Place>
    requires { (start.0 ≤ end.0) × (end.0 ≤ length s.now) }
    ensures { NextBetween (bytes_meant x) (bytes_meant y) s.now start.0 end.0 result }
{
    for i in start.0..end.0 {
        if ends_before_line(s, Place(i), x, y) {
            return Some(Place(i + 1));
        }
    }
    None
}

// Where the next such line after the one that starts there starts, or the end.
fn line_after(s: &[u8], start: Place, x: Digits, y: Digits) -> Place
    requires { start.0 ≤ length s.now }
    ensures { (result.0 ≡ start.0 + ahead_len (bytes_meant x) (bytes_meant y) (drop start.0 s.now)) × (result.0 ≤ length s.now) }
{
    let mut i = start.0;
    // No `for`: a step is a block, and the bytes after the last block go one by one.
    while BLOCK < s.len() - i {
        let after = i + BLOCK;
        if may_meet(s, Place(i), x, y) {
            if let Some(line) = line_between(s, Place(i), Place(after), x, y) {
                return line;
            }
        }
        i = after;
    }
    let end = Place(s.len());
    line_between(s, Place(i), end, x, y).unwrap_or(end)
}

// Where the first line of one of the two codes starts, from the line that starts there on; or the end.
pub fn next_line_of(s: &[u8], start: Place, one: Code, other: Code) -> Place
    ensures { (result.0 ≡ start.0 + bytes_before (code_meant one) (code_meant other) (lines_of (drop start.0 s.now))) × (result.0 ≤ length s.now + (start.0 - length s.now)) }
{
    let x = base_codes::digits_of(one);
    let y = base_codes::digits_of(other);
    if s.len() <= start.0 || begins_either(s, start, x, y) {
        return start;
    }
    line_after(s, start, x, y)
}
