// An item of an account's 03, by its number: its type, its amount as it was given, and its item count.

#![tactic(auto)]

ghost use Rattle.std.specs.Prelude.{◌≡◌, not, ◌&&◌, ◌||◌, ◌+◌, ◌≤◌, eqb, length, take, drop};
ghost use Rattle.find_next.specs.CursorMeaning.{Inside};
ghost use Rattle.find_item.specs.ItemSearch.{item_sought, count_meant, count_read, found_meant, met_by, Follows, Takes, Seeks};

use base_amounts::Amount;
use base_codes::Code;
use base_quantities::{Count, Place};
use find_next::{Cursor, FieldStep};
use read_wanted::want;

// The kinds of an account's first type and of a further one.
const FIRST_TYPE: u64 = 14;

const FURTHER_TYPE: u64 = 15;

// An item's type, its amount, and its item count, if one is given.
#[derive(Clone, Copy)]
pub struct Item {
    pub type_code: u64,
    pub amount: Amount,
    pub count: Option<Count>,
}

// A field of this kind and length begins an item; an empty type begins none.
fn begins_item(kind: u64, size: usize) -> bool
    ensures { result ≡ ((eqb 14 kind || eqb 15 kind) && not (eqb size 0)) }
{
    size != 0 && (kind == FIRST_TYPE || kind == FURTHER_TYPE)
}

// How many items are still to be passed after a field, by whether it begins one, where so many are before it; none where it begins the one sought.
#[tactic(auto, unfolding(crate::specs::ItemSearch::met_by))]
fn meet(begins: bool, left: u64) -> Option<u64>
    ensures { result ≡ met_by begins left }
{
    if begins {
        return left.checked_sub(1);
    }
    Some(left)
}

// The next field of the 03 in front of these bytes; none where it is over or refused.
fn next_of(rec: &[u8], walk: Cursor) -> Option<FieldStep>
    ensures { Follows rec.now walk result }
{
    find_next::next_field(rec, 1, walk).unwrap_or(None)
}

// The type of the item of this number in the 03 in front of these bytes.
fn seek_type(rec: &[u8], n: u64) -> Option<FieldStep>
    ensures { Seeks rec.now n result }
{
    let mut walk = find_next::before_record(want::first_want(Code::AccountHeader));
    let mut left = n;
    // No `for`: each step is the walk after the field before.
    loop {
        let step = next_of(rec, walk)?;
        let begins = begins_item(read_kinds::kind_number(walk.want), step.length);
        let Some(more) = meet(begins, left) else {
            return Some(step);
        };
        left = more;
        walk = step.after;
    }
}

// The next field; where there is none, an empty one, and the walk that was.
fn take_next(rec: &[u8], walk: Cursor) -> FieldStep
    requires { Inside rec.now walk }
    ensures { Takes rec.now walk result }
{
    match next_of(rec, walk) {
        Some(step) => step,
        None => FieldStep {
            start: Place(0),
            length: 0,
            after: walk,
        },
    }
}

// A field's bytes.
fn bytes_of(rec: &[u8], field: FieldStep) -> &[u8]
    requires { field.start.0 + field.length ≤ length rec.now }
    ensures { result.now ≡ take field.length (drop field.start.0 rec.now) }
{
    let from = field.start.0;
    &rec[from..from + field.length]
}

// The item count in a field.
#[tactic(auto, unfolding(crate::specs::ItemSearch::count_read))]
fn count_in(f: &[u8]) -> Option<Count>
    ensures { count_meant result ≡ count_read f.now }
{
    match f {
        [] => None,
        _ => Some(Count(base_digits::value(f))),
    }
}

// The item of this number in the 03 in front of these bytes: a type, then its amount and its item count.
pub fn item_in(rec: &[u8], n: u64) -> Option<Item>
    ensures { found_meant result ≡ item_sought rec.now n }
{
    let found = seek_type(rec, n)?;
    let amount = take_next(rec, found.after);
    let count = take_next(rec, amount.after);
    Some(Item {
        type_code: base_digits::value(bytes_of(rec, found)),
        amount: base_amounts::amount_in(bytes_of(rec, amount)),
        count: count_in(bytes_of(rec, count)),
    })
}
