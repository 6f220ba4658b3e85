// An item of an account's 03 by number: its type, its amount as it was given, and its item count.

#![tactic(auto)]

ghost use Rattle.std.specs.Prelude.{◌≡◌};
ghost use Rattle.rules.specs.Answers.{item_of_file};
ghost use Rattle.part_items.specs.ItemMeaning.{item_meant};

use base_refusals::{Reason, Refusal};
use find_item::Item;

// The item of this number in the 03 of that account: reader's refusal, 17.
pub fn item(file: &[u8], g: u64, a: u64, n: u64) -> Result<Item, Refusal>
    ensures { item_meant result ≡ item_of_file file.now g a n }
{
    let account = part_groups::find_account(file, g, a)?;
    find_item::item_in(account.bytes(file), n).ok_or(Reason::NoSuchPart.nowhere())
}
