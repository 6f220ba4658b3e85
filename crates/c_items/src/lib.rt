// The call for C that hands out an item of an account's 03.

#![tactic(auto)]

ghost use Rattle.std.specs.Prelude.{◌≡◌};
ghost use Rattle.rules.specs.Answers.{item_of_file};
ghost use Rattle.find_item.specs.ItemSearch.{count_meant};
ghost use Rattle.c_items.specs.ItemFigures.{is_given, or_zero, item_figures};

use base_quantities::Count;

// A refusal's number and place; or the type, how the amount was given and its magnitude, and the item count if it is given.
#[repr(C)]
#[derive(Clone, Copy)]
pub struct Bai2Item {
    pub number: u64,
    pub place: u64,
    pub type_code: u64,
    pub amount_form: u64,
    pub amount: u64,
    pub count_given: u64,
    pub count: u64,
}

// 1 and the item count where one is given, else 0 and 0.
fn count_figures(count: Option<Count>) -> (u64, u64)
    ensures { result ≡ (is_given (count_meant count), or_zero (count_meant count)) }
{
    match count {
        Some(n) => (1, n.0),
        None => (0, 0),
    }
}

// The item of this number in the 03 of that account of that group.
#[unsafe(no_mangle)]
pub extern "C" fn bai2_item_of(file: &[u8], group: u64, account: u64, item: u64) -> Bai2Item
    ensures { result ≡ item_figures (item_of_file file.now group account item) }
{
    match part_items::item(file, group, account, item) {
        Ok(found) => {
            let (count_given, count) = count_figures(found.count);
            Bai2Item {
                number: 0,
                place: 0,
                type_code: found.type_code,
                amount_form: base_amounts::form_of(found.amount),
                amount: base_amounts::magnitude_of(found.amount).0,
                count_given,
                count,
            }
        }
        Err(why) => Bai2Item {
            number: why.reason.number(),
            place: why.place.0 as u64,
            type_code: 0,
            amount_form: 0,
            amount: 0,
            count_given: 0,
            count: 0,
        },
    }
}
