// The calls for C that cut a part out of a file: where it stands, counted from the file's first byte.
ghost use Rattle.std.specs.Prelude.{◌≡◌};
ghost use Rattle.rules.specs.Answers.{group_part, account_part, detail_of_file};
ghost use Rattle.part_groups.specs.PartMeaning as parts;
ghost use Rattle.c_reading.specs.CAnswers.{part_meant, detail_figures};

use base_refusals::Refusal;
use part_groups::Part;

// A refusal's number and place, or where the part starts and its length.
#[repr(C)]
#[derive(Clone, Copy)]
pub struct Bai2Part {
    pub number: u64,
    pub place: u64,
    pub start: u64,
    pub length: u64,
}

// A part in figures, or why there is none.
fn figures_of(found: Result<Part, Refusal>) -> Bai2Part
    ensures { part_meant result ≡ parts.part_meant found }
{
    match found {
        Ok(part) => Bai2Part {
            number: 0,
            place: 0,
            start: part.start.0 as u64,
            length: part.length as u64,
        },
        Err(why) => Bai2Part {
            number: why.reason.number(),
            place: why.place.0 as u64,
            start: 0,
            length: 0,
        },
    }
}

// The group of this number.
#[unsafe(no_mangle)]
pub extern "C" fn bai2_group(file: &[u8], group: u64) -> Bai2Part
    ensures { part_meant result ≡ group_part file.now group }
{
    figures_of(part_groups::find_group(file, group))
}

// The account of this number in that group.
#[unsafe(no_mangle)]
pub extern "C" fn bai2_account(file: &[u8], group: u64, account: u64) -> Bai2Part
    ensures { part_meant result ≡ account_part file.now group account }
{
    figures_of(part_groups::find_account(file, group, account))
}

// A refusal's number and place; or the type, how the amount was given and its magnitude, and where the first text piece starts, and its length.
#[repr(C)]
#[derive(Clone, Copy)]
pub struct Bai2Detail {
    pub number: u64,
    pub place: u64,
    pub type_code: u64,
    pub amount_form: u64,
    pub amount: u64,
    pub text_start: u64,
    pub text_length: u64,
}

// The detail of this number in that account of that group.
#[unsafe(no_mangle)]
pub extern "C" fn bai2_detail_of(file: &[u8], group: u64, account: u64, detail: u64) -> Bai2Detail
    ensures { result ≡ detail_figures (detail_of_file file.now group account detail) }
{
    match part_details::detail(file, group, account, detail) {
        Ok(found) => Bai2Detail {
            number: 0,
            place: 0,
            type_code: found.type_code,
            amount_form: base_amounts::form_of(found.amount),
            amount: base_amounts::magnitude_of(found.amount).0,
            text_start: found.text.start.0 as u64,
            text_length: found.text.length as u64,
        },
        Err(why) => Bai2Detail {
            number: why.reason.number(),
            place: why.place.0 as u64,
            type_code: 0,
            amount_form: 0,
            amount: 0,
            text_start: 0,
            text_length: 0,
        },
    }
}
