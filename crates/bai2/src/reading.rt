// The exports that read, cut and hand out a file, and the one about type codes.
ghost use Rattle.std.specs.Prelude.{◌≡◌};
ghost use Rattle.rules.specs.Verdict.{judge};
ghost use Rattle.rules.specs.Answers.{group_part, account_part, detail_of_file, item_of_file, code_answer};
ghost use Rattle.rules.specs.HandedOut.{record_at, record_answer, fields_of_record};
ghost use Rattle.c_reading.specs.CAnswers.{summary_figures, read_meant, part_meant, detail_figures, record_figures, fields_figures};
ghost use Rattle.c_items.specs.ItemFigures.{item_figures};
ghost use Rattle.c_naming.specs.CNamed.{code_meant};

use c_items::Bai2Item;
use c_naming::Bai2Code;
use c_reading::Bai2Summary;
use c_reading::cutting::{Bai2Detail, Bai2Part};
use c_reading::handing::{Bai2Fields, Bai2Record};

// A file's summary, or its refusal.
#[unsafe(no_mangle)]
pub extern "C" fn bai2_read(file: &[u8]) -> Bai2Summary
    ensures { read_meant result ≡ summary_figures (judge file.now) }
{
    c_reading::bai2_read(file)
}

// The group of this number.
#[unsafe(no_mangle)]
pub extern "C" fn bai2_group(file: &[u8], group: u64) -> Bai2Part
    ensures { part_meant result ≡ group_part file.now group }
{
    c_reading::cutting::bai2_group(file, group)
}

// The account of this number in that group.
#[unsafe(no_mangle)]
pub extern "C" fn bai2_account(file: &[u8], group: u64, account: u64) -> Bai2Part
    ensures { part_meant result ≡ account_part file.now group account }
{
    c_reading::cutting::bai2_account(file, group, account)
}

// The detail of this number in that account of that group.
#[unsafe(no_mangle)]
pub extern "C" fn bai2_detail_of(file: &[u8], group: u64, account: u64, detail: u64) -> Bai2Detail
    ensures { result ≡ detail_figures (detail_of_file file.now group account detail) }
{
    c_reading::cutting::bai2_detail_of(file, group, account, detail)
}

// The item of this number in the 03 of that account of that group.
#[unsafe(no_mangle)]
pub extern "C" fn bai2_item_of(file: &[u8], group: u64, account: u64, item: u64) -> Bai2Item
    ensures { result ≡ item_figures (item_of_file file.now group account item) }
{
    c_items::bai2_item_of(file, group, account, item)
}

// The record that begins at byte `start`.
#[unsafe(no_mangle)]
pub extern "C" fn bai2_record_at(file: &[u8], start: u64) -> Bai2Record
    ensures { record_figures result ≡ record_answer (record_at file.now start) }
{
    c_reading::handing::bai2_record_at(file, start)
}

// The fields of the record that begins at byte `start`: three numbers each, at the front of out.
#[unsafe(no_mangle)]
pub extern "C" fn bai2_fields_at(file: &[u8], start: u64, out: &mut [u64]) -> Bai2Fields
    ensures { fields_figures result out.new ≡ fields_of_record file.now start out.old }
{
    c_reading::handing::bai2_fields_at(file, start, out)
}

// What the uniform list says of a code; all 0 for one that is not listed.
#[unsafe(no_mangle)]
pub extern "C" fn bai2_code_of(code: u64) -> Bai2Code
    ensures { code_meant result ≡ code_answer code }
{
    c_naming::bai2_code_of(code)
}
