// The lines of the writer's calls, drafted: the fields in the order of their record.

#![tactic(auto)]

ghost use Rattle.std.specs.Prelude.{◌≡◌, [], ◌∷◌};
ghost use Rattle.rules.specs.Numbers.{decimal, total_bytes};
ghost use Rattle.rules.specs.Lines as lines;
ghost use Rattle.rules.specs.Grammar.{fields_of, further_type};
ghost use Rattle.rules.specs.Writer.{amount_bytes, item_fields};
ghost use Rattle.base_codes.specs.CodeMeaning.{code_meant};
ghost use Rattle.base_quantities.specs.QuantityMeanings.{sum_meant};
ghost use Rattle.write_line.specs.DraftMeaning.{amount_given};
ghost use Rattle.write_line.specs.DrawnLine.{drawn_of, text_drawn};
ghost use Rattle.write_records.specs.RecordLines.{line_drawn};
ghost use Rattle.write_records.specs.ItemMeaning.{item_meant};

use base_codes::Code;
use base_quantities::{Count, Records, Signed, Units};
use read_wanted::want;
use read_wanted::want::Want;
use write_line::{Draft, Items};

// What a header tells.
#[derive(Clone, Copy)]
pub struct Header<'a> {
    pub sender: &'a [u8],
    pub receiver: &'a [u8],
    pub date: &'a [u8],
    pub time: &'a [u8],
    pub file_number: &'a [u8],
}

// What a group's header tells.
#[derive(Clone, Copy)]
pub struct Group<'a> {
    pub receiver: &'a [u8],
    pub originator: &'a [u8],
    pub status: &'a [u8],
    pub date: &'a [u8],
    pub time: &'a [u8],
    pub currency: &'a [u8],
    pub modifier: &'a [u8],
}

// A status or summary of an account.
#[derive(Clone, Copy)]
pub struct Item<'a> {
    pub type_code: &'a [u8],
    pub amount: Option<Signed>,
    pub count: Option<Items>,
}

// What a detail tells.
#[derive(Clone, Copy)]
pub struct Detail<'a> {
    pub type_code: &'a [u8],
    pub amount: Option<Signed>,
    pub bank_reference: &'a [u8],
    pub customer_reference: &'a [u8],
    pub text: &'a [u8],
}

impl Header<'_> {
    // The line 01: L and block size stay empty, and the version is 2.
    pub fn draft(self) -> Draft
        ensures { drawn_of result ≡ line_drawn lines.file_header (fields_of lines.file_header)
            (self.entry.sender.now ∷ self.entry.receiver.now ∷ self.entry.date.now ∷ self.entry.time.now ∷ self.entry.file_number.now ∷ [] ∷ [] ∷ (50 ∷ []) ∷ []) 47 }
    {
        let mut line = Draft::begin(Code::FileHeader, want::first_want(Code::FileHeader));
        line.add(self.sender, b',');
        line.add(self.receiver, b',');
        line.add(self.date, b',');
        line.add(self.time, b',');
        line.add(self.file_number, b',');
        line.add_empty(b',');
        line.add_empty(b',');
        line.add(b"2", b'/');
        line
    }
}

impl Group<'_> {
    // The line 02.
    pub fn draft(self) -> Draft
        ensures { drawn_of result ≡ line_drawn lines.group_header (fields_of lines.group_header)
            (self.entry.receiver.now ∷ self.entry.originator.now ∷ self.entry.status.now ∷ self.entry.date.now ∷ self.entry.time.now ∷ self.entry.currency.now ∷ self.entry.modifier.now ∷ []) 47 }
    {
        let mut line = Draft::begin(Code::GroupHeader, want::first_want(Code::GroupHeader));
        line.add(self.receiver, b',');
        line.add(self.originator, b',');
        line.add(self.status, b',');
        line.add(self.date, b',');
        line.add(self.time, b',');
        line.add(self.currency, b',');
        line.add(self.modifier, b'/');
        line
    }
}

// The line 03: its funds stay empty.
pub fn account(number: &[u8], currency: &[u8], item: Item) -> Draft
    ensures { drawn_of result ≡ line_drawn lines.account_header (fields_of lines.account_header)
        (number.now ∷ currency.now ∷ item_fields (item_meant item.entry)) 47 }
{
    let mut line = Draft::begin(Code::AccountHeader, want::first_want(Code::AccountHeader));
    line.add(number, b',');
    line.add(currency, b',');
    line.add(item.type_code, b',');
    line.add_amount(item.amount, b',');
    line.add_items(item.count, b',');
    line.add_empty(b'/');
    line
}

impl Item<'_> {
    // A further item's line 88.
    #[tactic(auto, unfolding(read_wanted::specs::Wants::wanted_of))]
    pub fn draft(self) -> Draft
        ensures { drawn_of result ≡ line_drawn lines.continuation (further_type ∷ []) (item_fields (item_meant self.entry)) 47 }
    {
        let mut line = Draft::begin(Code::Continuation, Want::FurtherType);
        line.add(self.type_code, b',');
        line.add_amount(self.amount, b',');
        line.add_items(self.count, b',');
        line.add_empty(b'/');
        line
    }
}

impl Detail<'_> {
    // The line 16: its funds stay empty, and an empty text is "/".
    pub fn draft(self) -> Draft
        ensures { drawn_of result ≡ text_drawn self.entry.text.now (line_drawn lines.detail (fields_of lines.detail)
            (self.entry.type_code.now ∷ amount_bytes (amount_given self.entry.amount) ∷ [] ∷ self.entry.bank_reference.now ∷ self.entry.customer_reference.now ∷ []) 44) }
    {
        let mut line = Draft::begin(Code::Detail, want::first_want(Code::Detail));
        line.add(self.type_code, b',');
        line.add_amount(self.amount, b',');
        line.add_empty(b',');
        line.add(self.bank_reference, b',');
        line.add(self.customer_reference, b',');
        line.add_text(self.text);
        line
    }
}

// The line 49: total and records.
pub fn account_end(total: Units, records: Records) -> Draft
    ensures { drawn_of result ≡ line_drawn lines.account_trailer (fields_of lines.account_trailer) (total_bytes (sum_meant total) ∷ decimal records.0 ∷ []) 47 }
{
    let mut line = Draft::begin(Code::AccountTrailer, want::first_want(Code::AccountTrailer));
    line.add_total(total, b',');
    line.add_records(records, b'/');
    line
}

// The line 98 or 99: total, accounts or groups, and records.
pub fn trailer(code: Code, total: Units, count: Count, records: Records) -> Draft
    ensures { drawn_of result ≡ line_drawn (code_meant code) (fields_of (code_meant code)) (total_bytes (sum_meant total) ∷ decimal count.0 ∷ decimal records.0 ∷ []) 47 }
{
    let mut line = Draft::begin(code, want::first_want(code));
    line.add_total(total, b',');
    line.add_count(count, b',');
    line.add_records(records, b'/');
    line
}
