// What the next fields of a record must be.
#![tactic(auto, unfolding(crate::specs::Wants::wanted_of, crate::specs::Wants::wanted_after, crate::specs::Wants::references, crate::specs::Wants::splits, crate::specs::Wants::purpose, rules::specs::Grammar::fields_of, rules::specs::Grammar::pairs))]

ghost use Rattle.std.specs.Prelude.{◌≡◌, ◌++◌};
ghost use Rattle.rules.specs.Grammar.{fields_of, may_lack, is_text, next_kind, pairs};
ghost use Rattle.base_codes.specs.CodeMeaning.{code_meant};
ghost use Rattle.read_wanted.specs.Wants.{wanted_of, wanted_after, splits, keep_meant, purpose};

use base_codes::Code;

// Where funds stand: in an item, or in a detail before its references.
#[derive(Clone, Copy)]
pub enum After {
    FurtherItem,
    References,
}

// The place of the next field. SplitAmount, Days and DayAmount: how many amounts or pairs are left after it.
#[derive(Clone, Copy)]
pub enum Want {
    Sender,
    Receiver,
    FileDate,
    FileTime,
    FileNumber,
    Length,
    BlockSize,
    Version,
    UltimateReceiver,
    Originator,
    GroupStatus,
    GroupDate,
    GroupTime,
    GroupCurrency,
    Modifier,
    Account,
    AccountCurrency,
    FirstType,
    EmptyAmount,
    EmptyCount,
    EmptyFunds,
    StatusAmount,
    StatusCount,
    StatusFunds,
    ItemAmount,
    ItemCount,
    ItemFunds,
    FurtherType,
    DetailType,
    DetailAmount,
    DetailFunds,
    NoAmount,
    NoFunds,
    BankReference,
    CustomerReference,
    Text,
    FurtherText,
    SplitAmount(After, u64),
    ValueDate(After),
    ValueTime(After),
    PairCount(After),
    Days(After, u64),
    DayAmount(After, u64),
    AccountTotal,
    Total,
    Count,
    Records,
    End,
}

// What a field is kept for: its amount, a trailer's figure, the physical length, or nothing.
#[derive(Clone, Copy)]
pub enum Keep {
    Amount,
    Total,
    Count,
    Records,
    Length,
    Nothing,
}

// The fields that a record begins with.
pub fn first_want(code: Code) -> Want
    ensures { wanted_of result ≡ fields_of (code_meant code) }
{
    match code {
        Code::FileHeader => Want::Sender,
        Code::GroupHeader => Want::UltimateReceiver,
        Code::AccountHeader => Want::Account,
        Code::Detail => Want::DetailType,
        Code::AccountTrailer => Want::AccountTotal,
        Code::GroupTrailer | Code::FileTrailer => Want::Total,
        Code::Continuation => Want::End,
    }
}

// A record may end here.
pub fn may_lack(want: Want) -> bool
    ensures { result ≡ may_lack (wanted_of want) }
{
    matches!(want, Want::End | Want::FurtherType | Want::FurtherText)
}

// The next field is a text: it takes the line from its place on.
pub fn is_text(want: Want) -> bool
    ensures { result ≡ is_text (next_kind (wanted_of want)) }
{
    matches!(want, Want::Text | Want::FurtherText)
}

// What the next field is kept for.
pub fn kept_for(want: Want) -> Keep
    ensures { keep_meant result ≡ purpose (next_kind (wanted_of want)) }
{
    match want {
        Want::StatusAmount | Want::ItemAmount | Want::DetailAmount => Keep::Amount,
        Want::AccountTotal | Want::Total => Keep::Total,
        Want::Count => Keep::Count,
        Want::Records => Keep::Records,
        Want::Length => Keep::Length,
        _ => Keep::Nothing,
    }
}

// What comes after an item's or a detail's funds.
pub fn after_funds(after: After) -> Want
    ensures { wanted_of result ≡ wanted_after after }
{
    match after {
        After::FurtherItem => Want::FurtherType,
        After::References => Want::BankReference,
    }
}

// After an amount of S, with so many left.
pub fn next_split(after: After, left: u64) -> Want
    ensures { wanted_of result ≡ splits left ++ wanted_after after }
{
    if left == 0 {
        return after_funds(after);
    }
    Want::SplitAmount(after, left - 1)
}

// After a pair of D or its count, with so many left.
pub fn next_pair(after: After, left: u64) -> Want
    ensures { wanted_of result ≡ pairs left ++ wanted_after after }
{
    if left == 0 {
        return after_funds(after);
    }
    Want::Days(after, left - 1)
}
