// A record's fields: what one must be as the first of what is wanted.

#![tactic(auto, unfolding(rules::specs::Grammar::take_next, rules::specs::Grammar::judged, rules::specs::Grammar::fields_of, read_wanted::specs::Wants::wanted_of, read_wanted::specs::Wants::wanted_after, read_wanted::specs::Wants::references, read_wanted::specs::TakenMeaning::judged_of))]

ghost use Rattle.std.specs.Prelude.{◌≡◌};
ghost use Rattle.rules.specs.Grammar.{take_next};
ghost use Rattle.read_wanted.specs.Wants.{wanted_of};
ghost use Rattle.read_wanted.specs.TakenMeaning.{judged_of};

use base_digits::{is_digits, is_signed, is_unsigned};
use base_refusals::Reason;
use read_values::date::is_date;
use read_values::{
    is_currency, is_empty, is_length, is_name, is_one_of, is_reference, is_time, type_class,
};
use read_wanted::want::{After, Want, after_funds, next_pair, next_split};
use read_wanted::{
    Taken, detail, fitted, fitted_or_none, item, take_first_piece, take_first_type, take_funds,
    take_pair_count, take_piece, take_version,
};

// The answer on a field with these bytes, as the first of what is wanted; of a text, these are the line from its place on, trimmed. One table, a line for each place of a field.
pub fn take_field(want: Want, f: &[u8]) -> Taken
    ensures { judged_of result ≡ take_next (wanted_of want) f.now }
{
    match want {
        Want::Sender => fitted(is_name(f), Want::Receiver),
        Want::Receiver => fitted(is_name(f), Want::FileDate),
        Want::FileDate => fitted(is_date(f), Want::FileTime),
        Want::FileTime => fitted(is_time(f), Want::FileNumber),
        Want::FileNumber => fitted(is_digits(f, 1, 9), Want::Length),
        Want::Length => fitted_or_none(f, is_length(f), Want::BlockSize),
        Want::BlockSize => fitted(is_digits(f, 0, 9), Want::Version),
        Want::Version => take_version(f),
        Want::UltimateReceiver => fitted(is_reference(f), Want::Originator),
        Want::Originator => fitted(is_name(f), Want::GroupStatus),
        Want::GroupStatus => fitted(is_one_of(f, b'1', b'4'), Want::GroupDate),
        Want::GroupDate => fitted(is_date(f), Want::GroupTime),
        Want::GroupTime => fitted_or_none(f, is_time(f), Want::GroupCurrency),
        Want::GroupCurrency => fitted(is_currency(f), Want::Modifier),
        Want::Modifier => fitted_or_none(f, is_one_of(f, b'1', b'4'), Want::End),
        Want::Account => fitted(is_name(f), Want::AccountCurrency),
        Want::AccountCurrency => fitted(is_currency(f), Want::FirstType),
        Want::FirstType => take_first_type(f),
        Want::EmptyAmount => fitted(is_empty(f), Want::EmptyCount),
        Want::EmptyCount => fitted(is_empty(f), Want::EmptyFunds),
        Want::EmptyFunds => fitted(is_empty(f), Want::End),
        Want::StatusAmount => fitted_or_none(f, is_signed(f), Want::StatusCount),
        Want::StatusCount => fitted(is_empty(f), Want::StatusFunds),
        Want::StatusFunds => fitted(is_empty(f), Want::FurtherType),
        Want::ItemAmount => fitted_or_none(f, is_unsigned(f), Want::ItemCount),
        Want::ItemCount => fitted(is_digits(f, 0, 9), Want::ItemFunds),
        Want::ItemFunds => take_funds(f, After::FurtherItem),
        Want::FurtherType => item(type_class(f)),
        Want::DetailType => detail(type_class(f)),
        Want::DetailAmount => fitted_or_none(f, is_unsigned(f), Want::DetailFunds),
        Want::DetailFunds => take_funds(f, After::References),
        Want::NoAmount => fitted(is_empty(f), Want::NoFunds),
        Want::NoFunds => fitted(is_empty(f), Want::BankReference),
        Want::BankReference => fitted(is_reference(f), Want::CustomerReference),
        Want::CustomerReference => fitted(is_reference(f), Want::Text),
        Want::Text => take_first_piece(f),
        Want::FurtherText => take_piece(f),
        Want::SplitAmount(after, left) => fitted(is_digits(f, 0, 18), next_split(after, left)),
        Want::ValueDate(after) => fitted(is_date(f), Want::ValueTime(after)),
        Want::ValueTime(after) => fitted_or_none(f, is_time(f), after_funds(after)),
        Want::PairCount(after) => take_pair_count(f, after),
        Want::Days(after, left) => fitted(is_digits(f, 1, 3), Want::DayAmount(after, left)),
        Want::DayAmount(after, left) => fitted(is_digits(f, 1, 18), next_pair(after, left)),
        Want::AccountTotal => fitted(is_signed(f), Want::Records),
        Want::Total => fitted(is_signed(f), Want::Count),
        Want::Count => fitted(is_digits(f, 1, 9), Want::Records),
        Want::Records => fitted(is_digits(f, 1, 9), Want::End),
        Want::End => Err(Reason::WrongField),
    }
}

// The same answer. The fields of a detail, most of a file's fields, stand in a short table, which is drawn into each walk that calls it; the rest go by the whole one.
#[inline(always)]
pub fn take_detail_first(want: Want, f: &[u8]) -> Taken
    ensures { judged_of result ≡ take_next (wanted_of want) f.now }
{
    match want {
        Want::DetailType => detail(type_class(f)),
        Want::DetailAmount => fitted_or_none(f, is_unsigned(f), Want::DetailFunds),
        Want::DetailFunds => take_funds(f, After::References),
        Want::BankReference => fitted(is_reference(f), Want::CustomerReference),
        Want::CustomerReference => fitted(is_reference(f), Want::Text),
        Want::Text => take_first_piece(f),
        Want::FurtherText => take_piece(f),
        _ => take_field(want, f),
    }
}
