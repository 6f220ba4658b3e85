// The number of the kind of field that is wanted next.

#![tactic(auto, unfolding(read_wanted::specs::Wants::wanted_of, read_wanted::specs::Wants::references, rules::specs::Grammar::fields_of))]

ghost use Rattle.std.specs.Prelude.{◌≡◌};
ghost use Rattle.rules.specs.Grammar.{kind_number, next_kind};
ghost use Rattle.read_wanted.specs.Wants.{wanted_of};

use read_wanted::want::Want;

// The number of the next field's kind, as include/bai2.h has it.
pub fn kind_number(want: Want) -> u64
    ensures { result ≡ kind_number (next_kind (wanted_of want)) }
{
    match want {
        Want::Sender | Want::Receiver | Want::Originator | Want::Account => 1,
        Want::BankReference | Want::CustomerReference => 2,
        Want::UltimateReceiver => 3,
        Want::FileDate | Want::GroupDate | Want::ValueDate(_) => 4,
        Want::FileTime => 5,
        Want::GroupTime | Want::ValueTime(_) => 6,
        Want::FileNumber => 7,
        Want::Length => 8,
        Want::BlockSize => 9,
        Want::Version => 10,
        Want::GroupStatus => 11,
        Want::GroupCurrency | Want::AccountCurrency => 12,
        Want::Modifier => 13,
        Want::FirstType => 14,
        Want::FurtherType => 15,
        Want::StatusAmount => 16,
        Want::ItemAmount | Want::DetailAmount => 17,
        Want::ItemCount => 18,
        Want::ItemFunds | Want::DetailFunds => 19,
        Want::DetailType => 20,
        Want::Text => 21,
        Want::FurtherText => 22,
        Want::SplitAmount(_, _) => 23,
        Want::PairCount(_) => 24,
        Want::Days(_, _) => 25,
        Want::DayAmount(_, _) => 26,
        Want::AccountTotal | Want::Total => 27,
        Want::Count => 28,
        Want::Records => 29,
        Want::EmptyAmount
        | Want::EmptyCount
        | Want::EmptyFunds
        | Want::StatusCount
        | Want::StatusFunds
        | Want::NoAmount
        | Want::NoFunds
        | Want::End => 30,
    }
}
