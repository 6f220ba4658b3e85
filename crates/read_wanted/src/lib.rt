// What is wanted next, and the kinds of field that decide it.

#![tactic(auto, unfolding(crate::specs::TakenMeaning::judged_of, crate::specs::Wants::wanted_of, crate::specs::Wants::splits, rules::specs::Grammar::and_then, rules::specs::Grammar::judged, rules::specs::Grammar::funds_of, rules::specs::Grammar::pairs_of, rules::specs::Grammar::piece_of, rules::specs::Bytes::is_empty, rules::specs::Bytes::one_of, rules::specs::Bytes::starts_with))]

ghost use Rattle.std.specs.Prelude.{◌≡◌, ◌||◌, []};
ghost use Rattle.rules.specs.Bytes.{is_empty};
ghost use Rattle.rules.specs.Grammar.{judged, and_then, fits, item_of, detail_of, piece_of, first_type, version, funds, pair_count, text};
ghost use Rattle.read_values.specs.ValueMeanings.{class_meant};
ghost use Rattle.read_wanted.specs.Wants.{wanted_of, wanted_after, references};
ghost use Rattle.read_wanted.specs.TakenMeaning.{judged_of};

use base_refusals::Reason;
use read_values::Class;
use want::{After, Want};

pub mod want;

// A field was good, and this is wanted next; or it is refused for this reason.
pub type Taken = Result<Want, Reason>;

// A field that must be as this test says, with this wanted after it.
pub fn fitted(ok: bool, next: Want) -> Taken
    ensures { judged_of result ≡ and_then (fits ok) (wanted_of next) }
{
    if ok {
        Ok(next)
    } else {
        Err(Reason::WrongField)
    }
}

// The same where it may also be empty.
pub fn fitted_or_none(f: &[u8], ok: bool, next: Want) -> Taken
    ensures { judged_of result ≡ and_then (fits (is_empty f.now || ok)) (wanted_of next) }
{
    fitted(read_values::is_empty(f) || ok, next)
}

// Version "2"; any other is refused by 9.
pub fn take_version(f: &[u8]) -> Taken
    ensures { judged_of result ≡ and_then (judged version f.now) [] }
{
    match f {
        [b'2'] => Ok(Want::End),
        _ => Err(Reason::WrongVersion),
    }
}

// A type of this class in 03.
pub fn item(class: Class) -> Taken
    ensures { judged_of result ≡ and_then (item_of (class_meant class)) [] }
{
    match class {
        Class::Status => Ok(Want::StatusAmount),
        Class::SummaryOnly | Class::SummaryOrDetail => Ok(Want::ItemAmount),
        Class::NonMonetary | Class::Unknown => Err(Reason::WrongField),
    }
}

// A type of this class in 16.
pub fn detail(class: Class) -> Taken
    ensures { judged_of result ≡ and_then (detail_of (class_meant class)) references }
{
    match class {
        Class::SummaryOrDetail => Ok(Want::DetailAmount),
        Class::NonMonetary => Ok(Want::NoAmount),
        Class::Status | Class::SummaryOnly | Class::Unknown => Err(Reason::WrongField),
    }
}

// The first type of an 03: with an empty one its amount, count and funds are empty too.
pub fn take_first_type(f: &[u8]) -> Taken
    ensures { judged_of result ≡ and_then (judged first_type f.now) [] }
{
    match f {
        [] => Ok(Want::EmptyAmount),
        _ => item(read_values::type_class(f)),
    }
}

// Empty, 0, 1, 2 or Z; S and three amounts; V, a date and a time; D, a number X and X pairs.
pub fn take_funds(f: &[u8], after: After) -> Taken
    ensures { judged_of result ≡ and_then (judged funds f.now) (wanted_after after) }
{
    match f {
        [] | [b'0'..=b'2'] | [b'Z'] => Ok(want::after_funds(after)),
        [b'S'] => Ok(Want::SplitAmount(after, 2)),
        [b'V'] => Ok(Want::ValueDate(after)),
        [b'D'] => Ok(Want::PairCount(after)),
        _ => Err(Reason::WrongField),
    }
}

// The number of pairs of D.
pub fn take_pair_count(f: &[u8], after: After) -> Taken
    ensures { judged_of result ≡ and_then (judged pair_count f.now) (wanted_after after) }
{
    if !base_digits::is_digits(f, 1, 3) {
        return Err(Reason::WrongField);
    }
    let n = base_digits::value(f);
    if n < 1 {
        return Err(Reason::WrongField);
    }
    Ok(want::next_pair(after, n))
}

// A text's piece isn't empty and doesn't begin with a slash.
pub fn take_piece(f: &[u8]) -> Taken
    ensures { judged_of result ≡ and_then (piece_of f.now) [] }
{
    match f {
        [] | [b'/', ..] => Err(Reason::LineBadlyEnded),
        _ => Ok(Want::FurtherText),
    }
}

// A text's first piece, or "/" for no text.
pub fn take_first_piece(f: &[u8]) -> Taken
    ensures { judged_of result ≡ and_then (judged text f.now) [] }
{
    match f {
        [b'/'] => Ok(Want::End),
        _ => take_piece(f),
    }
}
