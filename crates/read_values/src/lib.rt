// What a field's bytes may be: names, single bytes, currencies, lengths, times and types. Dates are in `date`; numbers are in `base_digits`.

#![tactic(auto, unfolding(rules::specs::Bytes::is_empty, rules::specs::Bytes::one_of, rules::specs::Grammar::is_currency, rules::specs::Grammar::is_length, rules::specs::Numbers::digits, rules::specs::Dates::is_time, rules::specs::TypeCodes::class_of, rules::specs::TypeCodes::type_class))]

ghost use Rattle.std.specs.Prelude.{◌≡◌, length, leb};
ghost use Rattle.rules.specs.Limits.{longest_name};
ghost use Rattle.rules.specs.Bytes.{between, is_empty, one_of, in_field, clean};
ghost use Rattle.rules.specs.Dates.{is_time};
ghost use Rattle.rules.specs.TypeCodes.{class_of, type_class};
ghost use Rattle.rules.specs.Grammar.{is_currency, is_length};
ghost use Rattle.read_values.specs.ValueMeanings.{class_meant};

use base_limits::{LONGEST_LINE, LONGEST_NAME};

pub mod date;

// The shortest physical length; the longest is the longest line.
const SHORTEST_LENGTH: u64 = 48;

// The times past 23 hours 59.
const END_OF_DAY: u64 = 2400;

const NO_TIME: u64 = 9999;

// Ultimate receiver and references: 0 to 76 bytes.
pub fn is_reference(f: &[u8]) -> bool
    ensures { result ≡ leb (length f.now) longest_name }
{
    f.len() <= LONGEST_NAME
}

// Sender, receiver, originator, account number: 1 to 76 bytes.
pub fn is_name(f: &[u8]) -> bool
    ensures { result ≡ between 1 longest_name (length f.now) }
{
    !is_empty(f) && is_reference(f)
}

// A byte that may stand in a field: an allowed one, no comma and no slash.
fn in_field(b: u8) -> bool
    ensures { result ≡ in_field b }
{
    matches!(b, b' '..=b'~') && b != b',' && b != b'/'
}

// Bytes that may all stand in a field.
pub fn is_clean(f: &[u8]) -> bool
    ensures { result ≡ clean f.now }
{
    f.iter().all(|&b| in_field(b))
}

// No byte.
pub fn is_empty(f: &[u8]) -> bool
    ensures { result ≡ is_empty f.now }
{
    f.is_empty()
}

// One byte from lo to hi.
pub fn is_one_of(f: &[u8], lo: u8, hi: u8) -> bool
    ensures { result ≡ one_of lo hi f.now }
{
    f.len() == 1 && lo <= f[0] && f[0] <= hi
}

// Empty, or three of A to Z.
pub fn is_currency(f: &[u8]) -> bool
    ensures { result ≡ is_currency f.now }
{
    is_empty(f) || f.len() == 3 && base_digits::all_between(f, b'A', b'Z')
}

// The physical length: 1 to 4 digits, 48 to 4096.
pub fn is_length(f: &[u8]) -> bool
    ensures { result ≡ is_length f.now }
{
    base_digits::is_digits(f, 1, 4)
        && (SHORTEST_LENGTH..=LONGEST_LINE as u64).contains(&base_digits::value(f))
}

// Hours 00 to 23 with minutes 00 to 59, or 2400, or 9999.
pub fn is_time(f: &[u8]) -> bool
    ensures { result ≡ is_time f.now }
{
    if !base_digits::is_digits(f, 4, 4) {
        return false;
    }
    let n = base_digits::value(f);
    let hours = base_digits::value(&f[0..2]);
    let minutes = base_digits::value(&f[2..4]);
    hours <= 23 && minutes <= 59 || n == END_OF_DAY || n == NO_TIME
}

// The classes of type codes.
#[derive(Clone, Copy)]
pub enum Class {
    Status,
    SummaryOnly,
    SummaryOrDetail,
    NonMonetary,
    Unknown,
}

// The class of a number.
pub fn class_of(n: u64) -> Class
    ensures { class_meant result ≡ class_of n }
{
    match n {
        1..=99 | 900..=919 => Class::Status,
        100 | 400 => Class::SummaryOnly,
        101..=799 | 920..=999 => Class::SummaryOrDetail,
        890 => Class::NonMonetary,
        _ => Class::Unknown,
    }
}

// The class of a type field: three digits; anything else is of none.
pub fn type_class(f: &[u8]) -> Class
    ensures { class_meant result ≡ type_class f.now }
{
    if base_digits::is_digits(f, 3, 3) {
        class_of(base_digits::value(f))
    } else {
        Class::Unknown
    }
}
