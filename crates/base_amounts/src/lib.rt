// Amounts as fields give them: empty, unsigned, with plus, with minus; what they add, and how they are told.

#![tactic(auto)]

ghost use Rattle.std.specs.Prelude.{◌≡◌};
ghost use Rattle.rules.specs.Amounts.{magnitude_of, amount_adds};
ghost use Rattle.rules.specs.Answers.{form_number};
ghost use Rattle.base_quantities.specs.QuantityMeanings.{sum_meant};
ghost use Rattle.base_amounts.specs.AmountsRead.{amount_meant, amount_read, is_minus};

use base_quantities::{Magnitude, Units};

// An amount or a total as a field gives it.
#[derive(Clone, Copy)]
pub enum Amount {
    Empty,
    Unsigned(Magnitude),
    WithPlus(Magnitude),
    WithMinus(Magnitude),
}

// The amount in a field; its magnitude is 0 where no number of up to 18 digits is given.
pub fn amount_in(f: &[u8]) -> Amount
    ensures { amount_meant result ≡ amount_read f.now }
{
    let magnitude = Magnitude(base_digits::value(base_digits::without_sign(f)));
    match f.first() {
        None => Amount::Empty,
        Some(b'+') => Amount::WithPlus(magnitude),
        Some(b'-') => Amount::WithMinus(magnitude),
        Some(_) => Amount::Unsigned(magnitude),
    }
}

// Its magnitude; 0 where it is empty.
pub fn magnitude_of(a: Amount) -> Magnitude
    ensures { result.0 ≡ magnitude_of (amount_meant a) }
{
    match a {
        Amount::Empty => Magnitude(0),
        Amount::Unsigned(n) | Amount::WithPlus(n) | Amount::WithMinus(n) => n,
    }
}

// It has a minus.
pub fn is_minus(a: Amount) -> bool
    ensures { result ≡ is_minus (amount_meant a) }
{
    matches!(a, Amount::WithMinus(_))
}

// What it adds to a total.
pub fn adds(a: Amount) -> Units
    ensures { sum_meant result ≡ amount_adds (amount_meant a) }
{
    match a {
        Amount::Empty => Units::none(),
        Amount::Unsigned(n) | Amount::WithPlus(n) => Units(n.0, 0),
        Amount::WithMinus(n) => Units(0, n.0),
    }
}

// How it was given, as a number: 0 empty, 1 unsigned, 2 with plus, 3 with minus.
pub fn form_of(a: Amount) -> u64
    ensures { result ≡ form_number (amount_meant a) }
{
    match a {
        Amount::Empty => 0,
        Amount::Unsigned(_) => 1,
        Amount::WithPlus(_) => 2,
        Amount::WithMinus(_) => 3,
    }
}
