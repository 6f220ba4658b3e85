// Quantities that must not mix: minor units, counts of groups, accounts and details, counts of records, and places of bytes.

#![tactic(auto)]

ghost use Rattle.std.specs.Prelude.{◌≡◌, ◌+◌, min};
ghost use Rattle.rules.specs.Numbers.{zero_sum, as_sum, ◌⊕◌};
ghost use Rattle.base_quantities.specs.QuantityMeanings.{sum_meant, signed_meant, wrapped, wrapped_sum, units_within, most_records};

use base_limits::MOST;

// A sum of minor units: what came with a plus, and what came with a minus.
#[derive(Clone, Copy)]
pub struct Units(pub u64, pub u64);

// Minor units without a sign.
#[derive(Clone, Copy)]
pub struct Magnitude(pub u64);

// Minor units with a sign, as a call of the writer gives them.
#[derive(Clone, Copy)]
pub struct Signed {
    pub negative: bool,
    pub magnitude: Magnitude,
}

// How many groups, accounts or details.
#[derive(Clone, Copy)]
pub struct Count(pub u64);

// How many records.
#[derive(Clone, Copy)]
pub struct Records(pub u64);

// A byte's place.
#[derive(Clone, Copy)]
pub struct Place(pub usize);

impl Units {
    // The sum of no amounts.
    pub fn none() -> Units
        ensures { sum_meant result ≡ zero_sum }
    {
        Units(0, 0)
    }

    // A magnitude with its sign, as a sum: a debit is a plus like a credit, and only a minus sign counts as a minus.
    pub fn of(given: Signed) -> Units
        ensures { sum_meant result ≡ as_sum (signed_meant given) }
    {
        let Magnitude(n) = given.magnitude;
        if given.negative {
            return Units(0, n);
        }
        Units(n, 0)
    }

    // Both sums in one, pluses to pluses and minuses to minuses; a side past the largest number of 64 bits wraps.
    pub fn add(self, other: Units) -> Units
        ensures { sum_meant result ≡ wrapped_sum (sum_meant self ⊕ sum_meant other) }
    {
        Units(self.0.wrapping_add(other.0), self.1.wrapping_add(other.1))
    }

    // Both sums in one, unless the magnitudes pass the largest sum.
    pub fn join(self, other: Units) -> Option<Units>
        ensures { result ≡ units_within (sum_meant self ⊕ sum_meant other) }
    {
        let pluses = self.0.checked_add(other.0)?;
        let minuses = self.1.checked_add(other.1)?;
        if MOST < pluses.checked_add(minuses)? {
            return None;
        }
        Some(Units(pluses, minuses))
    }
}

impl Count {
    // Both counts together; past the largest number of 64 bits it wraps.
    pub fn add(self, more: Count) -> Count
        ensures { result.0 ≡ wrapped (self.0 + more.0) }
    {
        Count(self.0.wrapping_add(more.0))
    }
}

impl Records {
    // Both counts together, and the largest where they would pass it.
    pub fn add(self, more: Records) -> Records
        ensures { result.0 ≡ min (self.0 + more.0) most_records }
    {
        Records(self.0.saturating_add(more.0))
    }
}
