// What a walk keeps of a record's fields for the checks that come after it: 10, a trailer's 11 to 14, and L.

#![tactic(auto, unfolding(crate::specs::KeepFields::keep_read, crate::specs::KeepFields::keep_with))]

ghost use Rattle.std.specs.Prelude.{◌≡◌, true, not, ◌+◌, ltb};
ghost use Rattle.rules.specs.Numbers.{magnitudes};
ghost use Rattle.rules.specs.Limits.{most};
ghost use Rattle.rules.specs.Grammar.{next_kind};
ghost use Rattle.base_quantities.specs.QuantityMeanings.{sum_meant};
ghost use Rattle.base_amounts.specs.AmountsRead.{amount_read};
ghost use Rattle.read_wanted.specs.Wants.{wanted_of, for_total, for_count, for_records, for_length, for_nothing, same_purpose, purpose};
ghost use Rattle.read_kept.specs.KeepFields.{first_of, nothing_kept, added_to, keep_read};

use base_limits::MOST;
use base_quantities::{Count, Magnitude, Place, Records, Units};
use read_wanted::want::{Keep, Want};

// What a trailer states, and where it stands: its total less its sign, its count of accounts or groups, or its record count.
#[derive(Clone, Copy)]
pub struct Stated<T> {
    pub at: Place,
    pub value: T,
}

// before: the magnitudes of the records before; sum: of this record's amounts; past: where the first of them passed the largest; length: L, where it is given.
// seen: the field was there. A figure that wasn't there is 0 at place 0, as in the rules, so only `keep` asks whether it was.
#[derive(Clone, Copy)]
pub struct Kept {
    pub before: Magnitude,
    pub sum: Units,
    pub past: Option<Place>,
    pub total: Stated<Magnitude>,
    pub count: Stated<Count>,
    pub records: Stated<Records>,
    pub length: Option<usize>,
    pub total_seen: bool,
    pub total_negative: bool,
    pub count_seen: bool,
    pub records_seen: bool,
    pub length_seen: bool,
}

// The figure that was stated first: the old one where one was seen, else the new one.
fn first<T: Copy>(seen: bool, old: Stated<T>, new: Stated<T>) -> Stated<T>
    ensures { result ≡ first_of true seen old new }
{
    if seen { old } else { new }
}

// The next field is kept for something.
pub fn is_kept(want: Want) -> bool
    ensures { result ≡ not (same_purpose for_nothing (purpose (next_kind (wanted_of want)))) }
{
    !matches!(read_wanted::want::kept_for(want), Keep::Nothing)
}

impl Kept {
    // Nothing is kept yet, after records with these magnitudes.
    pub fn none(before: Magnitude) -> Kept
        ensures { result ≡ nothing_kept before.0 }
    {
        Kept {
            before,
            sum: Units(0, 0),
            past: None,
            total: Stated {
                at: Place(0),
                value: Magnitude(0),
            },
            count: Stated {
                at: Place(0),
                value: Count(0),
            },
            records: Stated {
                at: Place(0),
                value: Records(0),
            },
            length: None,
            total_seen: false,
            total_negative: false,
            count_seen: false,
            records_seen: false,
            length_seen: false,
        }
    }

    // The magnitudes with n more pass the largest.
    fn passes(self, n: Magnitude) -> bool
        ensures { result ≡ ltb most (self.before.0 + magnitudes (sum_meant self.sum) + n.0) }
    {
        let sum = self.sum;
        if MOST < self.before.0 {
            return true;
        }
        let room = MOST - self.before.0;
        room < sum.0 || room - sum.0 < sum.1 || room - sum.0 - sum.1 < n.0
    }

    // With an amount more, unless it or one before it passes the largest.
    fn add_amount(self, at: Place, f: &[u8]) -> Kept
        ensures { result ≡ added_to self at.0 (amount_read f.now) }
    {
        if self.past.is_some() {
            return self;
        }
        let mut kept = self;
        let a = base_amounts::amount_in(f);
        if self.passes(base_amounts::magnitude_of(a)) {
            kept.past = Some(at);
            return kept;
        }
        kept.sum = self.sum.add(base_amounts::adds(a));
        kept
    }

    // With a trailer's total, unless one was there before it.
    fn keep_total(self, at: Place, f: &[u8]) -> Kept
        ensures { result ≡ keep_read for_total self at.0 f.now }
    {
        if self.total_seen {
            return self;
        }
        let mut kept = self;
        let a = base_amounts::amount_in(f);
        kept.total = Stated {
            at,
            value: base_amounts::magnitude_of(a),
        };
        kept.total_negative = base_amounts::is_minus(a);
        kept.total_seen = true;
        kept
    }

    // With a trailer's count of accounts or groups, unless one was there before it.
    fn keep_count(self, at: Place, f: &[u8]) -> Kept
        ensures { result ≡ keep_read for_count self at.0 f.now }
    {
        let value = Count(base_digits::value(f));
        let mut kept = self;
        kept.count = first(self.count_seen, self.count, Stated { at, value });
        kept.count_seen = true;
        kept
    }

    // With a trailer's record count, unless one was there before it.
    fn keep_records(self, at: Place, f: &[u8]) -> Kept
        ensures { result ≡ keep_read for_records self at.0 f.now }
    {
        let value = Records(base_digits::value(f));
        let mut kept = self;
        kept.records = first(self.records_seen, self.records, Stated { at, value });
        kept.records_seen = true;
        kept
    }

    // With L, unless it was there before.
    fn keep_length(self, f: &[u8]) -> Kept
        ensures { result ≡ keep_read for_length self 0 f.now }
    {
        if self.length_seen {
            return self;
        }
        let mut kept = self;
        kept.length = if read_values::is_empty(f) {
            None
        } else {
            Some(base_digits::value(f) as usize)
        };
        kept.length_seen = true;
        kept
    }

    // With a field that is the first of what is wanted, kept for what it is needed for.
    pub fn keep(self, want: Want, at: Place, f: &[u8]) -> Kept
        ensures { result ≡ keep_read (purpose (next_kind (wanted_of want))) self at.0 f.now }
    {
        match read_wanted::want::kept_for(want) {
            Keep::Nothing => self,
            Keep::Amount => self.add_amount(at, f),
            Keep::Total => self.keep_total(at, f),
            Keep::Count => self.keep_count(at, f),
            Keep::Records => self.keep_records(at, f),
            Keep::Length => self.keep_length(f),
        }
    }
}
