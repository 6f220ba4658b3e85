// Dates: YYMMDD, years 2000 to 2099, a day that its month has.
#![tactic(auto, unfolding(rules::specs::Numbers::digits, rules::specs::Dates::days_of, rules::specs::Dates::is_date, crate::specs::ValueMeanings::date_in))]

ghost use Rattle.std.specs.Prelude.{◌≡◌};
ghost use Rattle.rules.specs.Dates.{is_date, days_of};
ghost use Rattle.read_values.specs.ValueMeanings.{date_in};

// A year of the century, a month and a day.
#[derive(Clone, Copy)]
pub struct Date {
    pub year: u64,
    pub month: u64,
    pub day: u64,
}

impl Date {
    // Its limits: how many digits it has, the last month, and what makes a year a leap year.
    pub const DIGITS: usize = 6;

    pub const MONTHS: u64 = 12;

    pub const FEBRUARY: u64 = 2;

    pub const LEAP_YEARS: u64 = 4;

    // The days of a month; February 29 where YY divides by 4.
    pub fn days_in(year: u64, month: u64) -> u64
        ensures { result ≡ days_of year month }
    {
        match month {
            Date::FEBRUARY if year % Date::LEAP_YEARS == 0 => 29,
            Date::FEBRUARY => 28,
            4 | 6 | 9 | 11 => 30,
            _ => 31,
        }
    }

    // The date that six digits give, if they give one.
    pub fn read(f: &[u8]) -> Option<Date>
        ensures { result ≡ date_in f.now }
    {
        if !base_digits::is_digits(f, Date::DIGITS, Date::DIGITS) {
            return None;
        }
        let year = base_digits::value(&f[0..2]);
        let month = base_digits::value(&f[2..4]);
        let day = base_digits::value(&f[4..6]);
        // By `<` and no ranges: the tests are those of the definition, and so the proof finds them.
        if month < 1 || Date::MONTHS < month || day < 1 || Date::days_in(year, month) < day {
            return None;
        }
        Some(Date { year, month, day })
    }
}

// Six digits that give a date.
pub fn is_date(f: &[u8]) -> bool
    ensures { result ≡ is_date f.now }
{
    Date::read(f).is_some()
}
