// Numbers in fields, read: digits and signs.

#![tactic(auto)]

ghost use Rattle.std.specs.Prelude.{◌≡◌, ◌≤◌};
ghost use Rattle.rules.specs.Bytes.{all, between, minus, starts_with};
ghost use Rattle.rules.specs.Numbers.{digits, without_sign};
ghost use Rattle.rules.specs.Limits.{most};
ghost use Rattle.rules.specs.Grammar.{is_signed, is_unsigned};
ghost use Rattle.base_digits.specs.NumbersRead.{value_of};

// An amount or total has no more digits.
const MOST_DIGITS: usize = 18;

// A number of so many digits or more is asked whether zeros lead it. In shorter ones that changes from amount to amount, and a test that
// the processor can't foresee costs what it saves.
const LONG_NUMBER: usize = 16;

// So many leading zeros are passed at once.
const ZEROS_PASSED: usize = 8;

// ---- digits

// Every byte is from lo to hi.
pub fn all_between(s: &[u8], lo: u8, hi: u8) -> bool
    ensures { result ≡ all (between lo hi) s.now }
{
    for &b in s {
        if b < lo || hi < b {
            return false;
        }
    }
    true
}

// From lo to hi digits.
pub fn is_digits(s: &[u8], lo: usize, hi: usize) -> bool
    ensures { result ≡ digits lo hi s.now }
{
    if s.len() < lo || hi < s.len() {
        return false;
    }
    all_between(s, b'0', b'9')
}

// The number that up to 18 digits stand for; 0 for anything else. One test tells a digit: a byte below '0' wraps to more than 9.
pub fn value(s: &[u8]) -> u64
    ensures { (result ≡ value_of s.now) × (result ≤ most) }
{
    let mut rest = s;
    if LONG_NUMBER <= s.len() {
        if MOST_DIGITS < s.len() {
            return 0;
        }
        if all_between(&s[..ZEROS_PASSED], b'0', b'0') {
            rest = &s[ZEROS_PASSED..];
        }
    }
    let mut v: u64 = 0;
    for &b in rest {
        let d = std::num::wrapping_sub_u8(b, b'0');
        if 9 < d {
            return 0;
        }
        v = v * 10 + u64::from(d);
    }
    v
}

// ---- signs

// It begins with a minus.
pub fn is_negative(f: &[u8]) -> bool
    ensures { result ≡ starts_with minus f.now }
{
    0 < f.len() && f[0] == b'-'
}

// The bytes less a plus or minus in front. By tests and no pattern: of a pattern's first byte the proof can't say what it is.
pub fn without_sign(f: &[u8]) -> &[u8]
    ensures { result.now ≡ without_sign f.now }
{
    if 0 < f.len() && (f[0] == b'+' || f[0] == b'-') {
        return &f[1..];
    }
    f
}

// 1 to 18 digits, with at most a sign.
pub fn is_signed(f: &[u8]) -> bool
    ensures { result ≡ is_signed f.now }
{
    is_digits(without_sign(f), 1, MOST_DIGITS)
}

// 1 to 18 digits, with at most a plus.
pub fn is_unsigned(f: &[u8]) -> bool
    ensures { result ≡ is_unsigned f.now }
{
    !is_negative(f) && is_signed(f)
}
