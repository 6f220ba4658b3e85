// Numbers written: their digits without leading zeros, and totals with a minus in front where one is due.

#![tactic(auto)]

ghost use Rattle.std.specs.Prelude.{◌≡◌, ◌∷◌, ◌≤◌, length};
ghost use Rattle.rules.specs.Numbers.{decimal, total_bytes};
ghost use Rattle.base_quantities.specs.QuantityMeanings.{sum_meant};
ghost use Rattle.base_numerals.specs.PutBytes.{Put};

use base_quantities::Units;

// How many digits n has.
pub fn digit_count(n: u64) -> usize
    ensures { (result ≡ length (decimal n)) × (result ≤ 20) }
{
    let mut m = n;
    let mut k: usize = 1;
    // No `for`: a step is a digit fewer, and how many there are is what is asked.
    while 10 <= m {
        m /= 10;
        k += 1;
    }
    k
}

// The digits of n at the front of out: how many; or 0, and nothing changed, where they don't fit.
pub fn put_digits(out: &mut [u8], n: u64) -> usize
    ensures { Put (decimal n) out.old result out.new }
{
    let k = digit_count(n);
    if out.len() < k {
        return 0;
    }
    let mut m = n;
    for i in (0..k).rev() {
        out[i] = b'0' + (m % 10) as u8;
        m /= 10;
    }
    k
}

// A byte and the digits of n at the front of out: how many bytes; or 0, and nothing changed, where they don't fit.
pub fn put_digits_after(out: &mut [u8], first: u8, n: u64) -> usize
    ensures { Put (first ∷ decimal n) out.old result out.new }
{
    let k = digit_count(n);
    if out.len() < k + 1 {
        return 0;
    }
    out[0] = first;
    put_digits(&mut out[1..], n) + 1
}

// A sum as one number at the front of out, its minus first: how many bytes; or 0, and nothing changed, where they don't fit.
pub fn put_total(out: &mut [u8], total: Units) -> usize
    ensures { Put (total_bytes (sum_meant total)) out.old result out.new }
{
    let Units(pluses, minuses) = total;
    if pluses < minuses {
        return put_digits_after(out, b'-', minuses - pluses);
    }
    put_digits(out, pluses - minuses)
}
