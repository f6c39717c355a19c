//! The share of a part, by divisions that only have 64 bits.
ghost use Rattle.std.specs.Prelude.{◌≡◌, ◌*◌, ◌/◌, ◌<◌, ◌≤◌, ◌^◌};

/// The largest number of 64 bits.
const MOST: u128 = 0xffff_ffff_ffff_ffff;

/// Returns `part * all / whole`, rounded down.
pub(crate) fn share_of(part: u64, all: u64, whole: u64) -> u64
    requires less { part < whole }
    ensures value { result ≡ part * all / whole }
    ensures within { result ≤ all }
{
    let product = u128::from(part) * u128::from(all);
    if product <= MOST {
        return product as u64 / whole;
    }
    wide_quotient(product, whole)
}

/// Returns `product / divisor`, rounded down, of a product that may have 128 bits.
///
/// A quotient by the first 64 bits is at most a little low. So it takes that many divisors away,
/// and goes on with the rest until the rest has 64 bits. Mostly one division is enough: then the
/// rest is less than the divisor.
fn wide_quotient(product: u128, divisor: u64) -> u64
    requires some { 1 ≤ divisor }
    requires fits { product < divisor * 2 ^ 64 }
    ensures value { result ≡ product / divisor }
{
    let mut rest = product;
    let mut quotient = 0;
    while rest > MOST {
        let part = low_quotient(rest, divisor);
        quotient += part;
        rest -= u128::from(part) * u128::from(divisor);
    }
    let last = rest as u64;
    if last < divisor {
        quotient
    } else {
        quotient + last / divisor
    }
}

/// Returns a number from 1 to `rest / divisor`, from the first 64 bits of the rest and the
/// divisor's bits at the same places.
fn low_quotient(rest: u128, divisor: u64) -> u64
    requires wide { 2 ^ 64 ≤ rest }
    ensures low { result * divisor ≤ rest }
    ensures some { 1 ≤ result }
{
    let shift = 63 - ((rest >> 64) as u64).leading_zeros();
    let first = ((rest >> 1) >> shift) as u64;
    first / (((divisor >> 1) >> shift) + 1)
}
