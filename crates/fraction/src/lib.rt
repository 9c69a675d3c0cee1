// A part of a whole as a double, and the part that a double stands for, exactly: the one place that reckons with a double's bits.
// A whole is factor * 2^shift: a day of 86,400 seconds is 1350000000 * 2^6 microseconds, a second 1953125 * 2^9 nanoseconds.
#![tactic(auto)]

ghost use Rattle.std.specs.Prelude.{◌≡◌, ◌*◌, ◌^◌, ◌<◌, ◌≤◌, from_bits};
ghost use Rattle.std.specs.Float.{binary64};
ghost use Rattle.fraction.specs.Fraction.{fraction_of, is_fraction, is_half, nearest_of, nearest_at};
ghost use Rattle.fraction.specs.Bits.{field_of, digits_of};

// ---- written

// One rounded division.
#[tactic(auto, unfolding(crate::specs::Fraction::fraction_of))]
pub fn fraction_of(part: u64, whole: u64) -> f64
    ensures { result ≡ fraction_of whole part }
{
    std::num::nearest_u64_to_f64(part) / std::num::nearest_u64_to_f64(whole)
}

// ---- read

// At least 0 and below 1. Minus zero is one.
#[tactic(auto, using(crate::proofs::Pattern::zero_read, crate::proofs::Pattern::one_read), unfolding(crate::specs::Fraction::is_fraction))]
pub fn is_fraction(x: f64) -> bool
    ensures { result ≡ is_fraction x }
{
    0.0 <= x && x < 1.0
}

// NaN has many patterns, and any of them will do.
#[tactic(auto, using(crate::proofs::Pattern::nan_read))]
fn bits_of(x: f64) -> u64
    ensures { from_bits binary64 result ≡ x }
{
    if x.is_nan() {
        0x7ff8_0000_0000_0000
    } else {
        f64::to_bits(x)
    }
}

// A double with a field above 0 is digits * 2^(field - 1075), up to its sign.
fn field_of(bits: u64) -> u64
    ensures { result ≡ field_of bits }
{
    (bits >> 52) & 0x7ff
}

// The leading one is not among the bits.
fn digits_of(bits: u64) -> u64
    ensures { result ≡ digits_of bits }
{
    bits % (1 << 52) + (1 << 52)
}

// A whole number and a half, of either sign: the bit of one half is set and none below it.
#[tactic(auto, using(crate::proofs::Halves::low, crate::proofs::Halves::high, crate::proofs::Halves::middle_bits))]
pub fn is_half(x: f64) -> bool
    ensures { result ≡ is_half x }
{
    let bits = bits_of(x);
    let field = field_of(bits);
    // Below a half there are none, nor from 2^52 on.
    (1022..=1074).contains(&field) && digits_of(bits) % (1 << (1075 - field)) == 1 << (1074 - field)
}

// The part nearest to the exact size of a double below 1, a tie to the larger.
#[tactic(auto, using(crate::proofs::Reading::none, crate::proofs::Reading::some, crate::proofs::Reading::halves_few))]
fn nearest_in(bits: u64, field: u64, factor: u64, shift: u64) -> u64
    requires field_value { (field ≡ field_of bits) × (field < 1023) }
    requires factor_bound { (factor < 2 ^ 37) × (shift ≤ 26) }
    ensures { result ≡ nearest_of (factor * 2 ^ shift) (from_bits binary64 bits) }
{
    if field + shift < 985 {
        // Below 2^-(38 + shift), which is less than half a part.
        return 0;
    }
    let product = u128::from(digits_of(bits)) * u128::from(factor);
    // Half parts, the rest dropped.
    let halves = (product >> (1074 - (field + shift))) as u64;
    halves.div_ceil(2)
}

// The sign is not looked at. 0 where the size is not below 1, and for a whole that is not of this form.
#[tactic(auto, using(crate::proofs::Pattern::under_one, crate::proofs::Pattern::over_one, crate::proofs::Fraction::nearest_at_lem), unfolding(crate::specs::Fraction::nearest_at))]
pub fn nearest_of(x: f64, factor: u64, shift: u64) -> u64
    ensures { result ≡ nearest_at factor shift x }
{
    let bits = bits_of(x);
    let field = field_of(bits);
    if 1023 <= field || 1 << 37 <= factor || 26 < shift {
        return 0;
    }
    nearest_in(bits, field, factor, shift)
}
