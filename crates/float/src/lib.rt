// One number: finite and zero tests, and bits in and out.
#![tactic(auto)]

ghost use Rattle.std.specs.Prelude.{◌≡◌, ◌<◌, ◌^◌};
ghost use Rattle.std.specs.Float.{binary64};
ghost use Rattle.std.specs.Float.Ieee.{of_bits, to_bits};
ghost use Rattle.std.specs.Float.Ieee.Scale.{finite};
ghost use Rattle.float.specs.Numbers.{is_zero, big_endian};

// The bits of the one NaN (01-scope 4.2).
pub const NAN_WORD: u64 = 0x7ff8_0000_0000_0000;

// Whether x is neither a NaN nor an infinity.
#[tactic(auto, using(crate::proofs::Bits::finite_is))]
pub fn is_finite(x: f64) -> bool
    ensures { result ≡ finite x }
{
    x.is_finite()
}

// Whether x is a zero of either sign.
#[tactic(auto, using(crate::proofs::Patterns::equals_zero))]
pub fn is_zero(x: f64) -> bool
    ensures { result ≡ is_zero x }
{
    x == 0.0
}

// The number of 32 bits whose bytes these are, the highest first.
#[tactic(auto, using(crate::proofs::BigEndian::of_four))]
pub fn four_bytes(bytes: [u8; 4]) -> u64
    ensures { (result ≡ big_endian bytes) × (result < 2 ^ 32) }
{
    u64::from(u32::from_be_bytes(bytes))
}

// The pattern whose bytes these are, the highest first.
#[tactic(auto, using(crate::proofs::BigEndian::of_eight))]
pub fn of_bytes(bytes: [u8; 8]) -> u64
    ensures { result ≡ big_endian bytes }
{
    u64::from_be_bytes(bytes)
}

// The number that a pattern of 64 bits stands for; every NaN's pattern is the one NaN.
#[tactic(auto, using(crate::proofs::Bits::above_nan, crate::proofs::Bits::below_no_nan))]
pub fn of_word(w: u64) -> f64
    ensures { result ≡ of_bits binary64 w }
{
    if w % 0x8000_0000_0000_0000 > 0x7ff0_0000_0000_0000 {
        return f64::NAN;
    }
    f64::from_bits(w)
}

// The bits of x; a NaN's are those of the one NaN, whichever the machine holds.
#[tactic(auto, using(crate::proofs::Bits::nan_bits_lem, crate::proofs::Bits::differs_nan, crate::proofs::Bits::same_no_nan))]
pub fn to_word(x: f64) -> u64
    ensures { result ≡ to_bits binary64 x }
{
    if x.is_nan() {
        return NAN_WORD;
    }
    x.to_bits()
}
