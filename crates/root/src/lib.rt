// IEEE 754's squareRoot of a binary64, nearest, by whole numbers on its bits (01-scope 4). A finite x above 0 is a * 2^52 times the
// square of a power of two, with 2^52 <= a < 2^54, and its root has the digits of R, the whole number nearest to the root of a * 2^52.
// Here x is taken apart, and the answer put together from its digits, which `whole_root` finds.
#![tactic(auto)]

ghost use Rattle.std.specs.Prelude.{false, ◌*◌, ◌^◌, ◌≤◌, ◌<◌};
ghost use Rattle.std.specs.Float.{binary64};
ghost use Rattle.std.specs.Float.Ieee.{of_bits};
ghost use Rattle.std.specs.Float.Ieee.Exact.{HasValue};
ghost use Rattle.whole_root.specs.Whole.{significand};
ghost use Rattle.root.specs.Root.{SquareRoot, SquareRootWord, Nearest};
ghost use Rattle.root.specs.Steps.{Unpacked};

// The pattern of +infinity; those of the finite numbers that are not negative lie below it.
const INFINITY_WORD: u64 = 0x7ff0_0000_0000_0000;

// A number's parts: the digits that m leads with, the first taken for 1, times 2^u / 2^(1074 + 1022). The 1022 makes u / 2 the root's power.
#[derive(Clone, Copy)]
struct Parts {
    m: u64,
    u: u64,
}

// The parts of the subnormal pattern b: its digits, moved up.
fn moved_up(b: u64) -> Parts
    requires { (0 < b) × (b < 2 ^ 52) }
    ensures { Unpacked binary64 1022 b (significand result.m) result.u }
{
    let z = b.leading_zeros();
    Parts {
        m: b << z,
        u: 1033 - u64::from(z),
    }
}

// The parts of the pattern b of a finite number above 0.
fn unpack(b: u64) -> Parts
    requires { (0 < b) × (b < INFINITY_WORD) }
    ensures { Unpacked binary64 1022 b (significand result.m) result.u }
{
    let e = b / 0x10_0000_0000_0000;
    if e == 0 {
        return moved_up(b);
    }
    Parts {
        m: b << 11,
        u: e + 1021,
    }
}

// The number n * 2^j / 2^1074, n of 53 digits.
#[tactic(auto, using(crate::proofs::Fields::pack_value, float::proofs::Bits::below_no_nan))]
fn pack(n: u64, j: u64) -> f64
    requires { (2 ^ 52 ≤ n) × (n < 2 ^ 53) × (j ≤ 1533) }
    ensures { HasValue result false (n * 2 ^ j) (2 ^ 1074) }
{
    f64::from_bits(j * 0x10_0000_0000_0000 + n)
}

// The root of the finite number above 0 that has the pattern b.
fn positive(b: u64) -> f64
    requires { (0 < b) × (b < INFINITY_WORD) }
    ensures { Nearest binary64 (of_bits binary64 b) result }
{
    let p = unpack(b);
    pack(whole_root::nearest_root(p.m, p.u), p.u / 2)
}

// The root of x: a finite number above 0 by its bits, both zeros and +infinity themselves, any other number and any NaN the NaN.
pub fn sqrt(x: f64) -> f64
    ensures { SquareRoot binary64 x result }
{
    if 0.0 < x {
        let b = x.to_bits();
        if b < INFINITY_WORD {
            return positive(b);
        }
        return x;
    }
    if x == 0.0 { x } else { f64::NAN }
}

// The root on bit patterns, where the NaN is 0x7ff8000000000000 on every machine.
pub fn sqrt_word(x: u64) -> u64
    ensures { SquareRootWord binary64 x result }
{
    float::to_word(sqrt(float::of_word(x)))
}
