// A double in whole units of 10^-p: the nearest number of them, a tie to the even one.
ghost use Rattle.std.specs.Prelude.{◌≡◌, true, cond, ℕ, ◌+◌, ◌*◌, ◌^◌, ◌≤◌, ◌<◌, min, pos};
ghost use Rattle.std.specs.Float.{binary64};
ghost use Rattle.std.specs.Float.Ieee.{of_int, le, neg};
ghost use Rattle.decimal.specs.Units.{IsNearest, tiny, units_of, IsUnits};

// So many units with their sign; 10^18 units or more; or a NaN.
#[derive(Clone, Copy, Debug, PartialEq, Eq)]
pub enum Amount {
    Count { negative: bool, n: u64 },
    Large,
    NoNumber,
}

// 2^-31, less than half a unit for every p.
const TINY: f64 = f64::from_bits(0x3e00_0000_0000_0000);

// 10^k, which is a double.
pub(crate) fn ten(k: usize) -> f64
    requires { k ≤ 22 }
    ensures { result ≡ of_int binary64 (pos (10 ^ k)) }
{
    let mut power = 1.0;
    for _ in 0..k {
        power = power * 10.0;
    }
    power
}

fn two(k: u64) -> u64
    requires { k < 64 }
    ensures { result ≡ 2 ^ k }
{
    1u64 << k
}

// q, or one more where what is over of 2 * half is more than half of it, or half of it and q odd; a tail lies below what is over.
fn rounded(q: u64, over: u64, half: u64, tail: u64) -> u64
    requires { (q < 2 ^ 63) × (over < 2 * half) }
    ensures { (k : ℕ) → tail < k → IsNearest (q * (2 * half * k) + (over * k + tail)) (2 * half * k) result }
{
    if over < half {
        return q;
    }
    if half < over {
        return q + 1;
    }
    if 0 < tail { q + 1 } else { q + q % 2 }
}

// The whole number nearest to m * t / 2^j. The product is high * 2^30 + low.
fn nearest(m: u64, t: u64, j: u64) -> u64
    requires { (m < 2 ^ 61) × (t ≤ 10 ^ 9) × (0 < j) × (j ≤ 91) × (m * t < 10 ^ 18 * 2 ^ j) }
    ensures { IsNearest (m * t) (2 ^ j) result }
{
    let part = m % 0x4000_0000 * t;
    let high = m / 0x4000_0000 * t + part / 0x4000_0000;
    let low = part % 0x4000_0000;
    if 30 < j {
        let half = two(j - 31);
        let one = 2 * half;
        return rounded(high / one, high % one, half, low);
    }
    let half = two(j - 1);
    let one = 2 * half;
    rounded(high * two(30 - j) + low / one, low % one, half, 0)
}

// y or -y in units of 10^-p. By its fields y is m / 2^j.
fn counted(y: f64, negative: bool, p: usize) -> Amount
    requires { (p ≤ 9) × (le tiny y ≡ true) }
    ensures { result ≡ units_of p (cond negative (neg y) y) }
{
    if ten(18 - p) <= y {
        return Amount::Large;
    }
    let w = float::to_word(y);
    let m = (w % 0x10_0000_0000_0000 + 0x10_0000_0000_0000) * 256;
    let j = 1083 - w / 0x10_0000_0000_0000;
    let n = nearest(m, ten(p) as u64, j);
    Amount::Count {
        negative: negative & (0 < n),
        n,
    }
}

// x in whole units of 10^-p, the nearest number of them, a tie to the even one; a p above 9 counts as 9. A minus only where n is not 0.
pub fn units(x: f64, p: usize) -> Amount
    ensures { IsUnits (min p 9) x result }
{
    if x.is_nan() {
        return Amount::NoNumber;
    }
    let places = p.min(9);
    if TINY <= x {
        return counted(x, false, places);
    }
    if TINY <= -x {
        return counted(-x, true, places);
    }
    Amount::Count {
        negative: false,
        n: 0,
    }
}
