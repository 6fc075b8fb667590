// The whole number nearest to the root of a * 2^52, for every a from 2^52 to less than 2^54 (01-scope 4.1, 4.3): the digits of a root.
// Computed, by multiplications: from the list's entry at a / 2^44, the top ten of a's 54 digits, a y near 2^58 / root(4 a); with y a
// p near root(4 a), not above it, and q = (4 a - p^2) * y / 2^34. So s = p * 2^25 + q should be the root rounded down, or one less.
// Checked, by exact whole numbers: d = 4 a - p^2, e = d * 2^24 - p * q and r = e * 2^26 - q^2, each taken modulo 2^64. Each is the true
// difference where it is so small that what was taken away can be added back without reaching 2^64, and each is tested for that.
// That is enough: r is then a * 2^52 - s^2, and the rule, (2 R - 1)^2 < 4 a * 2^52 < (2 R + 1)^2, holds for R = s where r is at most s,
// and for R = s + 1 where r is from s + 1 to 3 s + 2. How near the candidate s is, no proof asks.
// Where a test fails, the digits of the whole root are found one by one, after the first five, which are the same entry of the list,
// and what is left over decides in the same way. Of the candidate nothing is used then.
#![tactic(auto)]

ghost use Rattle.std.specs.Prelude.{◌≡◌, ◌+◌, ◌*◌, ◌^◌, ◌<◌, ◌≤◌};
ghost use Rattle.whole_root.specs.Whole.{Close, evened_of};
ghost use Rattle.whole_root.specs.Steps.{Digits, IsEvened};

mod list;

// A whole root s, and what is left over, r.
#[derive(Clone, Copy)]
struct Rooted {
    s: u64,
    r: u64,
}

// A whole number in two parts: p * 2^25 + q.
#[derive(Clone, Copy)]
struct Halves {
    p: u64,
    q: u64,
    ghost p_below: { p < 2 ^ 30 },
    ghost q_below: { q < 2 ^ 30 },
}

// The 53 digits that m leads with, the first taken for 1, or twice that where u is odd: what is left of the power 2^u is a square.
fn evened(m: u64, u: u64) -> u64
    ensures value { result ≡ evened_of m u }
    ensures range { IsEvened result }
{
    let s = (m % 0x8000_0000_0000_0000 + 0x8000_0000_0000_0000) / 0x800;
    if u % 2 == 0 { s } else { s * 2 }
}

// The 53 binary digits of the whole root of a * 2^52, and what is left over. The list has the first five;
// a turn takes two digits of the number, from the top of b, and finds one of the root.
fn digits(a: u64) -> Rooted
    requires { IsEvened a }
    ensures { Digits (a * 2 ^ 52) result.s result.r }
{
    let n = a / 0x1000_0000_0000;
    let mut s = list::start(n);
    let mut r = n - s * s;
    let mut b = a % 0x1000_0000_0000 * 0x10_0000;
    for _ in 5u64..53 {
        let w = r * 4 + b / 0x4000_0000_0000_0000;
        let t = s * 4 + 1;
        b = b % 0x4000_0000_0000_0000 * 4;
        if w < t {
            r = w;
            s = s * 2;
        } else {
            r = w - t;
            s = s * 2 + 1;
        }
    }
    Rooted { s, r }
}

// The whole number nearest to the root of s^2 + r, which the bound on r keeps below s + 3/2: one up where more is left over than s.
#[tactic(auto, using(crate::proofs::Whole::stays, crate::proofs::Whole::goes_up))]
fn nearest(d: Rooted) -> u64
    requires { (0 < d.s) × (d.s < 2 ^ 56) × (d.r < 3 * d.s + 3) }
    ensures { Close (d.s * d.s + d.r) result }
{
    if d.s < d.r { d.s + 1 } else { d.s }
}

// Newton's step towards 2^31 / root(h / 2^29), from a y near it. What u's divisions drop raises w by less than 3; with the 4 the answer is
// not above that number, so that p^2 is not above 4 a. Near it the two % change nothing: they bound the products, for the proof.
fn closer(y: u64, h: u64) -> u64
    requires { (y < 2 ^ 32) × (h < 2 ^ 31) }
    ensures { result < 2 ^ 32 }
{
    let u = y * y / 0x8000_0000 * h / 0x4000_0000;
    let w = (0xc000_0000u64 - 4).wrapping_sub(u) % 0x1_0000_0000;
    y * w / 0x8000_0000 % 0x1_0000_0000
}

// Near 2^31 / root(h / 2^29), s being the first five digits of that root. A parabola comes within one part in 30, the steps within one in
// 600, one in 240,000, and some units of y's last place.
fn inverse(h: u64, s: u64) -> u64
    requires { (h < 2 ^ 31) × (16 ≤ s) × (s < 32) }
    ensures { result < 2 ^ 32 }
{
    let c = 34 - s;
    closer(closer(closer(1_081_400_000 + 3_072_300 * c * c, h), h), h)
}

// p * 2^25 + q should be the root of a * 2^52 rounded down, or one less. h is the first 31 of a's 54 digits; the % bounds d, for the proof.
#[tactic(auto, using(crate::proofs::Starts::five))]
fn candidate(a: u64) -> Halves
    requires { IsEvened a }
{
    let h = a / 0x80_0000;
    let y = inverse(h, list::start(a / 0x1000_0000_0000));
    let p = h * y / 0x2_0000_0000;
    let d = (4 * a).wrapping_sub(p * p) % 0x1_0000_0000;
    Halves {
        p,
        q: d * y / 0x4_0000_0000,
    }
}

// The whole number nearest to the root of a * 2^52: by s = p * 2^25 + q where the check shows what that leaves over, else by the digits.
fn checked(a: u64, candidate: Halves) -> u64
    requires { IsEvened a }
    ensures { Close (a * 2 ^ 52) result }
{
    let Halves { p, q } = candidate;
    let s = p * 0x200_0000 + q;
    let d = (4 * a).wrapping_sub(p * p);
    if d < 0x4000_0000 {
        let e = (d * 0x100_0000).wrapping_sub(p * q);
        if e < 0x4000_0000 {
            let r = (e * 0x400_0000).wrapping_sub(q * q);
            if r < 3 * s + 3 {
                return nearest(Rooted { s, r });
            }
        }
    }
    nearest(digits(a))
}

// The whole number nearest to the root of a * 2^52, with the a that `evened` makes of m and u. Any two words will do.
pub fn nearest_root(m: u64, u: u64) -> u64
    ensures { Close (evened_of m u * 2 ^ 52) result }
{
    let a = evened(m, u);
    checked(a, candidate(a))
}
