// Which numbers a person is shown as decimals: whole multiples of 2^-10 of size below 2^40.
#![tactic(auto)]

ghost use Rattle.std.specs.Prelude.{◌%◌, ◌^◌};
ghost use Rattle.units.specs.Units.{IsScaled};

// The size of the number that has the pattern w, in units of 2^-10: how many of them it is exactly, where that is a whole number below 2^50.
#[tactic(auto, using(crate::proofs::Sizes::cases))]
pub fn scaled(w: u64) -> Option<u64>
    ensures { IsScaled (w % 2 ^ 63) result }
{
    let b = w % 0x8000_0000_0000_0000;
    let e = b / 0x10_0000_0000_0000;
    if b == 0 {
        return Some(0);
    }
    if e < 1013 || e > 1062 {
        return None;
    }
    let one = 1u64 << (1065 - e);
    let m = b % 0x10_0000_0000_0000 + 0x10_0000_0000_0000;
    if m % one != 0 {
        return None;
    }
    Some(m / one)
}
