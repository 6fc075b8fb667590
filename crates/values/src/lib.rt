// A kernel's answer as C and Rust take it: the refusal number returned, the values one after the other in a lent array, +0 throughout after a refusal.
#![tactic(auto)]

ghost use Rattle.std.specs.Prelude.{◌≡◌, List, ◌∷◌, ◌++◌, Float};
ghost use Rattle.values.specs.Values.{IsGiven};

use quadratic_bending::Bending;
use refusal::{ACCEPTED, Energy, Refusal};
use strain::Values;

// What fills N places.
pub trait Flat<const N: usize> {
    ghost flat: { Self → List Float };

    fn put(&self, values: &mut [f64; N])
        ensures { values.new ≡ flat self.now };
}

impl Flat<39> for Bending {
    ghost flat = { λ bending. bending.w ++ bending.dwdp };

    #[inline(always)]
    fn put(&self, values: &mut [f64; 39]) {
        values[..3].copy_from_slice(&self.w);
        values[3..].copy_from_slice(&self.dwdp);
    }
}

impl Flat<30> for Values {
    ghost flat = { λ strain. strain.w ++ strain.dw };

    #[inline(always)]
    fn put(&self, values: &mut [f64; 30]) {
        values[..3].copy_from_slice(&self.w);
        values[3..].copy_from_slice(&self.dw);
    }
}

impl Flat<91> for Energy {
    ghost flat = { λ energy. energy.w ∷ energy.dw ++ energy.ddw };

    #[inline(always)]
    fn put(&self, values: &mut [f64; 91]) {
        values[0] = self.w;
        values[1..10].copy_from_slice(&self.dw);
        values[10..].copy_from_slice(&self.ddw);
    }
}

// Inlined, as each `put` is, so that an answer's numbers are not copied on their way, nor by a call of memmove, which the archive does not ask of a C library.
#[inline(always)]
pub fn give<T: Flat<N> + Drop, const N: usize>(
    answer: Result<T, Refusal>,
    values: &mut [f64; N],
) -> u32
    ensures { IsGiven N T.flat answer result values.new }
{
    match answer {
        Ok(numbers) => {
            numbers.put(values);
            ACCEPTED
        }
        Err(refusal) => {
            values.fill(0.0);
            refusal.number()
        }
    }
}
