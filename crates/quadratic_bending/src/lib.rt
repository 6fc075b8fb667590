// Ported from quadratic_bending.rs: how far two triangles that share an edge bend about it. `bending` computes it; here are the tests, and what is answered.
#![tactic(auto)]

ghost use Rattle.std.specs.Prelude.{◌≡◌};
ghost use Rattle.std.specs.Float.{binary64};
ghost use Rattle.quadratic_bending.specs.Bending.{is_finite_of, bending_given, IsBending};

use bending::Fold;
use corners::IsFinite;
use refusal::{Refusal, Tests};

// The derivative flat: dwdp[i_dim][node][dim] at (i_dim * 4 + node) * 3 + dim.
#[derive(Drop)]
pub struct Bending {
    pub w: [f64; 3],
    pub dwdp: [f64; 36],
}

// No `IsFinite`: the trait is of `corners` and the type of `bending`, and one would have to stand on the other.
#[tactic(auto, unfolding(crate::specs::Bending::is_finite_of))]
fn is_finite(p: Fold) -> bool
    ensures { result ≡ is_finite_of p }
{
    p.p0.is_finite() & p.p1.is_finite() & p.p2.is_finite() & p.p3.is_finite()
}

// Of rest corners p_ini and deformed corners p_def.
pub fn wdw(p_ini: [[f64; 3]; 4], p_def: [[f64; 3]; 4]) -> Result<Bending, Refusal>
    ensures { IsBending binary64 p_ini p_def (bending_given binary64 result) }
{
    let ini = Fold::from(p_ini);
    let def = Fold::from(p_def);
    let d = bending::divisors_of(ini);
    let k = bending::k(ini, d);
    let w = bending::w(k, def);
    let dwdp = bending::dwdp(k);
    let tests = Tests {
        bad_input: !(is_finite(ini) & is_finite(def)),
        bad_stiffness: false,
        turned: false,
        zero_divisor: float::is_zero(d.len) | refusal::zero_divisor(d.h0, d.h1, d.root_len),
        bad_answer: !(lists::each_finite(&w) & lists::each_finite(&dwdp)),
    };
    refusal::kernel(tests)?;
    Ok(Bending { w, dwdp })
}
