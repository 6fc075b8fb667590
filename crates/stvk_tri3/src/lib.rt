// Ported from stvk_tri3.rs: the strain of a triangle, and its StVK energy; by request a second strain. `strain` and `stvk` compute them; here are the tests, and what is answered.
#![tactic(auto)]

ghost use Rattle.std.specs.Prelude.{◌≡◌, not, ◌&&◌};
ghost use Rattle.std.specs.Float.{binary64};
ghost use Rattle.float.specs.Lists.{all_finite};
ghost use Rattle.refusal.specs.Refusal.{kernel_number};
ghost use Rattle.refusal.specs.Numbers.{answer_number};
ghost use Rattle.refusal.specs.Answers.{energy_given};
ghost use Rattle.stvk_tri3.specs.GreenLagrange.{IsGreenLagrange};
ghost use Rattle.stvk_tri3.specs.Strain.{tested_of, strain_given, IsStrain};
ghost use Rattle.stvk_tri3.specs.Stvk.{IsStvk};

use corners::IsFinite;
use del_geo_core::tri2::Tri2;
use del_geo_core::tri3::Tri3;
use material::Material;
use refusal::{Energy, Refusal, Tests};
use strain::{Rest, Values};

// What both strains test. Inlined, as `values::give` is: called, the two take 173 instructions more for a strain.
#[inline(always)]
#[tactic(auto, unfolding(crate::specs::Strain::tested_of))]
fn check(ini: Tri2, def: Tri3, rest: Rest, values: &Values) -> Result<(), Refusal>
    ensures { answer_number result
        ≡ kernel_number (tested_of ini def rest (not (all_finite values.now.w && all_finite values.now.dw))) }
{
    refusal::kernel(Tests {
        bad_input: !(ini.is_finite() & def.is_finite()),
        bad_stiffness: false,
        turned: false,
        zero_divisor: refusal::zero_divisor(rest.gd0_z.by, rest.gu0.x.by, rest.gu0.y.by),
        bad_answer: !(lists::each_finite(&values.w) & lists::each_finite(&values.dw)),
    })
}

// Three strains of a plane rest triangle that is deformed into space, and their derivatives by the deformed corners: dw[k][ino][idim] of the source stands at (k * 3 + ino) * 3 + idim.
pub fn wdw(p_ini: [[f64; 2]; 3], p_def: [[f64; 3]; 3]) -> Result<Values, Refusal>
    ensures { IsStrain binary64 p_ini p_def (strain_given binary64 result) }
{
    let ini = Tri2::from(p_ini);
    let def = Tri3::from(p_def);
    let rest = strain::rest_of(ini);
    let values = strain::values_of(rest, def);
    check(ini, def, rest, &values)?;
    Ok(values)
}

// The Green-Lagrange strain in the sheet's own axes, (F^T F - I) / 2 with the off-diagonal doubled, and its derivatives: `wdw`, but for the rest triangle's normal and contravariant vectors.
pub fn wdw_green_lagrange(p_ini: [[f64; 2]; 3], p_def: [[f64; 3]; 3]) -> Result<Values, Refusal>
    ensures { IsGreenLagrange binary64 p_ini p_def (strain_given binary64 result) }
{
    let ini = Tri2::from(p_ini);
    let def = Tri3::from(p_def);
    let rest = strain::rest_of_green_lagrange(ini);
    let values = strain::values_of(rest, def);
    check(ini, def, rest, &values)?;
    Ok(values)
}

// The StVK energy of a sheet that has the corners p0 at rest and p1 deformed, with its gradient and Hessian by p1. Of the material the stiffness alone enters.
pub fn wdwddw_(p0: [[f64; 3]; 3], p1: [[f64; 3]; 3], material: Material) -> Result<Energy, Refusal>
    ensures { IsStvk binary64 p0 p1 material (energy_given binary64 result) }
{
    let p0 = Tri3::from(p0);
    let p1 = Tri3::from(p1);
    let stiffness = material.stiffness;
    let lame = stiffness.lame();
    let s = stvk::state_of(p0, p1, lame.lambda, lame.myu);
    let w = stvk::w(s);
    let dw = stvk::dw(s);
    let ddw = stvk::ddw(s);
    let tests = stiffness.tests(
        p0.is_finite() & p1.is_finite(),
        false,
        refusal::zero_divisor(s.rest.gd0_z.by, s.rest.gu0.x.by, s.rest.gu0.y.by),
        refusal::bad_energy(w, dw, ddw),
    );
    refusal::kernel(tests)?;
    Ok(Energy { w, dw, ddw })
}
