// Ported from mitc_tri3.rs: the energy of a plate triangle and the lumped masses of a panel. What is refused stands here, the numbers in crates `plate` and `masses`.
#![tactic(auto)]

ghost use Rattle.std.specs.Float.{binary64};
ghost use Rattle.refusal.specs.Numbers.{answer_number};
ghost use Rattle.refusal.specs.Answers.{energy_given};
ghost use Rattle.mitc_tri3.specs.Masses.{IsMasses};
ghost use Rattle.mitc_tri3.specs.Plate.{IsPlate};

mod panel;

use corners::IsFinite;
use del_geo_core::tri2;
use del_geo_core::tri2::Tri2;
use del_geo_core::tri3::Tri3;
use material::Material;
use refusal::{Energy, Refusal};

// The energy, bending and shear, of a plate over the plane corners p, with its gradient and Hessian by u: at each corner the displacement in z and the rotations about x and y. Of the
// material the thickness and the stiffness enter.
pub fn w_dw_ddw_plate_bending(
    p: [[f64; 2]; 3],
    u: [[f64; 3]; 3],
    material: Material,
) -> Result<Energy, Refusal>
    ensures { IsPlate binary64 p u material (energy_given binary64 result) }
{
    let p = Tri2::from(p);
    let u = Tri3::from(u);
    let thk = material.thickness;
    let stiffness = material.stiffness;
    let lame = stiffness.lame();
    let s = plate::state_of(p, u, thk, lame.lambda, lame.myu);
    let w = plate::w(s);
    let dw = plate::dw(s);
    let ddw = plate::ddw(s);
    let tests = stiffness.tests(
        p.is_finite() & u.is_finite() & float::is_finite(thk),
        tri2::turns_right(p),
        refusal::zero_divisor(s.gu.x.by, s.gu.y.by, s.gu.z.by),
        refusal::bad_energy(w, dw, ddw),
    );
    refusal::kernel(tests)?;
    Ok(Energy { w, dw, ddw })
}

// The lumped masses of a panel of plates, three for each vertex: for its translation and for its two rotations. Of the material the density and the thickness enter. Nothing is written
// before every triangle is looked at.
pub fn mass_lumped_plate_bending(
    tri2vtx: &[usize],
    vtx2xy: &[f64],
    material: Material,
    vtx2mass: &mut [f64],
) -> Result<(), Refusal>
    ensures { IsMasses binary64 «tri2vtx».now «vtx2xy».now material «vtx2mass».old (answer_number result) «vtx2mass».new }
{
    let thick = material.thickness;
    let rho = material.density;
    let vertices = vtx2xy.len() / 2;
    if refusal::bad_length(vertices, tri2vtx.len(), vtx2mass.len()) {
        return Err(Refusal::BadLength);
    }
    if !refusal::names_below(tri2vtx, vertices) {
        return Err(Refusal::BadName);
    }
    if panel::bad_input(tri2vtx, vtx2xy, thick, rho) {
        return Err(Refusal::BadInput);
    }
    if !panel::none_turned(tri2vtx, vtx2xy) {
        return Err(Refusal::Turned);
    }
    lists::clear(vtx2mass);
    panel::add_all(tri2vtx, vtx2xy, thick, rho, vtx2mass);
    if !lists::all_finite(vtx2mass) {
        lists::clear(vtx2mass);
        return Err(Refusal::BadAnswer);
    }
    Ok(())
}
