// What a plate triangle gives each of its vertices (mitc_tri3.rs, `mass_lumped_plate_bending`): numbers alone, nothing is refused.
#![tactic(auto)]

ghost use Rattle.std.specs.Prelude.{◌≡◌};
ghost use Rattle.std.specs.Float.{binary64};
ghost use Rattle.masses.specs.Masses.{mass_of};

use del_geo_core::tri2;
use del_geo_core::tri2::Tri2;
use vec3::V3;

// Three numbers: for a vertex's translation and for its two rotations.
#[tactic(auto, unfolding(crate::specs::Masses::mass_of))]
pub fn mass(thick: f64, rho: f64, p: Tri2) -> V3
    ensures { result ≡ mass_of binary64 thick rho p }
{
    let a012 = tri2::area(p.p0, p.p1, p.p2).area;
    let m0 = a012 / 3.0 * rho * thick;
    let m1 = a012 / 3.0 * rho * thick * thick * thick / 12.0;
    V3 {
        x: m0,
        y: m1,
        z: m1,
    }
}
