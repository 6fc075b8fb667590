// What the strains, StVK and the plate begin with (stvk_tri3.rs, mitc_tri3.rs: gd, gu): the edges from corner 0 of a triangle as covariant vectors, and numbers made of them.
// An index 0, 1, 2 of the sources is x, y, z here: gd[0][1] is gd.x.y.
#![tactic(auto)]

ghost use Rattle.std.specs.Prelude.{◌≡◌};
ghost use Rattle.std.specs.Float.{binary64};
ghost use Rattle.edges.specs.Edges.{plane_of, space_of, glstrain_of, gu_gu_of};

use del_geo_core::curve_linear_coords::DualBasis;
use del_geo_core::tri2::Tri2;
use del_geo_core::tri3::Tri3;
use vec3::{Divided, V3};

// Two covariant vectors: the edges from corner 0 to corners 1 and 2.
#[derive(Clone, Copy)]
pub struct Gd {
    pub x: V3,
    pub y: V3,
}

// Two contravariant vectors, each with what divided it.
#[derive(Clone, Copy)]
pub struct Gu {
    pub x: Divided,
    pub y: Divided,
}

// The dots of the plate's contravariant vectors.
#[derive(Clone, Copy)]
pub struct GuGu {
    pub rr: f64,
    pub ss: f64,
    pub sr: f64,
    pub tt: f64,
}

// Of a plane triangle.
#[tactic(auto, unfolding(crate::specs::Edges::plane_of))]
pub fn plane(p: Tri2) -> Gd
    ensures { result ≡ plane_of binary64 p }
{
    let x = V3 {
        x: p.p1.x - p.p0.x,
        y: p.p1.y - p.p0.y,
        z: 0.0,
    };
    let y = V3 {
        x: p.p2.x - p.p0.x,
        y: p.p2.y - p.p0.y,
        z: 0.0,
    };
    Gd { x, y }
}

// Of a triangle in space.
#[tactic(auto, unfolding(crate::specs::Edges::space_of))]
pub fn space(p: Tri3) -> Gd
    ensures { result ≡ space_of binary64 p }
{
    let x = vec3::sub(p.p1, p.p0);
    let y = vec3::sub(p.p2, p.p0);
    Gd { x, y }
}

// The Green-Lagrange strain along the edges, in the engineer's notation, from the rest edges and the deformed ones.
#[tactic(auto, unfolding(crate::specs::Edges::glstrain_of))]
pub fn glstrain(gd0: Gd, gd: Gd) -> V3
    ensures { result ≡ glstrain_of binary64 gd0 gd }
{
    V3 {
        x: 0.5 * (vec3::dot(gd.x, gd.x) - vec3::dot(gd0.x, gd0.x)),
        y: 0.5 * (vec3::dot(gd.y, gd.y) - vec3::dot(gd0.y, gd0.y)),
        z: vec3::dot(gd.x, gd.y) - vec3::dot(gd0.x, gd0.y),
    }
}

#[tactic(auto, unfolding(crate::specs::Edges::gu_gu_of))]
pub fn gu_gu(gu: DualBasis) -> GuGu
    ensures { result ≡ gu_gu_of binary64 gu }
{
    GuGu {
        rr: vec3::dot(gu.x.v, gu.x.v),
        ss: vec3::dot(gu.y.v, gu.y.v),
        sr: vec3::dot(gu.x.v, gu.y.v),
        tt: vec3::dot(gu.z.v, gu.z.v),
    }
}
