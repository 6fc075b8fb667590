// The numbers of `wdw` (stvk_tri3.rs) and of `wdw_green_lagrange`: strains of a triangle in the sheet's own axes, and their derivatives. The two differ in what is made of the rest triangle.
// The source's gd0_x, gu0_x and gugu0_xx are gd0.x, gu0.x and gugu0.xx here, and an index 0, 1, 2 is x, y, z.
#![tactic(auto)]

ghost use Rattle.std.specs.Prelude.{◌≡◌};
ghost use Rattle.std.specs.Float.{binary64};
ghost use Rattle.strain.specs.Strain.{rest_of, rest_of_green_lagrange, gugu0_of, w_of, hoge_of, dw_k_of, dw_of, values_of};

use del_geo_core::curve_linear_coords;
use del_geo_core::tri2::Tri2;
use del_geo_core::tri3::Tri3;
use edges::{Gd, Gu};
use vec3::{Divided, V3};

// The rest triangle: its edges, its unit normal with what divided it, and two contravariant vectors, 1 long as `rest_of` makes them and 1 / height as `rest_of_green_lagrange` does.
#[derive(Clone, Copy)]
pub struct Rest {
    pub gd0: Gd,
    pub gd0_z: Divided,
    pub gu0: Gu,
}

// Products of contravariant components.
#[derive(Clone, Copy)]
pub struct GuGu {
    pub xx: V3,
    pub yy: V3,
    pub xy: V3,
}

// What the source returns: dw[k][ino][idim] stands at (k * 3 + ino) * 3 + idim.
#[derive(Drop)]
pub struct Values {
    pub w: [f64; 3],
    pub dw: [f64; 27],
}

#[tactic(auto, unfolding(crate::specs::Strain::rest_of))]
pub fn rest_of(ini: Tri2) -> Rest
    ensures { result ≡ rest_of binary64 ini }
{
    let gd0 = edges::plane(ini);
    let gd0_z = vec3::cross(gd0.x, gd0.y);
    let area0 = vec3::norm(gd0_z) * 0.5;
    let gd0_z = vec3::over(gd0_z, area0 * 2.0);
    let x = vec3::unit(vec3::cross(gd0.y, gd0_z.v));
    let y = vec3::unit(vec3::cross(gd0_z.v, gd0.x));
    let gu0 = Gu { x, y };
    Rest { gd0, gd0_z, gu0 }
}

// As in a book, not in the source.
#[tactic(auto, unfolding(crate::specs::Strain::rest_of_green_lagrange))]
pub fn rest_of_green_lagrange(ini: Tri2) -> Rest
    ensures { result ≡ rest_of_green_lagrange binary64 ini }
{
    let gd0 = edges::plane(ini);
    let gd0_z = vec3::unit(vec3::cross(gd0.x, gd0.y));
    let x = curve_linear_coords::contravariant(gd0.x, gd0.y, gd0_z.v);
    let y = curve_linear_coords::contravariant(gd0.y, gd0_z.v, gd0.x);
    let gu0 = Gu { x, y };
    Rest { gd0, gd0_z, gu0 }
}

#[tactic(auto, unfolding(crate::specs::Strain::gugu0_of))]
fn gugu0(gu0: Gu) -> GuGu
    ensures { result ≡ gugu0_of binary64 gu0 }
{
    let xx = V3 {
        x: gu0.x.v.x * gu0.x.v.x,
        y: gu0.y.v.x * gu0.y.v.x,
        z: gu0.x.v.x * gu0.y.v.x,
    };
    let yy = V3 {
        x: gu0.x.v.y * gu0.x.v.y,
        y: gu0.y.v.y * gu0.y.v.y,
        z: gu0.x.v.y * gu0.y.v.y,
    };
    let xy = V3 {
        x: 2.0 * gu0.x.v.x * gu0.x.v.y,
        y: 2.0 * gu0.y.v.x * gu0.y.v.y,
        z: gu0.x.v.x * gu0.y.v.y + gu0.x.v.y * gu0.y.v.x,
    };
    GuGu { xx, yy, xy }
}

#[tactic(auto, unfolding(crate::specs::Strain::w_of))]
fn w(glstrain: V3, gugu0: GuGu) -> [f64; 3]
    ensures { result ≡ w_of binary64 glstrain gugu0 }
{
    [
        vec3::dot(glstrain, gugu0.xx),
        vec3::dot(glstrain, gugu0.yy),
        vec3::dot(glstrain, gugu0.xy),
    ]
}

#[tactic(auto, unfolding(crate::specs::Strain::hoge_of))]
fn hoge(gd1: Gd, a: f64, b: f64) -> V3
    ensures { result ≡ hoge_of binary64 gd1 a b }
{
    V3 {
        x: a * gd1.x.x + b * gd1.y.x,
        y: a * gd1.x.y + b * gd1.y.y,
        z: a * gd1.x.z + b * gd1.y.z,
    }
}

// dw[k] by the three corners, where g is gugu0.xx, gugu0.yy or gugu0.xy.
#[tactic(auto, unfolding(crate::specs::Strain::dw_k_of))]
fn dw_k(gd1: Gd, g: V3) -> Tri3
    ensures { result ≡ dw_k_of binary64 gd1 g }
{
    let p0 = hoge(gd1, -(g.x + g.z), -(g.y + g.z));
    let p1 = hoge(gd1, g.x, g.z);
    let p2 = hoge(gd1, g.z, g.y);
    Tri3 { p0, p1, p2 }
}

// Flat, from dw[0], dw[1] and dw[2]. One list: three of nine, put together by `copy_from_slice`, take a tenth more instructions for a strain.
#[inline(always)]
#[tactic(auto, unfolding(crate::specs::Strain::dw_of))]
fn dw(xx: Tri3, yy: Tri3, xy: Tri3) -> [f64; 27]
    ensures { result ≡ dw_of xx yy xy }
{
    let Tri3 {
        p0: a,
        p1: b,
        p2: c,
    } = xx;
    let Tri3 {
        p0: d,
        p1: e,
        p2: f,
    } = yy;
    let Tri3 {
        p0: g,
        p1: h,
        p2: i,
    } = xy;
    [
        a.x, a.y, a.z, b.x, b.y, b.z, c.x, c.y, c.z, d.x, d.y, d.z, e.x, e.y, e.z, f.x, f.y, f.z,
        g.x, g.y, g.z, h.x, h.y, h.z, i.x, i.y, i.z,
    ]
}

// Inlined with `dw`, since it returns thirty numbers: called from two places, each would else take some 90 instructions more.
#[inline(always)]
#[tactic(auto, unfolding(crate::specs::Strain::values_of))]
pub fn values_of(rest: Rest, def: Tri3) -> Values
    ensures { result ≡ values_of binary64 rest def }
{
    let gd1 = edges::space(def);
    let glstrain = edges::glstrain(rest.gd0, gd1);
    let gugu0 = gugu0(rest.gu0);
    let w = w(glstrain, gugu0);
    let dw = dw(
        dw_k(gd1, gugu0.xx),
        dw_k(gd1, gugu0.yy),
        dw_k(gd1, gugu0.xy),
    );
    Values { w, dw }
}
