// The numbers of `wdwddw_` (stvk_tri3.rs): a triangle's StVK energy, its gradient and its Hessian. An index 0, 1, 2 of the source is x, y, z here.
#![tactic(auto)]

ghost use Rattle.std.specs.Prelude.{◌≡◌};
ghost use Rattle.std.specs.Float.{binary64};
ghost use Rattle.stvk.specs.Stvk.{rest_of, elasticity_tensor_of, state_of, w_of, along_of, dndr_of, dw_at_of, dw_of, block_of, ddw_of};
ghost use Rattle.stvk.specs.Parts.{four_of, terms_of, sum_of, sums_of, rows_of, blocks_of};

use del_geo_core::mat3_row_major::Matrix3;
use del_geo_core::tri2::V2;
use del_geo_core::tri3::Tri3;
use del_geo_core::{curve_linear_coords, mat3_row_major, tri3};
use edges::{Gd, Gu};
use vec3::{Divided, V3};

// Of the rest corners: gd0[0] and gd0[1]; gd0[2], with what divided it; area0; gu0.
#[derive(Clone, Copy)]
pub struct Rest {
    pub gd0: Gd,
    pub gd0_z: Divided,
    pub area0: f64,
    pub gu0: Gu,
}

// What the energy and its derivatives are made of.
#[derive(Clone, Copy)]
pub struct State {
    pub rest: Rest,
    pub gd: Gd,
    pub glstrain: V3,
    pub tensor: Matrix3,
    pub spkstress: V3,
}

#[tactic(auto, unfolding(crate::specs::Stvk::rest_of))]
fn rest_of(p0: Tri3) -> Rest
    ensures { result ≡ rest_of binary64 p0 }
{
    let normal_area = tri3::unit_normal_area(p0.p0, p0.p1, p0.p2);
    let gd0_z = normal_area.normal;
    let gd0 = edges::space(p0);
    let x = curve_linear_coords::contravariant(gd0.x, gd0.y, gd0_z.v);
    let y = curve_linear_coords::contravariant(gd0.y, gd0_z.v, gd0.x);
    let gu0 = Gu { x, y };
    Rest {
        gd0,
        gd0_z,
        area0: normal_area.area,
        gu0,
    }
}

#[tactic(auto, unfolding(crate::specs::Stvk::elasticity_tensor_of))]
fn elasticity_tensor(gugu0: V3, lambda: f64, myu: f64) -> Matrix3
    ensures { result ≡ elasticity_tensor_of binary64 gugu0 lambda myu }
{
    let x = V3 {
        x: lambda * gugu0.x * gugu0.x + 2.0 * myu * (gugu0.x * gugu0.x),
        y: lambda * gugu0.x * gugu0.y + 2.0 * myu * (gugu0.z * gugu0.z),
        z: lambda * gugu0.x * gugu0.z + 2.0 * myu * (gugu0.x * gugu0.z),
    };
    let y = V3 {
        x: lambda * gugu0.y * gugu0.x + 2.0 * myu * (gugu0.z * gugu0.z),
        y: lambda * gugu0.y * gugu0.y + 2.0 * myu * (gugu0.y * gugu0.y),
        z: lambda * gugu0.y * gugu0.z + 2.0 * myu * (gugu0.z * gugu0.y),
    };
    let z = V3 {
        x: lambda * gugu0.z * gugu0.x + 2.0 * myu * (gugu0.x * gugu0.z),
        y: lambda * gugu0.z * gugu0.y + 2.0 * myu * (gugu0.z * gugu0.y),
        z: lambda * gugu0.z * gugu0.z + 1.0 * myu * (gugu0.x * gugu0.y + gugu0.z * gugu0.z),
    };
    Matrix3 { x, y, z }
}

// lambda and myu stand apart, as in the source and in the definitions: these numbers know of no material.
#[tactic(auto, unfolding(crate::specs::Stvk::state_of, crate::specs::Stvk::glstrain_of, crate::specs::Stvk::gugu0_of))]
pub fn state_of(p0: Tri3, p1: Tri3, lambda: f64, myu: f64) -> State
    ensures { result ≡ state_of binary64 p0 p1 lambda myu }
{
    let rest = rest_of(p0);
    let gd = edges::space(p1);
    let e = edges::glstrain(rest.gd0, gd);
    let glstrain = V3 {
        x: e.x,
        y: e.y,
        z: 1.0 * e.z,
    };
    let gu0 = rest.gu0;
    let gugu0 = V3 {
        x: vec3::dot(gu0.x.v, gu0.x.v),
        y: vec3::dot(gu0.y.v, gu0.y.v),
        z: vec3::dot(gu0.y.v, gu0.x.v),
    };
    let tensor = elasticity_tensor(gugu0, lambda, myu);
    let spkstress = mat3_row_major::mult_vec(tensor, glstrain);
    State {
        rest,
        gd,
        glstrain,
        tensor,
        spkstress,
    }
}

#[tactic(auto, unfolding(crate::specs::Stvk::w_of))]
pub fn w(s: State) -> f64
    ensures { result ≡ w_of binary64 s }
{
    0.5 * s.rest.area0 * vec3::dot(s.glstrain, s.spkstress)
}

// gd[0][idim] and gd[1][idim] for idim = 0, 1, 2.
#[tactic(auto, unfolding(crate::specs::Stvk::along_of))]
fn along(gd: Gd) -> [V2; 3]
    ensures { result ≡ along_of gd }
{
    [
        V2 {
            x: gd.x.x,
            y: gd.y.x,
        },
        V2 {
            x: gd.x.y,
            y: gd.y.y,
        },
        V2 {
            x: gd.x.z,
            y: gd.y.z,
        },
    ]
}

#[tactic(auto, unfolding(crate::specs::Stvk::dndr_of))]
fn dndr() -> [V2; 3]
    ensures { result ≡ dndr_of binary64 }
{
    [
        V2 { x: -1.0, y: -1.0 },
        V2 { x: 1.0, y: 0.0 },
        V2 { x: 0.0, y: 1.0 },
    ]
}

// gi is gd[0][idim] and gd[1][idim], ni is dNdr[ino]; gj and nj, below, the same for jdim and jno.
#[tactic(auto, unfolding(crate::specs::Stvk::dw_at_of))]
fn dw_at(area0: f64, spkstress: V3, gi: V2, ni: V2) -> f64
    ensures { result ≡ dw_at_of binary64 area0 spkstress gi ni }
{
    area0
        * (spkstress.x * gi.x * ni.x
            + spkstress.z * gi.x * ni.y
            + spkstress.z * gi.y * ni.x
            + spkstress.y * gi.y * ni.y)
}

pub fn dw(s: State) -> [f64; 9]
    ensures { result ≡ dw_of binary64 s }
{
    let g = along(s.gd);
    let mut dw = [0.0; 9];
    for (ino, &ni) in dndr().iter().enumerate() {
        for (idim, &gi) in g.iter().enumerate() {
            dw[ino * 3 + idim] = dw_at(s.rest.area0, s.spkstress, gi, ni);
        }
    }
    dw
}

// Four terms of dtmp0, each without its last factor: a is one of gi times one of ni, and e a row of the tensor.
#[tactic(auto, unfolding(crate::specs::Parts::four_of))]
fn four(a: f64, e: V3, gj: V2) -> [f64; 4]
    ensures { result ≡ four_of binary64 a e gj }
{
    [
        a * e.x * gj.x,
        a * e.y * gj.y,
        a * e.z * gj.x,
        a * e.z * gj.y,
    ]
}

// The terms of dtmp0 in the source's order, each without its last factor: that alone depends on jno.
#[tactic(auto, unfolding(crate::specs::Parts::terms_of))]
fn terms_of(e: Matrix3, gi: V2, ni: V2, gj: V2) -> [[f64; 4]; 4]
    ensures { result ≡ terms_of binary64 e gi ni gj }
{
    [
        four(gi.x * ni.x, e.x, gj),
        four(gi.y * ni.y, e.y, gj),
        four(gi.x * ni.y, e.z, gj),
        four(gi.y * ni.x, e.z, gj),
    ]
}

// Summed from its terms.
#[inline(always)]
#[tactic(auto, unfolding(crate::specs::Parts::sum_of))]
fn dtmp0(terms: [[f64; 4]; 4], nj: V2) -> f64
    ensures { result ≡ sum_of binary64 terms nj }
{
    terms.iter().fold(0.0, |dtmp0, t| {
        dtmp0 + t[0] * nj.x + t[1] * nj.y + t[2] * nj.y + t[3] * nj.x
    })
}

// dtmp0 * area0 for jdim = 0, 1, 2. Inlined where dNdr[jno] is known, so that nothing is left of a product by 1 or -1.
#[inline(always)]
#[tactic(auto, unfolding(crate::specs::Parts::sums_of))]
fn row(x: [[f64; 4]; 4], y: [[f64; 4]; 4], z: [[f64; 4]; 4], nj: V2, area0: f64) -> V3
    ensures { result ≡ sums_of binary64 x y z nj area0 }
{
    V3 {
        x: dtmp0(x, nj) * area0,
        y: dtmp0(y, nj) * area0,
        z: dtmp0(z, nj) * area0,
    }
}

// A row for each jno: the sixteen products of a jdim serve all three.
fn rows(s: State, g: [V2; 3], gi: V2, ni: V2) -> Matrix3
    ensures { result ≡ rows_of binary64 s g gi ni }
{
    let area0 = s.rest.area0;
    let x = terms_of(s.tensor, gi, ni, g[0]);
    let y = terms_of(s.tensor, gi, ni, g[1]);
    let z = terms_of(s.tensor, gi, ni, g[2]);
    let n = dndr();
    Matrix3 {
        x: row(x, y, z, n[0], area0),
        y: row(x, y, z, n[1], area0),
        z: row(x, y, z, n[2], area0),
    }
}

// A block of three rows; dtmp1 is added to its entries 0, 4 and 8.
#[tactic(auto, unfolding(crate::specs::Stvk::block_of))]
fn block(x: V3, y: V3, z: V3, dtmp1: f64) -> [f64; 9]
    ensures { result ≡ block_of binary64 x y z dtmp1 }
{
    [
        x.x + dtmp1,
        x.y,
        x.z,
        y.x,
        y.y + dtmp1,
        y.z,
        z.x,
        z.y,
        z.z + dtmp1,
    ]
}

// ddw[ino]: three blocks, for jno = 0, 1, 2.
fn ddw_of_corner(s: State, g: [V2; 3], ni: V2) -> [[f64; 9]; 3]
    ensures { result ≡ blocks_of binary64 s g ni }
{
    let x = rows(s, g, g[0], ni);
    let y = rows(s, g, g[1], ni);
    let z = rows(s, g, g[2], ni);
    let n = dndr();
    [
        block(x.x, y.x, z.x, dw_at(s.rest.area0, s.spkstress, ni, n[0])),
        block(x.y, y.y, z.y, dw_at(s.rest.area0, s.spkstress, ni, n[1])),
        block(x.z, y.z, z.z, dw_at(s.rest.area0, s.spkstress, ni, n[2])),
    ]
}

// Stored corner by corner: arrays of arrays, made by `array::from_fn` or `map` and flattened, take more instructions for the copies.
pub fn ddw(s: State) -> [f64; 81]
    ensures { result ≡ ddw_of binary64 s }
{
    let g = along(s.gd);
    let mut ddw = [0.0; 81];
    for (ino, &ni) in dndr().iter().enumerate() {
        for (k, &entry) in ddw_of_corner(s, g, ni).as_flattened().iter().enumerate() {
            ddw[ino * 27 + k] = entry;
        }
    }
    ddw
}
