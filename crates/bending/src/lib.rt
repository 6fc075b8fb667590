// The numbers of `wdw` (quadratic_bending.rs): how far two triangles that share an edge bend about it, by the deformed corners and a factor for each that the rest corners give.
#![tactic(auto)]

ghost use Rattle.std.specs.Prelude.{◌≡◌};
ghost use Rattle.std.specs.Float.{binary64};
ghost use Rattle.float.specs.Ops.{ops};
ghost use Rattle.root.specs.Root.{root_of};
ghost use Rattle.bending.specs.Bending.{corners_of, divisors_of, k_of, w_of, dwdp_of};

use del_geo_core::{edge, tri3};
use vec3::V3;

// The shared edge runs from corner 2 to corner 3; corners 0 and 1 stand across it.
#[derive(Clone, Copy)]
pub struct Fold {
    pub p0: V3,
    pub p1: V3,
    pub p2: V3,
    pub p3: V3,
}

impl From<[[f64; 3]; 4]> for Fold {
    ghost from_gives = { λ p fold. fold ≡ corners_of p };

    fn from([p0, p1, p2, p3]: [[f64; 3]; 4]) -> Self {
        Fold {
            p0: p0.into(),
            p1: p1.into(),
            p2: p2.into(),
            p3: p3.into(),
        }
    }
}

// Every number that divides: `root_len` is root(area0 + area1) * len.
#[derive(Clone, Copy)]
pub struct Divisors {
    pub len: f64,
    pub h0: f64,
    pub h1: f64,
    pub root_len: f64,
}

#[tactic(auto, unfolding(crate::specs::Bending::divisors_of))]
pub fn divisors_of(p: Fold) -> Divisors
    ensures { result ≡ divisors_of binary64 p }
{
    let area0 = tri3::area(p.p0, p.p2, p.p3);
    let area1 = tri3::area(p.p1, p.p3, p.p2);
    let len = edge::length(p.p2, p.p3);
    Divisors {
        len,
        h0: 2.0 * area0 / len,
        h1: 2.0 * area1 / len,
        root_len: root::sqrt(area0 + area1) * len,
    }
}

// The root of 3, without computing it at every call.
fn root3() -> f64
    ensures { result ≡ root_of binary64 (ops binary64).three }
{
    1.7320508075688772
}

// The factor of each corner. What is called cot.. is the cotangent times len; the division by root_len mends that.
#[tactic(auto, unfolding(crate::specs::Bending::k_of))]
pub fn k(p: Fold, d: Divisors) -> [f64; 4]
    ensures { result ≡ k_of binary64 p d }
{
    let e23 = vec3::sub(p.p3, p.p2);
    let e02 = vec3::sub(p.p2, p.p0);
    let e03 = vec3::sub(p.p3, p.p0);
    let e12 = vec3::sub(p.p2, p.p1);
    let e13 = vec3::sub(p.p3, p.p1);
    let cot023 = -vec3::dot(e02, e23) / d.h0;
    let cot032 = vec3::dot(e03, e23) / d.h0;
    let cot123 = -vec3::dot(e12, e23) / d.h1;
    let cot132 = vec3::dot(e13, e23) / d.h1;
    let tmp0 = root3() / d.root_len;
    [
        (-cot023 - cot032) * tmp0,
        (-cot123 - cot132) * tmp0,
        (cot032 + cot132) * tmp0,
        (cot023 + cot123) * tmp0,
    ]
}

#[tactic(auto, unfolding(crate::specs::Bending::w_of))]
pub fn w(k: [f64; 4], p: Fold) -> [f64; 3]
    ensures { result ≡ w_of binary64 k p }
{
    [
        k[0] * p.p0.x + k[1] * p.p1.x + k[2] * p.p2.x + k[3] * p.p3.x,
        k[0] * p.p0.y + k[1] * p.p1.y + k[2] * p.p2.y + k[3] * p.p3.y,
        k[0] * p.p0.z + k[1] * p.p1.z + k[2] * p.p2.z + k[3] * p.p3.z,
    ]
}

// As in the source, a store for each place that is not +0.
pub fn dwdp(k: [f64; 4]) -> [f64; 36]
    ensures { result ≡ dwdp_of binary64 k }
{
    let mut dwdp = [0.0; 36];
    for i_dim in 0..3usize {
        for (node, &factor) in k.iter().enumerate() {
            dwdp[(i_dim * 4 + node) * 3 + i_dim] = factor;
        }
    }
    dwdp
}
