// The second block of `w_dw_ddw_plate_bending`: transverse shear. Strain and stress are in the order rt, st.
#![tactic(auto)]

ghost use Rattle.std.specs.Prelude.{◌≡◌};
ghost use Rattle.std.specs.Float.{binary64};
ghost use Rattle.plate_shear.specs.Shear.{coeffa_of, coeffb_of, shear_of, strain_of, stress_of, de_rt_01_of, de_st_20_of, dcoeff_e_rt_of, dstrain_of, w_of, dw_of, ddw_of};

use del_geo_core::mat3_row_major::Matrix3;
use del_geo_core::tri2::V2;
use del_geo_core::tri3::Tri3;
use edges::GuGu;
use std::array;

// Two rows.
#[derive(Clone, Copy)]
pub struct Matrix2 {
    pub x: V2,
    pub y: V2,
}

// What the block has before its loop.
#[derive(Clone, Copy)]
pub struct Shear {
    pub w_integration: f64,
    pub coeffb: Matrix2,
    pub e_rt_01: f64,
    pub e_st_20: f64,
    pub coeff_e_rt: f64,
}

fn coeffa(gu_gu: GuGu, myu: f64) -> Matrix2
    ensures { result ≡ coeffa_of binary64 gu_gu myu }
{
    let x = V2 {
        x: myu * gu_gu.rr * gu_gu.tt,
        y: myu * gu_gu.sr * gu_gu.tt,
    };
    let y = V2 {
        x: myu * gu_gu.sr * gu_gu.tt,
        y: myu * gu_gu.ss * gu_gu.tt,
    };
    Matrix2 { x, y }
}

fn coeffb(coeffa: Matrix2) -> Matrix2
    ensures { result ≡ coeffb_of binary64 coeffa }
{
    let x = V2 {
        x: 4.0 * coeffa.x.x,
        y: 2.0 * coeffa.x.y,
    };
    let y = V2 {
        x: 2.0 * coeffa.y.x,
        y: 4.0 * coeffa.y.y,
    };
    Matrix2 { x, y }
}

#[tactic(auto, unfolding(crate::specs::Shear::shear_of))]
pub fn shear_of(gd: Matrix3, gu_gu: GuGu, u: Tri3, area: f64, thk: f64, myu: f64) -> Shear
    ensures { result ≡ shear_of binary64 gd gu_gu u area thk myu }
{
    let coeffb = coeffb(coeffa(gu_gu, myu));
    let e_rt_01 = 0.5
        * thk
        * (u.p1.x - u.p0.x + 0.5 * gd.x.x * (u.p0.z + u.p1.z) - 0.5 * gd.x.y * (u.p0.y + u.p1.y));
    let e_rt_12 = 0.5
        * thk
        * (u.p1.x - u.p0.x + 0.5 * gd.x.x * (u.p1.z + u.p2.z) - 0.5 * gd.x.y * (u.p1.y + u.p2.y));
    let e_st_12 = 0.5
        * thk
        * (u.p2.x - u.p0.x + 0.5 * gd.y.x * (u.p1.z + u.p2.z) - 0.5 * gd.y.y * (u.p1.y + u.p2.y));
    let e_st_20 = 0.5
        * thk
        * (u.p2.x - u.p0.x + 0.5 * gd.y.x * (u.p2.z + u.p0.z) - 0.5 * gd.y.y * (u.p2.y + u.p0.y));
    Shear {
        w_integration: area * thk / 3.0,
        coeffb,
        e_rt_01,
        e_st_20,
        coeff_e_rt: (e_rt_12 - e_rt_01) - (e_st_12 - e_st_20),
    }
}

fn strain(shear: Shear, r: f64, s: f64) -> V2
    ensures { result ≡ strain_of binary64 shear r s }
{
    V2 {
        x: shear.e_rt_01 + shear.coeff_e_rt * s,
        y: shear.e_st_20 - shear.coeff_e_rt * r,
    }
}

fn stress(coeffb: Matrix2, strain: V2) -> V2
    ensures { result ≡ stress_of binary64 coeffb strain }
{
    V2 {
        x: coeffb.x.x * strain.x + coeffb.x.y * strain.y,
        y: coeffb.y.x * strain.x + coeffb.y.y * strain.y,
    }
}

fn de_rt_01(gd: Matrix3, thk: f64) -> [f64; 9]
    ensures { result ≡ de_rt_01_of binary64 gd thk }
{
    [
        -0.5 * thk,
        -0.25 * thk * gd.x.y,
        0.25 * thk * gd.x.x,
        0.5 * thk,
        -0.25 * thk * gd.x.y,
        0.25 * thk * gd.x.x,
        0.0,
        0.0,
        0.0,
    ]
}

fn de_st_20(gd: Matrix3, thk: f64) -> [f64; 9]
    ensures { result ≡ de_st_20_of binary64 gd thk }
{
    [
        -0.5 * thk,
        -0.25 * thk * gd.y.y,
        0.25 * thk * gd.y.x,
        0.0,
        0.0,
        0.0,
        0.5 * thk,
        -0.25 * thk * gd.y.y,
        0.25 * thk * gd.y.x,
    ]
}

fn dcoeff_e_rt(gd: Matrix3, thk: f64) -> [f64; 9]
    ensures { result ≡ dcoeff_e_rt_of binary64 gd thk }
{
    [
        0.0,
        0.25 * thk * gd.x.y - 0.25 * thk * gd.y.y,
        -0.25 * thk * gd.x.x + 0.25 * thk * gd.y.x,
        0.0,
        0.25 * thk * gd.y.y,
        -0.25 * thk * gd.y.x,
        0.0,
        -0.25 * thk * gd.x.y,
        0.25 * thk * gd.x.x,
    ]
}

// dstrain[k], each with its nine places ino * 3 + idof in a row.
#[tactic(auto, unfolding(crate::specs::Shear::dstrain_of))]
pub fn dstrain(gd: Matrix3, thk: f64, r: f64, s: f64) -> [[f64; 9]; 2]
    ensures { result ≡ dstrain_of binary64 gd thk r s }
{
    let de_rt_01 = de_rt_01(gd, thk);
    let de_st_20 = de_st_20(gd, thk);
    let dcoeff_e_rt = dcoeff_e_rt(gd, thk);
    [
        array::from_fn(|i| de_rt_01[i] + dcoeff_e_rt[i] * s),
        array::from_fn(|i| de_st_20[i] - dcoeff_e_rt[i] * r),
    ]
}

// What the point (r, s) adds to w.
#[tactic(auto, unfolding(crate::specs::Shear::w_of))]
pub fn w(shear: Shear, r: f64, s: f64) -> f64
    ensures { result ≡ w_of binary64 shear r s }
{
    let strain = strain(shear, r, s);
    let stress = stress(shear.coeffb, strain);
    shear.w_integration * 0.5 * (stress.x * strain.x + stress.y * strain.y)
}

// What it adds to the entry of dw whose dstrain is d.
#[tactic(auto, unfolding(crate::specs::Shear::dw_of))]
pub fn dw(shear: Shear, r: f64, s: f64, d: V2) -> f64
    ensures { result ≡ dw_of binary64 shear r s d }
{
    let stress = stress(shear.coeffb, strain(shear, r, s));
    shear.w_integration * (stress.x * d.x + stress.y * d.y)
}

// What a point adds to the entry of ddw whose dstrain by (ino, idof) is di and by (jno, jdof) dj.
#[tactic(auto, unfolding(crate::specs::Shear::ddw_of))]
pub fn ddw(shear: Shear, di: V2, dj: V2) -> f64
    ensures { result ≡ ddw_of binary64 shear di dj }
{
    let dtmp = di.x * shear.coeffb.x.x * dj.x
        + di.x * shear.coeffb.x.y * dj.y
        + di.y * shear.coeffb.y.x * dj.x
        + di.y * shear.coeffb.y.y * dj.y;
    shear.w_integration * dtmp
}
