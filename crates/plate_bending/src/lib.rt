// The first block of `w_dw_ddw_plate_bending`: bending, though the source heads it transverse shear. Strain and stress are in the order rr, ss, rs.
#![tactic(auto)]

ghost use Rattle.std.specs.Prelude.{◌≡◌};
ghost use Rattle.std.specs.Float.{binary64};
ghost use Rattle.plate_bending.specs.Bending.{coeffa_of, coeffb_of, de_dt_of, bending_of, t0s, strain_of, dstrain_of, w_of, dw_of, ddw_of};

use del_geo_core::mat3_row_major;
use del_geo_core::mat3_row_major::Matrix3;
use del_geo_core::tri3::Tri3;
use edges::GuGu;
use vec3::V3;

// What the block has before its loop; de_dt is de_rr_dt, de_ss_dt, de_rs_dt.
#[derive(Clone, Copy)]
pub struct Bending {
    pub w_integration: f64,
    pub coeffb: Matrix3,
    pub de_dt: V3,
}

fn coeffa(gu_gu: GuGu, lambda: f64, myu: f64) -> Matrix3
    ensures { result ≡ coeffa_of binary64 gu_gu lambda myu }
{
    let x = V3 {
        x: lambda * gu_gu.rr * gu_gu.rr + 2.0 * myu * (gu_gu.rr * gu_gu.rr),
        y: lambda * gu_gu.rr * gu_gu.ss + 2.0 * myu * (gu_gu.sr * gu_gu.sr),
        z: lambda * gu_gu.rr * gu_gu.sr + 2.0 * myu * (gu_gu.rr * gu_gu.sr),
    };
    let y = V3 {
        x: lambda * gu_gu.ss * gu_gu.rr + 2.0 * myu * (gu_gu.sr * gu_gu.sr),
        y: lambda * gu_gu.ss * gu_gu.ss + 2.0 * myu * (gu_gu.ss * gu_gu.ss),
        z: lambda * gu_gu.ss * gu_gu.sr + 2.0 * myu * (gu_gu.ss * gu_gu.sr),
    };
    let z = V3 {
        x: lambda * gu_gu.sr * gu_gu.rr + 2.0 * myu * (gu_gu.rr * gu_gu.sr),
        y: lambda * gu_gu.sr * gu_gu.ss + 2.0 * myu * (gu_gu.sr * gu_gu.ss),
        z: lambda * gu_gu.sr * gu_gu.sr + myu * (gu_gu.rr * gu_gu.ss + gu_gu.sr * gu_gu.sr),
    };
    Matrix3 { x, y, z }
}

fn coeffb(coeffa: Matrix3) -> Matrix3
    ensures { result ≡ coeffb_of binary64 coeffa }
{
    let x = V3 {
        x: coeffa.x.x,
        y: coeffa.x.y,
        z: 2.0 * coeffa.x.z,
    };
    let y = V3 {
        x: coeffa.y.x,
        y: coeffa.y.y,
        z: 2.0 * coeffa.y.z,
    };
    let z = V3 {
        x: 2.0 * coeffa.z.x,
        y: 2.0 * coeffa.z.y,
        z: 4.0 * coeffa.z.z,
    };
    Matrix3 { x, y, z }
}

fn de_dt(gd: Matrix3, u: Tri3, thk: f64) -> V3
    ensures { result ≡ de_dt_of binary64 gd u thk }
{
    let de_rr_dt = (gd.x.x * (u.p1.z - u.p0.z) - gd.x.y * (u.p1.y - u.p0.y)) * 0.5 * thk;
    let de_ss_dt = (gd.y.x * (u.p2.z - u.p0.z) - gd.y.y * (u.p2.y - u.p0.y)) * 0.5 * thk;
    let de_rs_dt = (gd.x.x * (u.p2.z - u.p0.z) - gd.x.y * (u.p2.y - u.p0.y)
        + gd.y.x * (u.p1.z - u.p0.z)
        - gd.y.y * (u.p1.y - u.p0.y))
        * 0.25
        * thk;
    V3 {
        x: de_rr_dt,
        y: de_ss_dt,
        z: de_rs_dt,
    }
}

#[tactic(auto, unfolding(crate::specs::Bending::bending_of))]
pub fn bending_of(
    gd: Matrix3,
    gu_gu: GuGu,
    u: Tri3,
    area: f64,
    thk: f64,
    lambda: f64,
    myu: f64,
) -> Bending
    ensures { result ≡ bending_of binary64 gd gu_gu u area thk lambda myu }
{
    let coeffb = coeffb(coeffa(gu_gu, lambda, myu));
    let de_dt = de_dt(gd, u, thk);
    Bending {
        w_integration: area * thk / 2.0,
        coeffb,
        de_dt,
    }
}

// t0 at the two points, -1 / root(3) and 1 / root(3), without computing them at every call.
pub fn t0s() -> [f64; 2]
    ensures { result ≡ t0s binary64 }
{
    [-0.5773502691896258, 0.5773502691896258]
}

fn strain(bending: Bending, t0: f64) -> V3
    ensures { result ≡ strain_of binary64 bending t0 }
{
    V3 {
        x: t0 * bending.de_dt.x,
        y: t0 * bending.de_dt.y,
        z: t0 * bending.de_dt.z,
    }
}

// dstrain[k], each with its nine places ino * 3 + idof in a row.
#[tactic(auto, unfolding(crate::specs::Bending::dstrain_of))]
pub fn dstrain(gd: Matrix3, thk: f64, t0: f64) -> [[f64; 9]; 3]
    ensures { result ≡ dstrain_of binary64 gd thk t0 }
{
    [
        [
            0.0,
            gd.x.y * 0.5 * thk * t0,
            -gd.x.x * 0.5 * thk * t0,
            0.0,
            -gd.x.y * 0.5 * thk * t0,
            gd.x.x * 0.5 * thk * t0,
            0.0,
            0.0,
            0.0,
        ],
        [
            0.0,
            gd.y.y * 0.5 * thk * t0,
            -gd.y.x * 0.5 * thk * t0,
            0.0,
            0.0,
            0.0,
            0.0,
            -gd.y.y * 0.5 * thk * t0,
            gd.y.x * 0.5 * thk * t0,
        ],
        [
            0.0,
            (gd.x.y + gd.y.y) * 0.25 * thk * t0,
            -(gd.x.x + gd.y.x) * 0.25 * thk * t0,
            0.0,
            -gd.y.y * 0.25 * thk * t0,
            gd.y.x * 0.25 * thk * t0,
            0.0,
            -gd.x.y * 0.25 * thk * t0,
            gd.x.x * 0.25 * thk * t0,
        ],
    ]
}

// What the point t0 adds to w.
#[tactic(auto, unfolding(crate::specs::Bending::w_of))]
pub fn w(bending: Bending, t0: f64) -> f64
    ensures { result ≡ w_of binary64 bending t0 }
{
    let strain = strain(bending, t0);
    let stress = mat3_row_major::mult_vec(bending.coeffb, strain);
    bending.w_integration * 0.5 * vec3::dot(strain, stress)
}

// What it adds to the entry of dw whose dstrain is d.
#[tactic(auto, unfolding(crate::specs::Bending::dw_of))]
pub fn dw(bending: Bending, t0: f64, d: V3) -> f64
    ensures { result ≡ dw_of binary64 bending t0 d }
{
    let stress = mat3_row_major::mult_vec(bending.coeffb, strain(bending, t0));
    bending.w_integration * vec3::dot(stress, d)
}

// What a point adds to the entry of ddw whose dstrain by (ino, idof) is di and by (jno, jdof) dj.
#[tactic(auto, unfolding(crate::specs::Bending::ddw_of))]
pub fn ddw(bending: Bending, di: V3, dj: V3) -> f64
    ensures { result ≡ ddw_of binary64 bending di dj }
{
    let dtmp = di.x * bending.coeffb.x.x * dj.x
        + di.x * bending.coeffb.x.y * dj.y
        + di.x * bending.coeffb.x.z * dj.z
        + di.y * bending.coeffb.y.x * dj.x
        + di.y * bending.coeffb.y.y * dj.y
        + di.y * bending.coeffb.y.z * dj.z
        + di.z * bending.coeffb.z.x * dj.x
        + di.z * bending.coeffb.z.y * dj.y
        + di.z * bending.coeffb.z.z * dj.z;
    bending.w_integration * dtmp
}
