// The numbers of `w_dw_ddw_plate_bending` (mitc_tri3.rs): energy, gradient and Hessian of a plate triangle. The source's two blocks are the crates `plate_bending` and
// `plate_shear`; here stand the sums over the points of both. An index 0, 1, 2 of the source is x, y, z here: gd[0][1] is gd.x.y.
#![tactic(auto)]

ghost use Rattle.std.specs.Prelude.{◌≡◌, ◌<◌};
ghost use Rattle.std.specs.Float.{binary64};
ghost use Rattle.plate.specs.Plate.{gd_of, state_of, column3_of, column2_of, w_of, dw_of, ddw_of};
ghost use Rattle.plate.specs.Parts.{dstrains_of, columns_of, sum_of, dw_at_of, ddw_at_of, row_of};

use del_geo_core::curve_linear_coords::DualBasis;
use del_geo_core::mat3_row_major::Matrix3;
use del_geo_core::tri2::{Tri2, V2};
use del_geo_core::tri3::Tri3;
use del_geo_core::{curve_linear_coords, tri2};
use plate_bending::Bending;
use plate_shear::Shear;
use std::array;
use vec3::V3;

// What the energy and its derivatives are made of.
#[derive(Clone, Copy)]
pub struct State {
    pub thk: f64,
    pub gd: Matrix3,
    pub gu: DualBasis,
    pub bending: Bending,
    pub shear: Shear,
}

// dstrain[k], each with its nine places ino * 3 + idof in a row, at the two points of bending and the three of shear.
#[derive(Clone, Copy)]
pub(crate) struct Dstrains {
    pub bending0: [[f64; 9]; 3],
    pub bending1: [[f64; 9]; 3],
    pub shear0: [[f64; 9]; 2],
    pub shear1: [[f64; 9]; 2],
    pub shear2: [[f64; 9]; 2],
}

// The same by one degree of freedom.
#[derive(Clone, Copy)]
pub(crate) struct Dstrain {
    pub bending0: V3,
    pub bending1: V3,
    pub shear0: V2,
    pub shear1: V2,
    pub shear2: V2,
}

// Covariant basis vectors: two edges and half the thickness.
#[tactic(auto, unfolding(crate::specs::Plate::gd_of))]
fn gd(p: Tri2, thk: f64) -> Matrix3
    ensures { result ≡ gd_of binary64 p thk }
{
    let plane = edges::plane(p);
    let x = plane.x;
    let y = plane.y;
    let z = V3 {
        x: 0.0,
        y: 0.0,
        z: 0.5 * thk,
    };
    Matrix3 { x, y, z }
}

// lambda and myu stand apart, as in the source and in the definitions: these numbers know of no material.
#[tactic(auto, unfolding(crate::specs::Plate::state_of, crate::specs::Plate::gu_of))]
pub fn state_of(p: Tri2, u: Tri3, thk: f64, lambda: f64, myu: f64) -> State
    ensures { result ≡ state_of binary64 p u thk lambda myu }
{
    let area = tri2::area(p.p0, p.p1, p.p2).area;
    let gd = gd(p, thk);
    let gu = curve_linear_coords::inverse(gd.x, gd.y, gd.z);
    let gu_gu = edges::gu_gu(gu);
    let bending = plate_bending::bending_of(gd, gu_gu, u, area, thk, lambda, myu);
    let shear = plate_shear::shear_of(gd, gu_gu, u, area, thk, myu);
    State {
        thk,
        gd,
        gu,
        bending,
        shear,
    }
}

// What the points add up to, in the order in which the source comes to them.
fn sum(bending0: f64, bending1: f64, shear0: f64, shear1: f64, shear2: f64) -> f64
    ensures { result ≡ sum_of binary64 bending0 bending1 shear0 shear1 shear2 }
{
    0.0 + bending0 + bending1 + shear0 + shear1 + shear2
}

#[tactic(auto, unfolding(crate::specs::Plate::w_of, crate::specs::Plate::accumulated_of, float::specs::Lists::fold, plate_bending::specs::Bending::t0s, plate_shear::specs::Shear::rs, plate_shear::specs::Shear::ss))]
pub fn w(s: State) -> f64
    ensures { result ≡ w_of binary64 s }
{
    let [t0_first, t0_second] = plate_bending::t0s();
    sum(
        plate_bending::w(s.bending, t0_first),
        plate_bending::w(s.bending, t0_second),
        plate_shear::w(s.shear, 0.5, 0.0),
        plate_shear::w(s.shear, 0.5, 0.5),
        plate_shear::w(s.shear, 0.0, 0.5),
    )
}

// For each k, where i is ino * 3 + idof: at a point of bending, and at one of shear. Two functions, since the vectors have fields and not places.
fn column3(dstrain: &[[f64; 9]; 3], i: usize) -> V3
    requires { i < 9 }
    ensures { result ≡ column3_of dstrain.now i }
{
    V3 {
        x: dstrain[0][i],
        y: dstrain[1][i],
        z: dstrain[2][i],
    }
}

fn column2(dstrain: &[[f64; 9]; 2], i: usize) -> V2
    requires { i < 9 }
    ensures { result ≡ column2_of dstrain.now i }
{
    V2 {
        x: dstrain[0][i],
        y: dstrain[1][i],
    }
}

impl Dstrains {
    #[tactic(auto, unfolding(crate::specs::Parts::dstrains_of))]
    fn of(gd: Matrix3, thk: f64) -> Dstrains
        ensures { result ≡ dstrains_of binary64 gd thk }
    {
        let [t0_first, t0_second] = plate_bending::t0s();
        Dstrains {
            bending0: plate_bending::dstrain(gd, thk, t0_first),
            bending1: plate_bending::dstrain(gd, thk, t0_second),
            shear0: plate_shear::dstrain(gd, thk, 0.5, 0.0),
            shear1: plate_shear::dstrain(gd, thk, 0.5, 0.5),
            shear2: plate_shear::dstrain(gd, thk, 0.0, 0.5),
        }
    }

    #[tactic(auto, unfolding(crate::specs::Parts::columns_of))]
    fn columns(&self, i: usize) -> Dstrain
        requires { i < 9 }
        ensures { result ≡ columns_of self.now i }
    {
        Dstrain {
            bending0: column3(&self.bending0, i),
            bending1: column3(&self.bending1, i),
            shear0: column2(&self.shear0, i),
            shear1: column2(&self.shear1, i),
            shear2: column2(&self.shear2, i),
        }
    }
}

#[tactic(auto, unfolding(crate::specs::Parts::dw_at_of))]
fn dw_at(s: State, d: Dstrain) -> f64
    ensures { result ≡ dw_at_of binary64 s d }
{
    let [t0_first, t0_second] = plate_bending::t0s();
    sum(
        plate_bending::dw(s.bending, t0_first, d.bending0),
        plate_bending::dw(s.bending, t0_second, d.bending1),
        plate_shear::dw(s.shear, 0.5, 0.0, d.shear0),
        plate_shear::dw(s.shear, 0.5, 0.5, d.shear1),
        plate_shear::dw(s.shear, 0.0, 0.5, d.shear2),
    )
}

pub fn dw(s: State) -> [f64; 9]
    ensures { result ≡ dw_of binary64 s }
{
    let dstrains = Dstrains::of(s.gd, s.thk);
    array::from_fn(|i| dw_at(s, dstrains.columns(i)))
}

// Inlined, though it is called at two places.
#[inline(always)]
#[tactic(auto, unfolding(crate::specs::Parts::ddw_at_of))]
fn ddw_at(s: State, di: Dstrain, dj: Dstrain) -> f64
    ensures { result ≡ ddw_at_of binary64 s di dj }
{
    sum(
        plate_bending::ddw(s.bending, di.bending0, dj.bending0),
        plate_bending::ddw(s.bending, di.bending1, dj.bending1),
        plate_shear::ddw(s.shear, di.shear0, dj.shear0),
        plate_shear::ddw(s.shear, di.shear1, dj.shear1),
        plate_shear::ddw(s.shear, di.shear2, dj.shear2),
    )
}

// The nine entries by degree of freedom i and each j. Eight stand in a loop of their own, an even count, which the compiler takes two at a time: `array::from_fn` over all nine makes the
// whole plate take a third more instructions.
fn row(s: State, dstrains: &Dstrains, i: usize) -> [f64; 9]
    requires { i < 9 }
    ensures { result ≡ row_of binary64 s dstrains.now i }
{
    let di = dstrains.columns(i);
    let mut row = [0.0; 9];
    for j in 0..8usize {
        row[j] = ddw_at(s, di, dstrains.columns(j));
    }
    row[8] = ddw_at(s, di, dstrains.columns(8));
    row
}

// The entry of degrees of freedom i = ino * 3 + idof and j stands at (ino * 3 + jno) * 9 + idof * 3 + jdof.
pub fn ddw(s: State) -> [f64; 81]
    ensures { result ≡ ddw_of binary64 s }
{
    let dstrains = Dstrains::of(s.gd, s.thk);
    let mut ddw = [0.0; 81];
    for i in 0..9usize {
        for (j, &entry) in row(s, &dstrains, i).iter().enumerate() {
            ddw[(i / 3 * 3 + j / 3) * 9 + i % 3 * 3 + j % 3] = entry;
        }
    }
    ddw
}
