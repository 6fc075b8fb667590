// Matrices of three rows.
ghost use Rattle.std.specs.Prelude.{◌≡◌};
ghost use Rattle.std.specs.Float.{binary64};
ghost use Rattle.del_geo_core.specs.Mat3RowMajor.{mult_vec_of};

use vec3::V3;

// Its rows: the entry at row 0 and column 1 is x.y.
#[derive(Clone, Copy)]
pub struct Matrix3 {
    pub x: V3,
    pub y: V3,
    pub z: V3,
}

// The dot of each row with v.
#[tactic(auto, unfolding(crate::specs::Mat3RowMajor::mult_vec_of))]
pub fn mult_vec(m: Matrix3, v: V3) -> V3
    ensures { result ≡ mult_vec_of binary64 m v }
{
    V3 {
        x: vec3::dot(m.x, v),
        y: vec3::dot(m.y, v),
        z: vec3::dot(m.z, v),
    }
}
