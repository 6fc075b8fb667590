// Vectors of three numbers: the original's `vec3` (01-scope 3). A point or vector is a struct by value, and every step one operation in the order written.
#![tactic(auto)]

ghost use Rattle.std.specs.Prelude.{◌≡◌};
ghost use Rattle.std.specs.Float.{binary64};
ghost use Rattle.vec3.specs.Vec3.{point_of, dot_of, cross_of, sub_of, scale_of, norm_of, over_of, unit_of, normalize_of};

#[derive(Clone, Copy)]
pub struct V3 {
    pub x: f64,
    pub y: f64,
    pub z: f64,
}

impl From<[f64; 3]> for V3 {
    ghost from_gives = { λ a v. v ≡ point_of a };

    fn from([x, y, z]: [f64; 3]) -> Self {
        V3 { x, y, z }
    }
}

// A vector that was scaled by 1 / by: kernels refuse where `by` is zero.
#[derive(Clone, Copy)]
pub struct Divided {
    pub v: V3,
    pub by: f64,
}

pub fn dot(a: V3, b: V3) -> f64
    ensures { result ≡ dot_of binary64 a b }
{
    a.x * b.x + a.y * b.y + a.z * b.z
}

pub fn cross(a: V3, b: V3) -> V3
    ensures { result ≡ cross_of binary64 a b }
{
    V3 {
        x: a.y * b.z - a.z * b.y,
        y: a.z * b.x - a.x * b.z,
        z: a.x * b.y - a.y * b.x,
    }
}

pub fn sub(a: V3, b: V3) -> V3
    ensures { result ≡ sub_of binary64 a b }
{
    V3 {
        x: a.x - b.x,
        y: a.y - b.y,
        z: a.z - b.z,
    }
}

pub fn scale(a: V3, s: f64) -> V3
    ensures { result ≡ scale_of binary64 a s }
{
    V3 {
        x: a.x * s,
        y: a.y * s,
        z: a.z * s,
    }
}

#[tactic(auto, unfolding(crate::specs::Vec3::norm_of))]
pub fn norm(a: V3) -> f64
    ensures { result ≡ norm_of binary64 a }
{
    root::sqrt(dot(a, a))
}

// a scaled by 1 / d, and d.
#[tactic(auto, unfolding(crate::specs::Vec3::over_of))]
pub fn over(a: V3, d: f64) -> Divided
    ensures { result ≡ over_of binary64 a d }
{
    let v = scale(a, 1.0 / d);
    Divided { v, by: d }
}

// a normalized, and the norm that divided it.
#[tactic(auto, unfolding(crate::specs::Vec3::unit_of))]
pub fn unit(a: V3) -> Divided
    ensures { result ≡ unit_of binary64 a }
{
    over(a, norm(a))
}

#[tactic(auto, unfolding(crate::specs::Vec3::normalize_of))]
pub fn normalize(a: V3) -> V3
    ensures { result ≡ normalize_of binary64 a }
{
    unit(a).v
}
