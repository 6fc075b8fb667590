// Triangles in space.
ghost use Rattle.std.specs.Prelude.{◌≡◌};
ghost use Rattle.std.specs.Float.{binary64};
ghost use Rattle.del_geo_core.specs.Tri3.{corners_of, normal_of, area_of, unit_normal_area_of};

use crate::tri::Tri;
use vec3::{Divided, V3};

pub type Tri3 = Tri<V3>;

impl From<[[f64; 3]; 3]> for Tri3 {
    ghost from_gives = { λ p t. t ≡ corners_of p };

    fn from([p0, p1, p2]: [[f64; 3]; 3]) -> Self {
        Tri3 {
            p0: p0.into(),
            p1: p1.into(),
            p2: p2.into(),
        }
    }
}

// The unit normal with the norm that divided it, and the area.
#[derive(Clone, Copy)]
pub struct NormalArea {
    pub normal: Divided,
    pub area: f64,
}

// Across the edges from p0: twice the area long.
#[tactic(auto, unfolding(crate::specs::Tri3::normal_of))]
pub fn normal(p0: V3, p1: V3, p2: V3) -> V3
    ensures { result ≡ normal_of binary64 p0 p1 p2 }
{
    vec3::cross(vec3::sub(p1, p0), vec3::sub(p2, p0))
}

#[tactic(auto, unfolding(crate::specs::Tri3::area_of))]
pub fn area(p0: V3, p1: V3, p2: V3) -> f64
    ensures { result ≡ area_of binary64 p0 p1 p2 }
{
    0.5 * vec3::norm(normal(p0, p1, p2))
}

#[tactic(auto, unfolding(crate::specs::Tri3::unit_normal_area_of))]
pub fn unit_normal_area(p0: V3, p1: V3, p2: V3) -> NormalArea
    ensures { result ≡ unit_normal_area_of binary64 p0 p1 p2 }
{
    let normal = vec3::unit(normal(p0, p1, p2));
    NormalArea {
        normal,
        area: normal.by * 0.5,
    }
}
