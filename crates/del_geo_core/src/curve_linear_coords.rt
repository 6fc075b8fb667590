// Covariant and contravariant vectors.
ghost use Rattle.std.specs.Prelude.{◌≡◌};
ghost use Rattle.std.specs.Float.{binary64};
ghost use Rattle.del_geo_core.specs.CurveLinearCoords.{contravariant_of, inverse_of};

use vec3::{Divided, V3};

// Three contravariant vectors, each with the dot that divided it: gu[0] of the sources is gu.x.
#[derive(Clone, Copy)]
pub struct DualBasis {
    pub x: Divided,
    pub y: Divided,
    pub z: Divided,
}

// Across g1 and g2, scaled by 1 / its dot with g0.
#[tactic(auto, unfolding(crate::specs::CurveLinearCoords::contravariant_of))]
pub fn contravariant(g0: V3, g1: V3, g2: V3) -> Divided
    ensures { result ≡ contravariant_of binary64 g0 g1 g2 }
{
    let gu = vec3::cross(g1, g2);
    vec3::over(gu, vec3::dot(gu, g0))
}

#[tactic(auto, unfolding(crate::specs::CurveLinearCoords::inverse_of))]
pub fn inverse(g0: V3, g1: V3, g2: V3) -> DualBasis
    ensures { result ≡ inverse_of binary64 g0 g1 g2 }
{
    let x = contravariant(g0, g1, g2);
    let y = contravariant(g1, g2, g0);
    let z = contravariant(g2, g0, g1);
    DualBasis { x, y, z }
}
