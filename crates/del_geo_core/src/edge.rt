// Edges in space.
ghost use Rattle.std.specs.Prelude.{◌≡◌};
ghost use Rattle.std.specs.Float.{binary64};
ghost use Rattle.del_geo_core.specs.Edge.{length_of};

use vec3::V3;

#[tactic(auto, unfolding(crate::specs::Edge::length_of))]
pub fn length(p0: V3, p1: V3) -> f64
    ensures { result ≡ length_of binary64 p0 p1 }
{
    vec3::norm(vec3::sub(p0, p1))
}
