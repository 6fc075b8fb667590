// In space.
ghost use Rattle.corners.specs.Space.{point_finite};

use crate::IsFinite;
use vec3::V3;

impl IsFinite for V3 {
    ghost finite = { point_finite };

    fn is_finite(self) -> bool {
        float::is_finite(self.x) & float::is_finite(self.y) & float::is_finite(self.z)
    }
}
