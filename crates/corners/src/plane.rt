// In the plane.
ghost use Rattle.corners.specs.Plane.{point_finite};

use crate::IsFinite;
use del_geo_core::tri2::V2;

impl IsFinite for V2 {
    ghost finite = { point_finite };

    fn is_finite(self) -> bool {
        float::is_finite(self.x) & float::is_finite(self.y)
    }
}
