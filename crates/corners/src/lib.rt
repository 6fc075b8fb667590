// The test that kernels make of the points and triangles that they are lent (01-scope 2.1). Nested arrays become those by `From` (01-scope 12).
#![tactic(auto)]

ghost use Rattle.std.specs.Prelude.{◌≡◌, ◌&&◌, Bool};

use del_geo_core::tri::Tri;

mod plane;
mod space;

// Whether all its numbers are finite.
pub trait IsFinite: Copy {
    ghost finite: { Self → Bool };

    fn is_finite(self) -> bool
        ensures { result ≡ finite self };
}

// Of points in the plane it is `is_finite_of` of specs/Plane, of points in space that of specs/Space.
impl<P: IsFinite> IsFinite for Tri<P> {
    ghost finite = { λ p. P.finite p.p0 && P.finite p.p1 && P.finite p.p2 };

    fn is_finite(self) -> bool {
        self.p0.is_finite() & self.p1.is_finite() & self.p2.is_finite()
    }
}
