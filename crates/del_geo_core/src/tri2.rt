// Triangles in the plane.
ghost use Rattle.std.specs.Prelude.{◌≡◌};
ghost use Rattle.std.specs.Float.{binary64};
ghost use Rattle.del_geo_core.specs.Tri2.{point_of, corners_of, is_right_of, turn_of, signed_area_of, turns_right};

use crate::tri::Tri;

#[derive(Clone, Copy)]
pub struct V2 {
    pub x: f64,
    pub y: f64,
}

pub type Tri2 = Tri<V2>;

impl From<[f64; 2]> for V2 {
    ghost from_gives = { λ a v. v ≡ point_of a };

    fn from([x, y]: [f64; 2]) -> Self {
        V2 { x, y }
    }
}

impl From<[[f64; 2]; 3]> for Tri2 {
    ghost from_gives = { λ p t. t ≡ corners_of p };

    fn from([p0, p1, p2]: [[f64; 2]; 3]) -> Self {
        Tri2 {
            p0: p0.into(),
            p1: p1.into(),
            p2: p2.into(),
        }
    }
}

// Which way the corners run: left is counterclockwise.
#[derive(Clone, Copy)]
pub enum Turn {
    Left,
    Right,
    Flat,
}

#[derive(Clone, Copy)]
pub struct SignedArea {
    pub area: f64,
    pub turn: Turn,
}

impl Turn {
    // By the computed area: an infinite one has a side, a zero of either sign and a NaN have none.
    #[tactic(auto, unfolding(crate::specs::Tri2::turn_of))]
    fn of(area: f64) -> Turn
        ensures { result ≡ turn_of binary64 area }
    {
        if 0.0 < area {
            Turn::Left
        } else if area < 0.0 {
            Turn::Right
        } else {
            Turn::Flat
        }
    }

    #[tactic(auto, unfolding(crate::specs::Tri2::is_right_of))]
    fn is_right(self) -> bool
        ensures { result ≡ is_right_of self }
    {
        matches!(self, Turn::Right)
    }
}

// Negative where the corners run clockwise; and which way they do.
pub fn area(p0: V2, p1: V2, p2: V2) -> SignedArea
    ensures { result ≡ signed_area_of binary64 p0 p1 p2 }
{
    let area = 0.5 * ((p1.x - p0.x) * (p2.y - p0.y) - (p2.x - p0.x) * (p1.y - p0.y));
    SignedArea {
        area,
        turn: Turn::of(area),
    }
}

pub fn turns_right(p: Tri2) -> bool
    ensures { result ≡ turns_right binary64 p }
{
    area(p.p0, p.p1, p.p2).turn.is_right()
}
