// What is measured of a wall before and after it is weighed, from the blocks of its mesh file and its masses: what is wrong with it first, how large it is, and what a row of points carries.
#![tactic(auto)]

ghost use Rattle.survey.specs.Survey;
ghost use Rattle.std.specs.Prelude.{◌≡◌};
ghost use Rattle.survey.specs.Survey.{points_count, triangles_count, point_of, triangle_of, is_inside, IsOutside, IsOffPlane, IsTurned};
ghost use Rattle.survey.specs.Survey.{extent_at, extent_of, areas_of, mass_at, total_of, idle_of, index_of, row_of, in_row, row_mass_of, is_whole_point, is_bounded_of, line_of, number_at};

use del_geo_core::tri2;
use del_geo_core::tri2::{Tri2, V2};

// A wall, as the blocks of its mesh file have it.
#[derive(Clone, Copy)]
pub struct Wall<'a> {
    pub points: &'a [u8],
    pub cells: &'a [u8],
}

// A wall and its masses, three for each point, the translational one first.
#[derive(Clone, Copy)]
pub struct Weighed<'a> {
    pub wall: Wall<'a>,
    pub mass: &'a [f64],
}

// The smallest and the largest x and y.
#[derive(Clone, Copy)]
pub struct Extent {
    pub x0: f64,
    pub x1: f64,
    pub y0: f64,
    pub y1: f64,
}

#[derive(Clone, Copy)]
pub enum Axis {
    X,
    Y,
    // The coordinate of this number, z being 2; there is none of 3 and above, and no point's is equal to it.
    Numbered(usize),
}

// The points whose coordinate along the axis is the value.
#[derive(Clone, Copy)]
pub struct Row {
    pub axis: Axis,
    pub value: f64,
}

// The side of a wall that its hinges are at.
#[derive(Clone, Copy)]
pub enum Side {
    Left,
    Right,
    Top,
    Bottom,
}

fn is_inside(x: f64) -> bool
    ensures { result ≡ is_inside x }
{
    (x < 1.0e9) & (-1.0e9 < x)
}

// Not f64::min and f64::max: they leave open which of two zeros they answer, and pass over a NaN. Two functions, as there are two definitions: one would take the test.
fn smaller(a: f64, b: f64) -> f64
    ensures { result ≡ Survey.smaller a b }
{
    if b < a { b } else { a }
}

fn larger(a: f64, b: f64) -> f64
    ensures { result ≡ Survey.larger a b }
{
    if a < b { b } else { a }
}

fn is_whole(p: V2) -> bool
    ensures { result ≡ is_whole_point p }
{
    range::is_whole(p.x) & range::is_whole(p.y)
}

impl Extent {
    fn at(p: V2) -> Self
        ensures { result ≡ extent_at p }
    {
        Extent {
            x0: p.x,
            x1: p.x,
            y0: p.y,
            y1: p.y,
        }
    }

    fn widened(self, p: V2) -> Self
        ensures { result ≡ Survey.widened self p }
    {
        Extent {
            x0: smaller(self.x0, p.x),
            x1: larger(self.x1, p.x),
            y0: smaller(self.y0, p.y),
            y1: larger(self.y1, p.y),
        }
    }

    // The points of the smallest x, the largest x, the largest y or the smallest y.
    pub fn row(self, side: Side) -> Row
        ensures { result ≡ row_of side self }
    {
        match side {
            Side::Left => Row {
                axis: Axis::X,
                value: self.x0,
            },
            Side::Right => Row {
                axis: Axis::X,
                value: self.x1,
            },
            Side::Top => Row {
                axis: Axis::Y,
                value: self.y1,
            },
            Side::Bottom => Row {
                axis: Axis::Y,
                value: self.y0,
            },
        }
    }
}

impl Axis {
    fn index(self) -> usize
        ensures { result ≡ index_of self }
    {
        match self {
            Axis::X => 0,
            Axis::Y => 1,
            Axis::Numbered(k) => k,
        }
    }
}

impl Wall<'_> {
    pub fn points_count(&self) -> usize
        ensures { result ≡ points_count self.now.points.now }
    {
        self.points.len() / 24
    }

    pub fn triangles_count(&self) -> usize
        ensures { result ≡ triangles_count self.now.cells.now }
    {
        self.cells.len() / 16
    }

    fn point(&self, i: usize) -> V2
        ensures { result ≡ point_of self.now.points.now i }
    {
        V2 {
            x: mesh::coordinate(self.points, i, 0),
            y: mesh::coordinate(self.points, i, 1),
        }
    }

    // The corners of triangle t.
    pub fn triangle(&self, t: usize) -> Tri2
        ensures { result ≡ triangle_of self.now.points.now self.now.cells.now t }
    {
        Tri2 {
            p0: self.point(mesh::name(self.cells, t, 0)),
            p1: self.point(mesh::name(self.cells, t, 1)),
            p2: self.point(mesh::name(self.cells, t, 2)),
        }
    }

    // The first coordinate, counted in file order, three to a point, that is not between -10^9 and 10^9.
    pub fn outside(&self) -> Option<usize>
        ensures { IsOutside self.now.points.now result }
    {
        (0..self.points_count() * 3).find(|&k| !is_inside(mesh::coordinate(
            self.points,
            k / 3,
            k % 3,
        )))
    }

    // The first point whose z is not that of point 0.
    pub fn off_plane(&self) -> Option<usize>
        ensures { IsOffPlane self.now.points.now result }
    {
        let z = mesh::coordinate(self.points, 0, 2);
        (0..self.points_count()).find(|&i| mesh::coordinate(self.points, i, 2) != z)
    }

    // The first triangle that turns right.
    pub fn turned(&self) -> Option<usize>
        ensures { IsTurned self.now.points.now self.now.cells.now result }
    {
        (0..self.triangles_count()).find(|&t| tri2::turns_right(self.triangle(t)))
    }

    pub fn extent(&self) -> Extent
        ensures { result ≡ extent_of self.now.points.now }
    {
        (0..self.points_count())
            .map(|i| self.point(i))
            .fold(Extent::at(self.point(0)), |e, p| e.widened(p))
    }

    // The triangles' areas, added in the file's order from +0.
    pub fn area(&self) -> f64
        ensures { result ≡ areas_of self.now.points.now self.now.cells.now }
    {
        (0..self.triangles_count())
            .map(|t| self.triangle(t))
            .fold(0.0, |sum, p| sum + tri2::area(p.p0, p.p1, p.p2).area)
    }

    pub fn in_row(&self, row: Row, i: usize) -> bool
        ensures { result ≡ in_row self.now.points.now row i }
    {
        mesh::coordinate(self.points, i, row.axis.index()) == row.value
    }

    // Whether demand 3's bound applies to the masses: all x and y are whole numbers up to 1,048,576, density and thickness from 2^-40 to 2^40.
    pub fn is_bounded(&self, density: f64, thickness: f64) -> bool
        ensures { result ≡ is_bounded_of self.now.points.now density thickness }
    {
        (0..self.points_count()).map(|i| self.point(i)).fold(
            range::is_factor(density) & range::is_factor(thickness),
            |ok, p| ok & is_whole(p),
        )
    }
}

impl Weighed<'_> {
    // The translational mass of point i; +0 where it has none.
    pub fn mass_at(&self, i: usize) -> f64
        ensures { result ≡ mass_at self.now.mass.now i }
    {
        if i < self.mass.len() / 3 {
            self.mass[i * 3]
        } else {
            0.0
        }
    }

    // The translational masses, added in the points' order from +0.
    pub fn total_mass(&self) -> f64
        ensures { result ≡ total_of self.now.mass.now }
    {
        let (masses, _) = self.mass.as_chunks::<3>();
        masses.iter().map(|m| m[0]).fold(0.0, |sum, m| sum + m)
    }

    // How many points have no mass.
    pub fn idle(&self) -> usize
        ensures { result ≡ idle_of self.now.mass.now }
    {
        let (masses, _) = self.mass.as_chunks::<3>();
        masses.iter().map(|m| m[0]).filter(|&m| m == 0.0).count()
    }

    // What the points of a row carry together, added in the points' order from +0.
    pub fn row_mass(&self, row: Row) -> f64
        ensures { result ≡ row_mass_of self.now.wall.points.now self.now.mass.now row }
    {
        (0..self.wall.points_count())
            .filter(|&i| self.wall.in_row(row, i))
            .fold(0.0, |sum, i| sum + self.mass_at(i))
    }
}

// The line of a file's byte, counted from 1: one more than there are newlines before it.
pub fn line_of(file: &[u8], place: usize) -> usize
    ensures { result ≡ line_of file.now place }
{
    file[..place.min(file.len())]
        .iter()
        .filter(|&&b| b == b'\n')
        .count()
        + 1
}

// The number in the four bytes from the place on, 0 where there are none.
pub fn number_at(file: &[u8], place: usize) -> usize
    ensures { result ≡ number_at file.now place }
{
    match &file[place.min(file.len())..] {
        [a, b, c, d, ..] => float::four_bytes([*a, *b, *c, *d]) as usize,
        _ => 0,
    }
}
