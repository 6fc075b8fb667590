// The lines that `wall` prints, from the blocks of a wall's file and its masses: each as a template with its numbers put in (docs/WALL.md),
// in a lent buffer of any length, as `lines::fill` takes it.
#![tactic(auto)]

ghost use Rattle.std.specs.Prelude.{◌≡◌};
ghost use Rattle.wall_lines.specs.Lines.{IsHead, point_numbers, IsRow, IsTogether, IsPoint, edge_of, IsSvg, IsOutline, radius_of, IsDot, IsSizes, IsOutside, IsOffPlane, IsTurned};

use del_geo_core::tri2::Tri2;
use survey::{Extent, Row, Wall, Weighed};

const HEAD: &[u8] =
    b"points      %0000\ntriangles   %0000\nwidth       %3300 mm\nheight      %3300 mm\narea        %0600 m2\ndensity     %3300 kg/m3\nthickness   %9600 mm\nyoung       %0600 MPa\npoisson     %6600\nmass        %0600 kg\nidle        %0000 points\n";

const ROW: &[u8] = b"%0008 %3315 %3315 %0615\n";

const TOGETHER: &[u8] = b"together                                 %0615\n";

const POINT: &[u8] = b"%0000\t%3300\t%3300\t%3600\n";

const SVG: &[u8] =
    b"<svg xmlns=\"http://www.w3.org/2000/svg\" viewBox=\"%3300 %3300 %3300 %3300\" font-family=\"sans-serif\" font-size=\"%3300\" text-anchor=\"middle\">\n<path fill=\"none\" stroke=\"black\" stroke-width=\"%3300\" stroke-linejoin=\"round\" d=\"\n";

const OUTLINE: &[u8] = b"M%3300 %3300L%3300 %3300L%3300 %3300Z\n";

const DOT: &[u8] = b"<circle cx=\"%3300\" cy=\"%3300\" r=\"%3300\"/>\n";

const SIZES: &[u8] =
    b"</g>\n<text x=\"%3300\" y=\"%3300\">%3300 mm</text>\n<text transform=\"translate(%3300 %3300) rotate(-90)\">%3300 mm</text>\n<text x=\"%3300\" y=\"%3300\" text-anchor=\"end\">%0600 kg</text>\n</svg>\n";

// Its fifth byte is the coordinate's name.
const OUTSIDE: [u8; 63] = *b"the x of point %0000 is not between -1000000000 and 1000000000\n";

const OFF_PLANE: &[u8] = b"is not flat: point %0000 lies at z %6600 mm, point 0 at z %6600 mm\n";

const TURNED: &[u8] =
    b"triangle %0000 turns right: its corners, the points %0000, %0000 and %0000, run clockwise\n";

// What a wall is made of, in kg/m3, m and Pa.
#[derive(Clone, Copy)]
pub struct Sheet {
    pub density: f64,
    pub thickness: f64,
    pub young: f64,
    pub poisson: f64,
}

// The label, from the counts on up to what is idle.
pub fn head(w: &Weighed, sheet: Sheet, out: &mut [u8]) -> usize
    ensures { IsHead w.now.wall.points.now w.now.wall.cells.now sheet w.now.mass.now out.old result out.new }
{
    let e = w.wall.extent();
    lines::fill(
        HEAD,
        &[
            lines::count(w.wall.points_count()),
            lines::count(w.wall.triangles_count()),
            e.x1 - e.x0,
            e.y1 - e.y0,
            w.wall.area(),
            sheet.density,
            sheet.thickness,
            sheet.young,
            sheet.poisson,
            w.total_mass(),
            lines::count(w.idle()),
        ],
        out,
    )
}

// What the lines of a point say.
fn point_numbers(w: &Weighed, i: usize) -> [f64; 4]
    ensures { result ≡ point_numbers w.now.wall.points.now w.now.mass.now i }
{
    [
        lines::count(i),
        mesh::coordinate(w.wall.points, i, 0),
        mesh::coordinate(w.wall.points, i, 1),
        w.mass_at(i),
    ]
}

// Point i in the label's table, by its mass in kg.
pub fn row(w: &Weighed, i: usize, out: &mut [u8]) -> usize
    ensures { IsRow w.now.wall.points.now w.now.mass.now i out.old result out.new }
{
    lines::fill(ROW, &point_numbers(w, i), out)
}

pub fn together(w: &Weighed, row: Row, out: &mut [u8]) -> usize
    ensures { IsTogether w.now.wall.points.now w.now.mass.now row out.old result out.new }
{
    lines::fill(TOGETHER, &[w.row_mass(row)], out)
}

// Point i in the list of all, by its mass in g.
pub fn point(w: &Weighed, i: usize, out: &mut [u8]) -> usize
    ensures { IsPoint w.now.wall.points.now w.now.mass.now i out.old result out.new }
{
    lines::fill(POINT, &point_numbers(w, i), out)
}

// The edge around a picture.
#[tactic(auto, unfolding(crate::specs::Lines::edge_of))]
fn edge(e: Extent) -> f64
    ensures { result ≡ edge_of e }
{
    (e.x1 - e.x0 + (e.y1 - e.y0)) / 16.0
}

// A picture, up to its outlines.
pub fn svg(e: Extent, out: &mut [u8]) -> usize
    ensures { IsSvg e out.old result out.new }
{
    let d = edge(e);
    let w = e.x1 - e.x0;
    let h = e.y1 - e.y0;
    lines::fill(
        SVG,
        &[-d, -d, w + 2.0 * d, h + 2.0 * d, d / 4.0, d / 64.0],
        out,
    )
}

// Triangle t of a picture.
pub fn outline(wall: &Wall, e: Extent, t: usize, out: &mut [u8]) -> usize
    ensures { IsOutline wall.now.points.now wall.now.cells.now e t out.old result out.new }
{
    let Tri2 { p0, p1, p2 } = wall.triangle(t);
    lines::fill(
        OUTLINE,
        &[
            p0.x - e.x0,
            e.y1 - p0.y,
            p1.x - e.x0,
            e.y1 - p1.y,
            p2.x - e.x0,
            e.y1 - p2.y,
        ],
        out,
    )
}

// Of a dot whose area is to the total's as its mass is to the total.
#[tactic(auto, unfolding(crate::specs::Lines::radius_of))]
fn radius(mass: f64, total: f64, d: f64) -> f64
    ensures { result ≡ radius_of mass total d }
{
    if 0.0 < total {
        root::sqrt(mass / total) * (d / 2.0)
    } else {
        0.0
    }
}

// Point i of a picture's row.
pub fn dot(w: &Weighed, e: Extent, total: f64, i: usize, out: &mut [u8]) -> usize
    ensures { IsDot w.now.wall.points.now w.now.mass.now e total i out.old result out.new }
{
    let x = mesh::coordinate(w.wall.points, i, 0);
    let y = mesh::coordinate(w.wall.points, i, 1);
    lines::fill(
        DOT,
        &[x - e.x0, e.y1 - y, radius(w.mass_at(i), total, edge(e))],
        out,
    )
}

// The end of a picture: its sizes and the total.
pub fn sizes(e: Extent, total: f64, out: &mut [u8]) -> usize
    ensures { IsSizes e total out.old result out.new }
{
    let d = edge(e);
    let w = e.x1 - e.x0;
    let h = e.y1 - e.y0;
    lines::fill(
        SIZES,
        &[
            w / 2.0,
            h + d * 0.75,
            w,
            -(d / 2.0),
            h / 2.0,
            h,
            w + d * 0.75,
            -(d / 2.0),
            total,
        ],
        out,
    )
}

// Why a wall is refused whose coordinate k in file order is not between the limits.
pub fn outside(k: usize, out: &mut [u8]) -> usize
    ensures { IsOutside k out.old result out.new }
{
    let mut template = OUTSIDE;
    template[4] = b"xyz"[k % 3];
    lines::fill(&template, &[lines::count(k / 3)], out)
}

// One whose point i is in another plane than point 0.
pub fn off_plane(wall: &Wall, i: usize, out: &mut [u8]) -> usize
    ensures { IsOffPlane wall.now.points.now i out.old result out.new }
{
    lines::fill(
        OFF_PLANE,
        &[
            lines::count(i),
            mesh::coordinate(wall.points, i, 2),
            mesh::coordinate(wall.points, 0, 2),
        ],
        out,
    )
}

// And one whose triangle t turns right.
pub fn turned(wall: &Wall, t: usize, out: &mut [u8]) -> usize
    ensures { IsTurned wall.now.cells.now t out.old result out.new }
{
    lines::fill(
        TURNED,
        &[
            lines::count(t),
            lines::count(mesh::name(wall.cells, t, 0)),
            lines::count(mesh::name(wall.cells, t, 1)),
            lines::count(mesh::name(wall.cells, t, 2)),
        ],
        out,
    )
}
