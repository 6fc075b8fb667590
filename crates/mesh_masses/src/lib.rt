// The lumped masses of a panel whose points and cells are the blocks of a mesh file, read where they lie: no list of names or coordinates is made.
// Points and cells are passed as the file gives them: a struct of both would be taken apart in each clause.
#![tactic(auto)]

ghost use Rattle.std.specs.Prelude.{◌≡◌, true, ◌*◌, length};
ghost use Rattle.std.specs.Float.{binary64};
ghost use Rattle.refusal.specs.Panel.{names_below};
ghost use Rattle.refusal.specs.Numbers.{answer_number};
ghost use Rattle.places.specs.Plane.{vertices_of, point_at, corners_at};
ghost use Rattle.masses.specs.Masses.{add_all};
ghost use Rattle.mitc_tri3.specs.Masses.{IsMasses};
ghost use Rattle.mesh_masses.specs.Blocks.{names_in, xy_in, triangle_of, seen_of};

use corners::IsFinite;
use del_geo_core::tri2;
use del_geo_core::tri2::{Tri2, V2};
use material::Material;
use refusal::Refusal;

// What holds of every triangle of a panel.
#[derive(Clone, Copy)]
struct Seen {
    named: bool,
    finite: bool,
    unturned: bool,
}

// The vertices that a triangle names.
fn names(cells: &[u8], t: usize) -> [usize; 3]
    ensures { result ≡ triangle_of cells.now t }
{
    [
        mesh::name(cells, t, 0),
        mesh::name(cells, t, 1),
        mesh::name(cells, t, 2),
    ]
}

// As `survey` reads a point: `mesh` knows no vectors, and of the two crates that do, neither stands on the other.
#[tactic(auto, using(crate::proofs::Lists::point_there))]
fn point(points: &[u8], i: usize) -> V2
    ensures { result ≡ point_at (xy_in points.now) i }
{
    V2 {
        x: mesh::coordinate(points, i, 0),
        y: mesh::coordinate(points, i, 1),
    }
}

// Beside that of `mitc_tri3`, with its `add_all`: a trait over where names and points lie would be longer than the two.
#[tactic(auto, unfolding(places::specs::Plane::corners_at))]
fn corners_at(points: &[u8], i0: usize, i1: usize, i2: usize) -> Tri2
    ensures { result ≡ corners_at (xy_in points.now) i0 i1 i2 }
{
    let p0 = point(points, i0);
    let p1 = point(points, i1);
    let p2 = point(points, i2);
    Tri2 { p0, p1, p2 }
}

// One look at every triangle, by number as in `add_all`, says three things: each of its names is a vertex's, the coordinates of each are finite, and it does not turn right.
fn look(points: &[u8], cells: &[u8]) -> Seen
    ensures { result ≡ seen_of (names_in cells.now) (xy_in points.now) }
{
    let vertices = points.len() / 24;
    let triangles = cells.len() / 16;
    let mut named = true;
    let mut finite = true;
    let mut unturned = true;
    for t in 0..triangles {
        let [i0, i1, i2] = names(cells, t);
        let p = corners_at(points, i0, i1, i2);
        named = named & ((i0 < vertices) & (i1 < vertices) & (i2 < vertices));
        finite = finite & p.is_finite();
        unturned = unturned & !tri2::turns_right(p);
    }
    Seen {
        named,
        finite,
        unturned,
    }
}

// The triangles in the file's order, by number: `mesh::name` takes it, and the file's cells are no list of names.
fn add_all(points: &[u8], cells: &[u8], thick: f64, rho: f64, vtx2mass: &mut [f64])
    requires cells_value { names_below (vertices_of (xy_in points.now)) (names_in cells.now) ≡ true }
    requires vtx2mass_len { length «vtx2mass».old ≡ vertices_of (xy_in points.now) * 3 }
    ensures { «vtx2mass».new ≡ add_all binary64 (names_in cells.now) (xy_in points.now) thick rho «vtx2mass».old }
{
    for t in 0..cells.len() / 16 {
        let [i0, i1, i2] = names(cells, t);
        let m = masses::mass(thick, rho, corners_at(points, i0, i1, i2));
        places::add_triangle(vtx2mass, [i0, i1, i2], [m; 3]);
    }
}

// As `mitc_tri3::mass_lumped_plate_bending` of the names and the coordinates that the blocks stand for.
pub fn masses(
    points: &[u8],
    cells: &[u8],
    material: Material,
    vtx2mass: &mut [f64],
) -> Result<(), Refusal>
    ensures { IsMasses binary64 (names_in cells.now) (xy_in points.now) material «vtx2mass».old (answer_number result) «vtx2mass».new }
{
    let thick = material.thickness;
    let rho = material.density;
    if refusal::bad_length(points.len() / 24, cells.len() / 16 * 3, vtx2mass.len()) {
        return Err(Refusal::BadLength);
    }
    let seen = look(points, cells);
    if !seen.named {
        return Err(Refusal::BadName);
    }
    if !(float::is_finite(thick) & float::is_finite(rho) & seen.finite) {
        return Err(Refusal::BadInput);
    }
    if !seen.unturned {
        return Err(Refusal::Turned);
    }
    lists::clear(vtx2mass);
    add_all(points, cells, thick, rho, vtx2mass);
    if !lists::all_finite(vtx2mass) {
        lists::clear(vtx2mass);
        return Err(Refusal::BadAnswer);
    }
    Ok(())
}
