// What C and Rust link: each routine under one name that begins with del_fem_, corners by reference, a material as a word and four numbers, values into a lent array, the refusal number
// returned (include/del_fem.h).
#![tactic(auto)]

ghost use Rattle.std.specs.Prelude.{◌≡◌};
ghost use Rattle.std.specs.Float.{binary64};
ghost use Rattle.root.specs.Root.{SquareRoot, SquareRootWord};
ghost use Rattle.material.specs.Material.{material_of};
ghost use Rattle.mitc_tri3.specs.Masses.{IsMasses};
ghost use Rattle.mesh.specs.Blocks.{IsCoordinate, IsName};
ghost use Rattle.words.specs.Words.{IsMeaning};
ghost use Rattle.del_fem.specs.Exports.{IsBendingExport, IsStrainExport, IsGreenLagrangeExport, IsStvkExport, IsPlateExport};
ghost use Rattle.del_fem.specs.Exports.{IsSkinExport, IsMeshExport, IsPointsExport, IsCellsExport, version};

use material::Material;
use refusal::{ACCEPTED, Refusal};

// Which header these functions fit.
#[unsafe(no_mangle)]
pub extern "C" fn del_fem_version() -> u32
    ensures { result ≡ version }
{
    3000
}

// What a number means in words, as a text of C: the words, then zeros; answers how many bytes the words have.
#[unsafe(no_mangle)]
pub extern "C" fn del_fem_meaning(number: u32, words: &mut [u8; 64]) -> usize
    ensures { IsMeaning number result words.new }
{
    words::meaning(number, words)
}

// The root of x.
#[unsafe(no_mangle)]
pub extern "C" fn del_fem_root_sqrt(x: f64) -> f64
    ensures { SquareRoot binary64 x result }
{
    root::sqrt(x)
}

// The root on bit patterns.
#[unsafe(no_mangle)]
pub extern "C" fn del_fem_root_sqrt_word(w: u64) -> u64
    ensures { SquareRootWord binary64 w result }
{
    root::sqrt_word(w)
}

// Three bending values, then their 36 derivatives.
#[unsafe(no_mangle)]
pub extern "C" fn del_fem_quadratic_bending_wdw(
    p_ini: &[[f64; 3]; 4],
    p_def: &[[f64; 3]; 4],
    values: &mut [f64; 39],
) -> u32
    ensures { IsBendingExport binary64 p_ini.now p_def.now result values.new }
{
    values::give(quadratic_bending::wdw(*p_ini, *p_def), values)
}

// Three strains, then their 27 derivatives.
#[unsafe(no_mangle)]
pub extern "C" fn del_fem_stvk_tri3_wdw(
    p_ini: &[[f64; 2]; 3],
    p_def: &[[f64; 3]; 3],
    values: &mut [f64; 30],
) -> u32
    ensures { IsStrainExport binary64 p_ini.now p_def.now result values.new }
{
    values::give(stvk_tri3::wdw(*p_ini, *p_def), values)
}

// The three of the Green-Lagrange strain, then their 27 derivatives.
#[unsafe(no_mangle)]
pub extern "C" fn del_fem_stvk_tri3_wdw_green_lagrange(
    p_ini: &[[f64; 2]; 3],
    p_def: &[[f64; 3]; 3],
    values: &mut [f64; 30],
) -> u32
    ensures { IsGreenLagrangeExport binary64 p_ini.now p_def.now result values.new }
{
    values::give(stvk_tri3::wdw_green_lagrange(*p_ini, *p_def), values)
}

// The StVK energy, its gradient of 9, its Hessian of 81.
#[unsafe(no_mangle)]
pub extern "C" fn del_fem_stvk_tri3_wdwddw_(
    p0: &[[f64; 3]; 3],
    p1: &[[f64; 3]; 3],
    stiffness: u32,
    density: f64,
    thickness: f64,
    a: f64,
    b: f64,
    values: &mut [f64; 91],
) -> u32
    ensures { IsStvkExport binary64 p0.now p1.now (material_of binary64 stiffness density thickness a b) result values.new }
{
    let material = Material::of_words(stiffness, density, thickness, a, b);
    values::give(stvk_tri3::wdwddw_(*p0, *p1, material), values)
}

// The plate's energy, its gradient of 9, its Hessian of 81.
#[unsafe(no_mangle)]
pub extern "C" fn del_fem_mitc_tri3_w_dw_ddw_plate_bending(
    p: &[[f64; 2]; 3],
    u: &[[f64; 3]; 3],
    stiffness: u32,
    density: f64,
    thickness: f64,
    a: f64,
    b: f64,
    values: &mut [f64; 91],
) -> u32
    ensures { IsPlateExport binary64 p.now u.now (material_of binary64 stiffness density thickness a b) result values.new }
{
    let material = Material::of_words(stiffness, density, thickness, a, b);
    values::give(mitc_tri3::w_dw_ddw_plate_bending(*p, *u, material), values)
}

// The lumped masses, three for each vertex.
#[unsafe(no_mangle)]
pub extern "C" fn del_fem_mitc_tri3_mass_lumped_plate_bending(
    tri2vtx: &[usize],
    vtx2xy: &[f64],
    stiffness: u32,
    density: f64,
    thickness: f64,
    a: f64,
    b: f64,
    vtx2mass: &mut [f64],
) -> u32
    ensures { IsMasses binary64 «tri2vtx».now «vtx2xy».now (material_of binary64 stiffness density thickness a b)
        «vtx2mass».old result «vtx2mass».new }
{
    let material = Material::of_words(stiffness, density, thickness, a, b);
    refusal::number(&mitc_tri3::mass_lumped_plate_bending(tri2vtx, vtx2xy, material, vtx2mass))
}

// The energy of a whole skin and the place of a refusal, each behind a reference, and the gradient, three numbers for each point.
#[unsafe(no_mangle)]
pub extern "C" fn del_fem_skin_wdw(
    vtx2ini: &[f64],
    vtx2def: &[f64],
    tri2vtx: &[usize],
    stiffness: u32,
    density: f64,
    thickness: f64,
    a: f64,
    b: f64,
    vtx2dw: &mut [f64],
    place: &mut usize,
    w: &mut f64,
) -> u32
    ensures { IsSkinExport binary64 «vtx2ini».now «vtx2def».now «tri2vtx».now (material_of binary64 stiffness density thickness a b)
        «vtx2dw».old result place.new w.new «vtx2dw».new }
{
    let material = Material::of_words(stiffness, density, thickness, a, b);
    match skin::wdw(vtx2ini, vtx2def, tri2vtx, material, vtx2dw) {
        Ok(energy) => {
            *place = 0;
            *w = energy;
            ACCEPTED
        }
        Err(refused) => {
            *place = refused.place;
            *w = 0.0;
            refused.refusal.number()
        }
    }
}

// How many points and triangles a mesh file has, or the place where it is refused, each behind a reference.
#[unsafe(no_mangle)]
pub extern "C" fn del_fem_mesh_read(
    file: &[u8],
    n: &mut usize,
    m: &mut usize,
    place: &mut usize,
) -> u32
    ensures { IsMeshExport file.now result n.new m.new place.new }
{
    match mesh::read(file) {
        Ok(mesh) => {
            *n = mesh.n;
            *m = mesh.m;
            *place = 0;
            ACCEPTED
        }
        Err(at) => {
            *n = 0;
            *m = 0;
            *place = at;
            Refusal::BadFile.number()
        }
    }
}

// Where the points of a mesh file begin and how many bytes they are; or the place where it is refused, and no byte.
#[unsafe(no_mangle)]
pub extern "C" fn del_fem_mesh_points(file: &[u8], place: &mut usize, length: &mut usize) -> u32
    ensures { IsPointsExport file.now result place.new length.new }
{
    match mesh::read(file) {
        Ok(mesh) => {
            *place = mesh.points;
            *length = 24 * mesh.n;
            ACCEPTED
        }
        Err(at) => {
            *place = at;
            *length = 0;
            Refusal::BadFile.number()
        }
    }
}

// The same for its cells.
#[unsafe(no_mangle)]
pub extern "C" fn del_fem_mesh_cells(file: &[u8], place: &mut usize, length: &mut usize) -> u32
    ensures { IsCellsExport file.now result place.new length.new }
{
    match mesh::read(file) {
        Ok(mesh) => {
            *place = mesh.cells;
            *length = 16 * mesh.m;
            ACCEPTED
        }
        Err(at) => {
            *place = at;
            *length = 0;
            Refusal::BadFile.number()
        }
    }
}

// Coordinate `axis` of a point, in the bytes that `del_fem_mesh_points` finds.
#[unsafe(no_mangle)]
pub extern "C" fn del_fem_mesh_coordinate(points: &[u8], point: usize, axis: usize) -> f64
    ensures { IsCoordinate points.now point axis result }
{
    mesh::coordinate(points, point, axis)
}

// The vertex that a triangle names at a corner, in the bytes that `del_fem_mesh_cells` finds.
#[unsafe(no_mangle)]
pub extern "C" fn del_fem_mesh_name(cells: &[u8], triangle: usize, corner: usize) -> usize
    ensures { IsName cells.now triangle corner result }
{
    mesh::name(cells, triangle, corner)
}
