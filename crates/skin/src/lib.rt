// The StVK energy of a whole skin, with its gradient: what `stvk_tri3::wdwddw_` gives for each triangle, added in the list's order from +0.
#![tactic(auto)]

ghost use Rattle.std.specs.Prelude.{◌≡◌, [], ◌∷◌, ◌+◌, ◌*◌, ◌<◌, length};
ghost use Rattle.std.specs.Float.{binary64};
ghost use Rattle.refusal.specs.Refusal.{Clear};
ghost use Rattle.refusal.specs.Answers.{energy_given};
ghost use Rattle.corners.specs.Space.{corners_of};
ghost use Rattle.places.specs.Places.{added_to};
ghost use Rattle.places.specs.Space.{point_at, corners_at};
ghost use Rattle.skin.specs.Skin.{bad_length_of, bad_sum_of, early_of, answer_of, skin_given, IsSkin};

use material::Material;
use refusal::{ACCEPTED, Energy, Refusal};
use vec3::V3;

// Why a skin is refused, and where: the place in the list of the triangle that is, counted from 0; how many triangles there are where only a sum is; 0 for lengths and names.
#[derive(Clone, Copy, Debug, PartialEq, Eq)]
pub struct Refused {
    pub refusal: Refusal,
    pub place: usize,
}

// What is given for an answer: its number, its place and its energy.
#[derive(Clone, Copy, Debug, PartialEq)]
pub struct SkinGiven {
    pub number: u32,
    pub place: usize,
    pub w: f64,
}

// The energy with 0 and no place; after a refusal its number and its place, and +0.
pub fn given(answer: Result<f64, Refused>) -> SkinGiven
    ensures { result ≡ skin_given binary64 answer }
{
    match answer {
        Ok(w) => SkinGiven {
            number: ACCEPTED,
            place: 0,
            w,
        },
        Err(refused) => SkinGiven {
            number: refused.refusal.number(),
            place: refused.place,
            w: 0.0,
        },
    }
}

// From the lists' lengths.
#[tactic(auto, unfolding(crate::specs::Skin::bad_length_of))]
fn bad_length(ini: usize, def: usize, names: usize, places: usize) -> bool
    ensures { result ≡ bad_length_of ini def names places }
{
    refusal::bad_length(ini / 3, names, places) | (ini != places) | (def != places)
}

#[tactic(auto, unfolding(crate::specs::Skin::bad_sum_of))]
fn bad_sum(w: f64, vtx2dw: &[f64]) -> bool
    ensures { result ≡ bad_sum_of w «vtx2dw».now }
{
    !(float::is_finite(w) & lists::all_finite(vtx2dw))
}

// Point i, of a flat list of three numbers for each; private, as in `mitc_tri3` in the plane, since it asks that the point is there.
fn point_at(xyz: &[f64], i: usize) -> V3
    requires { i * 3 + 2 < length xyz.now }
    ensures { result ≡ point_at xyz.now i }
{
    V3 {
        x: xyz[i * 3],
        y: xyz[i * 3 + 1],
        z: xyz[i * 3 + 2],
    }
}

// Takes three names, as its definition does: of one array, the clauses would have to take each from its place.
#[tactic(auto, unfolding(places::specs::Space::corners_at))]
fn corners_at(vtx2xyz: &[f64], i0: usize, i1: usize, i2: usize) -> [[f64; 3]; 3]
    requires i0_in_bounds { i0 * 3 + 2 < length «vtx2xyz».now }
    requires i1_in_bounds { i1 * 3 + 2 < length «vtx2xyz».now }
    requires i2_in_bounds { i2 * 3 + 2 < length «vtx2xyz».now }
    ensures { corners_of result ≡ corners_at «vtx2xyz».now i0 i1 i2 }
{
    let p0 = point_at(vtx2xyz, i0);
    let p1 = point_at(vtx2xyz, i1);
    let p2 = point_at(vtx2xyz, i2);
    [[p0.x, p0.y, p0.z], [p1.x, p1.y, p1.z], [p2.x, p2.y, p2.z]]
}

// The single kernel's answer for one triangle.
#[tactic(auto, unfolding(crate::specs::Skin::answer_of))]
fn answer(
    vtx2ini: &[f64],
    vtx2def: &[f64],
    material: Material,
    i0: usize,
    i1: usize,
    i2: usize,
) -> Result<Energy, Refusal>
    requires vtx2def_len { length «vtx2def».now ≡ length «vtx2ini».now }
    requires i0_in_bounds { i0 * 3 + 2 < length «vtx2ini».now }
    requires i1_in_bounds { i1 * 3 + 2 < length «vtx2ini».now }
    requires i2_in_bounds { i2 * 3 + 2 < length «vtx2ini».now }
    ensures { energy_given binary64 result ≡ answer_of binary64 «vtx2ini».now «vtx2def».now material.stiffness i0 i1 i2 }
{
    let p0 = corners_at(vtx2ini, i0, i1, i2);
    let p1 = corners_at(vtx2def, i0, i1, i2);
    stvk_tri3::wdwddw_(p0, p1, material)
}

// A triangle's gradient, to its three names.
fn add_gradient(vtx2dw: &mut [f64], names: [usize; 3], dw: [f64; 9])
    ensures { «vtx2dw».new ≡ added_to binary64 «vtx2dw».old names (point_at dw 0 ∷ point_at dw 1 ∷ point_at dw 2 ∷ []) }
{
    let x0 = point_at(&dw, 0);
    let x1 = point_at(&dw, 1);
    let x2 = point_at(&dw, 2);
    places::add_triangle(vtx2dw, names, [x0, x1, x2]);
}

// What is left to do where lengths and names are right: adds the triangles in the list's order, up to the first that is refused.
fn add_all(
    vtx2ini: &[f64],
    vtx2def: &[f64],
    tri2vtx: &[usize],
    material: Material,
    vtx2dw: &mut [f64],
) -> Result<f64, Refused>
    requires { Clear (early_of (length «vtx2ini».now) (length «vtx2def».now) «tri2vtx».now (length «vtx2dw».old)) }
    ensures { IsSkin binary64 «vtx2ini».now «vtx2def».now «tri2vtx».now material «vtx2dw».old (skin_given binary64 result) «vtx2dw».new }
{
    lists::clear(vtx2dw);
    let mut w = 0.0;
    let (triangles, _) = tri2vtx.as_chunks::<3>();
    for (place, &[i0, i1, i2]) in triangles.iter().enumerate() {
        match answer(vtx2ini, vtx2def, material, i0, i1, i2) {
            Ok(e) => {
                w += e.w;
                add_gradient(vtx2dw, [i0, i1, i2], e.dw);
            }
            Err(refusal) => {
                lists::clear(vtx2dw);
                return Err(Refused { refusal, place });
            }
        }
    }
    if bad_sum(w, vtx2dw) {
        lists::clear(vtx2dw);
        return Err(Refused {
            refusal: Refusal::BadAnswer,
            place: triangles.len(),
        });
    }
    Ok(w)
}

// The energy of the skin that has the points vtx2ini at rest and vtx2def deformed, and its gradient by the deformed points into vtx2dw, three numbers for each point in all
// three. Of the material the stiffness alone enters. Nothing is written before every name is looked at.
pub fn wdw(
    vtx2ini: &[f64],
    vtx2def: &[f64],
    tri2vtx: &[usize],
    material: Material,
    vtx2dw: &mut [f64],
) -> Result<f64, Refused>
    ensures { IsSkin binary64 «vtx2ini».now «vtx2def».now «tri2vtx».now material «vtx2dw».old (skin_given binary64 result) «vtx2dw».new }
{
    if bad_length(vtx2ini.len(), vtx2def.len(), tri2vtx.len(), vtx2dw.len()) {
        return Err(Refused {
            refusal: Refusal::BadLength,
            place: 0,
        });
    }
    if !refusal::names_below(tri2vtx, vtx2ini.len() / 3) {
        return Err(Refused {
            refusal: Refusal::BadName,
            place: 0,
        });
    }
    add_all(vtx2ini, vtx2def, tri2vtx, material, vtx2dw)
}
