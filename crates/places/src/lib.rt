// A flat list that keeps three numbers for each vertex of a panel or a skin, those of vertex i at i * 3, i * 3 + 1 and i * 3 + 2: what a triangle gives its vertices is added to it.
// Its places are counted, and not cut into threes: C lends it flat, and what is proved of it is said of its places.
#![tactic(auto)]

ghost use Rattle.std.specs.Prelude.{◌≡◌, ◌+◌, ◌*◌, ◌<◌, length};
ghost use Rattle.std.specs.Float.{binary64};
ghost use Rattle.places.specs.Places.{add_vertex, added_to};

use vec3::V3;

// To the three places of vertex i.
#[tactic(auto, unfolding(crate::specs::Places::add_vertex))]
fn add_vertex(values: &mut [f64], i: usize, x: V3)
    requires { i * 3 + 2 < length values.old }
    ensures { values.new ≡ add_vertex binary64 values.old i x }
{
    values[i * 3] += x.x;
    values[i * 3 + 1] += x.y;
    values[i * 3 + 2] += x.z;
}

// To the places of a triangle's three names, one after the other; nothing, where one of them is no vertex's.
#[tactic(auto, unfolding(crate::specs::Places::add_triangle, crate::specs::Places::added_of))]
pub fn add_triangle(values: &mut [f64], names: [usize; 3], xs: [V3; 3])
    ensures { values.new ≡ added_to binary64 values.old names xs }
{
    let [i0, i1, i2] = names;
    let [x0, x1, x2] = xs;
    let vertices = values.len() / 3;
    if (i0 < vertices) & (i1 < vertices) & (i2 < vertices) {
        add_vertex(values, i0, x0);
        add_vertex(values, i1, x1);
        add_vertex(values, i2, x2);
    }
}
