// The helpers of `del_geo_core` (docs/REPLAY.md).
use crate::input::{Stop, next_number, next_points, next_word};
use crate::output;
use del_geo_core::tri2::Tri2;
use del_geo_core::{curve_linear_coords, edge, tri2, tri3};
use std::io;
use vec3::V3;

#[derive(Clone, Copy)]
enum Helper {
    Dot,
    Cross,
    Sub,
    Scale,
    Norm,
    Normalize,
    PlaneArea,
    Area,
    UnitNormalArea,
    Length,
    Inverse,
}

impl TryFrom<u64> for Helper {
    type Error = Stop;

    fn try_from(word: u64) -> Result<Helper, Stop> {
        Ok(match word {
            1 => Helper::Dot,
            2 => Helper::Cross,
            3 => Helper::Sub,
            4 => Helper::Scale,
            5 => Helper::Norm,
            6 => Helper::Normalize,
            7 => Helper::PlaneArea,
            8 => Helper::Area,
            9 => Helper::UnitNormalArea,
            10 => Helper::Length,
            11 => Helper::Inverse,
            _ => return Err(Stop::Unreadable),
        })
    }
}

fn next_v3(stdin: &mut impl io::Read) -> Result<V3, Stop> {
    Ok(V3 {
        x: next_number(stdin)?,
        y: next_number(stdin)?,
        z: next_number(stdin)?,
    })
}

// Helpers refuse nothing.
fn put(rt: &impl Print, values: &[f64]) -> Result<(), Stop> {
    Ok(output::put_answer(rt, 0, values)?)
}

fn put_v3(rt: &impl Print, v: V3) -> Result<(), Stop> {
    put(rt, &[v.x, v.y, v.z])
}

fn put_plane_area(rt: &impl Print, stdin: &mut impl io::Read) -> Result<(), Stop> {
    let p = Tri2::from(next_points(stdin)?);
    put(rt, &[tri2::area(p.p0, p.p1, p.p2).area])
}

fn put_unit_normal_area(rt: &impl Print, stdin: &mut impl io::Read) -> Result<(), Stop> {
    let answer = tri3::unit_normal_area(next_v3(stdin)?, next_v3(stdin)?, next_v3(stdin)?);
    let n = answer.normal.v;
    put(rt, &[n.x, n.y, n.z, answer.area])
}

fn put_inverse(rt: &impl Print, stdin: &mut impl io::Read) -> Result<(), Stop> {
    let answer = curve_linear_coords::inverse(next_v3(stdin)?, next_v3(stdin)?, next_v3(stdin)?);
    let x = answer.x.v;
    let y = answer.y.v;
    let z = answer.z.v;
    put(rt, &[x.x, x.y, x.z, y.x, y.y, y.z, z.x, z.y, z.z])
}

// Reads the inputs in the record's order.
pub(crate) fn replay(rt: &impl Print, stdin: &mut impl io::Read) -> Result<(), Stop> {
    match Helper::try_from(next_word(stdin)?)? {
        Helper::Dot => put(rt, &[vec3::dot(next_v3(stdin)?, next_v3(stdin)?)]),
        Helper::Cross => put_v3(rt, vec3::cross(next_v3(stdin)?, next_v3(stdin)?)),
        Helper::Sub => put_v3(rt, vec3::sub(next_v3(stdin)?, next_v3(stdin)?)),
        Helper::Scale => put_v3(rt, vec3::scale(next_v3(stdin)?, next_number(stdin)?)),
        Helper::Norm => put(rt, &[vec3::norm(next_v3(stdin)?)]),
        Helper::Normalize => put_v3(rt, vec3::normalize(next_v3(stdin)?)),
        Helper::PlaneArea => put_plane_area(rt, stdin),
        Helper::Area => put(
            rt,
            &[tri3::area(next_v3(stdin)?, next_v3(stdin)?, next_v3(stdin)?)],
        ),
        Helper::UnitNormalArea => put_unit_normal_area(rt, stdin),
        Helper::Length => put(rt, &[edge::length(next_v3(stdin)?, next_v3(stdin)?)]),
        Helper::Inverse => put_inverse(rt, stdin),
    }
}
