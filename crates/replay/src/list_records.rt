// Records with lists, which are as long as the record says (docs/REPLAY.md): masses and whole skins.
ghost use Rattle.std.specs.Prelude.{◌≤◌};

use crate::input::{Stop, fill_names, fill_numbers, length, next_material, next_word};
use crate::output;
use material::Material;
use std::io;

// The lists are arrays of a function of their own, which is entered when their lengths are known: a function clears what it holds where it is entered, and once more where it makes it later.
fn put_masses(
    rt: &impl Print,
    stdin: &mut impl io::Read,
    n: usize,
    t: usize,
    b: usize,
    material: Material,
) -> Result<(), Stop>
    requires n_bound { n ≤ 4096 }
    requires t_bound { t ≤ 4096 }
    requires b_bound { b ≤ 4096 }
{
    let mut vtx2xy = [0.0; 4096];
    let mut tri2vtx = [0usize; 4096];
    let mut vtx2mass = [0.0; 4096];
    let vtx2xy = &mut vtx2xy[..n];
    let tri2vtx = &mut tri2vtx[..t];
    let vtx2mass = &mut vtx2mass[..b];
    fill_numbers(stdin, vtx2xy)?;
    fill_names(stdin, tri2vtx)?;
    fill_numbers(stdin, vtx2mass)?;
    let answer = mitc_tri3::mass_lumped_plate_bending(tri2vtx, vtx2xy, material, vtx2mass);
    output::put_answer(rt, refusal::number(&answer), vtx2mass)?;
    Ok(())
}

pub(crate) fn replay_masses(rt: &impl Print, stdin: &mut impl io::Read) -> Result<(), Stop> {
    let n = next_word(stdin)?;
    let t = next_word(stdin)?;
    let b = next_word(stdin)?;
    let material = next_material(stdin)?;
    put_masses(rt, stdin, length(n)?, length(t)?, length(b)?, material)
}

fn put_skin(
    rt: &impl Print,
    stdin: &mut impl io::Read,
    n: usize,
    m: usize,
    t: usize,
    b: usize,
    material: Material,
) -> Result<(), Stop>
    requires n_bound { n ≤ 4096 }
    requires m_bound { m ≤ 4096 }
    requires t_bound { t ≤ 4096 }
    requires b_bound { b ≤ 4096 }
{
    let mut vtx2ini = [0.0; 4096];
    let mut vtx2def = [0.0; 4096];
    let mut tri2vtx = [0usize; 4096];
    let mut vtx2dw = [0.0; 4096];
    let vtx2ini = &mut vtx2ini[..n];
    let vtx2def = &mut vtx2def[..m];
    let tri2vtx = &mut tri2vtx[..t];
    let vtx2dw = &mut vtx2dw[..b];
    fill_numbers(stdin, vtx2ini)?;
    fill_numbers(stdin, vtx2def)?;
    fill_names(stdin, tri2vtx)?;
    fill_numbers(stdin, vtx2dw)?;
    let answer = skin::given(skin::wdw(vtx2ini, vtx2def, tri2vtx, material, vtx2dw));
    output::start_line(rt, answer.number)?;
    output::put_word(rt, answer.place as u64)?;
    output::put(rt, answer.w)?;
    output::put_all(rt, vtx2dw)?;
    Ok(())
}

pub(crate) fn replay_skin(rt: &impl Print, stdin: &mut impl io::Read) -> Result<(), Stop> {
    let n = next_word(stdin)?;
    let m = next_word(stdin)?;
    let t = next_word(stdin)?;
    let b = next_word(stdin)?;
    let material = next_material(stdin)?;
    put_skin(
        rt,
        stdin,
        length(n)?,
        length(m)?,
        length(t)?,
        length(b)?,
        material,
    )
}
