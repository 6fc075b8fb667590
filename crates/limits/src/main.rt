// The limits of masses (01-scope 2.3) and of a skin (2.5), each at it and one past it, at full size. A line for each panel: how many coordinates, names and places of the buffer
// there are, and the last name; then the number that is given, and the bits of the sum of the buffer's places on return. For a skin the numbers at rest and the deformed ones
// are counted, and between number and sum stand the place and the bits of the energy.
#![tactic(auto)]

ghost use Rattle.std.specs.Prelude.{◌+◌, ◌≤◌, length};

use material::Material;
use std::io;

#[derive(Clone, Copy)]
enum Routine {
    Masses,
    Skin,
}

// The routine that is run; how many numbers at rest and deformed (none for masses), names and places of the buffer there are, and the last name.
#[derive(Clone, Copy)]
struct Panel {
    routine: Routine,
    ini: usize,
    def: usize,
    t: usize,
    b: usize,
    last: usize,
}

// At every limit.
const MASSES: Panel = Panel {
    routine: Routine::Masses,
    ini: 131_072,
    def: 0,
    t: 393_216,
    b: 196_608,
    last: 65_535,
};

const SKIN: Panel = Panel {
    routine: Routine::Skin,
    ini: 196_608,
    def: 196_608,
    t: 393_216,
    b: 196_608,
    last: 0,
};

// The squares of 0, 1, 2, ..
fn fill_squares(xs: &mut [f64]) {
    let mut x = 0.0;
    for square in xs.iter_mut() {
        *square = x * x;
        x += 1.0;
    }
}

// Triangle t names the vertices t, t + 256 and t + 1, counted round: in this order it turns left.
fn name(triangle: usize, corner: usize) -> usize {
    let first = triangle % 65_536;
    match corner {
        0 => first,
        1 => (first + 256) % 65_536,
        _ => (first + 1) % 65_536,
    }
}

fn fill_names(tri2vtx: &mut [usize]) {
    for (i, place) in tri2vtx.iter_mut().enumerate() {
        *place = name(i / 3, i % 3);
    }
}

fn sum_bits(xs: &[f64]) -> u64 {
    float::to_word(xs.iter().fold(0.0, |sum, &x| sum + x))
}

fn masses(
    rt: &impl Print,
    vtx2xy: &[f64],
    tri2vtx: &[usize],
    vtx2mass: &mut [f64],
    last: usize,
) -> io::Result<()> {
    let material = Material::lame(2.0, 1.0, 0.0, 0.0);
    let answer = mitc_tri3::mass_lumped_plate_bending(tri2vtx, vtx2xy, material, vtx2mass);
    print!(rt;
        "{} {} {} {last} ",
        vtx2xy.len(),
        tri2vtx.len(),
        vtx2mass.len()
    )?;
    println!(rt; "{} {:016x}", refusal::number(&answer), sum_bits(vtx2mass))
}

fn whole_skin(
    rt: &impl Print,
    vtx2ini: &[f64],
    vtx2def: &[f64],
    tri2vtx: &[usize],
    vtx2dw: &mut [f64],
    last: usize,
) -> io::Result<()> {
    let material = Material::lame(0.0, 0.0, 1.0, 2.0);
    let answer = skin::given(skin::wdw(vtx2ini, vtx2def, tri2vtx, material, vtx2dw));
    print!(rt;
        "{} {} {} {} {last} ",
        vtx2ini.len(),
        vtx2def.len(),
        tri2vtx.len(),
        vtx2dw.len()
    )?;
    println!(rt;
        "{} {} {:016x} {:016x}",
        answer.number,
        answer.place,
        float::to_word(answer.w),
        sum_bits(vtx2dw)
    )
}

// The points' numbers are the squares of 0, 1, 2, ..: so no three vertices are in line, whether each has two of them or three. A vertex is deformed to where the next one is at
// rest, so that one list holds both. The buffer holds sevens on entry.
fn answer(
    rt: &impl Print,
    panel: Panel,
    points: &mut [f64],
    tri2vtx: &mut [usize],
    buffer: &mut [f64],
) -> io::Result<()>
    requires ini_in_bounds { panel.ini ≤ length points.old }
    requires def_in_bounds { panel.def + 3 ≤ length points.old }
{
    fill_squares(points);
    let points = &points[..];
    buffer.fill(7.0);
    fill_names(tri2vtx);
    if let Some(name) = tri2vtx.last_mut() {
        *name = panel.last;
    }
    match panel.routine {
        Routine::Masses => masses(rt, &points[..panel.ini], tri2vtx, buffer, panel.last),
        Routine::Skin => whole_skin(
            rt,
            &points[..panel.ini],
            &points[3..panel.def + 3],
            tri2vtx,
            buffer,
            panel.last,
        ),
    }
}

// The length of a function's answer is known from its type; that of a list made in place would be counted out.
fn numbers() -> [f64; 196_614] {
    [0.0; 196_614]
}

fn names() -> [usize; 393_219] {
    [0usize; 393_219]
}

fn run(rt: &impl Print, panel: Panel) -> io::Result<()>
    requires ini_bound { panel.ini ≤ 196614 }
    requires def_bound { panel.def ≤ 196611 }
    requires t_bound { panel.t ≤ 393219 }
    requires b_bound { panel.b ≤ 196614 }
{
    let mut points = numbers();
    let mut tri2vtx = names();
    let mut buffer = numbers();
    answer(
        rt,
        panel,
        &mut points,
        &mut tri2vtx[..panel.t],
        &mut buffer[..panel.b],
    )
}

fn main(rt: HostRuntime) -> io::Result<()> {
    let run = |panel| run(&rt, panel);
    // At every limit, without and with a left-over number.
    run(MASSES)?;
    run(Panel {
        ini: 131_073,
        ..MASSES
    })?;
    // A vertex more, a triangle more; a name too many, a place too many.
    run(Panel {
        ini: 131_074,
        b: 196_611,
        ..MASSES
    })?;
    run(Panel {
        t: 393_219,
        ..MASSES
    })?;
    run(Panel {
        t: 393_217,
        ..MASSES
    })?;
    run(Panel {
        b: 196_609,
        ..MASSES
    })?;
    // The last name one past the last vertex.
    run(Panel {
        last: 65_536,
        ..MASSES
    })?;
    // A skin at every limit; with the last triangle refused, since it names vertex 65,535 twice.
    run(SKIN)?;
    run(Panel {
        last: 65_535,
        ..SKIN
    })?;
    // A vertex more, a triangle more; a name too many.
    run(Panel {
        ini: 196_611,
        def: 196_611,
        b: 196_611,
        ..SKIN
    })?;
    run(Panel { t: 393_219, ..SKIN })?;
    run(Panel { t: 393_217, ..SKIN })?;
    // A number too many at rest, deformed, in the buffer, in all three.
    run(Panel {
        ini: 196_609,
        ..SKIN
    })?;
    run(Panel {
        def: 196_609,
        ..SKIN
    })?;
    run(Panel { b: 196_609, ..SKIN })?;
    run(Panel {
        ini: 196_609,
        def: 196_609,
        b: 196_609,
        ..SKIN
    })?;
    // The last name one past the last vertex.
    run(Panel {
        last: 65_536,
        ..SKIN
    })
}
