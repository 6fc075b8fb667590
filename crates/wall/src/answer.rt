// What is printed of a wall that is read.
ghost use Rattle.std.specs.Prelude.{◌≡◌, ◌<◌, length};

use crate::setting::{Mode, Setting};
use crate::{line, refused, text};
use material::Material;
use refusal::Refusal;
use std::io;
use survey::{Side, Wall, Weighed};

// A function of its own, whose proof does not count the numbers out.
fn mass_space() -> [f64; 196_608]
    ensures { 196608 ≡ length result }
{
    [0.0; 196_608]
}

// The numbers of one kind, under their name: every third of the list from the first on, each with its highest byte first.
fn array(rt: &impl Print, template: &[u8], mass: &[f64], first: usize) -> io::Result<()>
    requires { first < 3 }
{
    let points = lines::count(mass.len() / 3);
    line(rt, |out| lines::fill(template, &[points, points], out))?;
    let (masses, _) = mass.as_chunks::<3>();
    for m in masses {
        text(rt, &float::to_word(m[first]).to_be_bytes())?;
    }
    text(rt, b"\n")
}

// A line for every point: here and below by number, as the lines take it, and up to the first that cannot be written, which no chain of calls says more plainly.
fn all(rt: &impl Print, name: &[u8], w: &Weighed) -> io::Result<()> {
    text(rt, b"file\t")?;
    text(rt, name)?;
    text(rt, b"\npoint\tx mm\ty mm\tmass g\n")?;
    for i in 0..w.wall.points_count() {
        line(rt, |out| wall_lines::point(w, i, out))?;
    }
    Ok(())
}

fn label(rt: &impl Print, name: &[u8], s: Setting, w: &Weighed) -> io::Result<()> {
    text(rt, b"file        ")?;
    text(rt, name)?;
    text(rt, b"\nversion     3.0\n")?;
    line(rt, |out| wall_lines::head(w, s.sheet, out))?;
    if w.wall.is_bounded(s.sheet.density, s.sheet.thickness) {
        text(
            rt,
            b"bound       each mass is within (d + 3)/2^53 of the exact one, d being how many triangles meet there\n",
        )?;
    } else {
        text(
            rt,
            b"bound       none: it is for whole coordinates up to 1048576, density and thickness from 2^-40 to 2^40\n",
        )?;
    }
    match s.side {
        Side::Left => text(rt, b"row         left\n")?,
        Side::Right => text(rt, b"row         right\n")?,
        Side::Top => text(rt, b"row         top\n")?,
        Side::Bottom => text(rt, b"row         bottom\n")?,
    }
    text(
        rt,
        b"   point            x mm            y mm         mass kg\n",
    )?;
    let row = w.wall.extent().row(s.side);
    for i in 0..w.wall.points_count() {
        if w.wall.in_row(row, i) {
            line(rt, |out| wall_lines::row(w, i, out))?;
        }
    }
    line(rt, |out| wall_lines::together(w, row, out))
}

fn picture(rt: &impl Print, side: Side, w: &Weighed) -> io::Result<()> {
    let e = w.wall.extent();
    let total = w.total_mass();
    line(rt, |out| wall_lines::svg(e, out))?;
    for t in 0..w.wall.triangles_count() {
        line(rt, |out| wall_lines::outline(&w.wall, e, t, out))?;
    }
    text(rt, b"\"/>\n<g fill=\"red\">\n")?;
    let row = e.row(side);
    for i in 0..w.wall.points_count() {
        if w.wall.in_row(row, i) {
            line(rt, |out| wall_lines::dot(w, e, total, i, out))?;
        }
    }
    line(rt, |out| wall_lines::sizes(e, total, out))
}

fn vtk(rt: &impl Print, file: &[u8], mass: &[f64]) -> io::Result<()> {
    text(rt, file)?;
    array(
        rt,
        b"POINT_DATA %0000\nFIELD masses 3\nmass_mg 1 %0000 double\n",
        mass,
        0,
    )?;
    array(rt, b"rotation_x_mg_m2 1 %0000 double\n", mass, 1)?;
    array(rt, b"rotation_y_mg_m2 1 %0000 double\n", mass, 2)
}

// A file that reads well, and the wall in it.
#[derive(Clone, Copy)]
pub(crate) struct Read<'a> {
    pub name: &'a [u8],
    pub file: &'a [u8],
    pub wall: Wall<'a>,
}

impl Read<'_> {
    fn weigh(&self, rt: &impl Print, s: Setting, mass: &mut [f64]) -> io::Result<()> {
        let wall = self.wall;
        let sheet = Material::young(
            s.sheet.density,
            s.sheet.thickness,
            s.sheet.young,
            s.sheet.poisson,
        );
        if let Err(refusal) = mesh_masses::masses(wall.points, wall.cells, sheet, mass) {
            refused(rt, self.name)?;
            if refusal == Refusal::Turned {
                let t = wall.turned().unwrap_or(wall.triangles_count());
                return line(rt, |out| wall_lines::turned(&wall, t, out));
            }
            return println!(rt; "{refusal}");
        }
        let w = Weighed { wall, mass };
        match s.mode {
            Mode::All => all(rt, self.name, &w),
            Mode::Picture => picture(rt, s.side, &w),
            Mode::Vtk => vtk(rt, self.file, w.mass),
            _ => label(rt, self.name, s, &w),
        }
    }

    // On its own, since a function clears what it holds where it is entered: a wall that is refused before needs no masses.
    fn sized(&self, rt: &impl Print, s: Setting) -> io::Result<()> {
        let mut mass = mass_space();
        match mass.get_mut(..self.wall.points.len() / 24 * 3) {
            Some(mass) => self.weigh(rt, s, mass),
            None => Ok(()),
        }
    }

    // A wall that is none is told.
    pub(crate) fn look(&self, rt: &impl Print, s: Setting) -> io::Result<()> {
        if self.wall.points.is_empty() {
            refused(rt, self.name)?;
            return text(rt, b"has no points\n");
        }
        if self.wall.cells.is_empty() {
            refused(rt, self.name)?;
            return text(rt, b"has no triangles\n");
        }
        if let Some(k) = self.wall.outside() {
            refused(rt, self.name)?;
            return line(rt, |out| wall_lines::outside(k, out));
        }
        if let Some(i) = self.wall.off_plane() {
            refused(rt, self.name)?;
            return line(rt, |out| wall_lines::off_plane(&self.wall, i, out));
        }
        self.sized(rt, s)
    }
}
