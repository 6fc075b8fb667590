// Sizes the panels that are built in here and prints them for a person: the masses of each vertex (01-scope 5.3), or in words why there are none (01-scope 2.1).
#![tactic(auto)]

mod number;

use material::Material;
use refusal::Refusal;
use std::{array, io};

// Ends an entry of a table that has used so many places of its column.
fn end_entry(rt: &impl Print, used: usize, column: usize) -> io::Result<()> {
    let blanks = column.saturating_sub(used);
    print!(rt; "{:blanks$}  ", "")
}

fn put_row(
    rt: &impl Print,
    vertex: usize,
    translation: f64,
    rotation_x: f64,
    rotation_y: f64,
) -> io::Result<()> {
    end_entry(rt, number::put_whole(rt, vertex as u64)?, 6)?;
    end_entry(rt, number::put(rt, translation)?, 16)?;
    end_entry(rt, number::put(rt, rotation_x)?, 16)?;
    number::put(rt, rotation_y)?;
    println!(rt)
}

// A row for each vertex; answers the sum of the translations, from +0, in the vertices' order.
fn put_rows(rt: &impl Print, vtx2mass: &[f64]) -> io::Result<f64> {
    let mut sum = 0.0;
    let (rows, _) = vtx2mass.as_chunks::<3>();
    for (v, &[translation, rotation_x, rotation_y]) in rows.iter().enumerate() {
        put_row(rt, v, translation, rotation_x, rotation_y)?;
        sum += translation;
    }
    Ok(sum)
}

fn put_table(rt: &impl Print, vtx2mass: &[f64]) -> io::Result<()> {
    println!(rt; "vertex  translation       rotation x        rotation y")?;
    let sum = put_rows(rt, vtx2mass)?;
    print!(rt; "sum of translations ")?;
    number::put(rt, sum)?;
    println!(rt)
}

fn put_refusal(rt: &impl Print, refusal: Refusal) -> io::Result<()> {
    println!(rt; "refused: {refusal} ({})", refusal.number())
}

fn put_heading(
    rt: &impl Print,
    vertices: usize,
    triangles: usize,
    density: f64,
    thickness: f64,
) -> io::Result<()> {
    print!(rt; "vertices {vertices}, triangles {triangles}, density ")?;
    number::put(rt, density)?;
    print!(rt; ", thickness ")?;
    number::put(rt, thickness)?;
    println!(rt)
}

// Masses look at no stiffness.
fn size(
    rt: &impl Print,
    tri2vtx: &[usize],
    vtx2xy: &[f64],
    density: f64,
    thickness: f64,
    vtx2mass: &mut [f64],
) -> io::Result<()> {
    put_heading(rt, vtx2xy.len() / 2, tri2vtx.len() / 3, density, thickness)?;
    let material = Material::lame(density, thickness, 0.0, 0.0);
    match mitc_tri3::mass_lumped_plate_bending(tri2vtx, vtx2xy, material, vtx2mass) {
        Ok(()) => put_table(rt, vtx2mass),
        Err(refusal) => put_refusal(rt, refusal),
    }
}

// The points of 01-scope 7, density 2 and thickness 1.
fn square(rt: &impl Print, tri2vtx: [usize; 6]) -> io::Result<()> {
    let vtx2xy = [0.0, 0.0, 6.0, 0.0, 0.0, 6.0, 6.0, 6.0];
    let mut vtx2mass = [0.0; 12];
    size(rt, &tri2vtx, &vtx2xy, 2.0, 1.0, &mut vtx2mass)
}

// The wall strip: two rows of eleven vertices, the hinge row first.
fn coordinate(i: usize) -> f64 {
    if i % 2 == 0 {
        return 24.0 * ((i / 2 % 11) as u32 as f64);
    }
    if i / 2 < 11 { 0.0 } else { 40.0 }
}

// Two triangles fill the cell to the right of each column.
fn name(triangle: usize, corner: usize) -> usize {
    let c = triangle / 2 % 10;
    match triangle % 2 * 3 + corner % 3 {
        0 => c,
        1 => c + 1,
        2 => c + 11,
        3 => c + 1,
        4 => c + 12,
        _ => c + 11,
    }
}

fn coordinates() -> [f64; 44] {
    array::from_fn(coordinate)
}

fn names() -> [usize; 60] {
    array::from_fn(|i| name(i / 3, i % 3))
}

fn strip(rt: &impl Print) -> io::Result<()> {
    let vtx2xy = coordinates();
    let tri2vtx = names();
    let mut vtx2mass = [0.0; 66];
    size(rt, &tri2vtx, &vtx2xy, 1.0 / 512.0, 0.5, &mut vtx2mass)
}

fn main(rt: HostRuntime) -> io::Result<()> {
    println!(rt; "Square panel")?;
    square(&rt, [0, 1, 2, 1, 3, 2])?;
    println!(rt; "\nWall strip, 240 by 40 by 0.5 cm, in kg and cm")?;
    println!(rt; "hinge row: vertices 0 to 10")?;
    strip(&rt)?;
    println!(rt; "\nSquare panel, turned round")?;
    square(&rt, [0, 2, 1, 1, 2, 3])?;
    println!(rt; "\nSquare panel, a name too far")?;
    square(&rt, [0, 1, 2, 1, 4, 2])
}
