// Reads legacy VTK files of triangles, version 3.0, binary (01-scope 5.9), where they lie: in one pass, with no copy.
#![tactic(auto)]

ghost use Rattle.mesh.specs.Text;
ghost use Rattle.mesh.specs.Items;
ghost use Rattle.std.specs.Prelude.{◌≡◌, ◌+◌, ◌*◌, ◌<◌, ◌≤◌, ◌==◌, length, drop, take, position, IfSome};
ghost use Rattle.float.specs.Numbers.{big_endian};
ghost use Rattle.refusal.specs.Panel.{max_vertices, max_triangles};
ghost use Rattle.mesh.specs.Text.{points_line, cells_line, types_line};
ghost use Rattle.mesh.specs.Items.{counted};
ghost use Rattle.mesh.specs.Mesh.{points_from, closed, cells_from, types_from, end_from, IsMesh};
ghost use Rattle.mesh.specs.Found.{IsFound, IsPlace};
ghost use Rattle.mesh.specs.Blocks.{IsPoints, IsCells, IsCoordinate, IsName};

use float::NAN_WORD;
use itoa::Buffer;
use refusal::{MAX_TRIANGLES, MAX_VERTICES};

// The fixed lines and words of a file.
const VERSION: [u8; 27] = *b"# vtk DataFile Version 3.0\n";

const BINARY: [u8; 7] = *b"BINARY\n";

const DATASET: [u8; 26] = *b"DATASET UNSTRUCTURED_GRID\n";

const POINTS: [u8; 7] = *b"POINTS ";

const DOUBLE: [u8; 8] = *b" double\n";

const CELLS: [u8; 6] = *b"CELLS ";

const SPACE: [u8; 1] = *b" ";

const TYPES: [u8; 11] = *b"CELL_TYPES ";

const NEWLINE: [u8; 1] = *b"\n";

// No vertex's name: masses and skin refuse it.
pub const NO_NAME: usize = 0xffff_ffff;

// What an item of the file answers: its value and the place after it, or the place that is refused. Items take the file and a place, as their definitions do: a cursor would have to be taken
// apart in each contract.
type Step = Result<(usize, usize), usize>;

// What the numbers of a block have to be: 3 and then three names below a count, or 5.
#[derive(Clone, Copy)]
enum Rule {
    Cell(usize),
    Five,
}

// A file that is accepted: the counts of its points and triangles, and where its blocks begin.
#[derive(Clone, Copy, Debug, PartialEq, Eq)]
pub struct Mesh {
    pub n: usize,
    pub m: usize,
    pub points: usize,
    pub cells: usize,
    pub types: usize,
}

// The place of the first thing that is wrong, and which part it lies in: the five lines up to `POINTS n double`; or a block, what comes after it and the line before the next block, with
// the counts that are known there and where the block begins.
#[derive(Clone, Copy, Debug, PartialEq, Eq)]
pub enum Misread {
    InLines(usize),
    InPoints {
        n: usize,
        at: usize,
        place: usize,
    },
    InCells {
        n: usize,
        m: usize,
        at: usize,
        place: usize,
    },
    InTypes {
        m: usize,
        at: usize,
        place: usize,
    },
}

impl Misread {
    pub fn place(self) -> usize
        ensures { IsPlace self result }
    {
        match self {
            Misread::InLines(place) => place,
            Misread::InPoints { n: _, at: _, place } => place,
            Misread::InCells {
                n: _,
                m: _,
                at: _,
                place,
            } => place,
            Misread::InTypes { m: _, at: _, place } => place,
        }
    }
}

// Compares the file from `at` on with the bytes w, of a line that begins at `start`.
fn same(file: &[u8], start: usize, at: usize, w: &[u8]) -> Step
    ensures { result ≡ Items.same 0 start w.now at (drop at file.now) }
{
    let mut here = at;
    for &b in w {
        let Some(&c) = file.get(here) else {
            return Err(here);
        };
        if c != b {
            return Err(start);
        }
        here += 1;
    }
    Ok((0, here))
}

// The number that the digits from `at` on say.
fn digits(file: &[u8], at: usize) -> usize
    ensures { result ≡ Items.digits 0 (drop at file.now) }
{
    let Some(bytes) = file.get(at..) else {
        return 0;
    };
    let mut n: usize = 0;
    for &c in bytes {
        if 100_000 <= n || !c.is_ascii_digit() {
            return n;
        }
        n = n * 10 + (c - b'0') as usize;
    }
    n
}

// n in decimal, in a line that begins at `start`.
#[tactic(auto, using(crate::proofs::Counts::count_decimal))]
fn same_count(file: &[u8], start: usize, at: usize, n: usize) -> Step
    requires { n < 1000000 }
    ensures { result ≡ Items.same 0 start (Text.count n) at (drop at file.now) }
{
    same(file, start, at, Buffer::new().format(n).as_bytes())
}

// Where the newline among the next 256 bytes is.
fn newline(bytes: &[u8]) -> Option<usize>
    ensures value { result ≡ position (λ c. c == 10) (take 256 bytes.now) }
    ensures bound { IfSome result (λ i. i < length bytes.now) }
{
    bytes.iter().take(256).position(|&c| c == b'\n')
}

fn title(file: &[u8], at: usize) -> Step
    requires { at ≤ length file.now }
    ensures { result ≡ Items.title at (drop at file.now) }
{
    let rest = &file[at..];
    match newline(rest) {
        Some(i) => Ok((0, at + i + 1)),
        None if rest.len() < 256 => Err(file.len()),
        None => Err(at),
    }
}

// The lines with a count are compared piece by piece. One function for both would take their word, their limit and what follows the count, and be no shorter.
#[tactic(auto, using(crate::proofs::Pieces::points_in_pieces), unfolding(crate::specs::Items::after))]
fn points_count(file: &[u8], at: usize) -> Step
    requires { at ≤ length file.now }
    ensures { result ≡ counted points_line 7 max_vertices at (drop at file.now) }
{
    let n = digits(file, at + 7);
    if MAX_VERTICES < n {
        return Err(at);
    }
    let (_, count) = same(file, at, at, &POINTS)?;
    let (_, double) = same_count(file, at, count, n)?;
    let (_, end) = same(file, at, double, &DOUBLE)?;
    Ok((n, end))
}

#[tactic(auto, using(crate::proofs::Pieces::cells_in_pieces), unfolding(crate::specs::Items::after))]
fn cells_count(file: &[u8], at: usize) -> Step
    requires { at ≤ length file.now }
    ensures { result ≡ counted cells_line 6 max_triangles at (drop at file.now) }
{
    let m = digits(file, at + 6);
    if MAX_TRIANGLES < m {
        return Err(at);
    }
    let (_, count) = same(file, at, at, &CELLS)?;
    let (_, space) = same_count(file, at, count, m)?;
    let (_, size) = same(file, at, space, &SPACE)?;
    let (_, newline) = same_count(file, at, size, 4 * m)?;
    let (_, end) = same(file, at, newline, &NEWLINE)?;
    Ok((m, end))
}

fn types_count(file: &[u8], at: usize, m: usize) -> Step
    requires { m ≤ max_triangles }
    ensures { result ≡ Items.line 0 (types_line m) at (drop at file.now) }
{
    let (_, count) = same(file, at, at, &TYPES)?;
    let (_, newline) = same_count(file, at, count, m)?;
    let (_, end) = same(file, at, newline, &NEWLINE)?;
    Ok((0, end))
}

// k bytes, whatever they are.
#[tactic(auto, unfolding(crate::specs::Items::block))]
fn block(file: &[u8], at: usize, k: usize) -> Step
    requires { at ≤ length file.now }
    ensures { result ≡ Items.block k at (drop at file.now) }
{
    if k <= file.len() - at {
        Ok((0, at + k))
    } else {
        Err(file.len())
    }
}

#[tactic(auto, using(crate::proofs::BytesAt::be_4))]
fn number(word: [u8; 4]) -> usize
    ensures { result ≡ big_endian word }
{
    u32::from_be_bytes(word) as usize
}

#[tactic(auto, unfolding(crate::specs::Items::right))]
fn right(rule: Rule, i: usize, x: usize) -> bool
    ensures { result ≡ Items.right rule i x }
{
    match rule {
        Rule::Cell(_) if i % 4 == 0 => x == 3,
        Rule::Cell(n) => x < n,
        Rule::Five => x == 5,
    }
}

// k numbers of four bytes each: what number i has to be goes by i.
fn numbers(file: &[u8], at: usize, rule: Rule, k: usize) -> Step
    requires { at ≤ length file.now }
    ensures { result ≡ Items.numbers rule 4 k 0 at (drop at file.now) }
{
    let mut rest = &file[at..];
    for i in 0..k {
        let Some((word, more)) = rest.split_first_chunk::<4>() else {
            return Err(file.len());
        };
        if !right(rule, i, number(*word)) {
            return Err(at + 4 * i);
        }
        rest = more;
    }
    Ok((0, at + 4 * k))
}

#[tactic(auto, using(crate::proofs::Scans::end_more), unfolding(crate::specs::Items::end))]
fn end(file: &[u8], at: usize) -> Step
    ensures { result ≡ Items.end at (drop at file.now) }
{
    if at < file.len() {
        Err(at)
    } else {
        Ok((0, at))
    }
}

// The four lines before `POINTS n double`, and that line: n, and where the points begin.
#[tactic(auto, unfolding(crate::specs::Mesh::points_from, crate::specs::Items::after))]
fn points_from(file: &[u8]) -> Step
    ensures { result ≡ points_from file.now }
{
    let (_, a) = same(file, 0, 0, &VERSION)?;
    let (_, b) = title(file, a)?;
    let (_, c) = same(file, b, b, &BINARY)?;
    let (_, d) = same(file, c, c, &DATASET)?;
    points_count(file, d)
}

// A block and the newline after it.
#[tactic(auto, unfolding(crate::specs::Mesh::closed, crate::specs::Items::after))]
fn closed(file: &[u8], block: Step) -> Step
    ensures { result ≡ closed file.now block }
{
    let (_, a) = block?;
    same(file, a, a, &NEWLINE)
}

// The points and `CELLS m 4m`: m, and where the cells begin.
#[tactic(auto, unfolding(crate::specs::Mesh::cells_from, crate::specs::Items::after))]
fn cells_from(file: &[u8], n: usize, at: usize) -> Step
    requires n_le_max_vertices { n ≤ max_vertices }
    requires at_in_bounds { at ≤ length file.now }
    ensures { result ≡ cells_from file.now n at }
{
    let (_, a) = closed(file, block(file, at, 24 * n))?;
    cells_count(file, a)
}

// The cells and `CELL_TYPES m`: where the types begin.
#[tactic(auto, unfolding(crate::specs::Mesh::types_from, crate::specs::Items::after))]
fn types_from(file: &[u8], n: usize, m: usize, at: usize) -> Step
    requires m_le_max_triangles { m ≤ max_triangles }
    requires at_in_bounds { at ≤ length file.now }
    ensures { result ≡ types_from file.now n m at }
{
    let (_, a) = closed(file, numbers(file, at, Rule::Cell(n), 4 * m))?;
    types_count(file, a, m)
}

// The types and nothing more.
#[tactic(auto, unfolding(crate::specs::Mesh::end_from, crate::specs::Items::after))]
fn end_from(file: &[u8], m: usize, at: usize) -> Step
    requires { at ≤ length file.now }
    ensures { result ≡ end_from file.now m at }
{
    let (_, a) = closed(file, numbers(file, at, Rule::Five, m))?;
    end(file, a)
}

// The file's parts one after the other, up to the first that is refused.
#[tactic(auto, using(crate::proofs::Bounds::points_known, crate::proofs::Bounds::cells_known, crate::proofs::Bounds::types_known), unfolding(crate::specs::Found::found_of, crate::specs::Found::found))]
pub fn read_parts(file: &[u8]) -> Result<Mesh, Misread>
    ensures { IsFound file.now result }
{
    let (n, points) = points_from(file).map_err(Misread::InLines)?;
    let (m, cells) = cells_from(file, n, points).map_err(|place| Misread::InPoints {
        n,
        at: points,
        place,
    })?;
    let (_, types) = types_from(file, n, m, cells).map_err(|place| Misread::InCells {
        n,
        m,
        at: cells,
        place,
    })?;
    end_from(file, m, types).map_err(|place| Misread::InTypes {
        m,
        at: types,
        place,
    })?;
    Ok(Mesh {
        n,
        m,
        points,
        cells,
        types,
    })
}

// What the file says, or where it is wrong first.
#[tactic(auto, using(crate::proofs::Found::read_lem))]
pub fn read(file: &[u8]) -> Result<Mesh, usize>
    ensures { IsMesh file.now result }
{
    read_parts(file).map_err(Misread::place)
}

// The points of the file, as that very part of it: 24 bytes for each. Of a refused file nothing.
#[tactic(auto, using(crate::proofs::Bounds::within), unfolding(crate::specs::Blocks::points_in))]
pub fn points(file: &[u8]) -> &[u8]
    ensures { IsPoints file.now result.now }
{
    match read(file) {
        Ok(mesh) => &file[mesh.points..mesh.points + 24 * mesh.n],
        Err(_) => &file[..0],
    }
}

// The cells of the file, as that very part of it: 16 bytes for each triangle. Of a refused file nothing.
#[tactic(auto, using(crate::proofs::Bounds::within), unfolding(crate::specs::Blocks::cells_in))]
pub fn cells(file: &[u8]) -> &[u8]
    ensures { IsCells file.now result.now }
{
    match read(file) {
        Ok(mesh) => &file[mesh.cells..mesh.cells + 16 * mesh.m],
        Err(_) => &file[..0],
    }
}

// Coordinate `axis` of a point of the block that `points` hands back; the NaN, which masses and skin refuse where they read it, where the block has none.
pub fn coordinate(points: &[u8], point: usize, axis: usize) -> f64
    ensures { IsCoordinate points.now point axis result }
{
    if points.len() / 24 <= point || 3 <= axis {
        return float::of_word(NAN_WORD);
    }
    let (words, _) = points.as_chunks::<8>();
    float::of_word(u64::from_be_bytes(words[3 * point + axis]))
}

// The vertex that a triangle names at a corner, in the block that `cells` hands back; `NO_NAME` where the block has none.
pub fn name(cells: &[u8], triangle: usize, corner: usize) -> usize
    ensures { IsName cells.now triangle corner result }
{
    if cells.len() / 16 <= triangle || 3 <= corner {
        return NO_NAME;
    }
    let (words, _) = cells.as_chunks::<4>();
    number(words[4 * triangle + 1 + corner])
}
