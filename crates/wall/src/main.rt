// Sizes walls from their mesh files and prints them for a person, a spreadsheet, a picture or another program: docs/WALL.md.
#![tactic(auto)]

ghost use Rattle.std.specs.Prelude.{◌≡◌, ◌≤◌, length};
ghost use Rattle.std.specs.Io.{ReadsAtMost};

mod answer;
mod misread;
mod setting;

use answer::Read;
use mesh::Misread;
use misread::{Block, Fault};
use setting::{Mode, Setting};
use std::env::FillError;
use std::rt::{Env, Files};
use std::{fs, io, str};
use survey::Wall;

// The longest file that is read. One byte more is asked for, so that a longer one is told from it.
const MAX_BYTES: usize = 4_194_681;

const HELP: &[u8] =
    b"wall [label|all|picture|vtk|help] [FILE ..] [word=value ..]\nSizes the walls of mesh files, or the wall on standard input: binary VTK, version 3.0, triangles, millimetres.\n  label     what it weighs and what its hinge row carries; this where none of the five is said\n  all       a line for every point, for a spreadsheet\n  picture   an SVG picture, of one file\n  vtk       the file with its masses, of one file\n  density=1400         kg/m3\n  thickness=1.953125   mm\n  young=2147.483648    MPa, for what uses it later\n  poisson=0.25         for what uses it later\n  row=bottom           the hinge row: left, right, top or bottom\nAn answer that begins with 'refused: ' is a refusal.\n";

pub(crate) fn text(rt: &impl Print, bytes: &[u8]) -> io::Result<()> {
    rt.write_all(bytes)
}

// What `fill` writes at the start of a line of 512 bytes, answering how many these are. Every line that is printed is shorter.
pub(crate) fn line<F: Fn(&mut [u8]) -> usize>(rt: &impl Print, fill: F) -> io::Result<()>
    requires { F.IsAlwaysCallable fill }
{
    let mut space = [0u8; 512];
    let n = fill(&mut space);
    match space.get(..n) {
        Some(bytes) => text(rt, bytes),
        None => Ok(()),
    }
}

// The beginning of every refusal of a file.
pub(crate) fn refused(rt: &impl Print, name: &[u8]) -> io::Result<()> {
    text(rt, b"refused: ")?;
    text(rt, name)?;
    text(rt, b": ")
}

// A function of its own, whose proof does not count the bytes out.
fn file_space() -> [u8; 4_194_682]
    ensures { 4194682 ≡ length result }
{
    [0; 4_194_682]
}

#[tactic(auto, using(crate::proofs::WholeFile::whole_within))]
fn wall(rt: &impl Print, name: &[u8], s: Setting, file: &[u8]) -> io::Result<()> {
    if MAX_BYTES < file.len() {
        refused(rt, name)?;
        return text(
            rt,
            b"has more than 4194681 bytes, the most that 65536 points and 131072 triangles take\n",
        );
    }
    match mesh::read_parts(file) {
        Ok(mesh) => {
            let wall = Wall {
                points: &file[mesh.points..mesh.points + 24 * mesh.n],
                cells: &file[mesh.cells..mesh.cells + 16 * mesh.m],
            };
            Read { name, file, wall }.look(rt, s)
        }
        Err(Misread::InLines(place)) => Fault { name, file, place }.in_lines(rt),
        Err(Misread::InPoints { n, at, place }) => {
            let block = Block {
                at,
                size: 24,
                many: n,
                item: "point",
                after: "in the line after the points",
                wanted_after: ": 'CELLS m 4m', m at most 131072, is wanted",
            };
            Fault { name, file, place }.in_block(rt, block, "")
        }
        Err(Misread::InCells { n, m, at, place }) => {
            Fault { name, file, place }.in_cells(rt, n, m, at)
        }
        Err(Misread::InTypes { m, at, place }) => {
            let block = Block {
                at,
                size: 4,
                many: m,
                item: "the type of triangle",
                after: "after the types",
                wanted_after: ": a newline and the end are wanted",
            };
            Fault { name, file, place }.in_block(rt, block, ", which is not 5")
        }
    }
}

// Reads until the bytes are full or the input ends, and answers how many were read. It stands in each program that reads: no statement determines what a reader gives, and what is public needs one.
fn read_full(input: &mut impl io::Read, bytes: &mut [u8]) -> io::Result<usize>
    ensures { ReadsAtMost result bytes.new }
{
    let mut done = 0;
    while done < bytes.len() {
        let n = input.read(&mut bytes[done..])?;
        if n == 0 {
            break;
        }
        done += n;
    }
    Ok(done)
}

// What the input gives. A read fails of a folder.
fn load(rt: &impl Print, name: &[u8], s: Setting, input: &mut impl io::Read) -> io::Result<()> {
    let mut space = file_space();
    match read_full(input, &mut space) {
        Ok(0) => {
            refused(rt, name)?;
            text(rt, b"is empty\n")
        }
        Ok(n) => wall(rt, name, s, &space[..n]),
        Err(_) => {
            refused(rt, name)?;
            text(rt, b"cannot be read\n")
        }
    }
}

// Control characters of a name are shown as question marks.
fn make_visible(name: &mut [u8]) {
    for c in name {
        if c.is_ascii_control() {
            *c = b'?';
        }
    }
}

// How many arguments there are, the program's name among them.
pub(crate) fn arg_count(env: &impl Env) -> usize {
    (0..usize::MAX)
        .find(|&i| matches!(env.arg(i, &mut [0u8; 1]), Err(FillError::NotPresent)))
        .unwrap_or(usize::MAX)
}

// Puts argument i at the start of the space and answers its length, 0 where it is missing or longer than the space.
pub(crate) fn arg(env: &impl Env, i: usize, space: &mut [u8]) -> usize
    ensures { result ≤ length space.new }
{
    env.arg(i, space).unwrap_or(0)
}

// A name that is not UTF-8 cannot be opened.
fn open<R: Files>(files: &R, name: &[u8]) -> io::Result<R::File> {
    match str::from_utf8(name) {
        Ok(path) => fs::open(files, path),
        Err(_) => Err(io::Error::from(io::ErrorKind::InvalidFilename)),
    }
}

// A line to standard error: what failed, a colon and why.
fn fail(rt: &impl Eprint, name: &[u8], reason: io::Error) -> io::Result<()> {
    match str::from_utf8(name) {
        Ok(shown) => eprintln!(rt; "{shown}: {reason}"),
        Err(_) => eprintln!(rt; "{reason}"),
    }
}

// Argument i, where it is a file's name. Answers whether one came so far.
fn file<R: Files + Env + Print + Eprint>(
    rt: &R,
    s: Setting,
    i: usize,
    before: bool,
) -> io::Result<bool> {
    let mut space = [0u8; 4096];
    let n = arg(rt, i, &mut space);
    if !setting::is_file(i, &space[..n]) {
        return Ok(before);
    }
    if before {
        text(rt, b"\n")?;
    }
    let opened = open(rt, &space[..n]);
    make_visible(&mut space[..n]);
    match opened {
        Ok(mut input) => load(rt, &space[..n], s, &mut input)?,
        Err(reason) => {
            refused(rt, &space[..n])?;
            text(rt, b"cannot be opened\n")?;
            fail(rt, &space[..n], reason)?;
        }
    }
    Ok(true)
}

fn main(rt: HostRuntime) -> io::Result<()> {
    let s = match setting::read(&rt) {
        Ok(s) => s,
        Err(wrong) => return println!(rt; "refused: {wrong}"),
    };
    match s.mode {
        Mode::Help => return text(&rt, HELP),
        Mode::Picture if 1 < s.files => return text(&rt, b"refused: picture takes one file\n"),
        Mode::Vtk if 1 < s.files => return text(&rt, b"refused: vtk takes one file\n"),
        _ => {}
    }
    let mut before = false;
    for i in 1..arg_count(&rt) {
        before = file(&rt, s, i, before)?;
    }
    if !before {
        load(&rt, b"standard input", s, &mut rt.stdin())?;
    }
    Ok(())
}
