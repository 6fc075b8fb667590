// Words and numbers from standard input.
ghost use Rattle.std.specs.Prelude.{◌≤◌, IfOk};
ghost use Rattle.std.specs.Io.{ReadsAtMost};

use material::Material;
use std::io;

const LAME: u64 = material::LAME as u64;

const YOUNG: u64 = material::YOUNG as u64;

// What stops a run within a record: there is no whole record, or the input or the output fails.
#[derive(Drop)]
pub(crate) enum Stop {
    Unreadable,
    Io(io::Error),
}

impl From<io::Error> for Stop {
    fn from(error: io::Error) -> Stop {
        Stop::Io(error)
    }
}

// Reads until the bytes are full or the input ends, and answers how many were read; std's `read_exact` answers no count where the input ends, and `read_to_end` fills a Vec. It stands in each program that reads: no statement determines what a reader gives, and what is public needs one.
fn read_full(stdin: &mut impl io::Read, bytes: &mut [u8]) -> io::Result<usize>
    ensures { ReadsAtMost result bytes.new }
{
    let mut done = 0;
    while done < bytes.len() {
        let n = stdin.read(&mut bytes[done..])?;
        if n == 0 {
            break;
        }
        done += n;
    }
    Ok(done)
}

// None where the input ends before the word.
pub(crate) fn first_word(stdin: &mut impl io::Read) -> Result<Option<u64>, Stop> {
    let mut b = [0u8; 8];
    match read_full(stdin, &mut b)? {
        0 => Ok(None),
        8 => Ok(Some(float::of_bytes(b))),
        _ => Err(Stop::Unreadable),
    }
}

pub(crate) fn next_word(stdin: &mut impl io::Read) -> Result<u64, Stop> {
    first_word(stdin)?.ok_or(Stop::Unreadable)
}

pub(crate) fn next_number(stdin: &mut impl io::Read) -> Result<f64, Stop> {
    Ok(float::of_word(next_word(stdin)?))
}

// The length that a word says of a list, which has at most 4,096 entries. It is tested when the whole head of its record is read.
pub(crate) fn length(word: u64) -> Result<usize, Stop>
    ensures { IfOk result (λ n. n ≤ 4096) }
{
    let n = word as usize;
    if n <= 4096 {
        Ok(n)
    } else {
        Err(Stop::Unreadable)
    }
}

// Fills each place with what its word stands for.
fn fill<T: Copy, F: Fn(u64) -> T>(
    stdin: &mut impl io::Read,
    places: &mut [T],
    of_word: F,
) -> Result<(), Stop>
    requires { F.IsAlwaysCallable of_word }
{
    for place in places.iter_mut() {
        *place = of_word(next_word(stdin)?);
    }
    Ok(())
}

pub(crate) fn fill_names(stdin: &mut impl io::Read, names: &mut [usize]) -> Result<(), Stop> {
    fill(stdin, names, |w| w as usize)
}

pub(crate) fn fill_numbers(stdin: &mut impl io::Read, xs: &mut [f64]) -> Result<(), Stop> {
    fill(stdin, xs, |w| float::of_word(w))
}

// N points of D coordinates each.
pub(crate) fn next_points<const D: usize, const N: usize>(
    stdin: &mut impl io::Read,
) -> Result<[[f64; D]; N], Stop> {
    let mut points = [[0.0; D]; N];
    for point in points.iter_mut() {
        fill_numbers(stdin, point)?;
    }
    Ok(points)
}

pub(crate) fn next_material(stdin: &mut impl io::Read) -> Result<Material, Stop> {
    let s = next_word(stdin)?;
    let density = next_number(stdin)?;
    let thickness = next_number(stdin)?;
    let a = next_number(stdin)?;
    let b = next_number(stdin)?;
    match s {
        LAME => Ok(Material::lame(density, thickness, a, b)),
        YOUNG => Ok(Material::young(density, thickness, a, b)),
        _ => Err(Stop::Unreadable),
    }
}
