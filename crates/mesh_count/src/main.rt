// What a mesh file on standard input is, in one line: 0 and the counts of its points and triangles, 8 and the place of what is wrong first, or 1 where there are more than
// 65,536 bytes.
#![tactic(auto)]

ghost use Rattle.std.specs.Prelude.{Some};
ghost use Rattle.std.specs.Io.{ReadsAtMost};
ghost use Rattle.mesh_count.specs.Printed.{line_of, IsPrinted};

use refusal::{ACCEPTED, Refusal};
use std::{fmt, io};

const MAX_BYTES: usize = 65_536;

#[derive(Clone, Copy, Debug, PartialEq, Eq)]
enum Printed {
    TooLong,
    Read { n: usize, m: usize },
    Refused(usize),
}

impl fmt::Display for Printed {
    ghost output = { λ printed. Some (line_of printed) };

    fn fmt<W: fmt::Write>(&self, f: &mut fmt::Formatter<W>) -> fmt::Result {
        match *self {
            Printed::TooLong => write!(f, "{}", Refusal::BadLength.number()),
            Printed::Read { n, m } => write!(f, "{ACCEPTED} {n} {m}"),
            Printed::Refused(place) => write!(f, "{} {place}", Refusal::BadFile.number()),
        }
    }
}

#[tactic(auto, unfolding(crate::specs::Printed::numbers_of))]
fn numbers(file: &[u8]) -> Printed
    ensures { IsPrinted file.now result }
{
    if MAX_BYTES < file.len() {
        return Printed::TooLong;
    }
    match mesh::read(file) {
        Ok(mesh) => Printed::Read {
            n: mesh.n,
            m: mesh.m,
        },
        Err(place) => Printed::Refused(place),
    }
}

// Reads until the bytes are full or the input ends, and answers how many were read. What std has for that fills a `Vec`, or fails where the input ends early. It stands in each program that reads: no statement determines what a reader gives, and what is public needs one.
fn read_full(stdin: &mut impl io::Read, bytes: &mut [u8]) -> io::Result<usize>
    ensures { ReadsAtMost result bytes.new }
{
    let mut done = 0;
    while done < bytes.len() {
        let n = stdin.read(&mut bytes[done..])?;
        if n == 0 {
            break;
        }
        done += n;
    }
    Ok(done)
}

fn main(rt: HostRuntime) -> io::Result<()> {
    // One byte more than the longest file, so that a longer one is told from it.
    let mut file = [0u8; 65_537];
    let n = read_full(&mut rt.stdin(), &mut file)?;
    rt.println(numbers(&file[..n]))
}
