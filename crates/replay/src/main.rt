// Reads records of big-endian 64-bit words from standard input, runs each through the routine that its first word names, and writes an answer line for each
// (docs/REPLAY.md). An end of the input between two records ends the run; any other is answered by the line `?` and the end.
#![tactic(auto)]

mod helpers;
mod input;
mod kernels;
mod list_records;
mod output;

use input::Stop;
use kernels::Kernel;
use std::io;

#[derive(Clone, Copy)]
enum Kind {
    Root,
    Kernel(Kernel),
    Masses,
    Skin,
    Helper,
}

impl TryFrom<u64> for Kind {
    type Error = Stop;

    fn try_from(word: u64) -> Result<Kind, Stop> {
        Ok(match word {
            1 => Kind::Root,
            2 => Kind::Kernel(Kernel::QuadraticBending),
            3 => Kind::Kernel(Kernel::Stvk),
            4 => Kind::Kernel(Kernel::StvkHessian),
            5 => Kind::Kernel(Kernel::PlateBending),
            6 => Kind::Masses,
            7 => Kind::Skin,
            8 => Kind::Kernel(Kernel::GreenLagrange),
            9 => Kind::Helper,
            _ => return Err(Stop::Unreadable),
        })
    }
}

fn replay_root(rt: &impl Print, stdin: &mut impl io::Read) -> Result<(), Stop> {
    let root = root::sqrt_word(input::next_word(stdin)?);
    output::start_line(rt, 0)?;
    output::put_word(rt, root)?;
    Ok(())
}

// Reads a record to its end, and then writes its line but for the line's end.
fn replay(rt: &impl Print, stdin: &mut impl io::Read, kind: Kind) -> Result<(), Stop> {
    match kind {
        Kind::Root => replay_root(rt, stdin),
        Kind::Kernel(kernel) => kernels::replay(rt, stdin, kernel),
        Kind::Masses => list_records::replay_masses(rt, stdin),
        Kind::Skin => list_records::replay_skin(rt, stdin),
        Kind::Helper => helpers::replay(rt, stdin),
    }
}

// A proved loop ends, and nothing says that the input does: so the records are counted, up to a number that no run reaches.
fn run(rt: &impl Print, stdin: &mut impl io::Read) -> Result<(), Stop> {
    for _ in 0..u64::MAX {
        let Some(word) = input::first_word(stdin)? else {
            break;
        };
        replay(rt, stdin, Kind::try_from(word)?)?;
        output::end_line(rt)?;
    }
    Ok(())
}

fn main(rt: HostRuntime) -> io::Result<()> {
    match run(&rt, &mut rt.stdin()) {
        Ok(()) => Ok(()),
        Err(Stop::Unreadable) => output::unreadable(&rt),
        Err(Stop::Io(error)) => Err(error),
    }
}
