// What the arguments say.
use crate::{arg, arg_count};
use decimal::reading;
use std::fmt;
use std::rt::Env;
use survey::Side;
use wall_lines::Sheet;

// What is to be printed.
#[derive(Clone, Copy, PartialEq, Eq)]
pub enum Mode {
    Label,
    All,
    Picture,
    Vtk,
    Help,
}

#[derive(Clone, Copy)]
pub struct Setting {
    pub mode: Mode,
    pub sheet: Sheet,
    pub side: Side,
    // How many files are named.
    pub files: usize,
}

// What the arguments have said so far.
#[derive(Clone, Copy)]
struct Said {
    mode: Mode,
    files: usize,
    density: Option<f64>,
    thickness: Option<f64>,
    young: Option<f64>,
    poisson: Option<f64>,
    side: Option<Side>,
}

// The first argument that is wrong.
#[derive(Clone, Copy)]
pub(crate) struct Wrong {
    argument: usize,
    why: Why,
}

#[derive(Clone, Copy)]
enum Why {
    Length,
    Character(usize, Wanted),
}

// What is wanted in place of a character.
#[derive(Clone, Copy)]
enum Wanted {
    Word,
    OtherWord,
    Decimal,
    AboveZero,
    BelowHalf,
    Side,
}

impl fmt::Display for Wanted {
    fn fmt<W: fmt::Write>(&self, f: &mut fmt::Formatter<W>) -> fmt::Result {
        f.write_str(match self {
            Wanted::Word => "no such word, see wall help",
            Wanted::OtherWord => "this word was said before",
            Wanted::Decimal => "a decimal of at most 15 digits is wanted, as 1400 or 2.5",
            Wanted::AboveZero => "a number above 0 is wanted",
            Wanted::BelowHalf => "a number below 0.5 is wanted",
            Wanted::Side => "left, right, top or bottom is wanted",
        })
    }
}

impl fmt::Display for Wrong {
    fn fmt<W: fmt::Write>(&self, f: &mut fmt::Formatter<W>) -> fmt::Result {
        let i = self.argument;
        match self.why {
            Why::Length => write!(f, "argument {i} is empty or longer than 4095 bytes"),
            Why::Character(c, wanted) => write!(
                f,
                "argument {i} is wrong at character {c}: {wanted}"
            ),
        }
    }
}

// One of the five words in first place.
fn mode_of(i: usize, text: &[u8]) -> Option<Mode> {
    if i != 1 {
        return None;
    }
    match text {
        b"label" => Some(Mode::Label),
        b"all" => Some(Mode::All),
        b"picture" => Some(Mode::Picture),
        b"vtk" => Some(Mode::Vtk),
        b"help" => Some(Mode::Help),
        _ => None,
    }
}

// Whether argument i is a file's name.
pub(crate) fn is_file(i: usize, text: &[u8]) -> bool {
    mode_of(i, text).is_none() & !text.contains(&b'=')
}

// What a word says, which is said once.
fn say<T: Copy, F: FnOnce() -> Result<T, Why>>(said: &mut Option<T>, value: F) -> Result<(), Why>
    requires { F.pre value }
{
    if said.is_some() {
        return Err(Why::Character(1, Wanted::OtherWord));
    }
    *said = Some(value()?);
    Ok(())
}

// A word's number, which begins at the character `from`.
fn number(text: &[u8], from: usize, up: usize, down: usize) -> Result<f64, Why> {
    reading::read(text, up, down).map_err(|wrong| Why::Character(
        from.saturating_add(wrong.at),
        Wanted::Decimal,
    ))
}

fn above_zero(text: &[u8], from: usize, up: usize, down: usize) -> Result<f64, Why> {
    let x = number(text, from, up, down)?;
    if x == 0.0 {
        return Err(Why::Character(from, Wanted::AboveZero));
    }
    Ok(x)
}

fn below_half(text: &[u8], from: usize) -> Result<f64, Why> {
    let x = number(text, from, 0, 0)?;
    if x < 0.5 {
        return Ok(x);
    }
    Err(Why::Character(from, Wanted::BelowHalf))
}

fn side(text: &[u8]) -> Result<Side, Why> {
    match text {
        b"left" => Ok(Side::Left),
        b"right" => Ok(Side::Right),
        b"top" => Ok(Side::Top),
        b"bottom" => Ok(Side::Bottom),
        _ => Err(Why::Character(5, Wanted::Side)),
    }
}

fn word(said: &mut Said, text: &[u8]) -> Result<(), Why> {
    if let Some(value) = text.strip_prefix(b"density=") {
        say(&mut said.density, || above_zero(value, 9, 0, 0))
    } else if let Some(value) = text.strip_prefix(b"thickness=") {
        say(&mut said.thickness, || above_zero(value, 11, 0, 3))
    } else if let Some(value) = text.strip_prefix(b"young=") {
        say(&mut said.young, || above_zero(value, 7, 6, 0))
    } else if let Some(value) = text.strip_prefix(b"poisson=") {
        say(&mut said.poisson, || below_half(value, 9))
    } else if let Some(value) = text.strip_prefix(b"row=") {
        say(&mut said.side, || side(value))
    } else {
        Err(Why::Character(1, Wanted::Word))
    }
}

fn argument(env: &impl Env, said: &mut Said, i: usize) -> Result<(), Why> {
    let mut space = [0u8; 4096];
    let n = arg(env, i, &mut space);
    if (n == 0) | (4095 < n) {
        return Err(Why::Length);
    }
    let text = &space[..n];
    if text.starts_with(b"-") {
        return Err(Why::Character(1, Wanted::Word));
    }
    if is_file(i, text) {
        said.files = said.files.saturating_add(1);
        return Ok(());
    }
    match mode_of(i, text) {
        Some(mode) => {
            said.mode = mode;
            Ok(())
        }
        None => word(said, text),
    }
}

// The stock sheet and the row at the bottom where the arguments say nothing else. Nothing is looked at behind `help`.
pub(crate) fn read(env: &impl Env) -> Result<Setting, Wrong> {
    let mut said = Said {
        mode: Mode::Label,
        files: 0,
        density: None,
        thickness: None,
        young: None,
        poisson: None,
        side: None,
    };
    for i in 1..arg_count(env) {
        if said.mode == Mode::Help {
            break;
        }
        argument(env, &mut said, i).map_err(|why| Wrong { argument: i, why })?;
    }
    Ok(Setting {
        mode: said.mode,
        sheet: Sheet {
            density: said.density.unwrap_or(1400.0),
            thickness: said.thickness.unwrap_or(0.001953125),
            young: said.young.unwrap_or(2147483648.0),
            poisson: said.poisson.unwrap_or(0.25),
        },
        side: said.side.unwrap_or(Side::Bottom),
        files: said.files,
    })
}
