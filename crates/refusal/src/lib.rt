// The refusals of 01-scope 2.1, the ladder that picks one, the energy that several kernels answer, and the tests of a panel's or a skin's lists.
#![tactic(auto)]

ghost use Rattle.std.specs.Prelude.{◌≡◌, Some, cond};
ghost use Rattle.refusal.specs.Refusal.{kernel_number};
ghost use Rattle.refusal.specs.Numbers.{refusal_number, answer_number, IsNumbered};
ghost use Rattle.refusal.specs.Meanings.{meanings, lookup, no_refusal_of};
ghost use Rattle.refusal.specs.Answers.{zero_divisor_of, bad_energy_of};
ghost use Rattle.refusal.specs.Panel.{within_limits, bad_length_of, names_below};

use std::error::Error;
use std::fmt;

// The number where nothing is refused.
pub const ACCEPTED: u32 = 0;

// Why a routine refuses, by its number.
#[derive(Clone, Copy, Debug, PartialEq, Eq)]
pub enum Refusal {
    // A length or a limit is wrong.
    BadLength = 1,
    // A triangle names a vertex that does not exist.
    BadName = 2,
    // A number that the routine reads is a NaN or an infinity.
    BadInput = 3,
    // A listed divisor is zero, of either sign.
    ZeroDivisor = 4,
    // The finished answer has a NaN or an infinity in it.
    BadAnswer = 5,
    // A triangle turns right.
    Turned = 6,
    // A stiffness is none that a sheet can have.
    BadStiffness = 7,
    // A mesh file is not as published.
    BadFile = 8,
}

// A number that no refusal has.
#[derive(Clone, Copy, Debug, PartialEq, Eq)]
pub struct NoRefusal {
    pub number: u32,
}

impl Refusal {
    #[tactic(auto, unfolding(crate::specs::Numbers::refusal_number))]
    pub fn number(self) -> u32
        ensures { result ≡ refusal_number self }
    {
        self as u32
    }

    // What it means, in words for people.
    #[tactic(auto, unfolding(crate::specs::Meanings::lookup))]
    pub fn meaning(self) -> &'static str
        ensures { result.now ≡ lookup meanings (refusal_number self) }
    {
        match self {
            Refusal::BadLength => "a length or a limit is wrong",
            Refusal::BadName => "a triangle names a vertex that does not exist",
            Refusal::BadInput => "a number that is read is a NaN or an infinity",
            Refusal::BadStiffness => "a stiffness is none that a sheet can have",
            Refusal::Turned => "a triangle turns right: its corners run clockwise",
            Refusal::ZeroDivisor => "a divisor is zero",
            Refusal::BadAnswer => "the finished answer has a NaN or an infinity in it",
            Refusal::BadFile => "the mesh file is not as it has to be",
        }
    }
}

impl TryFrom<u32> for Refusal {
    type Error = NoRefusal;

    ghost try_from_gives = { IsNumbered };

    fn try_from(number: u32) -> Result<Self, NoRefusal> {
        match number {
            1 => Ok(Refusal::BadLength),
            2 => Ok(Refusal::BadName),
            3 => Ok(Refusal::BadInput),
            4 => Ok(Refusal::ZeroDivisor),
            5 => Ok(Refusal::BadAnswer),
            6 => Ok(Refusal::Turned),
            7 => Ok(Refusal::BadStiffness),
            8 => Ok(Refusal::BadFile),
            _ => Err(NoRefusal { number }),
        }
    }
}

impl fmt::Display for Refusal {
    ghost output = { λ refusal. Some (lookup meanings (refusal_number refusal)) };

    fn fmt<W: fmt::Write>(&self, f: &mut fmt::Formatter<W>) -> fmt::Result {
        f.write_str(self.meaning())
    }
}

impl fmt::Display for NoRefusal {
    ghost output = { λ none. Some (no_refusal_of none) };

    fn fmt<W: fmt::Write>(&self, f: &mut fmt::Formatter<W>) -> fmt::Result {
        write!(f, "no refusal has the number {}", self.number)
    }
}

impl Error for Refusal {}

impl Error for NoRefusal {}

// The number of an answer.
pub fn number<T>(answer: &Result<T, Refusal>) -> u32
    ensures { result ≡ answer_number answer.now }
{
    match answer {
        Ok(_) => ACCEPTED,
        Err(refusal) => refusal.number(),
    }
}

// The most vertices of a panel or a skin (01-scope 2.3, 2.5).
pub const MAX_VERTICES: usize = 65_536;
// The most triangles.
pub const MAX_TRIANGLES: usize = 131_072;

// An energy with its gradient and its Hessian, flat: dw at ino * 3 + idof, ddw at (ino * 3 + jno) * 9 + idof * 3 + jdof.
#[derive(Drop)]
pub struct Energy {
    pub w: f64,
    pub dw: [f64; 9],
    pub ddw: [f64; 81],
}

// One row of the ladder: refuses where the test holds.
pub fn refuse_if(test: bool, refusal: Refusal) -> Result<(), Refusal>
    ensures { answer_number result ≡ cond test (refusal_number refusal) 0 }
{
    if test { Err(refusal) } else { Ok(()) }
}

// What a kernel tests, in the ladder's order; a test that it does not make is false.
#[derive(Clone, Copy)]
pub struct Tests {
    pub bad_input: bool,
    pub bad_stiffness: bool,
    pub turned: bool,
    pub zero_divisor: bool,
    pub bad_answer: bool,
}

// Refuses for the first test that holds.
#[tactic(auto, unfolding(crate::specs::Refusal::kernel_number, crate::specs::Refusal::first_of))]
pub fn kernel(tests: Tests) -> Result<(), Refusal>
    ensures { answer_number result ≡ kernel_number tests }
{
    refuse_if(tests.bad_input, Refusal::BadInput)?;
    refuse_if(tests.bad_stiffness, Refusal::BadStiffness)?;
    refuse_if(tests.turned, Refusal::Turned)?;
    refuse_if(tests.zero_divisor, Refusal::ZeroDivisor)?;
    refuse_if(tests.bad_answer, Refusal::BadAnswer)
}

// Whether one of three divisors is zero.
#[tactic(auto, unfolding(crate::specs::Answers::zero_divisor_of))]
pub fn zero_divisor(a: f64, b: f64, c: f64) -> bool
    ensures { result ≡ zero_divisor_of a b c }
{
    float::is_zero(a) | float::is_zero(b) | float::is_zero(c)
}

// Whether a number of a finished energy is not finite.
#[tactic(auto, unfolding(crate::specs::Answers::bad_energy_of))]
pub fn bad_energy(w: f64, dw: [f64; 9], ddw: [f64; 81]) -> bool
    ensures { result ≡ bad_energy_of w dw ddw }
{
    !(float::is_finite(w) & lists::each_finite(&dw) & lists::all_finite(&ddw))
}

// Whether so many vertices and so many names, three for each triangle, are within the limits.
#[tactic(auto, unfolding(crate::specs::Panel::within_limits))]
fn within_limits(vertices: usize, names: usize) -> bool
    ensures { result ≡ within_limits vertices names }
{
    (vertices <= MAX_VERTICES) & (names % 3 == 0) & (names / 3 <= MAX_TRIANGLES)
}

// A limit is passed, or a list has not three places for each vertex: within the limits three times the vertices cannot wrap.
#[tactic(auto, using(crate::proofs::Panel::within), unfolding(crate::specs::Panel::bad_length_of))]
pub fn bad_length(vertices: usize, names: usize, places: usize) -> bool
    ensures { result ≡ bad_length_of vertices names places }
{
    !within_limits(vertices, names) || places != vertices * 3
}

// Whether each name is that of one of so many vertices. `all`, which stops at the first that is not, takes two instructions a name more.
pub fn names_below(names: &[usize], count: usize) -> bool
    ensures { result ≡ names_below count names.now }
{
    names.iter().fold(true, |ok, &name| ok & (name < count))
}
