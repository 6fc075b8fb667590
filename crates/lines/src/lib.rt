#![tactic(auto)]

// Lines of text with numbers in them, from a template, into a lent buffer of any length: a caller's room may be known at run time alone, and a part of a longer buffer.
ghost use Rattle.std.specs.Prelude.{◌≡◌, [], ◌∷◌, ◌≤◌, ◌<◌, length};
ghost use Rattle.lines.specs.Filled.{count_of, digit_of, shown_of, Writes, IsFilled};

// Bytes from the place on, as many as there is room for; answers the place after them.
fn put(out: &mut [u8], at: usize, w: &[u8]) -> usize
    requires { at ≤ length out.old }
    ensures { Writes w.now at out.old result out.new }
{
    let n = w.len().min(out.len() - at);
    out[at..at + n].copy_from_slice(&w[..n]);
    at + n
}

// One byte, where there is room for it.
fn byte(out: &mut [u8], at: usize, b: u8) -> usize
    requires { at ≤ length out.old }
    ensures { Writes (b ∷ []) at out.old result out.new }
{
    if at < out.len() {
        out[at] = b;
        return at + 1;
    }
    at
}

// x in units of 10^-p, the point in front of the last k digits, in `width` places at least.
fn number(out: &mut [u8], at: usize, x: f64, p: usize, k: usize, width: usize) -> usize
    requires { at ≤ length out.old }
    ensures { Writes (shown_of p k width x) at out.old result out.new }
{
    let mut field = [b' '; 32];
    let from = decimal::text::show(decimal::units::units(x, p), k, &mut field);
    let start = from.min(32 - width.min(32));
    put(out, at, &field[start..])
}

// The digit i of those that follow a `%`.
fn digit(more: &[u8], i: usize) -> usize
    ensures { (result ≡ digit_of i more.now) × (result < 256) }
{
    more.get(i)
        .map_or(0, |&c| usize::from(c.saturating_sub(b'0')))
}

// Up to here every count is a double.
const LARGEST: usize = 0x20_0000_0000_0000;

// A count as a number for a template; the NaN above 2^53, where not every one is a double.
pub fn count(n: usize) -> f64
    ensures { result ≡ count_of n }
{
    if n <= LARGEST {
        n as u64 as f64
    } else {
        f64::NAN
    }
}

// The template with its numbers put in, as much of it as there is room for; answers how many bytes that is. `%pkww` stands for the next number, in units of 10^-p, with the point in front of its last
// k digits, in ww places at least, blanks in front; where no number is left, for a NaN.
pub fn fill(template: &[u8], numbers: &[f64], out: &mut [u8]) -> usize
    ensures { IsFilled template.now numbers.now out.old result out.new }
{
    let mut at = 0;
    let mut left = numbers.iter();
    let mut rest = template;
    while let Some((&c, more)) = rest.split_first() {
        if c == b'%' {
            let x = left.next().copied().unwrap_or(f64::NAN);
            let p = digit(more, 0);
            let k = digit(more, 1);
            let tens = digit(more, 2);
            let ones = digit(more, 3);
            at = number(out, at, x, p, k, tens * 10 + ones);
            rest = &more[more.len().min(4)..];
        } else {
            at = byte(out, at, c);
            rest = more;
        }
    }
    at
}
