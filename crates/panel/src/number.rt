// A double for a person: a whole multiple of 2^-10 of size below 2^40 by its exact decimal, any other by the 16 hexadecimal digits of its bits.
ghost use Rattle.std.specs.Prelude.{◌≤◌, ◌<◌, IfOk};

use itoa::Buffer;
use std::io;

// Each of these puts some bytes on standard output, and answers how many.
fn put_sign(rt: &impl Print, negative: bool) -> io::Result<usize>
    ensures { IfOk result (λ n. n ≤ 1) }
{
    if negative {
        print!(rt; "-")?;
        return Ok(1);
    }
    Ok(0)
}

pub(crate) fn put_whole(rt: &impl Print, n: u64) -> io::Result<usize>
    ensures { IfOk result (λ n. n ≤ 20) }
{
    let mut buffer = Buffer::new();
    let text = buffer.format(n);
    rt.print(text)?;
    Ok(text.len())
}

// The digits of rest / 1024, after the point; ten are always enough. How many were put is the answer, so they are counted.
fn put_fraction(rt: &impl Print, rest: u64) -> io::Result<usize>
    requires { rest < 1024 }
    ensures { IfOk result (λ n. n ≤ 10) }
{
    let mut left = rest;
    for count in 0..10 {
        if left == 0 {
            return Ok(count);
        }
        print!(rt; "{}", left * 10 / 1024)?;
        left = left * 10 % 1024;
    }
    Ok(10)
}

fn put_decimal(rt: &impl Print, negative: bool, n: u64) -> io::Result<usize>
    ensures { IfOk result (λ n. n ≤ 32) }
{
    let used = put_sign(rt, negative)? + put_whole(rt, n / 1024)?;
    if n % 1024 == 0 {
        return Ok(used);
    }
    print!(rt; ".")?;
    Ok(used + 1 + put_fraction(rt, n % 1024)?)
}

pub(crate) fn put(rt: &impl Print, x: f64) -> io::Result<usize>
    ensures { IfOk result (λ n. n ≤ 32) }
{
    let w = float::to_word(x);
    if let Some(n) = units::scaled(w) {
        return put_decimal(rt, 0x8000_0000_0000_0000 <= w, n);
    }
    print!(rt; "{w:016x}")?;
    Ok(16)
}
