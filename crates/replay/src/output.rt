// Answer lines on standard output: words of 16 lower-case hexadecimal digits with one space between.
use std::io;

pub(crate) fn start_line(rt: &impl Print, number: u32) -> io::Result<()> {
    print!(rt; "{number:016x}")
}

pub(crate) fn put_word(rt: &impl Print, w: u64) -> io::Result<()> {
    print!(rt; " {w:016x}")
}

pub(crate) fn put(rt: &impl Print, x: f64) -> io::Result<()> {
    put_word(rt, float::to_word(x))
}

pub(crate) fn put_all(rt: &impl Print, xs: &[f64]) -> io::Result<()> {
    for &x in xs {
        put(rt, x)?;
    }
    Ok(())
}

// A line but for its end, which the run writes.
pub(crate) fn put_answer(rt: &impl Print, number: u32, values: &[f64]) -> io::Result<()> {
    start_line(rt, number)?;
    put_all(rt, values)
}

pub(crate) fn end_line(rt: &impl Print) -> io::Result<()> {
    println!(rt)
}

pub(crate) fn unreadable(rt: &impl Print) -> io::Result<()> {
    println!(rt; "?")
}
