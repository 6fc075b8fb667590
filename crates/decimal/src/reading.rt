// A plain decimal, such as 1400 or 0.002, as the nearest double.
ghost use Rattle.std.specs.Prelude.{◌≡◌, false, ◌+◌, ◌*◌, ◌^◌, ◌≤◌, ◌<◌, min};
ghost use Rattle.std.specs.Float.{binary64};
ghost use Rattle.std.specs.Float.Ieee.{round};
ghost use Rattle.decimal.specs.Reading.{IsNumber};

use crate::units::ten;

// The place of the first byte that is wrong.
#[derive(Clone, Copy, Debug, PartialEq, Eq)]
pub struct Wrong {
    pub at: usize,
}

// m * 10^up / 10^down. Each of the two numbers is a double, so the one product or quotient rounds once.
fn value(m: u64, up: usize, down: usize) -> f64
    requires { (m < 10 ^ 15) × (up ≤ 22) × (down ≤ 22) }
    ensures { result ≡ round binary64 false (m * 10 ^ up) (10 ^ down) }
{
    if down <= up {
        m as f64 * ten(up - down)
    } else {
        m as f64 / ten(down - up)
    }
}

// Digits, then perhaps a point and digits, read as the double nearest to the fraction that they say times 10^up over 10^down; or the place of the first wrong byte. At most 15 digits, leading zeros counted.
// An up or a down above 8 counts as 8: with the 14 places that may follow the point, no power is above 10^22, the last that is a double.
pub fn read(text: &[u8], up: usize, down: usize) -> Result<f64, Wrong>
    ensures { IsNumber (min up 8) (min down 8) text.now result }
{
    let mut m = 0;
    let mut left: usize = 15;
    let mut since = 0;
    let mut pointed = false;
    for (at, &c) in text.iter().enumerate() {
        match c {
            b'0'..=b'9' if left > 0 => {
                m = m * 10 + u64::from(c - b'0');
                left -= 1;
                since += 1;
            }
            b'.' if !pointed & (since > 0) => {
                since = 0;
                pointed = true;
            }
            _ => return Err(Wrong { at }),
        }
    }
    if since == 0 {
        return Err(Wrong { at: text.len() });
    }
    let places = if pointed { since } else { 0 };
    Ok(value(m, up.min(8), places + down.min(8)))
}
