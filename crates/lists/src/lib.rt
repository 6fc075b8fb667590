// Lists of numbers: finite tests and clearing.
#![tactic(auto)]

ghost use Rattle.std.specs.Prelude.{◌≡◌};
ghost use Rattle.std.specs.Float.{binary64};
ghost use Rattle.float.specs.Lists.{all_finite, cleared};

// Whether every number of the list is finite, looked at one by one.
pub fn each_finite(xs: &[f64]) -> bool
    ensures { result ≡ all_finite xs.now }
{
    xs.iter().fold(true, |ok, &x| ok & float::is_finite(x))
}

// The same for longer lists, by four sums side by side, which the compiler takes two at a time: a finite sum has finite terms alone.
// Where the sums are finite, what is left over is looked at one by one, else every number.
pub fn all_finite(xs: &[f64]) -> bool
    ensures { result ≡ all_finite xs.now }
{
    let (fours, rest) = xs.as_chunks::<4>();
    let mut a = 0.0;
    let mut b = 0.0;
    let mut c = 0.0;
    let mut d = 0.0;
    for four in fours {
        a += four[0];
        b += four[1];
        c += four[2];
        d += four[3];
    }
    if float::is_finite(a + b + c + d) {
        return each_finite(rest);
    }
    each_finite(xs)
}

// Sets every number of the list to +0.
pub fn clear(xs: &mut [f64])
    ensures { xs.new ≡ cleared binary64 xs.old }
{
    xs.fill(0.0);
}
