#![tactic(auto)]

// Whether single numbers are in the range that demand 3 speaks of (01-scope 6.2).
ghost use Rattle.std.specs.Prelude.{◌≡◌};
ghost use Rattle.std.specs.Float.{binary64};
ghost use Rattle.rounding.specs.Whole.{is_whole_up_to};
ghost use Rattle.rounding.specs.Range.{largest_coordinate, largest_factor, between};

// Whether x is a whole number up to 1,048,576 in size. From 2^52 to 2^53 all floats are whole: x comes back from 1.5 * 2^52 exactly where it is whole.
pub fn is_whole(x: f64) -> bool
    ensures { result ≡ is_whole_up_to binary64 largest_coordinate x }
{
    let far = 6_755_399_441_055_744.0;
    (-1_048_576.0 <= x) & (x <= 1_048_576.0) & (x + far - far == x)
}

// Whether x lies from 2^-40 to 2^40.
pub fn is_factor(x: f64) -> bool
    ensures { result ≡ between binary64 largest_factor x }
{
    let most = 1_099_511_627_776.0;
    (1.0 / most <= x) & (x <= most)
}
