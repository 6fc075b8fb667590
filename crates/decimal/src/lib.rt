#![tactic(auto)]

// Numbers for people: a double in whole units of 10^-p, an amount of units as text, and a plain decimal read as a double.
pub mod reading;
pub mod text;
pub mod units;
