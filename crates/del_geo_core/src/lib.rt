// The helpers of 01-scope 3 over vectors, in modules named as the original's.
#![tactic(auto)]

pub mod curve_linear_coords;
pub mod edge;
pub mod mat3_row_major;
pub mod tri;
pub mod tri2;
pub mod tri3;
