//! Lengths on the earth in whole numbers: the square root rounded down, the length of a segment in mm, and
//! where a segment is nearest to a point.
//!
//! Promises: each number is the one defined in `specs/Lengths.antt` and `specs/Foot.antt`, exactly, whatever the points of the
//! earth, and it takes no memory. Stands on `gh_base` for points.
#![tactic(auto)]

mod foot;
mod lengths;
mod roots;

pub use foot::{Snap, project};
pub use lengths::segment_mm;
pub use roots::isqrt;
