// One row of a sweep: both ways at either lane count, and the visit that may skip it.
#![tactic(auto)]

mod row;
pub mod visit;
