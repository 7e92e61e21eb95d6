// Access of a rectangle: document 01, "Ring". The walkable cells around a resource, on the terrain without blockers.
#![tactic(auto)]

pub mod call;
