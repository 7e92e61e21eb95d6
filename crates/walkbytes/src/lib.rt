// Walk bytes of a window: the map's cells, those of blockers unwalkable, padding 0.
#![tactic(auto)]

pub mod maprows;
pub mod painting;
