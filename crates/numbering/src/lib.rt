// The numbers of the fields, from the roots of the resources: one resource after another.
#![tactic(auto)]

pub mod give;
