// The disjoint set: members in classes, each class a tree of parents in lent slices, with ranks that rise toward the root. Its start, and the root of a member.
#![tactic(auto)]

pub mod find;
