//! A family's rows of backorders at a base, and the points of the choices there, from tables that are made once.
#![tactic(auto)]

ghost use Rattle.family_rows.specs.Sources.{SourcesAreCounted};

pub mod base;
pub mod base_at;
pub mod depot;
pub mod sources;

pub use base_at::BaseAt;
pub use depot::DepotTables;
pub use sources::Sources;

/// The tables that a family's sources hold are those that its count of tables names.
pub fn sources_are_counted()
    ensures { SourcesAreCounted }
{}
