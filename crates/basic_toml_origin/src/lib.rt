//! Where what a path of a document leads to is written, found in its section list: [`origin_at`], and among what stands
//! before an offset [`origin_before`]. A [`Step`] of the path is a key or the number of an element, and an [`Origin`]
//! has the offset of the thing and that of its key.
//!
//! The other way, [`path_to_value`] and [`path_to_key`] give the path to what begins at an offset, and [`section_path`]
//! that of a section. An [`Anchor`] is kept in place of a path, and [`path_to_anchor`] finds the path again. The two
//! places of a clash are [`clash_places`]; with which key a row goes on from a value says [`crossing_key`].
#![tactic(auto)]

mod anchor;
mod before;
mod clash;
mod crossing;
mod find;
mod indexed_path;
pub mod laws;
mod offset_path;
mod origin;
mod query;
mod row_path;
mod step;
mod values;
mod ways;

pub use anchor::{Anchor, path_to_anchor};
pub use clash::{ClashKind, ClashPlaces, clash_places};
pub use crossing::crossing_key;
pub use find::{origin_at, origin_before};
pub use indexed_path::section_path;
pub use offset_path::{path_to_key, path_to_value};
pub use origin::Origin;
pub use step::Step;
