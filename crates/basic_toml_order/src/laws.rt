//! Laws of tables with their rows first, each the contract of a function that does nothing.
ghost use Rattle.basic_toml_order.specs.Statements.{RowsComeFirst, HasSameMaps, OrderedStays, OnceIsEnough, OnlyUnwritableIsRefused, StaysRecordable, WritableHasTheLayout};

/// No row stands after a section, at any depth.
#[tactic(auto, using(crate::proofs::LawsHold::rows_come_first))]
pub fn rows_come_first()
    ensures { RowsComeFirst }
{}

/// The maps are the same as before: every key leads to the same value, its own rows first.
#[tactic(auto, using(crate::proofs::LawsHold::has_same_maps))]
pub fn has_same_maps()
    ensures { HasSameMaps }
{}

/// What has its rows first already stays as it is.
#[tactic(auto, using(crate::proofs::LawsHold::ordered_stays))]
pub fn ordered_stays()
    ensures { OrderedStays }
{}

/// A second time changes nothing.
#[tactic(auto, using(crate::proofs::LawsHold::once_is_enough))]
pub fn once_is_enough()
    ensures { OnceIsEnough }
{}

/// Writing refuses a table with its rows first only where no order of its entries could be written.
#[tactic(auto, using(crate::proofs::LawsHold::only_unwritable_is_refused))]
pub fn only_unwritable_is_refused()
    ensures { OnlyUnwritableIsRefused }
{}

/// Where the calls of data can be recorded, so can those of the data with its rows first.
#[tactic(auto, using(crate::proofs::LawsHold::stays_recordable))]
pub fn stays_recordable()
    ensures { StaysRecordable }
{}

/// The text of any table is the same, where each array of the table can be written.
#[tactic(auto, using(crate::proofs::LawsHold::writable_has_the_layout))]
pub fn writable_has_the_layout()
    ensures { WritableHasTheLayout }
{}
