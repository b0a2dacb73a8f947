//! The laws of anchors, as contracts of functions that do nothing.

ghost use Rattle.basic_toml_origin.specs.Statements.{AnchorsLeadToPaths, MadeAnchorsLeadToPaths};

/// An anchor of what is at a path of a document leads to this path, by the section list of its text.
pub fn anchors_lead_to_paths()
    ensures { AnchorsLeadToPaths }
{}

/// An anchor of what headers made leads to its path by every section list, whether a text has it or not.
pub fn made_anchors_lead_to_paths()
    ensures { MadeAnchorsLeadToPaths }
{}
