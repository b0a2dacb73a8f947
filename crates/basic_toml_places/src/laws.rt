//! The laws of offsets, as contracts of functions that do nothing.

ghost use Rattle.basic_toml_places.specs.Statements.{ValuesBeginApart, NodesAreFoundByStart};

/// The offsets of the values of a text rise, each before those within it; so no two have one offset.
pub fn values_begin_apart()
    ensures { ValuesBeginApart }
{}

/// A node that no header made has one path: that of the value which begins where the node begins, as far as so many
/// keys as lead to the node. So it is found by its start and the number of those keys.
pub fn nodes_are_found_by_start()
    ensures { NodesAreFoundByStart }
{}
