//! Arrays as vectors, and tables as maps.
ghost use Rattle.std.specs.Prelude.{IfOk, IfErr};
ghost use Rattle.basic_toml_tree.specs.Nodes.{node_data};
ghost use Rattle.basic_toml_typed.specs.TypeAnswers.{OnlyMemory, OrMemory};
ghost use Rattle.basic_toml_typed.specs.TypeFaults.{array_faults, map_faults};
ghost use Rattle.basic_toml_typed.specs.TypeReads.{array_reads, array_takes, map_reads, map_takes};

use crate::Deserialize;
use basic_toml_error::Error;
use basic_toml_tree::{Node, Tree};
use std::alloc::{AllocError, Global};
use std::collections::BTreeMap;

/// Reads the elements of an array in order (TOML v0.5.0, "Array" and "Array of Tables"). `Steps` of
/// `toml_callers` is read by it.
///
/// # Errors
///
/// `invalid type: .., expected a sequence` at the node where it is no array; else the error of the first element that
/// the type does not read; and want of memory.
#[tactic(auto, using(crate::proofs::ArraysRead::arrays_read))]
pub fn read_elements<'de, T: Deserialize<'de> + Drop>(
    alloc: Global,
    node: Node<'_, 'de>,
) -> Result<Vec<T>, Error>
    ensures ok { IfOk result (array_reads T.reads (node_data node.entry)) }
    ensures err { IfErr result (OnlyMemory (array_takes T.takes (node_data node.entry))
        (array_reads T.reads (node_data node.entry))) }
    ensures named { IfErr result (OrMemory (array_faults T.faults T.reads node.entry)) }
{
    let Some(elements) = node.elements() else {
        return Err(Error::invalid_type(alloc, node, "a sequence"));
    };
    let mut values = Vec::new(alloc);
    for element in elements {
        match values.push(T::deserialize(alloc, element)?) {
            Ok(()) => {}
            Err(e) => return Err(AllocError::from(e).into()),
        }
    }
    Ok(values)
}

impl<'de, T: Deserialize<'de> + Drop> Deserialize<'de> for Vec<T> {
    ghost reads = { array_reads T.reads };

    ghost takes = { array_takes T.takes };

    ghost faults = { array_faults T.faults T.reads };

    fn deserialize(alloc: Global, node: Node<'_, 'de>) -> Result<Vec<T>, Error> {
        read_elements(alloc, node)
    }

    fn from_tree(alloc: Global, tree: Tree<'de>) -> Result<Vec<T>, Error> {
        Self::deserialize(alloc, tree.root())
    }
}

// Reads each entry of a table.
#[tactic(auto, using(crate::proofs::MapsRead::maps_read))]
fn read_entries<'de, T: Deserialize<'de> + Drop>(
    alloc: Global,
    node: Node<'_, 'de>,
) -> Result<BTreeMap<String, T>, Error>
    ensures ok { IfOk result (map_reads T.reads (node_data node.entry)) }
    ensures err { IfErr result (OnlyMemory (map_takes T.takes (node_data node.entry))
        (map_reads T.reads (node_data node.entry))) }
    ensures named { IfErr result (OrMemory (map_faults T.faults T.reads node.entry)) }
{
    let Some(entries) = node.entries() else {
        return Err(Error::invalid_type(alloc, node, "a map"));
    };
    let mut map = BTreeMap::new(alloc);
    for (key, child) in entries {
        let value = T::deserialize(alloc, child)?;
        match map.insert(String::from_str(alloc, key)?, value) {
            Ok(_) => {}
            Err(e) => return Err(AllocError::from(e).into()),
        }
    }
    Ok(map)
}

impl<'de, T: Deserialize<'de> + Drop> Deserialize<'de> for BTreeMap<String, T> {
    ghost reads = { map_reads T.reads };

    ghost takes = { map_takes T.takes };

    ghost faults = { map_faults T.faults T.reads };

    fn deserialize(alloc: Global, node: Node<'_, 'de>) -> Result<BTreeMap<String, T>, Error> {
        read_entries(alloc, node)
    }

    fn from_tree(alloc: Global, tree: Tree<'de>) -> Result<BTreeMap<String, T>, Error> {
        Self::deserialize(alloc, tree.root())
    }
}
