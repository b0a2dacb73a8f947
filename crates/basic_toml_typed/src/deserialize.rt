//! Types that are read, and tables.
ghost use Rattle.std.specs.Prelude.{◌≡◌, IfOk, IfErr};
ghost use Rattle.basic_toml_value.specs.Data.{Data};
ghost use Rattle.basic_toml_tree.specs.Data.{table_data, HoldsAny};
ghost use Rattle.basic_toml_tree.specs.Nodes.{node_data};
ghost use Rattle.basic_toml_tree.specs.declared.node.Node as n;
ghost use Rattle.basic_toml_error.specs.Fault.{Fault};
ghost use Rattle.basic_toml_typed.specs.TypeAnswers.{OnlyMemory, OrMemory, IfGrows, AtRoot, any_fault, any_data};
ghost use Rattle.basic_toml_typed.specs.TypeFaults.{table_faults};
ghost use Rattle.basic_toml_typed.specs.TypeReads.{table_reads, table_takes};

use basic_toml_error::Error;
use basic_toml_tree::{Node, Tree};
use basic_toml_value::Table;
use std::alloc::Global;

/// A type that can be read from a text.
///
/// The ghost member `reads` says which values it reads from which data, `faults` which errors it has at which node,
/// `grows` from which data it may ask for memory, and the checker proves that its functions do.
///
/// ```text
/// impl<'de> Deserialize<'de> for Steps {
///     ghost reads = { λ d s. array_reads ⟦<u8 as Deserialize<'static>>⟧.reads d s.0 };
///
///     ghost faults = { array_faults ⟦<u8 as Deserialize<'static>>⟧.faults ⟦<u8 as Deserialize<'static>>⟧.reads };
///
///     fn deserialize(alloc: Global, node: Node<'_, 'de>) -> Result<Steps, Error> {
///         Ok(Steps(read_elements(alloc, node)?))
///     }
///
///     fn from_tree(alloc: Global, tree: Tree<'de>) -> Result<Steps, Error> {
///         Steps::deserialize(alloc, tree.root())
///     }
/// }
/// ```
///
/// This is from `toml_callers`, which has a type of each shape; `load_settings` has a record with defaults.
pub trait Deserialize<'de>: Sized {
    // Which values are read from which data.
    ghost reads: { Data → Self → Type 0 };

    // From which data a value is read, memory aside. A type that leaves it out reads a value wherever there is one by
    // `reads`.
    ghost takes: { Data → Type 0 } = { λ _. ⊥ };

    // Which errors it has at which node, memory aside. A type that leaves it out may have any.
    ghost faults: { n.Node → Fault → Type 0 } = { any_fault };

    // From which data it may ask for memory. A type that leaves it out may from any.
    ghost grows: { Data → Type 0 } = { any_data };

    // How a value stands in a struct that it was moved into. A signed integer stands there by its bits; a type that leaves
    // it out stands there as it is.
    ghost moved: { Self → Self } = { λ value. value };

    /// Reads a value from a node.
    ///
    /// # Errors
    ///
    /// The type's own, those that it names by `faults` at the node, and only where it reads nothing from it; and want of
    /// memory, only from data that `grows` tells.
    fn deserialize(alloc: Global, node: Node<'_, 'de>) -> Result<Self, Error>
        ensures ok { IfOk result (λ value. reads (node_data node.entry) value) }
        ensures err { IfErr result (OnlyMemory (takes (node_data node.entry)) (reads (node_data node.entry))) }
        ensures named { IfErr result (OrMemory (faults node.entry)) }
        ensures memory { IfErr result (IfGrows (grows (node_data node.entry))) }
        ensures same { IfOk result (λ value. moved value ≡ value) };

    /// Reads a value from the whole of a tree, which it may use up. A type that has no use for the tree reads itself
    /// from its root: `Self::deserialize(alloc, tree.root())`.
    ///
    /// # Errors
    ///
    /// Those of `deserialize` at the root.
    fn from_tree(alloc: Global, tree: Tree<'de>) -> Result<Self, Error>
        ensures ok { IfOk result (λ value. reads (table_data tree.entry.root) value) }
        ensures err { IfErr result (OnlyMemory (takes (table_data tree.entry.root))
            (reads (table_data tree.entry.root))) }
        ensures named { AtRoot (λ root. IfErr result (OrMemory (faults root))) tree.entry }
        ensures memory { IfErr result (IfGrows (grows (table_data tree.entry.root))) };
}

impl<'de> Deserialize<'de> for Table {
    ghost reads = { table_reads };

    ghost takes = { table_takes };

    ghost faults = { table_faults };

    ghost grows = { HoldsAny };

    fn deserialize(alloc: Global, node: Node<'_, 'de>) -> Result<Table, Error> {
        match node.to_table(alloc)? {
            Some(table) => Ok(table),
            None => Err(Error::invalid_type(alloc, node, "a map")),
        }
    }

    fn from_tree(alloc: Global, tree: Tree<'de>) -> Result<Table, Error> {
        Ok(tree.into_table(alloc)?)
    }
}
