// A type that is read from nodes alone.
use basic_toml::{Deserialize, Error, Node, Table, Tree, WriteError, from_slice, to_string};
use std::alloc::Global;
use std::test::Fail;

/// A table that is read from nodes alone.
#[derive(Drop)]
struct Held {
    table: Table,
}

impl<'de> Deserialize<'de> for Held {
    ghost use Rattle.basic_toml_typed.specs.TypeReads.{table_reads, table_takes};

    ghost reads = { λ d held. table_reads d held.table };

    ghost takes = { table_takes };

    fn deserialize(alloc: Global, node: Node<'_, 'de>) -> Result<Held, Error> {
        match node.to_table(alloc)? {
            Some(table) => Ok(Held { table }),
            None => Err(Error::from(WriteError::UnsupportedType)),
        }
    }

    fn from_tree(alloc: Global, tree: Tree<'de>) -> Result<Held, Error> {
        Held::deserialize(alloc, tree.root())
    }
}

#[test]
fn reads_from_nodes(rt: HostRuntime) -> Result<(), Fail> {
    for text in ["", "a = 7\nb = true\nc = \"x\"\n", "a = 10\n"] {
        let held: Held = from_slice(rt.alloc(), text.as_bytes())?;
        assert_eq!(rt; to_string(rt.alloc(), &held.table)?.as_str(), text);
    }
    Ok(())
}
