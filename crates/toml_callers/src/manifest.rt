//! A choice of two forms in a map of a record, that are read back from what they write. None takes a proof. The impls
//! are those that `toml_impls` writes.
ghost use Rattle.std.specs.Prelude.{false, refl};
ghost use Rattle.basic_toml.specs.Nodes.{is_table};
ghost use Rattle.basic_toml.specs.Records.{record_faults, record_reads};
ghost use Rattle.basic_toml_returns.proofs.RecordsReturn.{record_back};
ghost use Rattle.basic_toml_returns.specs.Forms.{by_test, form_back, form_calls, form_faults, form_holds, form_reads, one, other};
ghost use Rattle.basic_toml_returns.specs.RoundTrips.{as_read, done, maybe, needed, or, record_calls, record_holds};

use basic_toml::{
    Deserialize, Error, Node, Record, Serialize, Serializer, Tree, WriteError, from_str,
};
use basic_toml_returns::{Forms, Returns, Root, RoundTrip, write_record};
use basic_toml_typed::read_record;
use std::alloc::Global;
use std::collections::BTreeMap;

/// A package, and what it needs.
#[derive(Drop)]
pub struct Manifest {
    pub name: String,
    pub edition: Option<String>,
    pub dependencies: BTreeMap<String, Dependency>,
}

/// A dependency: a version alone, or a table.
#[derive(Drop)]
pub enum Dependency {
    Version(String),
    Detailed(Detail),
}

/// A dependency that says more than its version.
#[derive(Drop)]
pub struct Detail {
    pub version: Option<String>,
    pub path: Option<String>,
    pub optional: bool,
}

impl RoundTrip for Manifest {
    ghost fields = { needed ⟦<String as Returns<'static>>⟧ "name" (λ s. s.name)
        (maybe ⟦<String as Returns<'static>>⟧ "edition" (λ s. s.edition)
        (needed ⟦<BTreeMap<String, Dependency> as Returns<'static>>⟧ "dependencies" (λ s. s.dependencies)
        done)) };
}

impl Record for Manifest {
    ghost fields = { as_read ⟦<Manifest as RoundTrip>⟧.fields };
}

impl<'de> Deserialize<'de> for Manifest {
    ghost reads = { record_reads ⟦<Manifest as Record>⟧.fields };

    ghost faults = { record_faults ⟦<Manifest as Record>⟧.fields };

    fn deserialize(alloc: Global, node: Node<'_, 'de>) -> Result<Manifest, Error> {
        read_record!(alloc, node, Manifest {
            name = needed("name"),
            edition = maybe("edition"),
            dependencies = needed("dependencies"),
        })
    }

    fn from_tree(alloc: Global, tree: Tree<'de>) -> Result<Manifest, Error> {
        Manifest::deserialize(alloc, tree.root())
    }
}

impl Serialize for Manifest {
    ghost calls = { record_calls ⟦<Manifest as RoundTrip>⟧.fields };

    ghost holds = { record_holds ⟦<Manifest as RoundTrip>⟧.fields };

    fn serialize(&self, _alloc: Global, ser: &mut Serializer) -> Result<(), WriteError> {
        write_record!(ser, self, Manifest {
            name = "name",
            edition = "edition",
            dependencies = "dependencies",
        })
    }
}

impl<'de> Returns<'de> for Manifest {
    ghost read_back = { record_back ⟦<Manifest as RoundTrip>⟧.fields (λ s. refl) };

    ghost returns = { ⟦<Manifest as Returns<'static>>⟧.read_back.returns };
}

impl<'de> Root<'de> for Manifest {
    fn from_text(alloc: Global, text: &str) -> Result<Manifest, Error> {
        from_str(alloc, text)
    }
}

impl Forms for Dependency {
    ghost use Rattle.toml_callers.specs.declared.manifest.Dependency.TheVariants.{Version, Detailed};

    ghost forms = { by_test is_table ⟦<Detail as Returns<'static>>⟧ ⟦<String as Returns<'static>>⟧
        (elim [ Version x ↦ other x | Detailed x ↦ one x ]) (λ x. refl) (λ x. refl) };
}

impl<'de> Deserialize<'de> for Dependency {
    ghost reads = { form_reads ⟦<Dependency as Forms>⟧.forms };

    ghost faults = { form_faults ⟦<Dependency as Forms>⟧.forms };

    fn deserialize(alloc: Global, node: Node<'_, 'de>) -> Result<Dependency, Error> {
        if node.is_table() {
            let value = Detail::deserialize(alloc, node)?;
            Ok(Dependency::Detailed(value))
        } else {
            let value = String::deserialize(alloc, node)?;
            Ok(Dependency::Version(value))
        }
    }

    fn from_tree(alloc: Global, tree: Tree<'de>) -> Result<Dependency, Error> {
        Dependency::deserialize(alloc, tree.root())
    }
}

impl Serialize for Dependency {
    ghost calls = { form_calls ⟦<Dependency as Forms>⟧.forms };

    ghost holds = { form_holds ⟦<Dependency as Forms>⟧.forms };

    fn serialize(&self, alloc: Global, ser: &mut Serializer) -> Result<(), WriteError> {
        match self {
            Dependency::Version(value) => value.serialize(alloc, ser),
            Dependency::Detailed(value) => value.serialize(alloc, ser),
        }
    }
}

impl<'de> Returns<'de> for Dependency {
    ghost read_back = { form_back ⟦<Dependency as Forms>⟧.forms };

    ghost returns = { ⟦<Dependency as Returns<'static>>⟧.read_back.returns };
}

impl RoundTrip for Detail {
    ghost fields = { maybe ⟦<String as Returns<'static>>⟧ "version" (λ s. s.version)
        (maybe ⟦<String as Returns<'static>>⟧ "path" (λ s. s.path)
        (or ⟦<bool as Returns<'static>>⟧ "optional" false (λ s. s.optional)
        done)) };
}

impl Record for Detail {
    ghost fields = { as_read ⟦<Detail as RoundTrip>⟧.fields };
}

impl<'de> Deserialize<'de> for Detail {
    ghost reads = { record_reads ⟦<Detail as Record>⟧.fields };

    ghost faults = { record_faults ⟦<Detail as Record>⟧.fields };

    fn deserialize(alloc: Global, node: Node<'_, 'de>) -> Result<Detail, Error> {
        read_record!(alloc, node, Detail {
            version = maybe("version"),
            path = maybe("path"),
            optional = or("optional", false),
        })
    }

    fn from_tree(alloc: Global, tree: Tree<'de>) -> Result<Detail, Error> {
        Detail::deserialize(alloc, tree.root())
    }
}

impl Serialize for Detail {
    ghost calls = { record_calls ⟦<Detail as RoundTrip>⟧.fields };

    ghost holds = { record_holds ⟦<Detail as RoundTrip>⟧.fields };

    fn serialize(&self, _alloc: Global, ser: &mut Serializer) -> Result<(), WriteError> {
        write_record!(ser, self, Detail {
            version = "version",
            path = "path",
            optional = "optional",
        })
    }
}

impl<'de> Returns<'de> for Detail {
    ghost read_back = { record_back ⟦<Detail as RoundTrip>⟧.fields (λ s. refl) };

    ghost returns = { ⟦<Detail as Returns<'static>>⟧.read_back.returns };
}

impl<'de> Root<'de> for Detail {
    fn from_text(alloc: Global, text: &str) -> Result<Detail, Error> {
        from_str(alloc, text)
    }
}
