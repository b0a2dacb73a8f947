//! What a `Cargo.toml` says of a package.
ghost use Rattle.std.specs.Prelude.{◌≡◌, ◌⊎◌, true, false};
ghost use Rattle.basic_toml.specs.Nodes.{node_data, is_table};
ghost use Rattle.basic_toml.specs.Reading.{ReadsText};
ghost use Rattle.basic_toml.specs.Records.{done, maybe, needed, or, record_faults, record_reads};

use basic_toml::{Deserialize, Error, Node, Record, Tree, from_str};
use basic_toml_typed::read_record;
use std::alloc::Global;
use std::collections::BTreeMap;

/// A manifest; what is not listed here is passed over.
#[derive(Drop)]
pub struct Manifest {
    pub package: Package,
    pub dependencies: Option<BTreeMap<String, Dependency>>,
    pub features: Option<BTreeMap<String, Vec<String>>>,
}

impl Record for Manifest {
    ghost fields = { needed ⟦<Package as Deserialize<'static>>⟧ "package" (λ r. r.package)
        (maybe ⟦<BTreeMap<String, Dependency> as Deserialize<'static>>⟧ "dependencies" (λ r. r.dependencies)
        (maybe ⟦<BTreeMap<String, Vec<String>> as Deserialize<'static>>⟧ "features" (λ r. r.features)
        done)) };
}

impl<'de> Deserialize<'de> for Manifest {
    ghost reads = { record_reads ⟦<Manifest as Record>⟧.fields };

    ghost faults = { record_faults ⟦<Manifest as Record>⟧.fields };

    fn deserialize(alloc: Global, node: Node<'_, 'de>) -> Result<Manifest, Error> {
        read_record!(alloc, node, Manifest {
            package = needed("package"),
            dependencies = maybe("dependencies"),
            features = maybe("features"),
        })
    }

    fn from_tree(alloc: Global, tree: Tree<'de>) -> Result<Manifest, Error> {
        Manifest::deserialize(alloc, tree.root())
    }
}

/// The package itself.
#[derive(Drop)]
pub struct Package {
    pub name: String,
    pub version: String,
    pub edition: Option<String>,
}

impl Record for Package {
    ghost fields = { needed ⟦<String as Deserialize<'static>>⟧ "name" (λ r. r.name)
        (needed ⟦<String as Deserialize<'static>>⟧ "version" (λ r. r.version)
        (maybe ⟦<String as Deserialize<'static>>⟧ "edition" (λ r. r.edition)
        done)) };
}

impl<'de> Deserialize<'de> for Package {
    ghost reads = { record_reads ⟦<Package as Record>⟧.fields };

    ghost faults = { record_faults ⟦<Package as Record>⟧.fields };

    fn deserialize(alloc: Global, node: Node<'_, 'de>) -> Result<Package, Error> {
        read_record!(alloc, node, Package {
            name = needed("name"),
            version = needed("version"),
            edition = maybe("edition"),
        })
    }

    fn from_tree(alloc: Global, tree: Tree<'de>) -> Result<Package, Error> {
        Package::deserialize(alloc, tree.root())
    }
}

/// A dependency: a version alone, or a table.
#[derive(Drop)]
pub enum Dependency {
    Version(String),
    Detailed(Detail),
}

impl<'de> Deserialize<'de> for Dependency {
    ghost use Rattle.read_manifest.specs.declared.manifest.Dependency.TheVariants.{Version, Detailed};

    ghost reads = { λ d x. elim x [
      | Version text ↦ ⟦<String as Deserialize<'static>>⟧.reads d text
      | Detailed detail ↦ ⟦<Detail as Deserialize<'static>>⟧.reads d detail
    ] };

    ghost faults = { λ node fault.
        ((is_table (node_data node) ≡ true) × ⟦<Detail as Deserialize<'static>>⟧.faults node fault)
        ⊎ ((is_table (node_data node) ≡ false) × ⟦<String as Deserialize<'static>>⟧.faults node fault) };

    #[tactic(auto, unfolding(basic_toml_typed::specs::TypeReads::optional_reads))]
    fn deserialize(alloc: Global, node: Node<'_, 'de>) -> Result<Dependency, Error> {
        if node.is_table() {
            Ok(Dependency::Detailed(Detail::deserialize(alloc, node)?))
        } else {
            Ok(Dependency::Version(String::deserialize(alloc, node)?))
        }
    }

    fn from_tree(alloc: Global, tree: Tree<'de>) -> Result<Dependency, Error> {
        Dependency::deserialize(alloc, tree.root())
    }
}

/// A dependency that says more than its version.
#[derive(Drop)]
pub struct Detail {
    pub version: Option<String>,
    pub path: Option<String>,
    pub optional: bool,
}

impl Record for Detail {
    ghost fields = { maybe ⟦<String as Deserialize<'static>>⟧ "version" (λ r. r.version)
        (maybe ⟦<String as Deserialize<'static>>⟧ "path" (λ r. r.path)
        (or ⟦<bool as Deserialize<'static>>⟧ "optional" false (λ r. r.optional)
        done)) };
}

impl<'de> Deserialize<'de> for Detail {
    ghost reads = { record_reads ⟦<Detail as Record>⟧.fields };

    ghost faults = { record_faults ⟦<Detail as Record>⟧.fields };

    fn deserialize(alloc: Global, node: Node<'_, 'de>) -> Result<Detail, Error> {
        read_record!(alloc, node, Detail {
            version = maybe("version"),
            path = maybe("path"),
            optional = or("optional", false),
        })
    }

    fn from_tree(alloc: Global, tree: Tree<'de>) -> Result<Detail, Error> {
        Detail::deserialize(alloc, tree.root())
    }
}

/// The manifest that a text holds.
///
/// # Errors
///
/// Those of [`from_str`]; a `package` without a name or a version is an error.
pub fn manifest_of(alloc: Global, text: &str) -> Result<Manifest, Error>
    ensures { ReadsText ⟦<Manifest as Deserialize<'static>>⟧.takes ⟦<Manifest as Deserialize<'static>>⟧.reads
        ⟦<Manifest as Deserialize<'static>>⟧.faults text.now result }
{
    from_str(alloc, text)
}
