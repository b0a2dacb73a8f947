//! What a `Cargo.toml` says of a package.
use serde::{Deserialize, Serialize};
use std::borrow::CowStr;
use std::collections::BTreeMap;

/// A manifest; what is not listed here is passed over.
#[derive(Drop, Serialize, Deserialize)]
#[serde(rename_all = "kebab-case")]
pub struct Manifest<'a> {
    pub package: Package<'a>,
    pub lib: Option<Target<'a>>,
    #[serde(default)]
    pub features: BTreeMap<CowStr<'a>, Vec<CowStr<'a>>>,
    #[serde(default)]
    pub dependencies: BTreeMap<CowStr<'a>, Dependency<'a>>,
    #[serde(default)]
    pub dev_dependencies: BTreeMap<CowStr<'a>, Dependency<'a>>,
}

/// The package itself.
#[derive(Drop, Serialize, Deserialize)]
#[serde(rename_all = "kebab-case")]
pub struct Package<'a> {
    pub name: CowStr<'a>,
    pub version: CowStr<'a>,
    pub edition: Option<CowStr<'a>>,
    pub rust_version: Option<CowStr<'a>>,
    #[serde(default)]
    pub authors: Vec<CowStr<'a>>,
}

/// What is built, which has no other keys.
#[derive(Drop, Serialize, Deserialize)]
#[serde(rename_all = "kebab-case", deny_unknown_fields)]
pub struct Target<'a> {
    pub name: Option<CowStr<'a>>,
    pub path: Option<CowStr<'a>>,
    pub doc_scrape_examples: Option<bool>,
}

/// A version, or a table.
#[derive(Drop, Serialize, Deserialize)]
#[serde(untagged)]
pub enum Dependency<'a> {
    Version(CowStr<'a>),
    Detailed(Detail<'a>),
}

#[derive(Drop, Serialize, Deserialize)]
#[serde(rename_all = "kebab-case")]
pub struct Detail<'a> {
    pub version: Option<CowStr<'a>>,
    pub path: Option<CowStr<'a>>,
    #[serde(default)]
    pub optional: bool,
    #[serde(default = "yes")]
    pub default_features: bool,
}

fn yes() -> bool {
    true
}
