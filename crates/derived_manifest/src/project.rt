//! What a `pyproject.toml` says of a project.
use serde::{Deserialize, Serialize};
use std::borrow::CowStr;

/// A project; what is not listed here is passed over.
#[derive(Drop, Serialize, Deserialize)]
pub struct Project<'a> {
    pub project: Metadata<'a>,
}

/// The project itself; what it needs stands among its own keys.
#[derive(Drop, Serialize, Deserialize)]
pub struct Metadata<'a> {
    pub name: CowStr<'a>,
    pub description: Option<CowStr<'a>>,
    #[serde(flatten)]
    pub needs: Needs<'a>,
}

#[derive(Drop, Serialize, Deserialize)]
#[serde(rename_all = "kebab-case")]
pub struct Needs<'a> {
    pub requires_python: Option<CowStr<'a>>,
    #[serde(default)]
    pub dependencies: Vec<CowStr<'a>>,
}
