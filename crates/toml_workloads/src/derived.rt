//! Types that derive.
use crate::digest::Digest;
use serde::{Deserialize, Serialize};
use std::borrow::CowStr;
use std::collections::BTreeMap;

/// A manifest; what is not listed here is passed over.
#[derive(Drop, Serialize, Deserialize)]
#[serde(rename_all = "kebab-case")]
pub struct Manifest<'a> {
    pub package: Package<'a>,
    #[serde(default)]
    pub features: BTreeMap<CowStr<'a>, Vec<CowStr<'a>>>,
    #[serde(default)]
    pub dependencies: BTreeMap<CowStr<'a>, Dependency<'a>>,
    #[serde(default)]
    pub dev_dependencies: BTreeMap<CowStr<'a>, Dependency<'a>>,
    #[serde(default)]
    pub bin: Vec<Binary<'a>>,
}

#[derive(Drop, Serialize, Deserialize)]
#[serde(rename_all = "kebab-case")]
pub struct Package<'a> {
    pub name: CowStr<'a>,
    pub version: CowStr<'a>,
    pub edition: Option<CowStr<'a>>,
    pub description: Option<CowStr<'a>>,
    #[serde(default)]
    pub authors: Vec<CowStr<'a>>,
    #[serde(default)]
    pub keywords: Vec<CowStr<'a>>,
}

#[derive(Drop, Serialize, Deserialize)]
#[serde(rename_all = "kebab-case")]
pub struct Binary<'a> {
    pub name: CowStr<'a>,
    pub path: Option<CowStr<'a>>,
}

/// A version, or a table.
#[derive(Drop, Serialize, Deserialize)]
#[serde(untagged)]
pub enum Dependency<'a> {
    Version(CowStr<'a>),
    Detailed(Detail<'a>),
}

#[derive(Drop, Serialize, Deserialize)]
#[serde(rename_all = "kebab-case")]
pub struct Detail<'a> {
    pub version: Option<CowStr<'a>>,
    #[serde(default)]
    pub features: Vec<CowStr<'a>>,
    pub default_features: Option<bool>,
}

impl Manifest<'_> {
    pub fn take(&self, digest: &mut Digest) {
        digest.text(self.package.name.as_str());
        digest.text(self.package.version.as_str());
        take_optional(digest, &self.package.edition);
        take_optional(digest, &self.package.description);
        take_texts(digest, self.package.authors.as_slice());
        take_texts(digest, self.package.keywords.as_slice());
        for (name, features) in self.features.iter() {
            digest.text(name.as_str());
            take_texts(digest, features.as_slice());
        }
        for (name, dependency) in self.dependencies.iter() {
            digest.text(name.as_str());
            dependency.take(digest);
        }
        for (name, dependency) in self.dev_dependencies.iter() {
            digest.text(name.as_str());
            dependency.take(digest);
        }
        for binary in self.bin.as_slice() {
            digest.text(binary.name.as_str());
            take_optional(digest, &binary.path);
        }
    }
}

impl Dependency<'_> {
    fn take(&self, digest: &mut Digest) {
        match self {
            Dependency::Version(version) => digest.text(version.as_str()),
            Dependency::Detailed(detail) => {
                take_optional(digest, &detail.version);
                take_texts(digest, detail.features.as_slice());
                digest.number(u64::from(detail.default_features.unwrap_or(true)));
            }
        }
    }
}

fn take_optional(digest: &mut Digest, text: &Option<CowStr<'_>>) {
    match text {
        Some(text) => digest.text(text.as_str()),
        None => digest.number(1),
    }
}

fn take_texts(digest: &mut Digest, texts: &[CowStr<'_>]) {
    digest.number(texts.len() as u64);
    for text in texts {
        digest.text(text.as_str());
    }
}

/// Records of seven fields.
#[derive(Drop, Serialize, Deserialize)]
pub struct Document {
    pub rec: Vec<Record>,
}

#[derive(Drop, Serialize, Deserialize)]
pub struct Record {
    pub id: u32,
    pub name: String,
    pub on: bool,
    pub size: i64,
    pub note: Option<String>,
    pub limit: Option<u64>,
    pub tags: Vec<String>,
}
