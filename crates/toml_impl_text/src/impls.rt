//! The impls of a type, by templates.

use crate::layout::laid_out;
use crate::template::filled;
use std::alloc::{AllocError, Global};

/// An impl: the trait, and its text.
#[derive(Drop)]
pub struct Impl {
    pub of: &'static str,
    pub text: String,
}

const DESERIALIZE: [&str; 2] = [
    "    fn deserialize(alloc: Global, node: Node<'_, 'de>) -> Result<$name$, Error> {",
    "    fn deserialize(
        alloc: Global,
        node: Node<'_, 'de>,
    ) -> Result<$name$, Error> {",
];

const FROM_TREE: [&str; 2] = [
    "    fn from_tree(alloc: Global, tree: Tree<'de>) -> Result<$name$, Error> {",
    "    fn from_tree(
        alloc: Global,
        tree: Tree<'de>,
    ) -> Result<$name$, Error> {",
];

/// The first lines of the functions that read a type of this name: the first of the parts that are made for it.
pub fn signatures(alloc: Global, name: &str) -> Result<Vec<(&'static str, String)>, AllocError> {
    let mut made = Vec::new(alloc);
    for (word, layouts) in [("deserialize", DESERIALIZE), ("from_tree", FROM_TREE)] {
        made.push((word, laid_out(alloc, &layouts, &[("name", name)], &[])?))?;
    }
    Ok(made)
}

/// The impls of a type, in order: by the traits and their templates, and by the parts of these.
pub fn impls_by(
    alloc: Global,
    templates: &[(&'static str, &str)],
    own: &[(&str, &str)],
    made: &[(&str, String)],
) -> Result<Vec<Impl>, AllocError> {
    let mut impls = Vec::new(alloc);
    for (of, template) in templates {
        let text = filled(alloc, template, own, made)?;
        impls.push(Impl { of, text })?;
    }
    Ok(impls)
}
