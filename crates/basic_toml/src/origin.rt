//! Where something in a text is written.
ghost use Rattle.basic_toml.specs.Origins.{AnswersOrigin, AnswersNodeOrigin};

use crate::{Error, Node};
use basic_toml_origin::{Origin, Step, origin_at, path_to_anchor};
use basic_toml_read::sections;
use std::alloc::Global;

/// Where what a path leads to is written in a text: a table at the header that names it, a value where it begins, a
/// table that dots make at its key; `None` where the path leads nowhere. [`Origin`] has the key that leads there too,
/// and `line_col` makes a line and a column of each.
///
/// ```text
/// let origin = origin_of(alloc, text, &[Step::Key("bin"), Step::Element(1)])?; // at the second [[bin]]
/// ```
///
/// This is from `toml_vectors`. The places of errors are others: an error of a type at a table that headers made stands
/// at the last header of the text.
///
/// Where headers and rows lead to one thing, it is the first header that names it; else the first row; else the first
/// header that passes through it, as for an array of tables (TOML v0.5.0, "Table" and "Array of Tables"). A text whose
/// rows or sections clash has origins too.
///
/// # Errors
///
/// An error of the grammar, and `nested too deeply`, as [`from_str`](crate::from_str) has them; and `out of memory`.
pub fn origin_of(alloc: Global, text: &str, path: &[Step<'_>]) -> Result<Option<Origin>, Error>
    ensures { AnswersOrigin text.now path.now result }
{
    match sections(alloc, text) {
        Ok(sections) => Ok(origin_at(alloc, sections.as_slice(), path)?),
        Err(error) => Err(Error::in_text(alloc, text, &error)),
    }
}

/// Where what a node stands for is written in the text that its tree was read from: the [`Origin`] that [`origin_of`]
/// tells of the node's path. A type of one's own that reads nodes asks it where it wants to point at one.
///
/// ```text
/// let tree = read_tree(alloc, text)?;
/// let origin = origin_of_node(alloc, text, tree.root())?; // where the text's first row or header stands
/// ```
///
/// This is from `toml_vectors`. An error that is made at a node has it by [`origins`](Error::origins). (TOML v0.5.0,
/// "Table" and "Array of Tables")
///
/// # Errors
///
/// `out of memory`; of another text those of [`origin_of`].
pub fn origin_of_node(
    alloc: Global,
    text: &str,
    node: Node<'_, '_>,
) -> Result<Option<Origin>, Error>
    ensures { AnswersNodeOrigin text.now node.entry result }
{
    match sections(alloc, text) {
        Ok(sections) => match path_to_anchor(alloc, sections.as_slice(), node.anchor())? {
            Some(path) => Ok(origin_at(alloc, sections.as_slice(), path.as_slice())?),
            None => Ok(None),
        },
        Err(error) => Err(Error::in_text(alloc, text, &error)),
    }
}
