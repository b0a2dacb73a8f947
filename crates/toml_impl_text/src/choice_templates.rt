//! The impls of a choice, as they are written.

use crate::impls::{Impl, impls_by, signatures};
use crate::layout::{array, call};
use crate::template::push_filled;
use std::alloc::{AllocError, Global};
use toml_rust_types::choice::Choice;

const IMPLS: &[(&str, &str)] = &[
    (
        "Choice",
        "\
impl Choice for $name$ {
    ghost use $path$.{$variants$};

    ghost variants = { record {
      names = $keys$ ∷ [];
      position = elim [ $positions$ ];
      apart = elim [ $proofs$ ];
    } };
}",
    ),
    (
        "Deserialize",
        "\
impl<'de> Deserialize<'de> for $name$ {
    ghost reads = { variant_reads ⟦<$name$ as Choice>⟧.variants };

    ghost faults = { variant_faults ⟦<$name$ as Choice>⟧.variants };

$deserialize$
$reading$
            $reads$
            Err(error) => Err(error),
        }
    }

$from_tree$
        $name$::deserialize(alloc, tree.root())
    }
}",
    ),
    (
        "Serialize",
        "\
impl Serialize for $name$ {
    ghost calls = { variant_calls ⟦<$name$ as Choice>⟧.variants };

    fn serialize(&self, _alloc: Global, ser: &mut Serializer) -> Result<(), WriteError> {
        match self {$writes$
        }
    }
}",
    ),
    (
        "Returns",
        "\
impl<'de> Returns<'de> for $name$ {
    ghost read_back = { variant_back ⟦<$name$ as Choice>⟧.variants };

    ghost returns = { ⟦<$name$ as Returns<'static>>⟧.read_back.returns };
}",
    ),
];

// How a position is read.
const READING: [&str; 2] = [
    "        match read_variant::<$name$>(alloc, node, $array$) {",
    "        match read_variant::<$name$>(
            alloc,
            node,
            $array$,
        ) {",
];

// The parts that are made of the variants: the template of each variant, and what stands between them.
const PARTS: &[(&str, &str, &str)] = &[
    ("variants", "$variant$", ", "),
    ("keys", "codes \"$key$\"", " ∷ "),
    ("positions", "$variant$ ↦ $position$", " | "),
    ("proofs", "$variant$ ↦ refl", " | "),
    (
        "reads",
        "Ok($pattern$) => Ok($name$::$variant$),",
        "\n            ",
    ),
];

// The arm of a variant where it is written.
const WRITE: [&str; 2] = [
    "            $name$::$variant$ => write_variant(ser, self, \"$key$\"),",
    "            $name$::$variant$ => write_variant(
                ser,
                self,
                \"$key$\",
            ),",
];

/// The impls of a choice, in order.
pub fn choice_impls(alloc: Global, choice: &Choice<'_>) -> Result<Vec<Impl>, AllocError> {
    let mut made = signatures(alloc, choice.name)?;
    for (word, template, between) in PARTS {
        made.push((*word, each(alloc, choice, template, between)?))?;
    }
    made.push(("reading", reading(alloc, choice)?))?;
    made.push(("writes", writes(alloc, choice)?))?;
    let own = [("name", choice.name), ("path", choice.path.as_str())];
    impls_by(alloc, IMPLS, &own, made.as_slice())
}

// A template for each variant, with this between them.
fn each(
    alloc: Global,
    choice: &Choice<'_>,
    template: &str,
    between: &str,
) -> Result<String, AllocError> {
    let mut text = String::new(alloc);
    let last = choice.variants.len().saturating_sub(1);
    for (number, variant) in choice.variants.iter().enumerate() {
        let own = [
            ("name", choice.name),
            ("variant", variant.name),
            ("key", variant.key.as_str()),
        ];
        let made = [
            ("position", format!(in alloc; "{number}")?),
            ("pattern", pattern(alloc, number, number == last)?),
        ];
        text.push_str(if number == 0 { "" } else { between })?;
        push_filled(&mut text, template, &own, &made)?;
    }
    Ok(text)
}

// The pattern of a position; that of the last holds for all others, too.
fn pattern(alloc: Global, number: usize, is_last: bool) -> Result<String, AllocError> {
    if is_last {
        return String::from_str(alloc, "_");
    }
    format!(in alloc; "{number}")
}

// The line that reads a position, or the lines.
fn reading(alloc: Global, choice: &Choice<'_>) -> Result<String, AllocError> {
    let mut keys = Vec::new(alloc);
    for variant in &choice.variants {
        keys.push(format!(in alloc; "\"{}\"", variant.key)?)?;
    }
    let array = array(alloc, keys.as_slice())?;
    let arguments = array.len().saturating_add("alloc, node, ".len());
    let made = [("array", array)];
    call(alloc, &READING, arguments, &[("name", choice.name)], &made)
}

// The arms that write the variants.
fn writes(alloc: Global, choice: &Choice<'_>) -> Result<String, AllocError> {
    let mut text = String::new(alloc);
    for variant in &choice.variants {
        let key = variant.key.as_str();
        let arguments = key.len().saturating_add("ser, self, \"\"".len());
        let own = [
            ("name", choice.name),
            ("variant", variant.name),
            ("key", key),
        ];
        text.push('\n')?;
        text.push_str(call(alloc, &WRITE, arguments, &own, &[])?.as_str())?;
    }
    Ok(text)
}
