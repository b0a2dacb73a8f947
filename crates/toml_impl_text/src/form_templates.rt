//! The impls of a choice of two forms, as they are written.

use crate::impls::{Impl, impls_by, signatures};
use crate::layout::laid_out;
use std::alloc::{AllocError, Global};
use toml_rust_types::forms::{Form, Forms};

const IMPLS: &[(&str, &str)] = &[
    (
        "Forms",
        "\
impl Forms for $name$ {
    ghost use $path$.{$first$, $second$};

    ghost forms = { by_test is_table ⟦<$table_type$ as Returns<'static>>⟧ ⟦<$other_type$ as Returns<'static>>⟧
        (elim [ $first$ x ↦ $first_form$ x | $second$ x ↦ $second_form$ x ]) (λ x. refl) (λ x. refl) };
}",
    ),
    (
        "Deserialize",
        "\
impl<'de> Deserialize<'de> for $name$ {
    ghost reads = { form_reads ⟦<$name$ as Forms>⟧.forms };

    ghost faults = { form_faults ⟦<$name$ as Forms>⟧.forms };

$deserialize$
        if node.is_table() {
            let value = $table_path$::deserialize(alloc, node)?;
            Ok($name$::$table$(value))
        } else {
            let value = $other_path$::deserialize(alloc, node)?;
            Ok($name$::$other$(value))
        }
    }

$from_tree$
        $name$::deserialize(alloc, tree.root())
    }
}",
    ),
    (
        "Serialize",
        "\
impl Serialize for $name$ {
    ghost calls = { form_calls ⟦<$name$ as Forms>⟧.forms };

    ghost holds = { form_holds ⟦<$name$ as Forms>⟧.forms };

    fn serialize(&self, alloc: Global, ser: &mut Serializer) -> Result<(), WriteError> {
        match self {
$write_first$
$write_second$
        }
    }
}",
    ),
    (
        "Returns",
        "\
impl<'de> Returns<'de> for $name$ {
    ghost read_back = { form_back ⟦<$name$ as Forms>⟧.forms };

    ghost returns = { ⟦<$name$ as Returns<'static>>⟧.read_back.returns };
}",
    ),
];

// The arm of a variant where it is written.
const WRITE: [&str; 3] = [
    "            $name$::$variant$(value) => value.serialize(alloc, ser),",
    "            $name$::$variant$(value) => value.serialize(
                alloc, ser,
            ),",
    "            $name$::$variant$(value) =>
                value.serialize(alloc, ser),",
];

/// The impls of a choice of two forms, in order.
pub fn form_impls(alloc: Global, forms: &Forms<'_>) -> Result<Vec<Impl>, AllocError> {
    let name = forms.name;
    let (first, second) = (&forms.first, &forms.second);
    let (table, other) = forms.table_and_other();
    let own = [
        ("name", name),
        ("path", forms.path.as_str()),
        ("first", first.name),
        ("first_form", word(first)),
        ("second", second.name),
        ("second_form", word(second)),
        ("table", table.name),
        ("table_type", table.kind.as_str()),
        ("table_path", path(table)),
        ("other", other.name),
        ("other_type", other.kind.as_str()),
        ("other_path", path(other)),
    ];
    let mut made = signatures(alloc, name)?;
    made.push(("write_first", write(alloc, name, first.name)?))?;
    made.push(("write_second", write(alloc, name, second.name)?))?;
    impls_by(alloc, IMPLS, &own, made.as_slice())
}

// The arm that writes a variant.
fn write<'p>(alloc: Global, name: &'p str, variant: &'p str) -> Result<String, AllocError> {
    laid_out(alloc, &WRITE, &[("name", name), ("variant", variant)], &[])
}

// What a variant is to the clauses.
fn word(form: &Form<'_>) -> &'static str {
    if form.is_table { "one" } else { "other" }
}

// The path by which a form is read: what its type has in angle brackets is known from the variant.
fn path<'f>(form: &'f Form<'_>) -> &'f str {
    let kind = form.kind.as_str();
    kind.split('<').next().unwrap_or(kind)
}
