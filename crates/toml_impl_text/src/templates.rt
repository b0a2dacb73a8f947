//! The impls of a record, as they are written.

use crate::impls::{Impl, impls_by, signatures};
use crate::layout::laid_out;
use crate::template::push_filled;
use std::alloc::{AllocError, Global};
use toml_rust_types::record::{Field, Presence, Record};

const IMPLS: &[(&str, &str)] = &[
    (
        "RoundTrip",
        "\
impl RoundTrip for $name$ {
    ghost fields = { $strict$$entries$
        done$closed$ };
}",
    ),
    (
        "Record",
        "\
impl Record for $name$ {
    ghost fields = { as_read ⟦<$name$ as RoundTrip>⟧.fields };
}",
    ),
    (
        "Deserialize",
        "\
impl<'de> Deserialize<'de> for $name$ {
    ghost reads = { record_reads ⟦<$name$ as Record>⟧.fields };

    ghost faults = { record_faults ⟦<$name$ as Record>⟧.fields };

$deserialize$
        read_record!(alloc, node, $only$$name$ {
            $reads$
        })
    }

$from_tree$
        $name$::deserialize(alloc, tree.root())
    }
}",
    ),
    (
        "Serialize",
        "\
impl Serialize for $name$ {
    ghost calls = { record_calls ⟦<$name$ as RoundTrip>⟧.fields };

    ghost holds = { record_holds ⟦<$name$ as RoundTrip>⟧.fields };

    fn serialize(&self, _alloc: Global, ser: &mut Serializer) -> Result<(), WriteError> {
        write_record!(ser, self, $name$ {
            $writes$
        })
    }
}",
    ),
    (
        "Returns",
        "\
impl<'de> Returns<'de> for $name$ {
    ghost read_back = { record_back ⟦<$name$ as RoundTrip>⟧.fields (λ s. refl) };

    ghost returns = { ⟦<$name$ as Returns<'static>>⟧.read_back.returns };
}",
    ),
    (
        "Root",
        "\
impl<'de> Root<'de> for $name$ {
$from_text$
        from_str(alloc, text)
    }
}",
    ),
];

// What a list of fields begins with where other keys are refused.
const STRICT: &str = "strict\n        (";

// The parts that are made of the fields: the template of each field, and what stands between them.
const PARTS: &[(&str, &str, &str)] = &[
    (
        "entries",
        "$word$ ⟦<$kind$ as Returns<'static>>⟧ \"$key$\"$listed$ (λ s. s.$name$)",
        "\n        (",
    ),
    (
        "reads",
        "$name$ = $word$(\"$key$\"$value$),",
        "\n            ",
    ),
    ("writes", "$name$ = \"$key$\",", "\n            "),
];

// The first line of `from_text`.
const FROM_TEXT: [&str; 2] = [
    "    fn from_text(alloc: Global, text: &str) -> Result<$name$, Error> {",
    "    fn from_text(
        alloc: Global,
        text: &str,
    ) -> Result<$name$, Error> {",
];

/// The impls of a record, in order.
pub fn impls_of(alloc: Global, record: &Record<'_>) -> Result<Vec<Impl>, AllocError> {
    let own = [
        ("name", record.name),
        ("strict", if record.is_strict { STRICT } else { "" }),
        ("only", if record.is_strict { "only " } else { "" }),
    ];
    let mut made = signatures(alloc, record.name)?;
    for (word, template, between) in PARTS {
        made.push((*word, each(alloc, record, template, between)?))?;
    }
    made.push(("closed", closed(alloc, record)?))?;
    made.push(("from_text", laid_out(alloc, &FROM_TEXT, &own, &[])?))?;
    impls_by(alloc, IMPLS, &own, made.as_slice())
}

// The brackets behind a list of fields: each entry stands in the brackets of the one before.
fn closed(alloc: Global, record: &Record<'_>) -> Result<String, AllocError> {
    let entries = record.fields.len();
    let inner = if record.is_strict {
        entries
    } else {
        entries.saturating_sub(1)
    };
    ")".repeat(alloc, inner)
}

// A template for each field, with this between them.
fn each(
    alloc: Global,
    record: &Record<'_>,
    template: &str,
    between: &str,
) -> Result<String, AllocError> {
    let mut text = String::new(alloc);
    for field in &record.fields {
        text.push_str(if text.is_empty() { "" } else { between })?;
        push_field(alloc, &mut text, template, field)?;
    }
    Ok(text)
}

// A template for a field.
fn push_field(
    alloc: Global,
    text: &mut String,
    template: &str,
    field: &Field<'_>,
) -> Result<(), AllocError> {
    let kind = field.kind.as_str();
    let own = [
        ("name", field.name),
        ("key", field.key.as_str()),
        ("kind", kind),
        ("word", field.presence.word()),
    ];
    let (listed, value) = match field.presence {
        Presence::Or(value) => (value.listed(alloc, kind)?, value.argument(alloc)?),
        _ => (String::new(alloc), String::new(alloc)),
    };
    let made = [("listed", listed), ("value", value)];
    push_filled(text, template, &own, &made)
}
