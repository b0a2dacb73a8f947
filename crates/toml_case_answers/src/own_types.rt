//! What types of a caller's own read from a text at its root: that they read it, or their error.
use basic_toml::{Deserialize, Float, Value, from_str};
use std::alloc::{AllocError, Global};
use std::collections::BTreeMap;
use toml_callers::manifest::Dependency;
use toml_callers::types::{
    Child, Color, Interval, Listener, Lower, NonEmpty, Parent, Service, Single, Sole, Steps,
    Strict, Title,
};

// That the type reads the text, or its error.
fn answer<'de, T: Deserialize<'de> + Drop>(
    alloc: Global,
    text: &'de str,
) -> Result<String, AllocError> {
    match from_str::<T>(alloc, text) {
        Ok(_) => String::from_str(alloc, "read"),
        Err(error) => format!(in alloc; "{error}"),
    }
}

fn of_a_field(alloc: Global, kind: &str, text: &str) -> Option<Result<String, AllocError>> {
    match kind {
        "sole-u8" => Some(answer::<Sole<u8>>(alloc, text)),
        "sole-i64" => Some(answer::<Sole<i64>>(alloc, text)),
        "sole-float" => Some(answer::<Sole<Float>>(alloc, text)),
        "sole-non-empty" => Some(answer::<Sole<NonEmpty>>(alloc, text)),
        "sole-single" => Some(answer::<Sole<Single>>(alloc, text)),
        _ => None,
    }
}

fn of_a_map(alloc: Global, kind: &str, text: &str) -> Option<Result<String, AllocError>> {
    match kind {
        "map-u8" => Some(answer::<BTreeMap<String, u8>>(alloc, text)),
        "map-float" => Some(answer::<BTreeMap<String, Float>>(alloc, text)),
        "map-any" => Some(answer::<BTreeMap<String, Value>>(alloc, text)),
        "map-color" => Some(answer::<BTreeMap<String, Color>>(alloc, text)),
        "map-dependency" => Some(answer::<BTreeMap<String, Dependency>>(alloc, text)),
        "map-interval" => Some(answer::<BTreeMap<String, Interval>>(alloc, text)),
        "map-non-empty" => Some(answer::<BTreeMap<String, NonEmpty>>(alloc, text)),
        "map-steps" => Some(answer::<BTreeMap<String, Steps>>(alloc, text)),
        _ => of_a_field(alloc, kind, text),
    }
}

/// What the caller's type of this name answers for the text; none where no type has the name.
pub(crate) fn read_as_own(
    alloc: Global,
    kind: &str,
    text: &str,
) -> Option<Result<String, AllocError>> {
    match kind {
        "child" => Some(answer::<Child>(alloc, text)),
        "parent" => Some(answer::<Parent<Child>>(alloc, text)),
        "parent-strict" => Some(answer::<Parent<Strict>>(alloc, text)),
        "parent-lower" => Some(answer::<Parent<Lower>>(alloc, text)),
        "listener" => Some(answer::<Listener>(alloc, text)),
        "service" => Some(answer::<Service>(alloc, text)),
        "title" => Some(answer::<Title<'_>>(alloc, text)),
        _ => of_a_map(alloc, kind, text),
    }
}
