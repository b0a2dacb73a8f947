//! A choice of one name among some: read by its names, and written by one.
ghost use Rattle.std.specs.Prelude.{◌≡◌, ◌<◌, IfErr, IfOk, length, map};
ghost use Rattle.basic_toml.specs.FieldKeys.{text_number};
ghost use Rattle.basic_toml.specs.Nodes.{node_data};
ghost use Rattle.basic_toml.specs.Serializer.{NoFault, Sends};
ghost use Rattle.basic_toml.specs.TypeAnswers.{OnlyMemory, OrMemory};
ghost use Rattle.basic_toml.specs.TypeReads.{IsVariant};
ghost use Rattle.basic_toml_returns.specs.Variants.{variant_calls, variant_faults, variant_name, variant_reads};

use crate::Choice;
use basic_toml::{Error, Node, Serializer, WriteError, variant};
use std::alloc::Global;

/// The position, from 0, at which these names of a choice have the string at a node: [`variant`].
///
/// ```text
/// match read_variant::<Level>(alloc, node, &["error", "warning", "everything"]) {
///     Ok(0) => Ok(Level::Error),
///     Ok(1) => Ok(Level::Warning),
///     Ok(_) => Ok(Level::Everything),
///     Err(error) => Err(error),
/// }
/// ```
///
/// This is from `load_settings`. The choice says by [`Choice`] the same of its names.
///
/// # Errors
///
/// Those of [`variant`].
#[tactic(auto, using(crate::proofs::VariantsRead::by_names))]
pub fn read_variant<R: Choice>(
    alloc: Global,
    node: Node<'_, '_>,
    names: &[&str],
) -> Result<usize, Error>
    requires { map (λ name. name.now) names.now ≡ R.variants.names }
    ensures bound { IfOk result (λ position. position < length names.now) }
    ensures ok { IfOk result (IsVariant (map text_number R.variants.names) (node_data node.entry)) }
    ensures err { IfErr result (OnlyMemory ⊥ (variant_reads R.variants (node_data node.entry))) }
    ensures named { IfErr result (OrMemory (variant_faults R.variants node.entry)) }
{
    variant(alloc, node, names)
}

/// Writes a variant of a choice by its name.
///
/// # Errors
///
/// That of a string which may not stand there.
pub fn write_variant<R: Choice>(
    ser: &mut Serializer,
    value: &R,
    name: &str,
) -> Result<(), WriteError>
    requires { variant_name R.variants value.now ≡ name.now }
    ensures { Sends (variant_calls R.variants value.now) NoFault ser.old ser.new result }
{
    ser.serialize_unit_variant("", 0, name)
}
