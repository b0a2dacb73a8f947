//! What a reading asks of the parts of a document.
ghost use Rattle.std.specs.Prelude.{◌≡◌, ℕ, List, map, Option, Some, None, IfSome, IfOk, MatchOption, slice_range};
ghost use Rattle.basic_toml_value.specs.Data.{Data, integer_in, boolean_in, float_in, string_in};
ghost use Rattle.basic_toml_tree.specs.Nodes.{is_table, is_array};
ghost use Rattle.basic_toml_error.specs.Fault.{Fault, FaultKind, custom, unknown_field};
ghost use Rattle.basic_toml_error.specs.NodeFaults.{type_message, value_message, length_message, missing_message, unknown_field_message, unknown_variant_message};
ghost use Rattle.basic_toml_serde.specs.Added.{AddsElements, AddsEntries};

use basic_toml::Error;
use std::alloc::{AllocError, Global};

/// A value of a document, and the key that leads to it, where it is a member of a table. The steps of a reading are
/// proved of any such type, so that no proof of a step looks into a tree.
pub(crate) trait Source: Copy + Drop {
    ghost key_of: { Self → Option (List ℕ) };

    ghost data_of: { Self → Data };

    /// What an error of a kind is that stands at a value, or around it: it may be want of memory.
    ghost fails_at: { Self → FaultKind → Fault → Type 0 };

    ghost fails_around: { Self → FaultKind → Fault → Type 0 };

    fn key(&self) -> Option<&str>
        ensures { MatchOption result (key_of self.now ≡ None) (λ key. key_of self.now ≡ Some key.now) };

    fn integer(&self) -> Option<i64>
        ensures { result ≡ integer_in (data_of self.now) };

    fn truth(&self) -> Option<bool>
        ensures { result ≡ boolean_in (data_of self.now) };

    /// The text of a float.
    fn float(&self) -> Option<&str>
        ensures { MatchOption result (float_in (data_of self.now) ≡ None)
            (λ text. float_in (data_of self.now) ≡ Some text.now) };

    fn string(&self) -> Option<&str>
        ensures { MatchOption result (string_in (data_of self.now) ≡ None)
            (λ text. string_in (data_of self.now) ≡ Some text.now) };

    /// Where a string begins and ends in the document, if it stands there as it is.
    fn span(&self, input: &[u8]) -> Option<(usize, usize)>
        ensures { IfSome result
            (λ span. string_in (data_of self.now) ≡ Some (slice_range input.now span.0 span.1)) };

    fn is_table(&self) -> bool
        ensures { result ≡ is_table (data_of self.now) };

    fn is_array(&self) -> bool
        ensures { result ≡ is_array (data_of self.now) };

    /// Adds the elements of an array.
    fn add_elements(&self, list: &mut Vec<Self>) -> Result<(), AllocError>
        ensures { IfOk result (λ _. AddsElements key_of data_of self.now list.old.items list.new.items) };

    /// Adds the keys of a table with their values.
    fn add_entries(&self, list: &mut Vec<Self>) -> Result<(), AllocError>
        ensures { IfOk result (λ _. AddsEntries key_of data_of self.now list.old.items list.new.items) };

    /// How many elements an array has.
    fn len(&self) -> usize;

    fn custom(&self, alloc: Global, message: &str) -> Error
        ensures { fails_at self.now (custom message.now) result };

    fn wrong_type(&self, alloc: Global, expected: &str) -> Error
        ensures { fails_at self.now (custom (type_message (data_of self.now) expected.now)) result };

    fn wrong_value(&self, alloc: Global, expected: &str) -> Error
        ensures { fails_at self.now (custom (value_message (data_of self.now) expected.now)) result };

    fn wrong_len(&self, alloc: Global, length: usize, expected: &str) -> Error
        ensures { fails_at self.now (custom (length_message length expected.now)) result };

    fn missing(&self, alloc: Global, key: &str) -> Error
        ensures { fails_at self.now (custom (missing_message key.now)) result };

    fn unknown_field(&self, alloc: Global, key: &str, keys: &[&str]) -> Error
        ensures { let message = unknown_field_message key.now (map (λ k. k.now) keys.now) in
            fails_at self.now (unknown_field key.now message) result };

    /// It stands around the value.
    fn unknown_variant(&self, alloc: Global, name: &str, names: &[&str]) -> Error
        ensures { fails_around self.now (custom (unknown_variant_message name.now (map (λ n. n.now) names.now))) result };
}
