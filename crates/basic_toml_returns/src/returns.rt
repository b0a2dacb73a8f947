//! Values that are read back from what they write.
ghost use Rattle.basic_toml_returns.specs.Forms as f;
ghost use Rattle.basic_toml_returns.specs.Returned.{ReadBack, Returned};
ghost use Rattle.basic_toml_returns.specs.RoundTrips as spec;
ghost use Rattle.basic_toml_returns.specs.Variants as v;

use basic_toml::{Deserialize, Serialize};

/// A type whose values are read back from what they write.
///
/// The ghost member `read_back` says what a value means, `read_back.meant`: the data that its text holds for it. It also
/// holds the proof that the calls of a value mean these data, that the value is read from them, and that whatever else is
/// read from them means the same. The law `returns` says so of the type's own calls and readings.
///
/// A record has all of it from its list of fields, [`RoundTrip`]:
///
/// ```text
/// impl<'de> Returns<'de> for Settings {
///     ghost read_back = { record_back ⟦<Settings as RoundTrip>⟧.fields (λ s. refl) };
///
///     ghost returns = { ⟦<Settings as Returns<'static>>⟧.read_back.returns };
/// }
/// ```
///
/// This is from the program `load_settings`; `toml_callers` has other types. A lifetime of the trait plays no part in its
/// ghost members.
pub trait Returns<'de>: Serialize + Deserialize<'de> {
    // What it writes and reads, and what its values mean.
    ghost read_back: { ReadBack Self };

    // Each value that was written is read back.
    ghost returns: { (x : Self) → Self.holds x → Returned Self.calls Self.reads read_back.meant x };
}

/// A record that is read back from what it writes.
///
/// The ghost member `fields` lists its fields, a line each, in the order in which they are read and written. What the record
/// reads and writes, and what its values mean, follow from it:
///
/// ```text
/// impl RoundTrip for Settings {
///     ghost fields = { strict
///         (needed ⟦<String as Returns<'static>>⟧ "host" (λ s. s.host)
///         (or ⟦<u16 as Returns<'static>>⟧ "port" 8080 (λ s. s.port)
///         (maybe ⟦<String as Returns<'static>>⟧ "log" (λ s. s.log)
///         done))) };
/// }
/// ```
///
/// | A field | Its line | In `read_record!` |
/// |---|---|---|
/// | that a table has to have | `needed ⟦<String as Returns<'static>>⟧ "host" (λ s. s.host)` | `host = needed("host")` |
/// | an option | `maybe ⟦<String as Returns<'static>>⟧ "log" (λ s. s.log)` | `log = maybe("log")` |
/// | with a default | `or ⟦<u16 as Returns<'static>>⟧ "port" 8080 (λ s. s.port)` | `port = or("port", 8080)` |
/// | a list, empty by default | `or_empty ⟦<Vec<String> as Returns<'static>>⟧ "allow" (λ s. s.allow)` | `allow = or_empty("allow")` |
/// | a string with a default | `or_text ⟦<String as Returns<'static>>⟧ "level" "info" (λ s. s.level)` | `level = or_text("level", "info")` |
///
/// With `strict`, and `only` in `read_record!`, a key that is none of these is an error.
pub trait RoundTrip: Sized {
    // Its fields, in their order.
    ghost fields: { spec.Fields Self };
}

/// A choice of one name among some, that is read back from what it writes.
///
/// ```text
/// impl Choice for Color {
///     ghost variants = { record {
///         names = codes "red" ∷ codes "green" ∷ codes "blue" ∷ [];
///         position = elim [ Red ↦ 0 | Green ↦ 1 | Blue ↦ 2 ];
///         apart = elim [ Red ↦ refl | Green ↦ refl | Blue ↦ refl ];
///     } };
/// }
/// ```
///
/// This is from `toml_callers`.
pub trait Choice: Sized {
    // The names, and at which position among them a variant has its own.
    ghost variants: { v.Variants Self };
}

/// A choice of two forms, as a version and a table, that is read back from what it writes.
///
/// The ghost member `forms` has a test of data, the type that is read where it holds, the type that is read elsewhere,
/// and which form a value has: `one`, of the first type, or `other`, of the second. What the choice reads and writes,
/// which errors it has and what its values mean follow from it.
///
/// ```text
/// impl Forms for Dependency {
///     ghost forms = { by_test is_table ⟦<Detail as Returns<'static>>⟧ ⟦<String as Returns<'static>>⟧
///         (elim [ Version x ↦ other x | Detailed x ↦ one x ]) (λ x. refl) (λ x. refl) };
/// }
///
/// impl<'de> Deserialize<'de> for Dependency {
///     ghost reads = { form_reads ⟦<Dependency as Forms>⟧.forms };
///
///     ghost faults = { form_faults ⟦<Dependency as Forms>⟧.forms };
///
///     fn deserialize(alloc: Global, node: Node<'_, 'de>) -> Result<Dependency, Error> {
///         if node.is_table() {
///             let value = Detail::deserialize(alloc, node)?;
///             Ok(Dependency::Detailed(value))
///         } else {
///             let value = String::deserialize(alloc, node)?;
///             Ok(Dependency::Version(value))
///         }
///     }
///     // ..
/// }
/// ```
///
/// This is from `toml_callers`. By the two `refl` the checker sees for itself that the test holds of whatever a
/// `Detail` means, and of no string.
pub trait Forms: Sized {
    // The two, which of them a value has, and the test that tells their data apart.
    ghost forms: { f.Forms Self };
}
