//! Records: fields of a table, read one after another.
ghost use Rattle.std.specs.Prelude.{◌≡◌, ◌++◌, ◌∷◌, ⊤, IfErr, IfOk, List, [], map};
ghost use Rattle.basic_toml_error.specs.Fault.{Fault};
ghost use Rattle.basic_toml_tree.specs.Nodes.{node_data};
ghost use Rattle.basic_toml_tree.specs.declared.node.Node as n;
ghost use Rattle.basic_toml_typed.specs.FieldKeys.{text_number};
ghost use Rattle.basic_toml_typed.specs.Records as spec;
ghost use Rattle.basic_toml_typed.specs.Records.{AreRead, FirstFails, OneReadsNone, Reading};
ghost use Rattle.basic_toml_typed.specs.Records.{IsEmpty, IsText, default_at, default_reads, maybe_at, needed_at, only_at};
ghost use Rattle.basic_toml_typed.specs.Records.{readings, record_faults, record_reads};
ghost use Rattle.basic_toml_typed.specs.TypeAnswers.{OnlyMemory, OrMemory};
ghost use Rattle.basic_toml_typed.specs.TypeFaults.{array_faults, string_faults};
ghost use Rattle.basic_toml_typed.specs.TypeReads.{HasOnly, array_reads, field_reads, optional_reads, string_reads};
ghost use Rattle.basic_toml_value.specs.Data.{Data};

use crate::{Deserialize, only_fields, read_field, read_optional};
use basic_toml_error::Error;
use basic_toml_tree::Node;
use std::alloc::Global;
use std::marker::PhantomData;

/// One or more fields of a table, as [`read_record!`](crate::read_record!) lists them.
pub trait Fields<'de>: Sized + Drop {
    /// What is read: a value of each, as the fields stand.
    type Values: Drop;

    // How each is read, in their order.
    ghost readings: { Self → List Reading };

    // Which values are read from which data, as they stand in a struct that they are moved into.
    ghost reads: { Self → Self.Values → Data → Type 0 };

    // A default stands there as it is.
    ghost fits: { Self → Type 0 };

    /// Reads the fields of a table in their order.
    ///
    /// # Errors
    ///
    /// That of the first field that is not read, and want of memory.
    fn read(self, alloc: Global, node: Node<'_, 'de>) -> Result<Self::Values, Error>
        requires fits { fits self }
        ensures ok { IfOk result (λ values. reads self values (node_data node.entry)) }
        ensures taken { IfOk result (λ _. AreRead (readings self) node.entry) }
        ensures err { IfErr result (OneReadsNone (readings self) (node_data node.entry)) }
        ensures named { IfErr result (OrMemory (FirstFails (readings self) node.entry)) };
}

/// A field that the table has to have: [`read_field`].
#[derive(Drop)]
pub struct Needed<'a, T> {
    pub key: &'a str,
    pub kind: PhantomData<T>,
}

impl<'de, T: Deserialize<'de> + Drop> Fields<'de> for Needed<'_, T> {
    type Values = T;

    ghost readings = { λ f. needed_at T.reads T.faults f.key.now ∷ [] };

    ghost reads = { λ f value d. field_reads T.reads (text_number f.key.now) d (T.moved value) };

    ghost fits = { λ _. ⊤ };

    #[tactic(auto, using(crate::proofs::RecordsFail::in_turn), unfolding(crate::specs::Records::IsRead))]
    fn read(self, alloc: Global, node: Node<'_, 'de>) -> Result<T, Error> {
        read_field(alloc, node, self.key)
    }
}

/// A field that the table may lack: [`read_optional`].
#[derive(Drop)]
pub struct Maybe<'a, T> {
    pub key: &'a str,
    pub kind: PhantomData<T>,
}

impl<'de, T: Deserialize<'de> + Drop> Fields<'de> for Maybe<'_, T> {
    type Values = Option<T>;

    ghost readings = { λ f. maybe_at T.reads T.faults f.key.now ∷ [] };

    ghost reads = { λ f value d. optional_reads T.reads (text_number f.key.now) d value };

    ghost fits = { λ _. ⊤ };

    #[tactic(auto, using(crate::proofs::RecordsFail::in_turn), unfolding(crate::specs::Records::IsRead))]
    fn read(self, alloc: Global, node: Node<'_, 'de>) -> Result<Option<T>, Error> {
        read_optional(alloc, node, self.key)
    }
}

/// A field with a value for a table that lacks it.
#[derive(Drop)]
pub struct Or<'a, T> {
    pub key: &'a str,
    pub default: T,
}

impl<'de, T: Deserialize<'de> + Drop> Fields<'de> for Or<'_, T> {
    type Values = T;

    ghost readings = { λ f. default_at T.reads T.faults f.key.now (λ x. x ≡ f.default) ∷ [] };

    ghost reads = { λ f value d. default_reads T.reads (λ x. x ≡ f.default) (text_number f.key.now) d (T.moved value) };

    ghost fits = { λ f. T.moved f.default ≡ f.default };

    #[tactic(auto, using(crate::proofs::RecordsFail::in_turn), unfolding(crate::specs::Records::IsRead, crate::specs::Records::default_reads))]
    fn read(self, alloc: Global, node: Node<'_, 'de>) -> Result<T, Error> {
        Ok(read_optional(alloc, node, self.key)?.unwrap_or(self.default))
    }
}

/// A list that is empty for a table that lacks it.
#[derive(Drop)]
pub struct OrEmpty<'a, T> {
    pub key: &'a str,
    pub kind: PhantomData<T>,
}

impl<'de, T: Deserialize<'de> + Drop> Fields<'de> for OrEmpty<'_, T> {
    type Values = Vec<T>;

    ghost readings = { λ f.
        default_at (array_reads T.reads) (array_faults T.faults T.reads) f.key.now IsEmpty ∷ [] };

    ghost reads = { λ f value d. default_reads (array_reads T.reads) IsEmpty (text_number f.key.now) d value };

    ghost fits = { λ _. ⊤ };

    #[tactic(auto, using(crate::proofs::RecordsFail::in_turn), unfolding(crate::specs::Records::IsRead, crate::specs::Records::default_reads))]
    fn read(self, alloc: Global, node: Node<'_, 'de>) -> Result<Vec<T>, Error> {
        match read_optional(alloc, node, self.key)? {
            Some(list) => Ok(list),
            None => Ok(Vec::new(alloc)),
        }
    }
}

/// A string that is a text for a table that lacks it.
#[derive(Drop)]
pub struct OrText<'a> {
    pub key: &'a str,
    pub default: &'a str,
}

impl<'de> Fields<'de> for OrText<'_> {
    type Values = String;

    ghost readings = { λ f. default_at string_reads string_faults f.key.now (IsText f.default.now) ∷ [] };

    ghost reads = { λ f value d.
        default_reads string_reads (IsText f.default.now) (text_number f.key.now) d value };

    ghost fits = { λ _. ⊤ };

    #[tactic(auto, using(crate::proofs::RecordsFail::in_turn), unfolding(crate::specs::Records::IsRead, crate::specs::Records::default_reads))]
    fn read(self, alloc: Global, node: Node<'_, 'de>) -> Result<String, Error> {
        match read_optional(alloc, node, self.key)? {
            Some(text) => Ok(text),
            None => Ok(String::from_str(alloc, self.default)?),
        }
    }
}

/// No key but these: [`only_fields`].
#[derive(Drop)]
pub struct Only<'a> {
    pub keys: &'a [&'a str],
}

impl<'de> Fields<'de> for Only<'_> {
    type Values = ();

    ghost readings = { λ f. only_at (map (λ key. key.now) f.keys.now) ∷ [] };

    ghost reads = { λ f _ d. HasOnly (map text_number (map (λ key. key.now) f.keys.now)) d };

    ghost fits = { λ _. ⊤ };

    #[tactic(auto, using(crate::proofs::RecordsFail::in_turn, crate::proofs::RecordsRead::only_names))]
    fn read(self, alloc: Global, node: Node<'_, 'de>) -> Result<(), Error> {
        only_fields(alloc, node, self.keys)
    }
}

/// Fields, and others behind them; or the values of both.
#[derive(Drop)]
pub struct And<A, B> {
    pub first: A,
    pub rest: B,
}

impl<'de, A: Fields<'de>, B: Fields<'de>> Fields<'de> for And<A, B> {
    type Values = And<A::Values, B::Values>;

    ghost readings = { λ f. A.readings f.first ++ B.readings f.rest };

    ghost reads = { λ f values d. A.reads f.first values.first d × B.reads f.rest values.rest d };

    ghost fits = { λ f. A.fits f.first × B.fits f.rest };

    #[tactic(auto, using(crate::proofs::RecordsRead::one_after_another))]
    fn read(self, alloc: Global, node: Node<'_, 'de>) -> Result<And<A::Values, B::Values>, Error> {
        let And { first, rest } = self;
        let first = first.read(alloc, node)?;
        let rest = rest.read(alloc, node)?;
        Ok(And { first, rest })
    }
}

/// Four of fields, or of parts of them, one after another; or the values of each.
#[derive(Drop)]
pub struct Four<A, B, C, D> {
    pub first: A,
    pub second: B,
    pub third: C,
    pub fourth: D,
}

impl<'de, A: Fields<'de>, B: Fields<'de>, C: Fields<'de>, D: Fields<'de>> Fields<'de>
    for Four<A, B, C, D> {
    type Values = Four<A::Values, B::Values, C::Values, D::Values>;

    ghost readings = { λ f.
        A.readings f.first ++ (B.readings f.second ++ (C.readings f.third ++ D.readings f.fourth)) };

    ghost reads = { λ f values d. A.reads f.first values.first d × B.reads f.second values.second d
        × C.reads f.third values.third d × D.reads f.fourth values.fourth d };

    ghost fits = { λ f. A.fits f.first × B.fits f.second × C.fits f.third × D.fits f.fourth };

    #[tactic(auto, using(crate::proofs::RecordsRead::one_after_another))]
    fn read(self, alloc: Global, node: Node<'_, 'de>) -> Result<Self::Values, Error> {
        let Four {
            first,
            second,
            third,
            fourth,
        } = self;
        let first = first.read(alloc, node)?;
        let second = second.read(alloc, node)?;
        let third = third.read(alloc, node)?;
        let fourth = fourth.read(alloc, node)?;
        Ok(Four {
            first,
            second,
            third,
            fourth,
        })
    }
}

/// A type that is read from the fields of a table.
///
/// The ghost member `fields` lists them, a line each; what the type reads follows from it, `record_reads`, and which errors
/// it has, `record_faults`.
pub trait Record: Sized {
    // Its fields, in the order in which they are read.
    ghost fields: { spec.Fields Self };
}

/// Reads the fields of a record: a value of each. [`read_record!`](crate::read_record!) makes the record of them.
///
/// # Errors
///
/// That of the first field that is not read, and want of memory.
#[tactic(auto, using(crate::proofs::RecordsRead::record_reads_none))]
pub fn read_record<'de, R: Record, F: Fields<'de>>(
    alloc: Global,
    node: Node<'_, 'de>,
    fields: F,
) -> Result<F::Values, Error>
    requires none { (d : Data) (fault : Fault) → OneReadsNone (F.readings fields) d fault
        → OneReadsNone (readings R.fields) d fault }
    requires faults { (at : n.Node) (fault : Fault) → FirstFails (F.readings fields) at fault
        → record_faults R.fields at fault }
    requires fits { F.fits fields }
    ensures ok { IfOk result (λ values. F.reads fields values (node_data node.entry)) }
    ensures err { IfErr result (OnlyMemory ⊥ (record_reads R.fields (node_data node.entry))) }
    ensures named { IfErr result (OrMemory (record_faults R.fields node.entry)) }
{
    fields.read(alloc, node)
}

/// Reads a record from a table: its fields, each with the key that it is read at.
///
/// ```text
/// read_record!(alloc, node, only Settings {
///     host = needed("host"),
///     port = or("port", 8080),
///     log = maybe("log"),
///     allow = or_empty("allow"),
///     level = or_text("level", "info"),
/// })
/// ```
///
/// A field has to be there, has a default, is an option, is a list that is empty where it is missing, or a string that is a
/// text then. With `only` a key that is none of these is an error. The record says by [`Record`] the same of its fields.
#[macro_export]
macro_rules! read_record {
    ($alloc:expr, $node:expr, only $record:ident {
        $($name:ident $(: $kind:ty)? = $way:ident($key:expr $(, $default:expr)?)),+ $(,)?
    }) => {
        match $crate::read_record::<$record, _>($alloc, $node, $crate::And {
            first: $crate::Only { keys: &[$($key),+] },
            rest: $crate::all_of!($(($crate::field!($way [$($kind)?] $key $(, $default)?)))+),
        }) {
            Ok(values) => {
                let $crate::And { first: (), rest: $crate::all_of!($(($name))+) } = values;
                Ok($record { $($name),+ })
            }
            Err(error) => Err(error),
        }
    };
    ($alloc:expr, $node:expr, $record:ident {
        $($name:ident $(: $kind:ty)? = $way:ident($key:expr $(, $default:expr)?)),+ $(,)?
    }) => {
        match $crate::read_record::<$record, _>(
            $alloc,
            $node,
            $crate::all_of!($(($crate::field!($way [$($kind)?] $key $(, $default)?)))+),
        ) {
            Ok(values) => {
                let $crate::all_of!($(($name))+) = values;
                Ok($record { $($name),+ })
            }
            Err(error) => Err(error),
        }
    };
}

/// One field of [`read_record!`](crate::read_record!).
#[macro_export]
macro_rules! field {
    ($way:ident [] $key:expr $(, $default:expr)?) => { $crate::field!($way [_] $key $(, $default)?) };
    (needed [$kind:ty] $key:expr) => { $crate::Needed::<$kind> { key: $key, kind: std::marker::PhantomData } };
    (maybe [$kind:ty] $key:expr) => { $crate::Maybe::<$kind> { key: $key, kind: std::marker::PhantomData } };
    (or [$kind:ty] $key:expr, $default:expr) => { $crate::Or::<$kind> { key: $key, default: $default } };
    (or_empty [$kind:ty] $key:expr) => { $crate::OrEmpty::<$kind> { key: $key, kind: std::marker::PhantomData } };
    (or_text [$kind:ty] $key:expr, $default:expr) => { $crate::OrText { key: $key, default: $default } };
}

/// Things of any types by fours, fours of fours and so on, so that none lies deep and few types are made of them.
#[macro_export]
macro_rules! all_of {
    (@parts [$one:tt]) => { $one };
    (@parts [$($part:tt)+]) => { $crate::all_of!(@parts [] $($part)+) };
    (@parts [$($part:tt)*] $one:tt) => { $crate::all_of!(@parts [$($part)* $one]) };
    (@parts [$($part:tt)*] $first:tt $second:tt $third:tt $fourth:tt $($more:tt)*) => {
        $crate::all_of!(@parts [
            $($part)* ($crate::Four { first: $first, second: $second, third: $third, fourth: $fourth })
        ] $($more)*)
    };
    (@parts [$($part:tt)*] $first:tt $rest:tt $($more:tt)*) => {
        $crate::all_of!(@parts [$($part)* ($crate::And { first: $first, rest: $rest })] $($more)*)
    };
    ($($one:tt)+) => { $crate::all_of!(@parts [] $($one)+) };
}
