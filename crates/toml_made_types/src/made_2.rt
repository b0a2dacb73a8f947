//! Types that were made at random.

ghost use Rattle.std.specs.Prelude.{◌∷◌, [], codes, false, refl};
ghost use Rattle.basic_toml.specs.Nodes.{is_table};
ghost use Rattle.basic_toml.specs.Records.{record_faults, record_reads};
ghost use Rattle.basic_toml_returns.proofs.RecordsReturn.{record_back};
ghost use Rattle.basic_toml_returns.specs.Forms.{by_test, form_back, form_calls, form_faults, form_holds, form_reads, one, other};
ghost use Rattle.basic_toml_returns.specs.RoundTrips.{as_read, done, maybe, or, record_calls, record_holds};
ghost use Rattle.basic_toml_returns.specs.Variants.{variant_back, variant_calls, variant_faults, variant_reads};

use basic_toml::{
    Deserialize, Error, Node, Record, Serialize, Serializer, Tree, WriteError, from_str,
};
use basic_toml_returns::{
    Choice, Forms, Returns, Root, RoundTrip, read_variant, write_record, write_variant,
};
use basic_toml_typed::read_record;
use std::alloc::Global;
use std::collections::BTreeMap;

/// A choice.
#[derive(Debug, Clone, Copy)]
pub enum PortNameOf6 {
    User,
    Tab,
    LogCacheRetry,
}

impl Choice for PortNameOf6 {
    ghost use Rattle.toml_made_types.specs.declared.made_2.PortNameOf6.TheVariants.{User, Tab, LogCacheRetry};

    ghost variants = { record {
      names = codes "User" ∷ codes "the Tab" ∷ codes "LogCacheRetry" ∷ [];
      position = elim [ User ↦ 0 | Tab ↦ 1 | LogCacheRetry ↦ 2 ];
      apart = elim [ User ↦ refl | Tab ↦ refl | LogCacheRetry ↦ refl ];
    } };
}

impl<'de> Deserialize<'de> for PortNameOf6 {
    ghost reads = { variant_reads ⟦<PortNameOf6 as Choice>⟧.variants };

    ghost faults = { variant_faults ⟦<PortNameOf6 as Choice>⟧.variants };

    fn deserialize(alloc: Global, node: Node<'_, 'de>) -> Result<PortNameOf6, Error> {
        match read_variant::<PortNameOf6>(alloc, node, &["User", "the Tab", "LogCacheRetry"]) {
            Ok(0) => Ok(PortNameOf6::User),
            Ok(1) => Ok(PortNameOf6::Tab),
            Ok(_) => Ok(PortNameOf6::LogCacheRetry),
            Err(error) => Err(error),
        }
    }

    fn from_tree(alloc: Global, tree: Tree<'de>) -> Result<PortNameOf6, Error> {
        PortNameOf6::deserialize(alloc, tree.root())
    }
}

impl Serialize for PortNameOf6 {
    ghost calls = { variant_calls ⟦<PortNameOf6 as Choice>⟧.variants };

    fn serialize(&self, _alloc: Global, ser: &mut Serializer) -> Result<(), WriteError> {
        match self {
            PortNameOf6::User => write_variant(ser, self, "User"),
            PortNameOf6::Tab => write_variant(ser, self, "the Tab"),
            PortNameOf6::LogCacheRetry => write_variant(ser, self, "LogCacheRetry"),
        }
    }
}

impl<'de> Returns<'de> for PortNameOf6 {
    ghost read_back = { variant_back ⟦<PortNameOf6 as Choice>⟧.variants };

    ghost returns = { ⟦<PortNameOf6 as Returns<'static>>⟧.read_back.returns };
}

/// A choice.
#[derive(Debug, Clone, Copy)]
pub enum ModeKeyOf7 {
    SizePortHost,
    RetryCache,
    LogColorLog,
    Log,
    Mode,
}

impl Choice for ModeKeyOf7 {
    ghost use Rattle.toml_made_types.specs.declared.made_2.ModeKeyOf7.TheVariants.{SizePortHost, RetryCache, LogColorLog, Log, Mode};

    ghost variants = { record {
      names = codes "size_port_host" ∷ codes "retry_cache" ∷ codes "log_color_log" ∷ codes "log" ∷ codes "mode" ∷ [];
      position = elim [ SizePortHost ↦ 0 | RetryCache ↦ 1 | LogColorLog ↦ 2 | Log ↦ 3 | Mode ↦ 4 ];
      apart = elim [ SizePortHost ↦ refl | RetryCache ↦ refl | LogColorLog ↦ refl | Log ↦ refl | Mode ↦ refl ];
    } };
}

impl<'de> Deserialize<'de> for ModeKeyOf7 {
    ghost reads = { variant_reads ⟦<ModeKeyOf7 as Choice>⟧.variants };

    ghost faults = { variant_faults ⟦<ModeKeyOf7 as Choice>⟧.variants };

    fn deserialize(alloc: Global, node: Node<'_, 'de>) -> Result<ModeKeyOf7, Error> {
        match read_variant::<ModeKeyOf7>(
            alloc,
            node,
            &[
                "size_port_host",
                "retry_cache",
                "log_color_log",
                "log",
                "mode",
            ],
        ) {
            Ok(0) => Ok(ModeKeyOf7::SizePortHost),
            Ok(1) => Ok(ModeKeyOf7::RetryCache),
            Ok(2) => Ok(ModeKeyOf7::LogColorLog),
            Ok(3) => Ok(ModeKeyOf7::Log),
            Ok(_) => Ok(ModeKeyOf7::Mode),
            Err(error) => Err(error),
        }
    }

    fn from_tree(alloc: Global, tree: Tree<'de>) -> Result<ModeKeyOf7, Error> {
        ModeKeyOf7::deserialize(alloc, tree.root())
    }
}

impl Serialize for ModeKeyOf7 {
    ghost calls = { variant_calls ⟦<ModeKeyOf7 as Choice>⟧.variants };

    fn serialize(&self, _alloc: Global, ser: &mut Serializer) -> Result<(), WriteError> {
        match self {
            ModeKeyOf7::SizePortHost => write_variant(ser, self, "size_port_host"),
            ModeKeyOf7::RetryCache => write_variant(ser, self, "retry_cache"),
            ModeKeyOf7::LogColorLog => write_variant(ser, self, "log_color_log"),
            ModeKeyOf7::Log => write_variant(ser, self, "log"),
            ModeKeyOf7::Mode => write_variant(ser, self, "mode"),
        }
    }
}

impl<'de> Returns<'de> for ModeKeyOf7 {
    ghost read_back = { variant_back ⟦<ModeKeyOf7 as Choice>⟧.variants };

    ghost returns = { ⟦<ModeKeyOf7 as Returns<'static>>⟧.read_back.returns };
}

/// A record.
#[derive(Debug, Drop)]
pub struct ModeColor6 {
    pub cache_mode_key_width_2: Option<PortNameOf6>,
    pub mode_max_level_size: bool,
}

impl RoundTrip for ModeColor6 {
    ghost fields = { maybe ⟦<PortNameOf6 as Returns<'static>>⟧ "CacheModeKeyWidth2" (λ s. s.cache_mode_key_width_2)
        (or ⟦<bool as Returns<'static>>⟧ "ModeMaxLevelSize" false (λ s. s.mode_max_level_size)
        done) };
}

impl Record for ModeColor6 {
    ghost fields = { as_read ⟦<ModeColor6 as RoundTrip>⟧.fields };
}

impl<'de> Deserialize<'de> for ModeColor6 {
    ghost reads = { record_reads ⟦<ModeColor6 as Record>⟧.fields };

    ghost faults = { record_faults ⟦<ModeColor6 as Record>⟧.fields };

    fn deserialize(alloc: Global, node: Node<'_, 'de>) -> Result<ModeColor6, Error> {
        read_record!(alloc, node, ModeColor6 {
            cache_mode_key_width_2 = maybe("CacheModeKeyWidth2"),
            mode_max_level_size = or("ModeMaxLevelSize", false),
        })
    }

    fn from_tree(alloc: Global, tree: Tree<'de>) -> Result<ModeColor6, Error> {
        ModeColor6::deserialize(alloc, tree.root())
    }
}

impl Serialize for ModeColor6 {
    ghost calls = { record_calls ⟦<ModeColor6 as RoundTrip>⟧.fields };

    ghost holds = { record_holds ⟦<ModeColor6 as RoundTrip>⟧.fields };

    fn serialize(&self, _alloc: Global, ser: &mut Serializer) -> Result<(), WriteError> {
        write_record!(ser, self, ModeColor6 {
            cache_mode_key_width_2 = "CacheModeKeyWidth2",
            mode_max_level_size = "ModeMaxLevelSize",
        })
    }
}

impl<'de> Returns<'de> for ModeColor6 {
    ghost read_back = { record_back ⟦<ModeColor6 as RoundTrip>⟧.fields (λ s. refl) };

    ghost returns = { ⟦<ModeColor6 as Returns<'static>>⟧.read_back.returns };
}

impl<'de> Root<'de> for ModeColor6 {
    fn from_text(alloc: Global, text: &str) -> Result<ModeColor6, Error> {
        from_str(alloc, text)
    }
}

/// One of two forms.
#[derive(Debug, Drop)]
pub enum ColorOr6 {
    MaxTable(BTreeMap<String, u8>),
    Group(PortNameOf6),
}

impl Forms for ColorOr6 {
    ghost use Rattle.toml_made_types.specs.declared.made_2.ColorOr6.TheVariants.{MaxTable, Group};

    ghost forms = { by_test is_table ⟦<BTreeMap<String, u8> as Returns<'static>>⟧ ⟦<PortNameOf6 as Returns<'static>>⟧
        (elim [ MaxTable x ↦ one x | Group x ↦ other x ]) (λ x. refl) (λ x. refl) };
}

impl<'de> Deserialize<'de> for ColorOr6 {
    ghost reads = { form_reads ⟦<ColorOr6 as Forms>⟧.forms };

    ghost faults = { form_faults ⟦<ColorOr6 as Forms>⟧.forms };

    fn deserialize(alloc: Global, node: Node<'_, 'de>) -> Result<ColorOr6, Error> {
        if node.is_table() {
            let value = BTreeMap::deserialize(alloc, node)?;
            Ok(ColorOr6::MaxTable(value))
        } else {
            let value = PortNameOf6::deserialize(alloc, node)?;
            Ok(ColorOr6::Group(value))
        }
    }

    fn from_tree(alloc: Global, tree: Tree<'de>) -> Result<ColorOr6, Error> {
        ColorOr6::deserialize(alloc, tree.root())
    }
}

impl Serialize for ColorOr6 {
    ghost calls = { form_calls ⟦<ColorOr6 as Forms>⟧.forms };

    ghost holds = { form_holds ⟦<ColorOr6 as Forms>⟧.forms };

    fn serialize(&self, alloc: Global, ser: &mut Serializer) -> Result<(), WriteError> {
        match self {
            ColorOr6::MaxTable(value) => value.serialize(alloc, ser),
            ColorOr6::Group(value) => value.serialize(alloc, ser),
        }
    }
}

impl<'de> Returns<'de> for ColorOr6 {
    ghost read_back = { form_back ⟦<ColorOr6 as Forms>⟧.forms };

    ghost returns = { ⟦<ColorOr6 as Returns<'static>>⟧.read_back.returns };
}
