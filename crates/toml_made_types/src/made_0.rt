//! Types that were made at random.

ghost use Rattle.std.specs.Prelude.{◌∷◌, [], codes, false, refl};
ghost use Rattle.basic_toml.specs.Records.{record_faults, record_reads};
ghost use Rattle.basic_toml_returns.proofs.RecordsReturn.{record_back};
ghost use Rattle.basic_toml_returns.specs.RoundTrips.{as_read, done, maybe, needed, or, or_empty, record_calls, record_holds, strict};
ghost use Rattle.basic_toml_returns.specs.Variants.{variant_back, variant_calls, variant_faults, variant_reads};

use basic_toml::{
    Deserialize, Error, Node, Record, Serialize, Serializer, Tree, WriteError, from_str,
};
use basic_toml_returns::{
    Choice, Returns, Root, RoundTrip, read_variant, write_record, write_variant,
};
use basic_toml_typed::read_record;
use std::alloc::Global;

/// A choice.
#[derive(Debug, Clone, Copy)]
pub enum RetryCacheOf0 {
    LevelRetryUser,
    WidthPath,
    RateLimit,
}

impl Choice for RetryCacheOf0 {
    ghost use Rattle.toml_made_types.specs.declared.made_0.RetryCacheOf0.TheVariants.{LevelRetryUser, WidthPath, RateLimit};

    ghost variants = { record {
      names = codes "LevelRetryUser" ∷ codes "WidthPath" ∷ codes "RateLimit" ∷ [];
      position = elim [ LevelRetryUser ↦ 0 | WidthPath ↦ 1 | RateLimit ↦ 2 ];
      apart = elim [ LevelRetryUser ↦ refl | WidthPath ↦ refl | RateLimit ↦ refl ];
    } };
}

impl<'de> Deserialize<'de> for RetryCacheOf0 {
    ghost reads = { variant_reads ⟦<RetryCacheOf0 as Choice>⟧.variants };

    ghost faults = { variant_faults ⟦<RetryCacheOf0 as Choice>⟧.variants };

    fn deserialize(alloc: Global, node: Node<'_, 'de>) -> Result<RetryCacheOf0, Error> {
        match read_variant::<RetryCacheOf0>(
            alloc,
            node,
            &["LevelRetryUser", "WidthPath", "RateLimit"],
        ) {
            Ok(0) => Ok(RetryCacheOf0::LevelRetryUser),
            Ok(1) => Ok(RetryCacheOf0::WidthPath),
            Ok(_) => Ok(RetryCacheOf0::RateLimit),
            Err(error) => Err(error),
        }
    }

    fn from_tree(alloc: Global, tree: Tree<'de>) -> Result<RetryCacheOf0, Error> {
        RetryCacheOf0::deserialize(alloc, tree.root())
    }
}

impl Serialize for RetryCacheOf0 {
    ghost calls = { variant_calls ⟦<RetryCacheOf0 as Choice>⟧.variants };

    fn serialize(&self, _alloc: Global, ser: &mut Serializer) -> Result<(), WriteError> {
        match self {
            RetryCacheOf0::LevelRetryUser => write_variant(ser, self, "LevelRetryUser"),
            RetryCacheOf0::WidthPath => write_variant(ser, self, "WidthPath"),
            RetryCacheOf0::RateLimit => write_variant(ser, self, "RateLimit"),
        }
    }
}

impl<'de> Returns<'de> for RetryCacheOf0 {
    ghost read_back = { variant_back ⟦<RetryCacheOf0 as Choice>⟧.variants };

    ghost returns = { ⟦<RetryCacheOf0 as Returns<'static>>⟧.read_back.returns };
}

/// A choice.
#[derive(Debug, Clone, Copy)]
pub enum SizeColorOf1 {
    Name,
    GroupLevelColor,
    GroupTab,
}

impl Choice for SizeColorOf1 {
    ghost use Rattle.toml_made_types.specs.declared.made_0.SizeColorOf1.TheVariants.{Name, GroupLevelColor, GroupTab};

    ghost variants = { record {
      names = codes "NAME" ∷ codes "the GroupLevelColor" ∷ codes "GROUP-TAB" ∷ [];
      position = elim [ Name ↦ 0 | GroupLevelColor ↦ 1 | GroupTab ↦ 2 ];
      apart = elim [ Name ↦ refl | GroupLevelColor ↦ refl | GroupTab ↦ refl ];
    } };
}

impl<'de> Deserialize<'de> for SizeColorOf1 {
    ghost reads = { variant_reads ⟦<SizeColorOf1 as Choice>⟧.variants };

    ghost faults = { variant_faults ⟦<SizeColorOf1 as Choice>⟧.variants };

    fn deserialize(alloc: Global, node: Node<'_, 'de>) -> Result<SizeColorOf1, Error> {
        match read_variant::<SizeColorOf1>(
            alloc,
            node,
            &["NAME", "the GroupLevelColor", "GROUP-TAB"],
        ) {
            Ok(0) => Ok(SizeColorOf1::Name),
            Ok(1) => Ok(SizeColorOf1::GroupLevelColor),
            Ok(_) => Ok(SizeColorOf1::GroupTab),
            Err(error) => Err(error),
        }
    }

    fn from_tree(alloc: Global, tree: Tree<'de>) -> Result<SizeColorOf1, Error> {
        SizeColorOf1::deserialize(alloc, tree.root())
    }
}

impl Serialize for SizeColorOf1 {
    ghost calls = { variant_calls ⟦<SizeColorOf1 as Choice>⟧.variants };

    fn serialize(&self, _alloc: Global, ser: &mut Serializer) -> Result<(), WriteError> {
        match self {
            SizeColorOf1::Name => write_variant(ser, self, "NAME"),
            SizeColorOf1::GroupLevelColor => write_variant(ser, self, "the GroupLevelColor"),
            SizeColorOf1::GroupTab => write_variant(ser, self, "GROUP-TAB"),
        }
    }
}

impl<'de> Returns<'de> for SizeColorOf1 {
    ghost read_back = { variant_back ⟦<SizeColorOf1 as Choice>⟧.variants };

    ghost returns = { ⟦<SizeColorOf1 as Returns<'static>>⟧.read_back.returns };
}

/// A record.
#[derive(Debug, Drop)]
pub struct PathColor0 {
    pub port_color_host_8: RetryCacheOf0,
    pub group_max_group_name_8: bool,
    pub limit_user_color_user: bool,
    pub index_name_tab: u32,
    pub rate_port: SizeColorOf1,
    pub mode_max_path: bool,
    pub level: Option<u32>,
    pub key_log_8: Vec<RetryCacheOf0>,
}

impl RoundTrip for PathColor0 {
    ghost fields = { strict
        (needed ⟦<RetryCacheOf0 as Returns<'static>>⟧ "port-color-host-8" (λ s. s.port_color_host_8)
        (or ⟦<bool as Returns<'static>>⟧ "x-group max group name 8" false (λ s. s.group_max_group_name_8)
        (needed ⟦<bool as Returns<'static>>⟧ "limit-user-color-user" (λ s. s.limit_user_color_user)
        (or ⟦<u32 as Returns<'static>>⟧ "index-name-tab" 2820330615 (λ s. s.index_name_tab)
        (needed ⟦<SizeColorOf1 as Returns<'static>>⟧ "rate-port" (λ s. s.rate_port)
        (or ⟦<bool as Returns<'static>>⟧ "mode-max-path" false (λ s. s.mode_max_path)
        (maybe ⟦<u32 as Returns<'static>>⟧ "level" (λ s. s.level)
        (or_empty ⟦<Vec<RetryCacheOf0> as Returns<'static>>⟧ "key-log-8" (λ s. s.key_log_8)
        done)))))))) };
}

impl Record for PathColor0 {
    ghost fields = { as_read ⟦<PathColor0 as RoundTrip>⟧.fields };
}

impl<'de> Deserialize<'de> for PathColor0 {
    ghost reads = { record_reads ⟦<PathColor0 as Record>⟧.fields };

    ghost faults = { record_faults ⟦<PathColor0 as Record>⟧.fields };

    fn deserialize(alloc: Global, node: Node<'_, 'de>) -> Result<PathColor0, Error> {
        read_record!(alloc, node, only PathColor0 {
            port_color_host_8 = needed("port-color-host-8"),
            group_max_group_name_8 = or("x-group max group name 8", false),
            limit_user_color_user = needed("limit-user-color-user"),
            index_name_tab = or("index-name-tab", 2820330615),
            rate_port = needed("rate-port"),
            mode_max_path = or("mode-max-path", false),
            level = maybe("level"),
            key_log_8 = or_empty("key-log-8"),
        })
    }

    fn from_tree(alloc: Global, tree: Tree<'de>) -> Result<PathColor0, Error> {
        PathColor0::deserialize(alloc, tree.root())
    }
}

impl Serialize for PathColor0 {
    ghost calls = { record_calls ⟦<PathColor0 as RoundTrip>⟧.fields };

    ghost holds = { record_holds ⟦<PathColor0 as RoundTrip>⟧.fields };

    fn serialize(&self, _alloc: Global, ser: &mut Serializer) -> Result<(), WriteError> {
        write_record!(ser, self, PathColor0 {
            port_color_host_8 = "port-color-host-8",
            group_max_group_name_8 = "x-group max group name 8",
            limit_user_color_user = "limit-user-color-user",
            index_name_tab = "index-name-tab",
            rate_port = "rate-port",
            mode_max_path = "mode-max-path",
            level = "level",
            key_log_8 = "key-log-8",
        })
    }
}

impl<'de> Returns<'de> for PathColor0 {
    ghost read_back = { record_back ⟦<PathColor0 as RoundTrip>⟧.fields (λ s. refl) };

    ghost returns = { ⟦<PathColor0 as Returns<'static>>⟧.read_back.returns };
}

impl<'de> Root<'de> for PathColor0 {
    fn from_text(alloc: Global, text: &str) -> Result<PathColor0, Error> {
        from_str(alloc, text)
    }
}
