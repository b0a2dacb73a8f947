//! Types that were made at random.

ghost use Rattle.std.specs.Prelude.{◌∷◌, [], codes, false, negsuc, pos, refl, true};
ghost use Rattle.basic_toml.specs.Records.{record_faults, record_reads};
ghost use Rattle.basic_toml_returns.proofs.RecordsReturn.{record_back};
ghost use Rattle.basic_toml_returns.specs.RoundTrips.{as_read, done, maybe, needed, or, record_calls, record_holds, strict};
ghost use Rattle.basic_toml_returns.specs.Variants.{variant_back, variant_calls, variant_faults, variant_reads};

use basic_toml::{
    Deserialize, Error, Float, Node, Record, Serialize, Serializer, Tree, WriteError, from_str,
};
use basic_toml_returns::{
    Choice, Returns, Root, RoundTrip, read_variant, write_record, write_variant,
};
use basic_toml_typed::read_record;
use std::alloc::Global;
use std::collections::BTreeMap;

/// A choice.
#[derive(Debug, Clone, Copy)]
pub enum RateWidthOf3 {
    Level,
    RetryPath,
    Retry,
}

impl Choice for RateWidthOf3 {
    ghost use Rattle.toml_made_types.specs.declared.made_1.RateWidthOf3.TheVariants.{Level, RetryPath, Retry};

    ghost variants = { record {
      names = codes "Level" ∷ codes "the RetryPath" ∷ codes "Retry" ∷ [];
      position = elim [ Level ↦ 0 | RetryPath ↦ 1 | Retry ↦ 2 ];
      apart = elim [ Level ↦ refl | RetryPath ↦ refl | Retry ↦ refl ];
    } };
}

impl<'de> Deserialize<'de> for RateWidthOf3 {
    ghost reads = { variant_reads ⟦<RateWidthOf3 as Choice>⟧.variants };

    ghost faults = { variant_faults ⟦<RateWidthOf3 as Choice>⟧.variants };

    fn deserialize(alloc: Global, node: Node<'_, 'de>) -> Result<RateWidthOf3, Error> {
        match read_variant::<RateWidthOf3>(alloc, node, &["Level", "the RetryPath", "Retry"]) {
            Ok(0) => Ok(RateWidthOf3::Level),
            Ok(1) => Ok(RateWidthOf3::RetryPath),
            Ok(_) => Ok(RateWidthOf3::Retry),
            Err(error) => Err(error),
        }
    }

    fn from_tree(alloc: Global, tree: Tree<'de>) -> Result<RateWidthOf3, Error> {
        RateWidthOf3::deserialize(alloc, tree.root())
    }
}

impl Serialize for RateWidthOf3 {
    ghost calls = { variant_calls ⟦<RateWidthOf3 as Choice>⟧.variants };

    fn serialize(&self, _alloc: Global, ser: &mut Serializer) -> Result<(), WriteError> {
        match self {
            RateWidthOf3::Level => write_variant(ser, self, "Level"),
            RateWidthOf3::RetryPath => write_variant(ser, self, "the RetryPath"),
            RateWidthOf3::Retry => write_variant(ser, self, "Retry"),
        }
    }
}

impl<'de> Returns<'de> for RateWidthOf3 {
    ghost read_back = { variant_back ⟦<RateWidthOf3 as Choice>⟧.variants };

    ghost returns = { ⟦<RateWidthOf3 as Returns<'static>>⟧.read_back.returns };
}

/// A choice.
#[derive(Debug, Clone, Copy)]
pub enum HostIndexOf4 {
    Width,
    HostHost,
    HostRetryPath,
    HostModeMax,
    ColorMax,
    MaxIndexUser,
    ColorLimit,
    UserLimitGroup,
    ModeCacheMode,
    PathUserUser,
    ModeRetry,
    Level,
}

impl Choice for HostIndexOf4 {
    ghost use Rattle.toml_made_types.specs.declared.made_1.HostIndexOf4.TheVariants.{Width, HostHost, HostRetryPath, HostModeMax, ColorMax, MaxIndexUser, ColorLimit, UserLimitGroup, ModeCacheMode, PathUserUser, ModeRetry, Level};

    ghost variants = { record {
      names = codes "WIDTH" ∷ codes "the HostHost" ∷ codes "HOSTRETRYPATH" ∷ codes "HOSTMODEMAX" ∷ codes "COLORMAX" ∷ codes "MAXINDEXUSER" ∷ codes "the ColorLimit" ∷ codes "USERLIMITGROUP" ∷ codes "MODECACHEMODE" ∷ codes "PATHUSERUSER" ∷ codes "MODERETRY" ∷ codes "LEVEL" ∷ [];
      position = elim [ Width ↦ 0 | HostHost ↦ 1 | HostRetryPath ↦ 2 | HostModeMax ↦ 3 | ColorMax ↦ 4 | MaxIndexUser ↦ 5 | ColorLimit ↦ 6 | UserLimitGroup ↦ 7 | ModeCacheMode ↦ 8 | PathUserUser ↦ 9 | ModeRetry ↦ 10 | Level ↦ 11 ];
      apart = elim [ Width ↦ refl | HostHost ↦ refl | HostRetryPath ↦ refl | HostModeMax ↦ refl | ColorMax ↦ refl | MaxIndexUser ↦ refl | ColorLimit ↦ refl | UserLimitGroup ↦ refl | ModeCacheMode ↦ refl | PathUserUser ↦ refl | ModeRetry ↦ refl | Level ↦ refl ];
    } };
}

impl<'de> Deserialize<'de> for HostIndexOf4 {
    ghost reads = { variant_reads ⟦<HostIndexOf4 as Choice>⟧.variants };

    ghost faults = { variant_faults ⟦<HostIndexOf4 as Choice>⟧.variants };

    fn deserialize(alloc: Global, node: Node<'_, 'de>) -> Result<HostIndexOf4, Error> {
        match read_variant::<HostIndexOf4>(
            alloc,
            node,
            &[
                "WIDTH",
                "the HostHost",
                "HOSTRETRYPATH",
                "HOSTMODEMAX",
                "COLORMAX",
                "MAXINDEXUSER",
                "the ColorLimit",
                "USERLIMITGROUP",
                "MODECACHEMODE",
                "PATHUSERUSER",
                "MODERETRY",
                "LEVEL",
            ],
        ) {
            Ok(0) => Ok(HostIndexOf4::Width),
            Ok(1) => Ok(HostIndexOf4::HostHost),
            Ok(2) => Ok(HostIndexOf4::HostRetryPath),
            Ok(3) => Ok(HostIndexOf4::HostModeMax),
            Ok(4) => Ok(HostIndexOf4::ColorMax),
            Ok(5) => Ok(HostIndexOf4::MaxIndexUser),
            Ok(6) => Ok(HostIndexOf4::ColorLimit),
            Ok(7) => Ok(HostIndexOf4::UserLimitGroup),
            Ok(8) => Ok(HostIndexOf4::ModeCacheMode),
            Ok(9) => Ok(HostIndexOf4::PathUserUser),
            Ok(10) => Ok(HostIndexOf4::ModeRetry),
            Ok(_) => Ok(HostIndexOf4::Level),
            Err(error) => Err(error),
        }
    }

    fn from_tree(alloc: Global, tree: Tree<'de>) -> Result<HostIndexOf4, Error> {
        HostIndexOf4::deserialize(alloc, tree.root())
    }
}

impl Serialize for HostIndexOf4 {
    ghost calls = { variant_calls ⟦<HostIndexOf4 as Choice>⟧.variants };

    fn serialize(&self, _alloc: Global, ser: &mut Serializer) -> Result<(), WriteError> {
        match self {
            HostIndexOf4::Width => write_variant(ser, self, "WIDTH"),
            HostIndexOf4::HostHost => write_variant(ser, self, "the HostHost"),
            HostIndexOf4::HostRetryPath => write_variant(ser, self, "HOSTRETRYPATH"),
            HostIndexOf4::HostModeMax => write_variant(ser, self, "HOSTMODEMAX"),
            HostIndexOf4::ColorMax => write_variant(ser, self, "COLORMAX"),
            HostIndexOf4::MaxIndexUser => write_variant(ser, self, "MAXINDEXUSER"),
            HostIndexOf4::ColorLimit => write_variant(ser, self, "the ColorLimit"),
            HostIndexOf4::UserLimitGroup => write_variant(ser, self, "USERLIMITGROUP"),
            HostIndexOf4::ModeCacheMode => write_variant(ser, self, "MODECACHEMODE"),
            HostIndexOf4::PathUserUser => write_variant(ser, self, "PATHUSERUSER"),
            HostIndexOf4::ModeRetry => write_variant(ser, self, "MODERETRY"),
            HostIndexOf4::Level => write_variant(ser, self, "LEVEL"),
        }
    }
}

impl<'de> Returns<'de> for HostIndexOf4 {
    ghost read_back = { variant_back ⟦<HostIndexOf4 as Choice>⟧.variants };

    ghost returns = { ⟦<HostIndexOf4 as Returns<'static>>⟧.read_back.returns };
}

/// A record.
#[derive(Debug, Drop)]
pub struct RetryCache3 {
    pub name_index_mode_40: i64,
    pub mode_max: BTreeMap<String, Float>,
    pub index_size_color: Vec<String>,
    pub mode_color_40: i16,
    pub level_key_cache_key_40: bool,
    pub color_width_40: i32,
    pub max_size_limit: Option<i64>,
    pub size_user_40: Option<u32>,
    pub size_limit_40: Option<String>,
    pub max_40: Vec<i64>,
    pub color_max_mode_index_40: Vec<String>,
    pub port_user_rate_path: Option<Vec<u16>>,
    pub cache_width_40: i16,
    pub retry_40: i32,
    pub group: Option<u64>,
    pub group_cache_40: Vec<String>,
    pub color_max_name_port_40: BTreeMap<String, i64>,
    pub key_group_group_40: i8,
    pub width_color: Option<Vec<u32>>,
    pub group_limit: Option<Float>,
    pub key_user_width: i32,
    pub tab: i32,
    pub index_40: BTreeMap<String, i8>,
    pub color_size_level_40: Option<i8>,
    pub retry_group_retry_name_40: u32,
    pub key_size_log_color_40: Option<i8>,
    pub name_width_group_max_40: Option<Vec<u16>>,
    pub max_group_limit: Option<bool>,
    pub name_size_color_name: i16,
    pub mode: BTreeMap<String, i64>,
    pub log_user_40: Vec<i64>,
    pub cache_color_size_color_40: bool,
    pub width_host_port_key: BTreeMap<String, Vec<bool>>,
    pub tab_name_40: BTreeMap<String, Vec<i16>>,
    pub max_group_40: u8,
    pub max_port_name: Option<String>,
    pub user_user_color_40: String,
    pub log_rate_size_cache_40: bool,
    pub color_port: i32,
    pub log_group_index_rate: Option<u8>,
}

impl RoundTrip for RetryCache3 {
    ghost fields = { strict
        (or ⟦<i64 as Returns<'static>>⟧ "NameIndexMode40" (negsuc 9223372036854775807) (λ s. s.name_index_mode_40)
        (needed ⟦<BTreeMap<String, Float> as Returns<'static>>⟧ "ModeMax" (λ s. s.mode_max)
        (needed ⟦<Vec<String> as Returns<'static>>⟧ "IndexSizeColor" (λ s. s.index_size_color)
        (needed ⟦<i16 as Returns<'static>>⟧ "ModeColor40" (λ s. s.mode_color_40)
        (or ⟦<bool as Returns<'static>>⟧ "LevelKeyCacheKey40" true (λ s. s.level_key_cache_key_40)
        (or ⟦<i32 as Returns<'static>>⟧ "ColorWidth40" (pos 0) (λ s. s.color_width_40)
        (maybe ⟦<i64 as Returns<'static>>⟧ "MaxSizeLimit" (λ s. s.max_size_limit)
        (maybe ⟦<u32 as Returns<'static>>⟧ "SizeUser40" (λ s. s.size_user_40)
        (maybe ⟦<String as Returns<'static>>⟧ "SizeLimit40" (λ s. s.size_limit_40)
        (needed ⟦<Vec<i64> as Returns<'static>>⟧ "Max40" (λ s. s.max_40)
        (needed ⟦<Vec<String> as Returns<'static>>⟧ "ColorMaxModeIndex40" (λ s. s.color_max_mode_index_40)
        (maybe ⟦<Vec<u16> as Returns<'static>>⟧ "PortUserRatePath" (λ s. s.port_user_rate_path)
        (or ⟦<i16 as Returns<'static>>⟧ "CacheWidth40" (negsuc 32767) (λ s. s.cache_width_40)
        (or ⟦<i32 as Returns<'static>>⟧ "Retry40" (pos 2147483647) (λ s. s.retry_40)
        (maybe ⟦<u64 as Returns<'static>>⟧ "Group" (λ s. s.group)
        (needed ⟦<Vec<String> as Returns<'static>>⟧ "GroupCache40" (λ s. s.group_cache_40)
        (needed ⟦<BTreeMap<String, i64> as Returns<'static>>⟧ "ColorMaxNamePort40" (λ s. s.color_max_name_port_40)
        (needed ⟦<i8 as Returns<'static>>⟧ "KeyGroupGroup40" (λ s. s.key_group_group_40)
        (maybe ⟦<Vec<u32> as Returns<'static>>⟧ "WidthColor" (λ s. s.width_color)
        (maybe ⟦<Float as Returns<'static>>⟧ "GroupLimit" (λ s. s.group_limit)
        (needed ⟦<i32 as Returns<'static>>⟧ "KeyUserWidth" (λ s. s.key_user_width)
        (or ⟦<i32 as Returns<'static>>⟧ "Tab" (negsuc 2147483647) (λ s. s.tab)
        (needed ⟦<BTreeMap<String, i8> as Returns<'static>>⟧ "Index40" (λ s. s.index_40)
        (maybe ⟦<i8 as Returns<'static>>⟧ "color.size.level.40" (λ s. s.color_size_level_40)
        (needed ⟦<u32 as Returns<'static>>⟧ "the retry.group.retry.name.40" (λ s. s.retry_group_retry_name_40)
        (maybe ⟦<i8 as Returns<'static>>⟧ "KeySizeLogColor40" (λ s. s.key_size_log_color_40)
        (maybe ⟦<Vec<u16> as Returns<'static>>⟧ "NameWidthGroupMax40" (λ s. s.name_width_group_max_40)
        (maybe ⟦<bool as Returns<'static>>⟧ "MaxGroupLimit" (λ s. s.max_group_limit)
        (or ⟦<i16 as Returns<'static>>⟧ "NameSizeColorName" (pos 0) (λ s. s.name_size_color_name)
        (needed ⟦<BTreeMap<String, i64> as Returns<'static>>⟧ "Mode" (λ s. s.mode)
        (needed ⟦<Vec<i64> as Returns<'static>>⟧ "LogUser40" (λ s. s.log_user_40)
        (or ⟦<bool as Returns<'static>>⟧ "CacheColorSizeColor40" true (λ s. s.cache_color_size_color_40)
        (needed ⟦<BTreeMap<String, Vec<bool>> as Returns<'static>>⟧ "WidthHostPortKey" (λ s. s.width_host_port_key)
        (needed ⟦<BTreeMap<String, Vec<i16>> as Returns<'static>>⟧ "TabName40" (λ s. s.tab_name_40)
        (needed ⟦<u8 as Returns<'static>>⟧ "MaxGroup40" (λ s. s.max_group_40)
        (maybe ⟦<String as Returns<'static>>⟧ "MaxPortName" (λ s. s.max_port_name)
        (needed ⟦<String as Returns<'static>>⟧ "the user.user.color.40" (λ s. s.user_user_color_40)
        (or ⟦<bool as Returns<'static>>⟧ "LogRateSizeCache40" false (λ s. s.log_rate_size_cache_40)
        (needed ⟦<i32 as Returns<'static>>⟧ "ColorPort" (λ s. s.color_port)
        (maybe ⟦<u8 as Returns<'static>>⟧ "LogGroupIndexRate" (λ s. s.log_group_index_rate)
        done)))))))))))))))))))))))))))))))))))))))) };
}

impl Record for RetryCache3 {
    ghost fields = { as_read ⟦<RetryCache3 as RoundTrip>⟧.fields };
}

impl<'de> Deserialize<'de> for RetryCache3 {
    ghost reads = { record_reads ⟦<RetryCache3 as Record>⟧.fields };

    ghost faults = { record_faults ⟦<RetryCache3 as Record>⟧.fields };

    fn deserialize(alloc: Global, node: Node<'_, 'de>) -> Result<RetryCache3, Error> {
        read_record!(alloc, node, only RetryCache3 {
            name_index_mode_40 = or("NameIndexMode40", -9223372036854775808),
            mode_max = needed("ModeMax"),
            index_size_color = needed("IndexSizeColor"),
            mode_color_40 = needed("ModeColor40"),
            level_key_cache_key_40 = or("LevelKeyCacheKey40", true),
            color_width_40 = or("ColorWidth40", 0),
            max_size_limit = maybe("MaxSizeLimit"),
            size_user_40 = maybe("SizeUser40"),
            size_limit_40 = maybe("SizeLimit40"),
            max_40 = needed("Max40"),
            color_max_mode_index_40 = needed("ColorMaxModeIndex40"),
            port_user_rate_path = maybe("PortUserRatePath"),
            cache_width_40 = or("CacheWidth40", -32768),
            retry_40 = or("Retry40", 2147483647),
            group = maybe("Group"),
            group_cache_40 = needed("GroupCache40"),
            color_max_name_port_40 = needed("ColorMaxNamePort40"),
            key_group_group_40 = needed("KeyGroupGroup40"),
            width_color = maybe("WidthColor"),
            group_limit = maybe("GroupLimit"),
            key_user_width = needed("KeyUserWidth"),
            tab = or("Tab", -2147483648),
            index_40 = needed("Index40"),
            color_size_level_40 = maybe("color.size.level.40"),
            retry_group_retry_name_40 = needed("the retry.group.retry.name.40"),
            key_size_log_color_40 = maybe("KeySizeLogColor40"),
            name_width_group_max_40 = maybe("NameWidthGroupMax40"),
            max_group_limit = maybe("MaxGroupLimit"),
            name_size_color_name = or("NameSizeColorName", 0),
            mode = needed("Mode"),
            log_user_40 = needed("LogUser40"),
            cache_color_size_color_40 = or("CacheColorSizeColor40", true),
            width_host_port_key = needed("WidthHostPortKey"),
            tab_name_40 = needed("TabName40"),
            max_group_40 = needed("MaxGroup40"),
            max_port_name = maybe("MaxPortName"),
            user_user_color_40 = needed("the user.user.color.40"),
            log_rate_size_cache_40 = or("LogRateSizeCache40", false),
            color_port = needed("ColorPort"),
            log_group_index_rate = maybe("LogGroupIndexRate"),
        })
    }

    fn from_tree(alloc: Global, tree: Tree<'de>) -> Result<RetryCache3, Error> {
        RetryCache3::deserialize(alloc, tree.root())
    }
}

impl Serialize for RetryCache3 {
    ghost calls = { record_calls ⟦<RetryCache3 as RoundTrip>⟧.fields };

    ghost holds = { record_holds ⟦<RetryCache3 as RoundTrip>⟧.fields };

    fn serialize(&self, _alloc: Global, ser: &mut Serializer) -> Result<(), WriteError> {
        write_record!(ser, self, RetryCache3 {
            name_index_mode_40 = "NameIndexMode40",
            mode_max = "ModeMax",
            index_size_color = "IndexSizeColor",
            mode_color_40 = "ModeColor40",
            level_key_cache_key_40 = "LevelKeyCacheKey40",
            color_width_40 = "ColorWidth40",
            max_size_limit = "MaxSizeLimit",
            size_user_40 = "SizeUser40",
            size_limit_40 = "SizeLimit40",
            max_40 = "Max40",
            color_max_mode_index_40 = "ColorMaxModeIndex40",
            port_user_rate_path = "PortUserRatePath",
            cache_width_40 = "CacheWidth40",
            retry_40 = "Retry40",
            group = "Group",
            group_cache_40 = "GroupCache40",
            color_max_name_port_40 = "ColorMaxNamePort40",
            key_group_group_40 = "KeyGroupGroup40",
            width_color = "WidthColor",
            group_limit = "GroupLimit",
            key_user_width = "KeyUserWidth",
            tab = "Tab",
            index_40 = "Index40",
            color_size_level_40 = "color.size.level.40",
            retry_group_retry_name_40 = "the retry.group.retry.name.40",
            key_size_log_color_40 = "KeySizeLogColor40",
            name_width_group_max_40 = "NameWidthGroupMax40",
            max_group_limit = "MaxGroupLimit",
            name_size_color_name = "NameSizeColorName",
            mode = "Mode",
            log_user_40 = "LogUser40",
            cache_color_size_color_40 = "CacheColorSizeColor40",
            width_host_port_key = "WidthHostPortKey",
            tab_name_40 = "TabName40",
            max_group_40 = "MaxGroup40",
            max_port_name = "MaxPortName",
            user_user_color_40 = "the user.user.color.40",
            log_rate_size_cache_40 = "LogRateSizeCache40",
            color_port = "ColorPort",
            log_group_index_rate = "LogGroupIndexRate",
        })
    }
}

impl<'de> Returns<'de> for RetryCache3 {
    ghost read_back = { record_back ⟦<RetryCache3 as RoundTrip>⟧.fields (λ s. refl) };

    ghost returns = { ⟦<RetryCache3 as Returns<'static>>⟧.read_back.returns };
}

impl<'de> Root<'de> for RetryCache3 {
    fn from_text(alloc: Global, text: &str) -> Result<RetryCache3, Error> {
        from_str(alloc, text)
    }
}
