//! Settings with defaults.
ghost use Rattle.std.specs.Prelude.{◌∷◌, [], codes, false, refl};
ghost use Rattle.basic_toml.specs.Reading.{ReadsText};
ghost use Rattle.basic_toml.specs.Records.{record_faults, record_reads};
ghost use Rattle.basic_toml_returns.proofs.RecordsReturn.{record_back};
ghost use Rattle.basic_toml_returns.specs.Returned.{ReturnsIt};
ghost use Rattle.basic_toml_returns.specs.RoundTrips.{as_read, done, maybe, needed, or, or_empty, record_calls, record_holds, strict};
ghost use Rattle.basic_toml_returns.specs.Variants.{variant_back, variant_calls, variant_faults, variant_reads};

use basic_toml::{
    Deserialize, Error, Node, Record, Serialize, Serializer, Tree, WriteError, from_str,
};
use basic_toml_returns::{
    Choice, Returns, Root, RoundTrip, read_variant, write_record, write_then_read, write_variant,
};
use basic_toml_typed::read_record;
use std::alloc::Global;

/// What a server is told: where it listens, who may ask it, and what it says of its work.
#[derive(Debug, Drop)]
pub struct Settings {
    pub host: String,
    pub port: u16,
    pub admin_port: Option<u16>,
    pub workers: u16,
    /// In seconds.
    pub timeout: u32,
    pub allow: Vec<String>,
    pub log: Option<String>,
    pub level: Option<Level>,
    pub verbose: bool,
    pub greeting: Option<String>,
    pub limits: Option<Limits>,
    pub tls: Option<Tls>,
}

impl RoundTrip for Settings {
    ghost fields = { strict
        (needed ⟦<String as Returns<'static>>⟧ "host" (λ s. s.host)
        (or ⟦<u16 as Returns<'static>>⟧ "port" 8080 (λ s. s.port)
        (maybe ⟦<u16 as Returns<'static>>⟧ "admin_port" (λ s. s.admin_port)
        (or ⟦<u16 as Returns<'static>>⟧ "workers" 4 (λ s. s.workers)
        (or ⟦<u32 as Returns<'static>>⟧ "timeout" 30 (λ s. s.timeout)
        (or_empty ⟦<Vec<String> as Returns<'static>>⟧ "allow" (λ s. s.allow)
        (maybe ⟦<String as Returns<'static>>⟧ "log" (λ s. s.log)
        (maybe ⟦<Level as Returns<'static>>⟧ "level" (λ s. s.level)
        (or ⟦<bool as Returns<'static>>⟧ "verbose" false (λ s. s.verbose)
        (maybe ⟦<String as Returns<'static>>⟧ "greeting" (λ s. s.greeting)
        (maybe ⟦<Limits as Returns<'static>>⟧ "limits" (λ s. s.limits)
        (maybe ⟦<Tls as Returns<'static>>⟧ "tls" (λ s. s.tls)
        done)))))))))))) };
}

impl Record for Settings {
    ghost fields = { as_read ⟦<Settings as RoundTrip>⟧.fields };
}

impl<'de> Deserialize<'de> for Settings {
    ghost reads = { record_reads ⟦<Settings as Record>⟧.fields };

    ghost faults = { record_faults ⟦<Settings as Record>⟧.fields };

    fn deserialize(alloc: Global, node: Node<'_, 'de>) -> Result<Settings, Error> {
        read_record!(alloc, node, only Settings {
            host = needed("host"),
            port = or("port", 8080),
            admin_port = maybe("admin_port"),
            workers = or("workers", 4),
            timeout = or("timeout", 30),
            allow = or_empty("allow"),
            log = maybe("log"),
            level = maybe("level"),
            verbose = or("verbose", false),
            greeting = maybe("greeting"),
            limits = maybe("limits"),
            tls = maybe("tls"),
        })
    }

    fn from_tree(alloc: Global, tree: Tree<'de>) -> Result<Settings, Error> {
        Settings::deserialize(alloc, tree.root())
    }
}

impl Serialize for Settings {
    ghost calls = { record_calls ⟦<Settings as RoundTrip>⟧.fields };

    ghost holds = { record_holds ⟦<Settings as RoundTrip>⟧.fields };

    fn serialize(&self, _alloc: Global, ser: &mut Serializer) -> Result<(), WriteError> {
        write_record!(ser, self, Settings {
            host = "host",
            port = "port",
            admin_port = "admin_port",
            workers = "workers",
            timeout = "timeout",
            allow = "allow",
            log = "log",
            level = "level",
            verbose = "verbose",
            greeting = "greeting",
            limits = "limits",
            tls = "tls",
        })
    }
}

impl<'de> Returns<'de> for Settings {
    ghost read_back = { record_back ⟦<Settings as RoundTrip>⟧.fields (λ s. refl) };

    ghost returns = { ⟦<Settings as Returns<'static>>⟧.read_back.returns };
}

impl<'de> Root<'de> for Settings {
    fn from_text(alloc: Global, text: &str) -> Result<Settings, Error> {
        from_str(alloc, text)
    }
}

/// What is told of the work.
#[derive(Debug, Drop)]
pub enum Level {
    Error,
    Warning,
    Everything,
}

impl Choice for Level {
    ghost use Rattle.load_settings.specs.declared.settings.Level.TheVariants.{Error, Warning, Everything};

    ghost variants = { record {
      names = codes "error" ∷ codes "warning" ∷ codes "everything" ∷ [];
      position = elim [ Error ↦ 0 | Warning ↦ 1 | Everything ↦ 2 ];
      apart = elim [ Error ↦ refl | Warning ↦ refl | Everything ↦ refl ];
    } };
}

impl<'de> Deserialize<'de> for Level {
    ghost reads = { variant_reads ⟦<Level as Choice>⟧.variants };

    ghost faults = { variant_faults ⟦<Level as Choice>⟧.variants };

    fn deserialize(alloc: Global, node: Node<'_, 'de>) -> Result<Level, Error> {
        match read_variant::<Level>(alloc, node, &["error", "warning", "everything"]) {
            Ok(0) => Ok(Level::Error),
            Ok(1) => Ok(Level::Warning),
            Ok(_) => Ok(Level::Everything),
            Err(error) => Err(error),
        }
    }

    fn from_tree(alloc: Global, tree: Tree<'de>) -> Result<Level, Error> {
        Level::deserialize(alloc, tree.root())
    }
}

impl Serialize for Level {
    ghost calls = { variant_calls ⟦<Level as Choice>⟧.variants };

    fn serialize(&self, _alloc: Global, ser: &mut Serializer) -> Result<(), WriteError> {
        match self {
            Level::Error => write_variant(ser, self, "error"),
            Level::Warning => write_variant(ser, self, "warning"),
            Level::Everything => write_variant(ser, self, "everything"),
        }
    }
}

impl<'de> Returns<'de> for Level {
    ghost read_back = { variant_back ⟦<Level as Choice>⟧.variants };

    ghost returns = { ⟦<Level as Returns<'static>>⟧.read_back.returns };
}

/// How much may be asked.
#[derive(Debug, Drop)]
pub struct Limits {
    pub requests: u32,
    pub connections: Option<u32>,
}

impl RoundTrip for Limits {
    ghost fields = { strict
        (or ⟦<u32 as Returns<'static>>⟧ "requests" 100 (λ s. s.requests)
        (maybe ⟦<u32 as Returns<'static>>⟧ "connections" (λ s. s.connections)
        done)) };
}

impl Record for Limits {
    ghost fields = { as_read ⟦<Limits as RoundTrip>⟧.fields };
}

impl<'de> Deserialize<'de> for Limits {
    ghost reads = { record_reads ⟦<Limits as Record>⟧.fields };

    ghost faults = { record_faults ⟦<Limits as Record>⟧.fields };

    fn deserialize(alloc: Global, node: Node<'_, 'de>) -> Result<Limits, Error> {
        read_record!(alloc, node, only Limits {
            requests = or("requests", 100),
            connections = maybe("connections"),
        })
    }

    fn from_tree(alloc: Global, tree: Tree<'de>) -> Result<Limits, Error> {
        Limits::deserialize(alloc, tree.root())
    }
}

impl Serialize for Limits {
    ghost calls = { record_calls ⟦<Limits as RoundTrip>⟧.fields };

    ghost holds = { record_holds ⟦<Limits as RoundTrip>⟧.fields };

    fn serialize(&self, _alloc: Global, ser: &mut Serializer) -> Result<(), WriteError> {
        write_record!(ser, self, Limits {
            requests = "requests",
            connections = "connections",
        })
    }
}

impl<'de> Returns<'de> for Limits {
    ghost read_back = { record_back ⟦<Limits as RoundTrip>⟧.fields (λ s. refl) };

    ghost returns = { ⟦<Limits as Returns<'static>>⟧.read_back.returns };
}

impl<'de> Root<'de> for Limits {
    fn from_text(alloc: Global, text: &str) -> Result<Limits, Error> {
        from_str(alloc, text)
    }
}

/// The files of an encrypted connection.
#[derive(Debug, Drop)]
pub struct Tls {
    pub certificate: String,
    pub key: String,
}

impl RoundTrip for Tls {
    ghost fields = { strict
        (needed ⟦<String as Returns<'static>>⟧ "certificate" (λ s. s.certificate)
        (needed ⟦<String as Returns<'static>>⟧ "key" (λ s. s.key)
        done)) };
}

impl Record for Tls {
    ghost fields = { as_read ⟦<Tls as RoundTrip>⟧.fields };
}

impl<'de> Deserialize<'de> for Tls {
    ghost reads = { record_reads ⟦<Tls as Record>⟧.fields };

    ghost faults = { record_faults ⟦<Tls as Record>⟧.fields };

    fn deserialize(alloc: Global, node: Node<'_, 'de>) -> Result<Tls, Error> {
        read_record!(alloc, node, only Tls {
            certificate = needed("certificate"),
            key = needed("key"),
        })
    }

    fn from_tree(alloc: Global, tree: Tree<'de>) -> Result<Tls, Error> {
        Tls::deserialize(alloc, tree.root())
    }
}

impl Serialize for Tls {
    ghost calls = { record_calls ⟦<Tls as RoundTrip>⟧.fields };

    ghost holds = { record_holds ⟦<Tls as RoundTrip>⟧.fields };

    fn serialize(&self, _alloc: Global, ser: &mut Serializer) -> Result<(), WriteError> {
        write_record!(ser, self, Tls {
            certificate = "certificate",
            key = "key",
        })
    }
}

impl<'de> Returns<'de> for Tls {
    ghost read_back = { record_back ⟦<Tls as RoundTrip>⟧.fields (λ s. refl) };

    ghost returns = { ⟦<Tls as Returns<'static>>⟧.read_back.returns };
}

impl<'de> Root<'de> for Tls {
    fn from_text(alloc: Global, text: &str) -> Result<Tls, Error> {
        from_str(alloc, text)
    }
}

/// The settings of a text.
///
/// # Errors
///
/// Those of [`from_str`]; a key that is none of the twelve is an error.
pub fn load(alloc: Global, text: &str) -> Result<Settings, Error>
    ensures { ReadsText ⟦<Settings as Deserialize<'static>>⟧.takes ⟦<Settings as Deserialize<'static>>⟧.reads
        ⟦<Settings as Deserialize<'static>>⟧.faults text.now result }
{
    from_str(alloc, text)
}

/// What is loaded of settings that were saved: exactly the same.
///
/// # Errors
///
/// Those of [`to_string`](basic_toml::to_string).
pub fn save_and_load(alloc: Global, settings: &Settings) -> Result<Settings, Error>
    ensures { ReturnsIt ⟦<Settings as Serialize>⟧.calls ⟦<Settings as Serialize>⟧.gives_up
        ⟦<Settings as Deserialize<'static>>⟧.reads ⟦<Settings as Returns<'static>>⟧.read_back.meant settings.now result }
{
    write_then_read(alloc, settings)
}
