//! The settings of a server.
use serde::{Deserialize, Serialize};

/// Where a server listens, and where its messages go. No other keys are allowed.
#[derive(Drop, Serialize, Deserialize)]
#[serde(deny_unknown_fields)]
pub struct Settings<'a> {
    pub host: &'a str,
    #[serde(default = "default_port")]
    pub port: u16,
    pub timeout: Option<f64>,
    #[serde(borrow)]
    pub outputs: Vec<Output<'a>>,
}

/// Where messages go; the key `kind` tells the cases apart.
#[derive(Drop, Serialize, Deserialize)]
#[serde(tag = "kind", rename_all = "kebab-case")]
pub enum Output<'a> {
    File { path: &'a str },
    StandardError,
}

fn default_port() -> u16 {
    8080
}
