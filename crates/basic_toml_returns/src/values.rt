//! Values and tables return as themselves.
ghost use Rattle.basic_toml_returns.specs.ValuesReturn.{table_back, value_back};

use crate::Returns;
use basic_toml::{Table, Value};

impl<'de> Returns<'de> for Value {
    ghost read_back = { value_back };

    ghost returns = { ⟦<Value as Returns<'static>>⟧.read_back.returns };
}

/// The order of its keys is kept.
impl<'de> Returns<'de> for Table {
    ghost read_back = { table_back };

    ghost returns = { ⟦<Table as Returns<'static>>⟧.read_back.returns };
}
