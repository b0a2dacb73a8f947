//! Vectors and maps return where what they hold does.
ghost use Rattle.basic_toml_returns.specs.ArraysReturn.{array_back, array_returned};
ghost use Rattle.basic_toml_returns.specs.MapsReturn.{map_back, map_returned};

use crate::Returns;
use std::collections::BTreeMap;

/// Each element in order.
impl<'de, T: Returns<'de> + Drop> Returns<'de> for Vec<T> {
    ghost read_back = { array_back T.read_back };

    ghost returns = { array_returned T.returns };
}

/// Each value at its key, in the order of the keys.
impl<'de, T: Returns<'de> + Drop> Returns<'de> for BTreeMap<String, T> {
    ghost read_back = { map_back T.read_back };

    ghost returns = { map_returned T.returns };
}
