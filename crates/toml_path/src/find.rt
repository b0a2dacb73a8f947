//! The value at the end of a path.
ghost use Rattle.std.specs.Prelude.{◌≡◌, map, option_map};
ghost use Rattle.basic_toml_value.specs.View.{view};
ghost use Rattle.toml_path.specs.Path.{step_of};
ghost use Rattle.toml_path.specs.Find as spec;

use crate::path::Step;
use basic_toml_value::Value;

/// The value at the end of these steps from a value on; `None` where nothing stands there.
pub fn value_at<'t>(value: &'t Value, steps: &[Step<'_>]) -> Option<&'t Value>
    ensures { option_map (λ found. view found.now) result ≡ spec.data_at (view value.now) (map step_of steps.now) }
{
    let Some((step, steps)) = steps.split_first() else {
        return Some(value);
    };
    let next = after(value, step)?;
    value_at(next, steps)
}

// The value a step ahead.
fn after<'t>(value: &'t Value, step: &Step<'_>) -> Option<&'t Value>
    ensures { option_map (λ found. view found.now) result ≡ spec.after (view value.now) (step_of step.now) }
{
    match step {
        Step::Key(key) => match value.as_table() {
            Some(table) => table.get(key.as_str()),
            None => None,
        },
        Step::Element(number) => match value.as_array() {
            Some(values) => values.get(*number),
            None => None,
        },
    }
}
