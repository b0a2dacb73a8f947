//! How far the way of a section and a path go together.
ghost use Rattle.std.specs.Prelude.{◌≡◌, ◌≤◌, [], ◌∷◌, length};
ghost use Rattle.basic_toml_grammar.specs.Steps.{number as number_step};
ghost use Rattle.basic_toml_read.specs.SectionView.{header_texts};
ghost use Rattle.basic_toml_origin.specs.Path.{path_of};
ghost use Rattle.basic_toml_origin.specs.Ways.{further, meets};
ghost use Rattle.basic_toml_origin.specs.declared.ways.Meeting.TheVariants.{Reaches};

use crate::step::Step;
use basic_toml_read::Key;

/// How far the way of a section and a path go together.
#[derive(Clone, Copy)]
pub(crate) enum Meeting {
    /// They part.
    Apart,
    /// The path ends before the way does.
    Passes,
    /// The way ends where so many steps of the path are left.
    Reaches(usize),
}

/// The way of a header, without the number of the element that it adds. An array that stands where so many steps of the
/// path are left has `counts` elements so far.
pub(crate) fn meet(
    header: &[Key<'_>],
    is_array: bool,
    path: &[Step<'_>],
    counts: &[usize],
) -> Meeting
    requires { length path.now ≤ length counts.now }
    ensures { result ≡ meets counts.now is_array (header_texts header.now) (path_of path.now) }
{
    let Some((key, keys)) = header.split_first() else {
        return Meeting::Reaches(path.len());
    };
    let Some((step, rest)) = path.split_first() else {
        return Meeting::Passes;
    };
    if !step.is_key(key.text.as_str()) {
        return Meeting::Apart;
    }
    let elements = counts[rest.len()];
    if elements == 0 || is_array && keys.is_empty() {
        return meet(keys, is_array, rest, counts);
    }
    let Some((step, rest)) = rest.split_first() else {
        return Meeting::Passes;
    };
    if step.is_element(elements - 1) {
        meet(keys, is_array, rest, counts)
    } else {
        Meeting::Apart
    }
}

/// Goes on into the element of a number, where so many steps of the path are left.
pub(crate) fn meet_element(number: usize, path: &[Step<'_>], left: usize) -> Meeting
    requires { left ≤ length path.now }
    ensures { result ≡ further (Reaches left) (number_step number ∷ []) (path_of path.now) }
{
    let Some((step, rest)) = path[path.len() - left..].split_first() else {
        return Meeting::Passes;
    };
    if step.is_element(number) {
        Meeting::Reaches(rest.len())
    } else {
        Meeting::Apart
    }
}
