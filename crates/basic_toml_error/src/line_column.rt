//! Lines and columns.
ghost use Rattle.std.specs.Prelude.{◌≡◌, ◌≤◌, ◌<◌, ◌^◌, ◌+◌, length, take, option_map};
ghost use Rattle.std.specs.Option.{ForSome};
ghost use Rattle.basic_toml_error.specs.LineColumn.{line_at, column_at};

/// The bytes before an offset, all of them where the text ends before it.
fn before(text: &str, offset: usize) -> &[u8]
    ensures { result.now ≡ take offset text.now }
{
    match text.as_bytes().get(..offset) {
        Some(front) => front,
        None => text.as_bytes(),
    }
}

/// The line of an offset in a text, from 0.
fn line_at(text: &str, offset: usize) -> usize
    ensures line { result ≡ line_at text.now offset }
    ensures bound { result ≤ length text.now }
{
    before(text, offset).iter().filter(|b| **b == b'\n').count()
}

/// The column of an offset in a text: how many bytes stand before it on its line.
fn column_at(text: &str, offset: usize) -> usize
    ensures column { result ≡ column_at text.now offset }
    ensures bound { result ≤ length text.now }
{
    before(text, offset)
        .iter()
        .rev()
        .take_while(|b| **b != b'\n')
        .count()
}

/// The line and the column of a byte offset in a text, both from 0; a column counts bytes. An offset past the end is
/// taken for the end.
///
/// `line_col("a\nbc", 3)` is `(1, 1)`, as `toml_vectors` has it. By it the program `check_keys` tells where a
/// token stands.
pub fn line_col(text: &str, offset: usize) -> (usize, usize)
    ensures at { result ≡ (line_at text.now offset, column_at text.now offset) }
    ensures room { (result.0 + 1 < 2 ^ 64) × (result.1 + 1 < 2 ^ 64) }
{
    (line_at(text, offset), column_at(text, offset))
}

/// The line and the column of an offset in a text, if there is one; each leaves room for counting from 1.
pub(crate) fn line_column_of(text: &str, offset: Option<usize>) -> Option<(usize, usize)>
    ensures at { result ≡ option_map (λ at. (line_at text.now at, column_at text.now at)) offset }
    ensures room { ForSome result (λ at. (at.0 + 1 < 2 ^ 64) × (at.1 + 1 < 2 ^ 64)) }
{
    match offset {
        Some(offset) => Some(line_col(text, offset)),
        None => None,
    }
}
