//! Callers of a tokenizer and of a table, proved by their contracts alone.
ghost use Rattle.std.specs.Prelude.{◌≡◌, ◌↔◌, [], codes, drop, option_and_then, IfOk, IsTrue};
ghost use Rattle.basic_toml_tokens.specs.Reading.{text_of};
ghost use Rattle.basic_toml_tokens.specs.Text.{folded};
ghost use Rattle.basic_toml_value.specs.Data.{integer_in, table, Members};
ghost use Rattle.basic_toml_value.specs.Pairs.{value_at};
ghost use Rattle.basic_toml_value.specs.View.{view, entries};
ghost use Rattle.basic_toml.specs.Document.{IsDocument};
ghost use Rattle.basic_toml.specs.Nodes.{data_among};

use basic_toml::from_str;
use basic_toml_tokens::{Error, Span, Token, Tokenizer};
use basic_toml_value::Table;
use std::alloc::Global;

/// The text from where the tokenizer stands.
pub fn rest<'a>(text: &'a str, tokens: &mut Tokenizer<'a>) -> &'a str
    requires { tokens.old.text ≡ text.now }
    ensures rest { result.now ≡ drop tokens.old.offset text.now }
    ensures same { tokens.new ≡ tokens.old }
{
    &text[tokens.current()..]
}

/// The next token of a text that is over: none, whatever memory there is.
#[tactic(auto, using(basic_toml_tokens::proofs::MemoryIsOwed::at_the_end))]
pub fn next_at_the_end<'a>(
    alloc: Global,
    tokens: &mut Tokenizer<'a>,
) -> Result<Option<(Span, Token<'a>)>, Error>
    requires { text_of tokens.old ≡ [] }
    ensures { result ≡ Ok None }
{
    tokens.next(alloc)
}

/// The integer at `port`, if one stands there.
pub fn port_of(settings: &Table) -> Option<i64>
    ensures { result ≡ option_and_then (λ value. integer_in (view value)) (value_at settings.now (codes "port")) }
{
    settings.get("port")?.as_integer()
}

/// The integer at `port` in the document of a text, if one stands there.
#[tactic(auto, using(basic_toml::proofs::TablesHold::tables_hold))]
pub fn port_in(alloc: Global, text: &str) -> Result<Option<i64>, basic_toml::Error>
    ensures { IfOk result (λ port. (members : Members) × IsDocument (folded text.now) (table members)
        × (port ≡ option_and_then integer_in (data_among members (codes "port")))) }
{
    let settings: Table = from_str(alloc, text)?;
    Ok(port_of(&settings))
}

/// Whether two tables hold the same: `==` compares their data, and so the order of their keys too.
#[tactic(auto, using(basic_toml::proofs::TablesHold::tables_hold))]
pub fn hold_the_same(left: &Table, right: &Table) -> bool
    ensures { IsTrue result ↔ (entries left.now ≡ entries right.now) }
{
    left == right
}
