//! The headers and the keys of a text, by its tokens.
ghost use Rattle.std.specs.Prelude.{◌≡◌, ◌+◌, ◌<◌, ◌^◌, ◌∷◌, [], IfOk, option_map, None};
ghost use Rattle.basic_toml.specs.tokens.Token.{lexeme_of};
ghost use Rattle.check_keys.specs.Rows.{stand_of, item_of, depth_of, stand_after, item_at, start, in_key, behind};
ghost use Rattle.check_keys.specs.declared.rows.Place.TheVariants.{InKey};

use basic_toml::tokens::Token;
use std::alloc::{AllocError, Global};

/// The key of a row.
#[derive(Drop)]
pub struct Key {
    /// The byte offset of its first part.
    pub offset: usize,
    /// Its parts, which periods stand between.
    pub parts: Vec<String>,
}

/// What a line begins with.
#[derive(Drop)]
pub enum Item {
    Header,
    RowKey(Key),
}

/// Where a token stands.
#[derive(Drop)]
pub enum Place {
    /// Where a line may begin.
    Start,
    /// In a key, after these parts.
    InKey(Key),
    /// After that, in so many brackets.
    Behind(usize),
}

/// Where the next token stands, and what this one completes.
pub fn step(
    alloc: Global,
    place: Place,
    offset: usize,
    token: &Token<'_>,
) -> Result<(Place, Option<Item>), AllocError>
    requires { depth_of (stand_of place) + 1 < 2 ^ 64 }
    ensures after { IfOk result (λ pair. stand_of pair.0 ≡ stand_after (stand_of place) offset (lexeme_of token.now)) }
    ensures item { IfOk result (λ pair. option_map item_of pair.1 ≡ item_at (stand_of place) (lexeme_of token.now)) }
{
    match place {
        Place::Start => begin(alloc, offset, token),
        Place::InKey(key) => continue_key(alloc, key, token),
        Place::Behind(depth) => Ok((pass(depth, token), None)),
    }
}

fn begin(
    alloc: Global,
    offset: usize,
    token: &Token<'_>,
) -> Result<(Place, Option<Item>), AllocError>
    ensures after { IfOk result (λ pair. stand_of pair.0 ≡ stand_after start offset (lexeme_of token.now)) }
    ensures item { IfOk result (λ pair. option_map item_of pair.1 ≡ item_at start (lexeme_of token.now)) }
{
    match token {
        Token::Keylike(part) => begin_key(alloc, offset, part),
        Token::String { val, .. } => begin_key(alloc, offset, val.as_str()),
        Token::LeftBracket => Ok((Place::Behind(1), Some(Item::Header))),
        Token::Newline | Token::Whitespace(_) | Token::Comment(_) => Ok((Place::Start, None)),
        _ => Ok((Place::Behind(0), None)),
    }
}

fn begin_key(alloc: Global, offset: usize, part: &str) -> Result<(Place, Option<Item>), AllocError>
    ensures after { IfOk result (λ pair. stand_of pair.0 ≡ in_key offset (part.now ∷ [])) }
    ensures item { IfOk result (λ pair. pair.1 ≡ None) }
{
    let mut parts = Vec::new(alloc);
    parts.push(String::from_str(alloc, part)?)?;
    Ok((Place::InKey(Key { offset, parts }), None))
}

fn continue_key(
    alloc: Global,
    mut key: Key,
    token: &Token<'_>,
) -> Result<(Place, Option<Item>), AllocError>
    ensures after { IfOk result (λ pair. stand_of pair.0 ≡ stand_after (stand_of (InKey key)) 0 (lexeme_of token.now)) }
    ensures item { IfOk result (λ pair. option_map item_of pair.1
        ≡ item_at (stand_of (InKey key)) (lexeme_of token.now)) }
{
    match token {
        Token::Keylike(part) => key.parts.push(String::from_str(alloc, part)?)?,
        Token::String { val, .. } => key.parts.push(String::from_str(alloc, val.as_str())?)?,
        Token::Period | Token::Whitespace(_) => {}
        Token::Equals => return Ok((Place::Behind(0), Some(Item::RowKey(key)))),
        Token::Newline => return Ok((Place::Start, None)),
        _ => return Ok((Place::Behind(0), None)),
    }
    Ok((Place::InKey(key), None))
}

fn pass(depth: usize, token: &Token<'_>) -> Place
    requires { depth + 1 < 2 ^ 64 }
    ensures { stand_of result ≡ stand_after (behind depth) 0 (lexeme_of token.now) }
{
    match token {
        Token::Newline if depth == 0 => Place::Start,
        Token::LeftBracket | Token::LeftBrace => Place::Behind(depth + 1),
        Token::RightBracket | Token::RightBrace => Place::Behind(depth.saturating_sub(1)),
        _ => Place::Behind(depth),
    }
}
