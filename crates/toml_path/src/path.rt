//! A path in words: its steps.
ghost use Rattle.std.specs.Prelude.{◌≡◌, ◌↔◌, ◌++◌, ◌∷◌, [], IsTrue, IfOk, OnOk, Some, option_map};
ghost use Rattle.std.specs.Cow.{cow_str_bytes};
ghost use Rattle.basic_toml_tokens.specs.Token.{TokenAt, lexeme_of};
ghost use Rattle.basic_toml_tokens.specs.Tokenizer.{key_of};
ghost use Rattle.toml_path.specs.declared.path.Sign.TheVariants.{Close};
ghost use Rattle.toml_path.specs.Path.{Answers, AnswersSteps, IsStepAt, IsElementAt, IsAt, sign_of, number_of, natural, step_of};

use basic_toml_numbers::integer_of;
use basic_toml_tokens::{Error, Token, Tokenizer};
use std::alloc::{AllocError, Global};
use std::borrow::CowStr;

/// A step of a path.
#[derive(Debug, Drop)]
pub enum Step<'p> {
    /// To the value at this key of a table.
    Key(CowStr<'p>),
    /// To the element of an array that has this number, counted from 0.
    Element(usize),
}

/// Why a path has no steps.
#[derive(Clone, Copy, Debug, PartialEq, Eq)]
pub enum PathError {
    /// It is malformed.
    Malformed,
    /// Memory was refused.
    OutOfMemory,
}

impl From<AllocError> for PathError {
    ghost use Rattle.toml_path.specs.declared.path.PathError.TheVariants.{OutOfMemory};

    ghost from_gives = { λ _ e. e ≡ OutOfMemory };

    fn from(_error: AllocError) -> PathError {
        PathError::OutOfMemory
    }
}

/// The steps of a path: a key, and then keys after periods and numbers of elements between brackets. The empty path has
/// none.
///
/// Keys are TOML's (v0.5.0, "Keys"): bare, or between quotes with what escapes they have. No blanks stand in between.
///
/// # Errors
///
/// `Malformed` where the text is no path, and want of memory.
pub fn steps_of<'p>(alloc: Global, path: &'p str) -> Result<Vec<Step<'p>>, PathError>
    ensures { AnswersSteps path.now result }
{
    let mut steps = Vec::new(alloc);
    if path.is_empty() {
        return Ok(steps);
    }
    let mut tokens = Tokenizer::at(path, 0);
    let Some(first) = key(alloc, &mut tokens)? else {
        return Err(PathError::Malformed);
    };
    push(&mut steps, Step::Key(first))?;
    while tokens.current() != path.len() {
        let Some(step) = next_step(alloc, &mut tokens)? else {
            return Err(PathError::Malformed);
        };
        push(&mut steps, step)?;
    }
    Ok(steps)
}

fn push<'p>(steps: &mut Vec<Step<'p>>, step: Step<'p>) -> Result<(), AllocError>
    ensures { OnOk result (steps.new.items ≡ steps.old.items ++ step.entry ∷ []) }
{
    steps.push(step)?;
    Ok(())
}

// The step that stands there.
fn next_step<'p>(alloc: Global, tokens: &mut Tokenizer<'p>) -> Result<Option<Step<'p>>, AllocError>
    ensures { IfOk result (λ found. Answers IsStepAt tokens.old.text tokens.old.offset tokens.new
        (option_map step_of found)) }
{
    match next_sign(alloc, tokens)? {
        Some(Sign::Period) => match key(alloc, tokens)? {
            Some(key) => Ok(Some(Step::Key(key))),
            None => Ok(None),
        },
        Some(Sign::Open) => match element(alloc, tokens)? {
            Some(number) => Ok(Some(Step::Element(number))),
            None => Ok(None),
        },
        Some(Sign::Close) => Ok(None),
        None => Ok(None),
    }
}

// The number of an element, and the bracket behind it.
fn element(alloc: Global, tokens: &mut Tokenizer<'_>) -> Result<Option<usize>, AllocError>
    ensures { IfOk result (λ found. Answers IsElementAt tokens.old.text tokens.old.offset tokens.new found) }
{
    let Some(number) = number(alloc, tokens)? else {
        return Ok(None);
    };
    if is_close(next_sign(alloc, tokens)?) {
        Ok(Some(number))
    } else {
        Ok(None)
    }
}

fn is_close(sign: Option<Sign>) -> bool
    ensures { IsTrue result ↔ (sign ≡ Some Close) }
{
    matches!(sign, Some(Sign::Close))
}

// A period or a bracket.
#[derive(Clone, Copy)]
enum Sign {
    Period,
    Open,
    Close,
}

fn next_sign(alloc: Global, tokens: &mut Tokenizer<'_>) -> Result<Option<Sign>, AllocError>
    ensures { IfOk result (λ found. Answers (IsAt sign_of) tokens.old.text tokens.old.offset tokens.new found) }
{
    match token(alloc, tokens)? {
        Some(token) => Ok(sign_in(&token)),
        None => Ok(None),
    }
}

fn sign_in(token: &Token<'_>) -> Option<Sign>
    ensures { result ≡ sign_of (lexeme_of token.now) }
{
    match token {
        Token::Period => Some(Sign::Period),
        Token::LeftBracket => Some(Sign::Open),
        Token::RightBracket => Some(Sign::Close),
        _ => None,
    }
}

fn key<'p>(alloc: Global, tokens: &mut Tokenizer<'p>) -> Result<Option<CowStr<'p>>, AllocError>
    ensures { IfOk result (λ found. Answers (IsAt key_of) tokens.old.text tokens.old.offset tokens.new
        (option_map cow_str_bytes found)) }
{
    match token(alloc, tokens)? {
        Some(token) => Ok(key_in(token)),
        None => Ok(None),
    }
}

// A bare key, or a string on one line.
fn key_in(token: Token<'_>) -> Option<CowStr<'_>>
    ensures { option_map cow_str_bytes result ≡ key_of (lexeme_of token.entry) }
{
    match token {
        Token::Keylike(key) => Some(CowStr::Borrowed(key)),
        Token::String { val, multiline, .. } if !multiline => Some(val),
        _ => None,
    }
}

fn number(alloc: Global, tokens: &mut Tokenizer<'_>) -> Result<Option<usize>, AllocError>
    ensures { IfOk result (λ found. Answers (IsAt number_of) tokens.old.text tokens.old.offset tokens.new found) }
{
    match token(alloc, tokens)? {
        Some(token) => Ok(number_in(&token)),
        None => Ok(None),
    }
}

fn number_in(token: &Token<'_>) -> Option<usize>
    ensures { result ≡ number_of (lexeme_of token.now) }
{
    match token {
        Token::Keylike(digits) => natural(integer_of(digits)),
        _ => None,
    }
}

fn natural(integer: Option<i64>) -> Option<usize>
    ensures { result ≡ natural integer }
{
    match integer {
        Some(number) if number >= 0 => Some(number as usize),
        _ => None,
    }
}

// The token that stands there.
fn token<'p>(alloc: Global, tokens: &mut Tokenizer<'p>) -> Result<Option<Token<'p>>, AllocError>
    ensures { IfOk result (λ found. Answers TokenAt tokens.old.text tokens.old.offset tokens.new
        (option_map lexeme_of found)) }
{
    match tokens.next(alloc) {
        Ok(Some((_, token))) => Ok(Some(token)),
        Err(Error::OutOfMemory) => Err(AllocError),
        Ok(None) | Err(_) => Ok(None),
    }
}
