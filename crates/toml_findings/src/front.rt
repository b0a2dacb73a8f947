//! The text that bytes begin with.
ghost use Rattle.std.specs.Prelude.{◌≡◌};
ghost use Rattle.toml_findings.specs.Findings.{valid_front};

/// The longest text that the bytes begin with.
#[tactic(auto, using(crate::proofs::FoundParts::front_is_taken))]
pub fn valid_front(input: &[u8]) -> &str
    ensures { result.now ≡ valid_front input.now }
{
    match input.utf8_chunks().next() {
        Some(chunk) => chunk.valid(),
        None => "",
    }
}
