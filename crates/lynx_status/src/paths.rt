//! What a path asks for.
ghost use Rattle.std.specs.Prelude.{◌≡◌, ◌≢◌, ◌<◌, ◌++◌, ◌∷◌, ℕ, true, List, length, Some, IfNone, IfSome, option_map, position};
ghost use Rattle.std.specs.Str.{all_ascii_digits};
ghost use Rattle.lynx_names.specs.declared.chain.ChainId.{ChainId as Chain};
ghost use Rattle.lynx_names.specs.Chain.{chain_text};
ghost use Rattle.lynx_status.specs.Asking.{Fits, FitsChain, chain_path, is_colon, path_of};
ghost use Rattle.lynx_status.specs.declared.asking.Asked.{Asked as Question};

use crate::asking::Asked;
use lynx_lex::number::number;
use lynx_names::limits::MAX_SERVERS;
use lynx_names::{ChainId, ServerId};

const CHAIN: &[u8] = b"/chain/";

/// What follows the words at the front of a text.
pub(crate) fn after<'a>(text: &'a [u8], words: &[u8]) -> Option<&'a [u8]>
    ensures found { IfSome result (λ rest. text.now ≡ words.now ++ rest.now) }
    ensures none { IfNone result ((rest : List ℕ) → text.now ≢ words.now ++ rest) }
{
    text.strip_prefix(words)
}

/// Where the first colon of a word is.
fn place_of_colon(word: &[u8]) -> Option<usize>
    ensures place { result ≡ position is_colon word.now }
    ensures within { IfSome result (λ place. place < length word.now) }
{
    word.iter().position(|byte| *byte == b':')
}

/// What stands before the first colon of a word, and what behind it.
fn halves(word: &[u8]) -> Option<(&[u8], &[u8])>
    ensures found { IfSome result (λ halves. word.now ≡ halves.0.now ++ 58 ∷ halves.1.now) }
    ensures only { (front back : List ℕ) → all_ascii_digits front ≡ true
        → word.now ≡ front ++ 58 ∷ back
        → option_map {U = List ℕ × List ℕ} (λ halves. (halves.0.now, halves.1.now)) result
        ≡ Some (front, back) }
{
    let colon = place_of_colon(word)?;
    Some((&word[..colon], &word[colon + 1..]))
}

/// The chain that a word spells: its origin, a colon and its index.
fn chain_in(word: &[u8]) -> Option<ChainId>
    ensures found { IfSome result (λ chain. FitsChain chain × (word.now ≡ chain_text chain)) }
    ensures only { (chain : Chain) → FitsChain chain → word.now ≡ chain_text chain
        → result ≡ Some chain }
{
    let (origin, index) = halves(word)?;
    let origin = number(origin)?;
    let index = number(index)?;
    let origin = ServerId::among(MAX_SERVERS, origin)?;
    Some(ChainId { origin, index })
}

/// The chain that a path asks for.
fn chain_at(path: &[u8]) -> Option<ChainId>
    ensures found { IfSome result (λ chain. FitsChain chain × (path.now ≡ chain_path chain)) }
    ensures only { (chain : Chain) → FitsChain chain → path.now ≡ chain_path chain
        → result ≡ Some chain }
{
    chain_in(after(path, CHAIN)?)
}

/// What a path asks for.
pub(crate) fn asked_at(path: &[u8]) -> Option<Asked>
    ensures found { IfSome result (λ asked. Fits asked × (path.now ≡ path_of asked)) }
    ensures only { (asked : Question) → Fits asked → path.now ≡ path_of asked
        → result ≡ Some asked }
{
    if path == b"/healthz".as_slice() {
        Some(Asked::Health)
    } else if path == b"/metrics".as_slice() {
        Some(Asked::Metrics)
    } else if path == b"/status".as_slice() {
        Some(Asked::Status)
    } else if path == b"/set".as_slice() {
        Some(Asked::Set)
    } else {
        Some(Asked::Chain(chain_at(path)?))
    }
}
