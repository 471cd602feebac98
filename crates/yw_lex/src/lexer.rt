// The tokens of a text.
ghost use Rattle.std.specs.Prelude.{◌≡◌, ◌⊎◌, ℕ, List, length, All, Err, IfOk, MatchResult};
ghost use Rattle.yw_lex.specs.Tokens.{AreInOrder, AreTokens, IsFault, StandsIn, StopsAt, is_blank};
ghost use Rattle.yw_lex.specs.declared.token.Token.{Token};

use crate::scan::first_token;
use crate::{LexFault, Token, TokenList};
use std::alloc::Global;
use yw_base::Items;

fn is_blank(byte: u8) -> bool
    ensures { result ≡ is_blank byte }
{
    byte == b' ' || byte == b'\t' || byte == b'\n'
}

/// The tokens of a text's bytes. Each byte is looked at a bounded number of times.
fn tokens_of(alloc: Global, bytes: &[u8]) -> Result<TokenList, LexFault>
    ensures { MatchResult result (AreTokens 0 bytes.now) (IsFault bytes.now) }
{
    let mut tokens = Items::new(alloc);
    let mut at = 0;
    'tokens: while at < bytes.len() {
        if is_blank(bytes[at]) {
            at += 1;
            continue;
        }
        let Some((word, len)) = first_token(&bytes[at..]) else {
            return Err(LexFault::At(at));
        };
        tokens.push(Token {
            word,
            from: at,
            to: at + len,
        })?;
        at += len;
    }
    Ok(tokens)
}

/// The tokens of a text: at each place the longest run of bytes that is one, and blanks between them, which
/// are space, tab and newline. It is `At` with the first place where no token begins, and `Memory` only where
/// no memory was left.
pub fn lex(alloc: Global, text: &str) -> Result<TokenList, LexFault>
    // What is found are the text's tokens.
    ensures ok { IfOk result (AreTokens 0 text.now) }
    // Each is spelled by its slice of the text.
    ensures slices { IfOk result (All (StandsIn text.now)) }
    ensures order { IfOk result (λ tokens. AreInOrder 0 tokens (length text.now)) }
    // A text has one list of tokens at most, which is found unless no memory is left.
    ensures only { (tokens : List Token) → AreTokens 0 text.now tokens → MatchResult result (λ found. found ≡ tokens) (λ fault. fault ≡ LexFault.Memory) }
    ensures at { (place : ℕ) → result ≡ Err (LexFault.At place) → StopsAt 0 text.now place }
    // It stops at one place at most, which is told unless no memory is left.
    ensures stops { (place : ℕ) → StopsAt 0 text.now place → (result ≡ Err (LexFault.At place)) ⊎ (result ≡ Err LexFault.Memory) }
{
    tokens_of(alloc, text.as_bytes())
}
