// Tokens.
ghost use Rattle.std.specs.Prelude.{All};
ghost use Rattle.yw_lex.specs.Tokens.{StandsIn};

use crate::said::{add_debug, add_quoted};
use std::alloc::{AllocError, Global};
use yw_lex::{Token, Word, lex};

/// More tokens than these are counted alone.
const MOST_TOKENS: usize = 40;

fn letter(word: Word) -> char {
    match word {
        Word::Number => 'N',
        Word::Text => 'T',
        Word::Name => 'A',
        Word::Reserved => 'R',
        Word::Sign => 'S',
    }
}

/// Each token as a letter for its kind and its two places, a text with what stands between its quotes.
fn add_tokens(text: &str, tokens: &[Token], out: &mut String) -> Result<(), AllocError>
    requires { All (StandsIn text.now) tokens.now }
{
    for token in tokens {
        let letter = letter(token.word);
        write!(out, "{letter}{}-{}", token.from, token.to)?;
        if token.word == Word::Text {
            add_quoted(out, token.between_quotes(text))?;
        }
        out.push(';')?;
    }
    Ok(())
}

/// The tokens of a text.
pub(crate) fn lexed(alloc: Global, text: &str, out: &mut String) -> Result<(), AllocError> {
    match lex(alloc, text) {
        Err(fault) => add_debug(out, &fault),
        Ok(tokens) => {
            if tokens.len() > MOST_TOKENS {
                return write!(out, "{} tokens", tokens.len());
            }
            add_tokens(text, tokens.as_slice(), out)
        }
    }
}
