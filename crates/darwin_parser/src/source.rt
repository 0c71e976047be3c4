//! What every rule needs: memory, and the text in which names stand.

ghost use Rattle.std.specs.Prelude.{◌≡◌, ◌<◌, length, IfOk, OnOk};
ghost use Rattle.darwin_lexer.specs.Tokens.{bytes_of};
ghost use Rattle.darwin_parser.specs.Reading as reading;
ghost use Rattle.darwin_parser.specs.Reading.{Reads};

use crate::cursor::{Stop, Tokens};
use base::Text;
use darwin_lexer::Token;
use std::alloc::{AllocError, Global};

/// Where trees are made, and the text that names are cut from.
#[derive(Clone, Copy)]
pub struct Source<'a> {
    pub alloc: Global,
    pub text: &'a [u8],
}

impl Source<'_> {
    /// The bytes of a token. A span that reaches past the text ends with it.
    pub fn spelling(&self, token: Token) -> Result<Text, AllocError>
        ensures { IfOk result (λ t. t ≡ bytes_of self.now.text.now token) }
    {
        let start = (token.start as usize).min(self.text.len());
        let len = token.end.saturating_sub(token.start) as usize;
        let after = &self.text[start..];
        Text::from_bytes(self.alloc, &after[..len.min(after.len())])
    }

    /// The name that comes next.
    #[tactic(auto, unfolding(crate::specs::Reading::name))]
    pub fn name(&self, tokens: &mut Tokens<'_>) -> Result<Text, Stop>
        ensures reads { Reads (λ x. x) (reading.name self.now.text.now tokens.old.rest.now) result tokens.new.rest.now }
        ensures shorter { OnOk result (length tokens.new.rest.now < length tokens.old.rest.now) }
    {
        let token = tokens.name()?;
        Ok(self.spelling(token)?)
    }
}
