//! Statements: instances, bindings, and the bodies of `forall` and `when`.

ghost use Rattle.std.specs.Prelude.{◌≡◌, ◌<◌, length, map, option_map, IfOk, OnOk};
ghost use Rattle.darwin_lexer.specs.Tokens.{bytes_of};
ghost use Rattle.darwin_lexer.specs.declared.token.TokenKind.TheVariants as kinds;
ghost use Rattle.darwin_parser.specs.Tree.{expr_of, entry_of, end_of, binding_of, stmt_of};
ghost use Rattle.darwin_parser.specs.Reading as reading;
ghost use Rattle.darwin_parser.specs.Reading.{Reads};

use crate::cursor::{Stop, Tokens};
use crate::source::Source;
use crate::tree::{BindEntry, Expr, InstEntry, PortRef, Stmt};
use base::Text;
use darwin_lexer::{Keyword, Sign, Token, TokenKind};

/// In how many bodies of `forall` and `when` a statement may stand.
pub const MAX_STATEMENT_NESTING: usize = 16;

impl Source<'_> {
    /// The entries of a list, each as a statement, or a single `forall` or `when`.
    #[cycle(statement)]
    pub fn statement(&self, tokens: &mut Tokens<'_>, nesting: usize) -> Result<Vec<Stmt>, Stop>
        ensures reads { Reads (λ v. map stmt_of v.items)
            (reading.statement self.now.text.now 32 nesting tokens.old.rest.now) result tokens.new.rest.now }
        ensures shorter { OnOk result (length tokens.new.rest.now < length tokens.old.rest.now) }
    {
        if tokens.sees_block() {
            self.block(tokens, nesting)
        } else {
            self.listing(tokens)
        }
    }

    /// A `forall` or a `when`, where it may still nest.
    #[cycle(statement)]
    fn block(&self, tokens: &mut Tokens<'_>, nesting: usize) -> Result<Vec<Stmt>, Stop>
        ensures reads { Reads (λ v. map stmt_of v.items)
            (reading.block self.now.text.now 32 nesting tokens.old.rest.now) result tokens.new.rest.now }
        ensures shorter { OnOk result (length tokens.new.rest.now < length tokens.old.rest.now) }
    {
        if nesting == 0 {
            return Err(tokens.too_nested());
        }
        self.block_over(tokens, nesting - 1)
    }

    #[cycle(statement)]
    #[tactic(auto, unfolding(crate::specs::Reading::block_over))]
    fn block_over(&self, tokens: &mut Tokens<'_>, nesting: usize) -> Result<Vec<Stmt>, Stop>
        ensures reads { Reads (λ v. map stmt_of v.items) (reading.block_over self.now.text.now
            32 (reading.statement self.now.text.now 32 nesting) tokens.old.rest.now) result tokens.new.rest.now }
        ensures shorter { OnOk result (length tokens.new.rest.now < length tokens.old.rest.now) }
    {
        let stmt = if tokens.sees_word(Keyword::Forall) {
            self.forall(tokens, nesting)?
        } else {
            self.when(tokens, nesting)?
        };
        let mut stmts = Vec::new(self.alloc);
        stmts.push(stmt)?;
        Ok(stmts)
    }

    /// `"forall" NAME ":" expr ".." expr body`
    #[cycle(statement)]
    #[tactic(auto, unfolding(crate::specs::Reading::forall_over))]
    fn forall(&self, tokens: &mut Tokens<'_>, nesting: usize) -> Result<Stmt, Stop>
        ensures reads { Reads stmt_of (reading.forall_over self.now.text.now 32
            (reading.statement self.now.text.now 32 nesting) tokens.old.rest.now) result tokens.new.rest.now }
        ensures shorter { OnOk result (length tokens.new.rest.now < length tokens.old.rest.now) }
    {
        let at = tokens.word(Keyword::Forall)?.at;
        let var = self.name(tokens)?;
        tokens.sign(Sign::Colon)?;
        let low = self.expr(tokens)?;
        tokens.sign(Sign::DotDot)?;
        let high = self.expr(tokens)?;
        let body = self.body(tokens, nesting)?;
        Ok(Stmt::Forall {
            var,
            low,
            high,
            body,
            at,
        })
    }

    /// `"when" expr body`
    #[cycle(statement)]
    #[tactic(auto, unfolding(crate::specs::Reading::when_over))]
    fn when(&self, tokens: &mut Tokens<'_>, nesting: usize) -> Result<Stmt, Stop>
        ensures reads { Reads stmt_of (reading.when_over self.now.text.now 32
            (reading.statement self.now.text.now 32 nesting) tokens.old.rest.now) result tokens.new.rest.now }
        ensures shorter { OnOk result (length tokens.new.rest.now < length tokens.old.rest.now) }
    {
        let at = tokens.word(Keyword::When)?.at;
        let test = self.expr(tokens)?;
        let body = self.body(tokens, nesting)?;
        Ok(Stmt::When { test, body, at })
    }

    /// `"{" { statement } "}" | statement`
    #[cycle(statement)]
    #[tactic(auto, unfolding(crate::specs::Reading::body_over, crate::specs::Reading::after))]
    fn body(&self, tokens: &mut Tokens<'_>, nesting: usize) -> Result<Vec<Stmt>, Stop>
        ensures reads { Reads (λ v. map stmt_of v.items) (reading.body_over
            (reading.statement self.now.text.now 32 nesting) tokens.old.rest.now) result tokens.new.rest.now }
        ensures shorter { OnOk result (length tokens.new.rest.now < length tokens.old.rest.now) }
    {
        if tokens.eat(Sign::OpenBrace) {
            self.block_body(tokens, nesting)
        } else {
            self.statement(tokens, nesting)
        }
    }

    /// `{ statement } "}"`
    #[cycle(statement)]
    fn block_body(&self, tokens: &mut Tokens<'_>, nesting: usize) -> Result<Vec<Stmt>, Stop>
        ensures reads { Reads (λ v. map stmt_of v.items) (reading.block_body
            (reading.statement self.now.text.now 32 nesting) tokens.old.rest.now) result tokens.new.rest.now }
        ensures shorter { OnOk result (length tokens.new.rest.now < length tokens.old.rest.now) }
    {
        let mut body = Vec::new(self.alloc);
        'more: while !tokens.eat(Sign::CloseBrace) {
            let mut stmts = self.statement(tokens, nesting)?;
            body.append(&mut stmts)?;
        }
        Ok(body)
    }

    #[tactic(auto, unfolding(crate::specs::Reading::listing))]
    fn listing(&self, tokens: &mut Tokens<'_>) -> Result<Vec<Stmt>, Stop>
        ensures reads { Reads (λ v. map stmt_of v.items) (reading.listing self.now.text.now 32 tokens.old.rest.now)
            result tokens.new.rest.now }
        ensures shorter { OnOk result (length tokens.new.rest.now < length tokens.old.rest.now) }
    {
        if tokens.sees_word(Keyword::Inst) {
            self.instances(tokens)
        } else {
            self.bindings(tokens)
        }
    }

    /// `"inst" instentry { instentry }`
    #[tactic(auto, unfolding(crate::specs::Reading::instances))]
    fn instances(&self, tokens: &mut Tokens<'_>) -> Result<Vec<Stmt>, Stop>
        ensures reads { Reads (λ v. map stmt_of v.items) (reading.instances self.now.text.now 32 tokens.old.rest.now)
            result tokens.new.rest.now }
        ensures shorter { OnOk result (length tokens.new.rest.now < length tokens.old.rest.now) }
    {
        tokens.word(Keyword::Inst)?;
        let mut stmts = Vec::new(self.alloc);
        'more: loop {
            stmts.push(Stmt::Inst(self.instance(tokens)?))?;
            if !tokens.sees(TokenKind::Name) {
                return Ok(stmts);
            }
        }
    }

    /// `NAME ":" NAME [ args ] ";" | NAME "[" expr "]" [ args ] ";"`
    #[tactic(auto, unfolding(crate::specs::Reading::instentry, crate::specs::Reading::after))]
    fn instance(&self, tokens: &mut Tokens<'_>) -> Result<InstEntry, Stop>
        ensures reads { Reads entry_of (reading.instentry self.now.text.now 32 tokens.old.rest.now) result
            tokens.new.rest.now }
        ensures shorter { OnOk result (length tokens.new.rest.now < length tokens.old.rest.now) }
    {
        let name = tokens.name()?;
        if tokens.eat(Sign::Colon) {
            self.single(tokens, name)
        } else {
            self.element(tokens, name)
        }
    }

    #[tactic(auto, unfolding(crate::specs::Reading::single_after))]
    fn single(&self, tokens: &mut Tokens<'_>, name: Token) -> Result<InstEntry, Stop>
        ensures reads { Reads entry_of (reading.single_after self.now.text.now 32 name tokens.old.rest.now)
            result tokens.new.rest.now }
        ensures shorter { OnOk result (length tokens.new.rest.now < length tokens.old.rest.now) }
    {
        let component = self.name(tokens)?;
        let args = self.last_args(tokens)?;
        Ok(InstEntry::Single {
            name: self.spelling(name)?,
            component,
            args: args.unwrap_or(Vec::new(self.alloc)),
            at: name.at,
        })
    }

    #[tactic(auto, unfolding(crate::specs::Reading::element_after))]
    fn element(&self, tokens: &mut Tokens<'_>, array: Token) -> Result<InstEntry, Stop>
        ensures reads { Reads entry_of (reading.element_after self.now.text.now 32 array tokens.old.rest.now)
            result tokens.new.rest.now }
        ensures shorter { OnOk result (length tokens.new.rest.now < length tokens.old.rest.now) }
    {
        let index = self.bracketed(tokens)?;
        let args = self.last_args(tokens)?;
        Ok(InstEntry::Element {
            array: self.spelling(array)?,
            index,
            args,
            at: array.at,
        })
    }

    /// `"bind" bindentry { bindentry }`
    #[tactic(auto, unfolding(crate::specs::Reading::bindings))]
    fn bindings(&self, tokens: &mut Tokens<'_>) -> Result<Vec<Stmt>, Stop>
        ensures reads { Reads (λ v. map stmt_of v.items) (reading.bindings self.now.text.now 32 tokens.old.rest.now)
            result tokens.new.rest.now }
        ensures shorter { OnOk result (length tokens.new.rest.now < length tokens.old.rest.now) }
    {
        tokens.word(Keyword::Bind)?;
        let mut stmts = Vec::new(self.alloc);
        'more: loop {
            stmts.push(Stmt::Bind(self.binding(tokens)?))?;
            if !tokens.sees(TokenKind::Name) {
                return Ok(stmts);
            }
        }
    }

    /// `end "--" end ";"`
    #[tactic(auto, unfolding(crate::specs::Reading::bindentry))]
    fn binding(&self, tokens: &mut Tokens<'_>) -> Result<BindEntry, Stop>
        ensures reads { Reads binding_of (reading.bindentry self.now.text.now 32 tokens.old.rest.now) result
            tokens.new.rest.now }
        ensures shorter { OnOk result (length tokens.new.rest.now < length tokens.old.rest.now) }
    {
        let (first, left) = self.end_before(tokens, Sign::DashDash)?;
        let (_, right) = self.end_before(tokens, Sign::Semicolon)?;
        Ok(BindEntry {
            left,
            right,
            at: first.at,
        })
    }

    /// An end, with its first token, and this sign after it.
    #[tactic(auto, unfolding(crate::specs::Reading::end_before))]
    fn end_before(&self, tokens: &mut Tokens<'_>, sign: Sign) -> Result<(Token, PortRef), Stop>
        ensures reads { Reads (λ p. (p.0, end_of p.1)) (reading.end_before self.now.text.now 32 (kinds.Sign sign)
            tokens.old.rest.now) result tokens.new.rest.now }
        ensures shorter { OnOk result (length tokens.new.rest.now < length tokens.old.rest.now) }
    {
        let end = self.end(tokens)?;
        tokens.sign(sign)?;
        Ok(end)
    }

    /// `[ NAME [ "[" expr "]" ] "." ] NAME [ "[" expr "]" ]`, with its first token.
    #[tactic(auto, unfolding(crate::specs::Reading::bind_end, crate::specs::Reading::after))]
    fn end(&self, tokens: &mut Tokens<'_>) -> Result<(Token, PortRef), Stop>
        ensures reads { Reads (λ p. (p.0, end_of p.1)) (reading.bind_end self.now.text.now 32 tokens.old.rest.now)
            result tokens.new.rest.now }
        ensures shorter { OnOk result (length tokens.new.rest.now < length tokens.old.rest.now) }
    {
        let (first, name, index) = self.port_end(tokens)?;
        if !tokens.eat(Sign::Dot) {
            let end = PortRef {
                inst: None,
                inst_index: None,
                port: name,
                port_index: index,
            };
            return Ok((first, end));
        }
        let (_, port, port_index) = self.port_end(tokens)?;
        let end = PortRef {
            inst: Some(name),
            inst_index: index,
            port,
            port_index,
        };
        Ok((first, end))
    }

    /// `NAME [ "[" expr "]" ]`, with the token of the name.
    #[tactic(auto, unfolding(crate::specs::Reading::port_end))]
    fn port_end(&self, tokens: &mut Tokens<'_>) -> Result<(Token, Text, Option<Expr>), Stop>
        ensures reads { Reads (λ p. (p.0, option_map expr_of p.2))
            (reading.port_end self.now.text.now 32 tokens.old.rest.now) result tokens.new.rest.now }
        ensures named { IfOk result (λ p. p.1 ≡ bytes_of self.now.text.now p.0) }
        ensures shorter { OnOk result (length tokens.new.rest.now < length tokens.old.rest.now) }
    {
        let token = tokens.name()?;
        let name = self.spelling(token)?;
        let index = self.index(tokens)?;
        Ok((token, name, index))
    }
}
