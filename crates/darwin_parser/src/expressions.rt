//! Expressions. Chains of one level group to the left, and comparisons don't chain.

ghost use Rattle.std.specs.Prelude.{◌≡◌, ◌<◌, ◌≤◌, length, map, option_map, IfOk, OnOk};
ghost use Rattle.darwin_parser.specs.Tree.{expr_of};
ghost use Rattle.darwin_parser.specs.Tree as tree;
ghost use Rattle.darwin_parser.specs.Reading as reading;
ghost use Rattle.darwin_parser.specs.Reading.{Reads};

use crate::cursor::{Level, Stop, Tokens};
use crate::source::Source;
use crate::tree::{Expr, Op};
use darwin_lexer::{Sign, TokenKind};
use std::alloc::AllocError;

/// In how many parentheses and minus signs an operand may stand.
pub const MAX_OPERAND_NESTING: usize = 32;

impl Source<'_> {
    #[tactic(auto, unfolding(crate::specs::Reading::expr, crate::specs::Reading::expr_over))]
    pub fn expr(&self, tokens: &mut Tokens<'_>) -> Result<Expr, Stop>
        ensures reads { Reads expr_of (reading.expr self.now.text.now 32 tokens.old.rest.now) result
            tokens.new.rest.now }
        ensures shorter { OnOk result (length tokens.new.rest.now < length tokens.old.rest.now) }
    {
        self.chain(tokens, Level::Or, MAX_OPERAND_NESTING)
    }

    /// `"[" expr "]"`
    #[tactic(auto, unfolding(crate::specs::Reading::bracketed))]
    pub fn bracketed(&self, tokens: &mut Tokens<'_>) -> Result<Expr, Stop>
        ensures reads { Reads expr_of (reading.bracketed self.now.text.now 32 tokens.old.rest.now) result
            tokens.new.rest.now }
        ensures shorter { OnOk result (length tokens.new.rest.now < length tokens.old.rest.now) }
    {
        tokens.sign(Sign::OpenBracket)?;
        let index = self.expr(tokens)?;
        tokens.sign(Sign::CloseBracket)?;
        Ok(index)
    }

    /// `[ "[" expr "]" ]`
    #[tactic(auto, unfolding(crate::specs::Reading::index))]
    pub fn index(&self, tokens: &mut Tokens<'_>) -> Result<Option<Expr>, Stop>
        ensures reads { Reads (option_map expr_of) (reading.index self.now.text.now 32 tokens.old.rest.now)
            result tokens.new.rest.now }
        ensures shorter { OnOk result (length tokens.new.rest.now ≤ length tokens.old.rest.now) }
    {
        if !tokens.sees_sign(Sign::OpenBracket) {
            return Ok(None);
        }
        Ok(Some(self.bracketed(tokens)?))
    }

    /// `expr {"," expr}`
    #[tactic(auto, unfolding(crate::specs::Reading::exprs))]
    fn exprs(&self, tokens: &mut Tokens<'_>) -> Result<Vec<Expr>, Stop>
        ensures reads { Reads (λ v. map expr_of v.items) (reading.exprs self.now.text.now 32 tokens.old.rest.now)
            result tokens.new.rest.now }
        ensures shorter { OnOk result (length tokens.new.rest.now < length tokens.old.rest.now) }
    {
        let mut exprs = Vec::new(self.alloc);
        'more: loop {
            exprs.push(self.expr(tokens)?)?;
            if !tokens.eat(Sign::Comma) {
                return Ok(exprs);
            }
        }
    }

    /// `"(" [ expr {"," expr} ] ")"`
    #[tactic(auto, unfolding(crate::specs::Reading::arg_list, crate::specs::Reading::after))]
    fn arg_list(&self, tokens: &mut Tokens<'_>) -> Result<Vec<Expr>, Stop>
        ensures reads { Reads (λ v. map expr_of v.items) (reading.arg_list self.now.text.now 32 tokens.old.rest.now)
            result tokens.new.rest.now }
        ensures shorter { OnOk result (length tokens.new.rest.now < length tokens.old.rest.now) }
    {
        tokens.sign(Sign::OpenParen)?;
        if tokens.eat(Sign::CloseParen) {
            return Ok(Vec::new(self.alloc));
        }
        let args = self.exprs(tokens)?;
        tokens.sign(Sign::CloseParen)?;
        Ok(args)
    }

    /// `[ args ]`
    #[tactic(auto, unfolding(crate::specs::Reading::args))]
    fn args(&self, tokens: &mut Tokens<'_>) -> Result<Option<Vec<Expr>>, Stop>
        ensures reads { Reads (option_map (λ v. map expr_of v.items))
            (reading.args self.now.text.now 32 tokens.old.rest.now) result tokens.new.rest.now }
        ensures shorter { OnOk result (length tokens.new.rest.now ≤ length tokens.old.rest.now) }
    {
        if !tokens.sees_sign(Sign::OpenParen) {
            return Ok(None);
        }
        Ok(Some(self.arg_list(tokens)?))
    }

    /// `[ args ] ";"`
    #[tactic(auto, unfolding(crate::specs::Reading::last_args))]
    pub fn last_args(&self, tokens: &mut Tokens<'_>) -> Result<Option<Vec<Expr>>, Stop>
        ensures reads { Reads (option_map (λ v. map expr_of v.items))
            (reading.last_args self.now.text.now 32 tokens.old.rest.now) result tokens.new.rest.now }
        ensures shorter { OnOk result (length tokens.new.rest.now < length tokens.old.rest.now) }
    {
        let args = self.args(tokens)?;
        tokens.sign(Sign::Semicolon)?;
        Ok(args)
    }

    /// Operands of the next tighter level with operators of this level between them.
    #[cycle(expression)]
    #[tactic(auto, unfolding(crate::specs::Reading::chain))]
    fn chain(&self, tokens: &mut Tokens<'_>, level: Level, nesting: usize) -> Result<Expr, Stop>
        ensures reads { Reads expr_of (reading.chain level (reading.operand_over
            (reading.factor self.now.text.now nesting) level) tokens.old.rest.now) result tokens.new.rest.now }
        ensures shorter { OnOk result (length tokens.new.rest.now < length tokens.old.rest.now) }
    {
        let mut left = self.operand(tokens, level, nesting)?;
        'more: while tokens.sees_operator(level) {
            let (op, right) = self.next_operand(tokens, level, nesting)?;
            left = self.operation(op, left, right)?;
        }
        Ok(left)
    }

    /// An operator of the level, and the operand after it.
    #[cycle(expression)]
    fn next_operand(
        &self,
        tokens: &mut Tokens<'_>,
        level: Level,
        nesting: usize,
    ) -> Result<(Op, Expr), Stop>
        ensures reads { Reads (λ p. (p.0, expr_of p.1)) (reading.next_operand level (reading.operand_over
            (reading.factor self.now.text.now nesting) level) tokens.old.rest.now) result tokens.new.rest.now }
        ensures shorter { OnOk result (length tokens.new.rest.now < length tokens.old.rest.now) }
    {
        let op = tokens.operator(level)?;
        let right = self.operand(tokens, level, nesting)?;
        Ok((op, right))
    }

    /// What stands beside the operators of a level.
    #[cycle(expression)]
    #[tactic(auto, unfolding(crate::specs::Reading::operand_over))]
    fn operand(&self, tokens: &mut Tokens<'_>, level: Level, nesting: usize) -> Result<Expr, Stop>
        ensures reads { Reads expr_of (reading.operand_over (reading.factor self.now.text.now nesting) level
            tokens.old.rest.now) result tokens.new.rest.now }
        ensures shorter { OnOk result (length tokens.new.rest.now < length tokens.old.rest.now) }
    {
        match level {
            Level::Or => self.chain(tokens, Level::And, nesting),
            Level::And => self.comparison(tokens, nesting),
            Level::Comparison => self.chain(tokens, Level::Sum, nesting),
            Level::Sum => self.chain(tokens, Level::Term, nesting),
            Level::Term => self.factor(tokens, nesting),
        }
    }

    #[cycle(expression)]
    #[tactic(auto, unfolding(crate::specs::Reading::comparison))]
    fn comparison(&self, tokens: &mut Tokens<'_>, nesting: usize) -> Result<Expr, Stop>
        ensures reads { Reads expr_of (reading.comparison (reading.operand_over (reading.factor self.now.text.now
            nesting) Level.Comparison) tokens.old.rest.now) result tokens.new.rest.now }
        ensures shorter { OnOk result (length tokens.new.rest.now < length tokens.old.rest.now) }
    {
        let left = self.operand(tokens, Level::Comparison, nesting)?;
        if !tokens.sees_operator(Level::Comparison) {
            return Ok(left);
        }
        let (op, right) = self.next_operand(tokens, Level::Comparison, nesting)?;
        Ok(self.operation(op, left, right)?)
    }

    /// `NUMBER | NAME | "(" expr ")" | "-" factor`
    #[cycle(expression)]
    fn factor(&self, tokens: &mut Tokens<'_>, nesting: usize) -> Result<Expr, Stop>
        ensures reads { Reads expr_of (reading.factor self.now.text.now nesting tokens.old.rest.now) result
            tokens.new.rest.now }
        ensures shorter { OnOk result (length tokens.new.rest.now < length tokens.old.rest.now) }
    {
        if tokens.sees_nested() {
            self.nested(tokens, nesting)
        } else {
            self.simple(tokens)
        }
    }

    /// An operand in parentheses or under a minus sign, where it may still nest.
    #[cycle(expression)]
    fn nested(&self, tokens: &mut Tokens<'_>, nesting: usize) -> Result<Expr, Stop>
        ensures reads { Reads expr_of (reading.nested self.now.text.now nesting tokens.old.rest.now) result
            tokens.new.rest.now }
        ensures shorter { OnOk result (length tokens.new.rest.now < length tokens.old.rest.now) }
    {
        if nesting == 0 {
            return Err(tokens.too_nested());
        }
        self.nested_over(tokens, nesting - 1)
    }

    /// `"(" expr ")" | "-" factor`
    #[cycle(expression)]
    #[tactic(auto, unfolding(crate::specs::Reading::nested_over, crate::specs::Reading::after, crate::specs::Reading::expr_over))]
    fn nested_over(&self, tokens: &mut Tokens<'_>, nesting: usize) -> Result<Expr, Stop>
        ensures reads { Reads expr_of (reading.nested_over (reading.factor self.now.text.now nesting)
            tokens.old.rest.now) result tokens.new.rest.now }
        ensures shorter { OnOk result (length tokens.new.rest.now < length tokens.old.rest.now) }
    {
        if tokens.eat(Sign::Minus) {
            let operand = self.factor(tokens, nesting)?;
            return Ok(Expr::Neg(Box::new(self.alloc, operand)?));
        }
        tokens.sign(Sign::OpenParen)?;
        let inner = self.chain(tokens, Level::Or, nesting)?;
        tokens.sign(Sign::CloseParen)?;
        Ok(inner)
    }

    /// `NUMBER | NAME`
    #[tactic(auto, unfolding(crate::specs::Reading::simple))]
    fn simple(&self, tokens: &mut Tokens<'_>) -> Result<Expr, Stop>
        ensures reads { Reads expr_of (reading.simple self.now.text.now tokens.old.rest.now) result
            tokens.new.rest.now }
        ensures shorter { OnOk result (length tokens.new.rest.now < length tokens.old.rest.now) }
    {
        if tokens.sees_number() {
            Ok(Expr::Num(tokens.number()?))
        } else {
            Ok(Expr::Var(self.name(tokens)?))
        }
    }

    fn operation(&self, op: Op, left: Expr, right: Expr) -> Result<Expr, AllocError>
        ensures { IfOk result (λ e. expr_of e ≡ tree.op op (expr_of left) (expr_of right)) }
    {
        Ok(Expr::Op(
            op,
            Box::new(self.alloc, left)?,
            Box::new(self.alloc, right)?,
        ))
    }
}
