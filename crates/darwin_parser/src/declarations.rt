//! Components with their parameters, ports and arrays.

ghost use Rattle.std.specs.Prelude.{◌≡◌, ◌<◌, ◌≤◌, length, map, option_map, OnOk};
ghost use Rattle.darwin_parser.specs.Tree.{port_of, array_of, component_of, tree_of};
ghost use Rattle.darwin_parser.specs.Grammar.{no_parts, with_item, side_word};
ghost use Rattle.darwin_parser.specs.Views.{item_of, parts_of};
ghost use Rattle.darwin_parser.specs.Reading as reading;
ghost use Rattle.darwin_parser.specs.Reading.{Reads};

use crate::cursor::{Stop, Tokens};
use crate::source::Source;
use crate::statements::MAX_STATEMENT_NESTING;
use crate::tree::{ArrayDecl, Component, PortDecl, Side, Stmt, Unit};
use base::Text;
use darwin_lexer::{At, Keyword, Sign, TokenKind};
use std::alloc::{AllocError, Global};

/// What an item adds to its component.
#[derive(Drop)]
enum Item {
    Ports(Vec<PortDecl>),
    Arrays(Vec<ArrayDecl>),
    Statements(Vec<Stmt>),
}

/// What the items so far make of a component.
#[derive(Drop)]
struct Parts {
    ports: Vec<PortDecl>,
    arrays: Vec<ArrayDecl>,
    body: Vec<Stmt>,
}

impl Parts {
    fn new(alloc: Global) -> Parts
        ensures { parts_of result ≡ no_parts }
    {
        Parts {
            ports: Vec::new(alloc),
            arrays: Vec::new(alloc),
            body: Vec::new(alloc),
        }
    }

    fn add(&mut self, item: Item) -> Result<(), AllocError>
        ensures { OnOk result (parts_of self.new ≡ with_item (parts_of self.old) (item_of item)) }
    {
        match item {
            Item::Ports(mut ports) => self.ports.append(&mut ports),
            Item::Arrays(mut arrays) => self.arrays.append(&mut arrays),
            Item::Statements(mut stmts) => self.body.append(&mut stmts),
        }
    }
}

impl Source<'_> {
    /// `{ component }`, up to the end.
    #[tactic(auto, unfolding(crate::specs::Reading::unit))]
    pub fn unit(&self, tokens: &mut Tokens<'_>) -> Result<Unit, Stop>
        ensures { Reads tree_of (reading.unit self.now.text.now 32 16 tokens.old.rest.now) result tokens.new.rest.now }
    {
        let mut components = Vec::new(self.alloc);
        'more: while tokens.sees_word(Keyword::Component) {
            components.push(self.component(tokens)?)?;
        }
        if !tokens.is_empty() {
            return Err(tokens.expected());
        }
        Ok(Unit { components })
    }

    #[tactic(auto, unfolding(crate::specs::Reading::component))]
    fn component(&self, tokens: &mut Tokens<'_>) -> Result<Component, Stop>
        ensures reads { Reads component_of (reading.component self.now.text.now 32 16 tokens.old.rest.now)
            result tokens.new.rest.now }
        ensures shorter { OnOk result (length tokens.new.rest.now < length tokens.old.rest.now) }
    {
        let at = tokens.word(Keyword::Component)?.at;
        let name = self.name(tokens)?;
        let params = self.params(tokens)?;
        tokens.sign(Sign::OpenBrace)?;
        let Parts {
            ports,
            arrays,
            body,
        } = self.parts(tokens)?;
        Ok(Component {
            name,
            at,
            params,
            ports,
            arrays,
            body,
        })
    }

    /// `[ "(" [ param {"," param} ] ")" ]`
    #[tactic(auto, unfolding(crate::specs::Reading::params, crate::specs::Reading::after))]
    fn params(&self, tokens: &mut Tokens<'_>) -> Result<Vec<Text>, Stop>
        ensures reads { Reads (λ v. v.items) (reading.params self.now.text.now tokens.old.rest.now) result
            tokens.new.rest.now }
        ensures shorter { OnOk result (length tokens.new.rest.now ≤ length tokens.old.rest.now) }
    {
        if !tokens.sees_sign(Sign::OpenParen) {
            return Ok(Vec::new(self.alloc));
        }
        tokens.sign(Sign::OpenParen)?;
        if tokens.eat(Sign::CloseParen) {
            return Ok(Vec::new(self.alloc));
        }
        let params = self.param_list(tokens)?;
        tokens.sign(Sign::CloseParen)?;
        Ok(params)
    }

    /// `param {"," param}`
    #[tactic(auto, unfolding(crate::specs::Reading::param_list))]
    fn param_list(&self, tokens: &mut Tokens<'_>) -> Result<Vec<Text>, Stop>
        ensures reads { Reads (λ v. v.items) (reading.param_list self.now.text.now tokens.old.rest.now) result
            tokens.new.rest.now }
        ensures shorter { OnOk result (length tokens.new.rest.now < length tokens.old.rest.now) }
    {
        let mut params = Vec::new(self.alloc);
        'more: loop {
            params.push(self.param(tokens)?)?;
            if !tokens.eat(Sign::Comma) {
                return Ok(params);
            }
        }
    }

    /// `"int" NAME`
    #[tactic(auto, unfolding(crate::specs::Reading::param))]
    fn param(&self, tokens: &mut Tokens<'_>) -> Result<Text, Stop>
        ensures reads { Reads (λ x. x) (reading.param self.now.text.now tokens.old.rest.now) result
            tokens.new.rest.now }
        ensures shorter { OnOk result (length tokens.new.rest.now < length tokens.old.rest.now) }
    {
        tokens.word(Keyword::Int)?;
        self.name(tokens)
    }

    /// `{ item } "}"`
    fn parts(&self, tokens: &mut Tokens<'_>) -> Result<Parts, Stop>
        ensures reads { Reads parts_of (reading.parts self.now.text.now 32 16 tokens.old.rest.now) result
            tokens.new.rest.now }
        ensures shorter { OnOk result (length tokens.new.rest.now < length tokens.old.rest.now) }
    {
        let mut parts = Parts::new(self.alloc);
        'more: while !tokens.eat(Sign::CloseBrace) {
            let item = self.item(tokens)?;
            parts.add(item)?;
        }
        Ok(parts)
    }

    /// `ports | arrays | statement`
    #[tactic(auto, unfolding(crate::specs::Reading::item))]
    fn item(&self, tokens: &mut Tokens<'_>) -> Result<Item, Stop>
        ensures reads { Reads item_of (reading.item self.now.text.now 32 16 tokens.old.rest.now) result
            tokens.new.rest.now }
        ensures shorter { OnOk result (length tokens.new.rest.now < length tokens.old.rest.now) }
    {
        if tokens.sees_word(Keyword::Provide) {
            Ok(Item::Ports(self.ports(tokens, Side::Provide)?))
        } else if tokens.sees_word(Keyword::Require) {
            Ok(Item::Ports(self.ports(tokens, Side::Require)?))
        } else if tokens.sees_word(Keyword::Array) {
            Ok(Item::Arrays(self.arrays(tokens)?))
        } else {
            Ok(Item::Statements(self.statement(tokens, MAX_STATEMENT_NESTING)?))
        }
    }

    /// `("provide" | "require") port {"," port} ";"`
    #[tactic(auto, unfolding(crate::specs::Reading::port_list))]
    fn ports(&self, tokens: &mut Tokens<'_>, side: Side) -> Result<Vec<PortDecl>, Stop>
        ensures reads { Reads (λ v. map port_of v.items)
            (reading.port_list self.now.text.now 32 side tokens.old.rest.now) result tokens.new.rest.now }
        ensures shorter { OnOk result (length tokens.new.rest.now < length tokens.old.rest.now) }
    {
        let at = tokens.word(side_word(side))?.at;
        let ports = self.ports_at(tokens, side, at)?;
        tokens.sign(Sign::Semicolon)?;
        Ok(ports)
    }

    /// `port {"," port}`
    #[tactic(auto, unfolding(crate::specs::Reading::ports_at))]
    fn ports_at(&self, tokens: &mut Tokens<'_>, side: Side, at: At) -> Result<Vec<PortDecl>, Stop>
        ensures reads { Reads (λ v. map port_of v.items)
            (reading.ports_at self.now.text.now 32 side at tokens.old.rest.now) result tokens.new.rest.now }
        ensures shorter { OnOk result (length tokens.new.rest.now < length tokens.old.rest.now) }
    {
        let mut ports = Vec::new(self.alloc);
        'more: loop {
            ports.push(self.port(tokens, side, at)?)?;
            if !tokens.eat(Sign::Comma) {
                return Ok(ports);
            }
        }
    }

    /// `NAME [ "[" expr "]" ] [ "<" note { note } ">" ]`
    #[tactic(auto, unfolding(crate::specs::Reading::port))]
    fn port(&self, tokens: &mut Tokens<'_>, side: Side, at: At) -> Result<PortDecl, Stop>
        ensures reads { Reads port_of (reading.port self.now.text.now 32 side at tokens.old.rest.now) result
            tokens.new.rest.now }
        ensures shorter { OnOk result (length tokens.new.rest.now < length tokens.old.rest.now) }
    {
        let name = self.name(tokens)?;
        let size = self.index(tokens)?;
        let note = self.notes(tokens)?;
        Ok(PortDecl {
            side,
            name,
            size,
            note,
            at,
        })
    }

    /// `[ "<" note { note } ">" ]`
    #[tactic(auto, unfolding(crate::specs::Reading::notes))]
    fn notes(&self, tokens: &mut Tokens<'_>) -> Result<Option<Vec<Text>>, Stop>
        ensures reads { Reads (option_map (λ v. v.items)) (reading.notes self.now.text.now tokens.old.rest.now)
            result tokens.new.rest.now }
        ensures shorter { OnOk result (length tokens.new.rest.now ≤ length tokens.old.rest.now) }
    {
        if !tokens.sees_sign(Sign::Less) {
            return Ok(None);
        }
        Ok(Some(self.note_list(tokens)?))
    }

    /// `"<" note { note } ">"`
    #[tactic(auto, unfolding(crate::specs::Reading::note_list))]
    fn note_list(&self, tokens: &mut Tokens<'_>) -> Result<Vec<Text>, Stop>
        ensures reads { Reads (λ v. v.items) (reading.note_list self.now.text.now tokens.old.rest.now) result
            tokens.new.rest.now }
        ensures shorter { OnOk result (length tokens.new.rest.now < length tokens.old.rest.now) }
    {
        tokens.sign(Sign::Less)?;
        let mut notes = Vec::new(self.alloc);
        'more: loop {
            notes.push(self.note(tokens)?)?;
            if tokens.eat(Sign::Greater) {
                return Ok(notes);
            }
        }
    }

    /// `NAME | "int" | ","`
    #[tactic(auto, unfolding(crate::specs::Reading::note))]
    fn note(&self, tokens: &mut Tokens<'_>) -> Result<Text, Stop>
        ensures reads { Reads (λ x. x) (reading.note self.now.text.now tokens.old.rest.now) result tokens.new.rest.now }
        ensures shorter { OnOk result (length tokens.new.rest.now < length tokens.old.rest.now) }
    {
        let token = tokens.note()?;
        Ok(self.spelling(token)?)
    }

    /// `"array" arrayentry { arrayentry }`
    #[tactic(auto, unfolding(crate::specs::Reading::array_list))]
    fn arrays(&self, tokens: &mut Tokens<'_>) -> Result<Vec<ArrayDecl>, Stop>
        ensures reads { Reads (λ v. map array_of v.items)
            (reading.array_list self.now.text.now 32 tokens.old.rest.now) result tokens.new.rest.now }
        ensures shorter { OnOk result (length tokens.new.rest.now < length tokens.old.rest.now) }
    {
        tokens.word(Keyword::Array)?;
        let mut arrays = Vec::new(self.alloc);
        'more: loop {
            arrays.push(self.array(tokens)?)?;
            if !tokens.sees(TokenKind::Name) {
                return Ok(arrays);
            }
        }
    }

    /// `NAME "[" expr "]" ":" NAME [ args ] ";"`
    #[tactic(auto, unfolding(crate::specs::Reading::arrayentry))]
    fn array(&self, tokens: &mut Tokens<'_>) -> Result<ArrayDecl, Stop>
        ensures reads { Reads array_of (reading.arrayentry self.now.text.now 32 tokens.old.rest.now) result
            tokens.new.rest.now }
        ensures shorter { OnOk result (length tokens.new.rest.now < length tokens.old.rest.now) }
    {
        let name = tokens.name()?;
        let size = self.bracketed(tokens)?;
        tokens.sign(Sign::Colon)?;
        let component = self.name(tokens)?;
        let args = self.last_args(tokens)?;
        Ok(ArrayDecl {
            name: self.spelling(name)?,
            size,
            component,
            args,
            at: name.at,
        })
    }
}

/// The word before the ports of a side.
fn side_word(side: Side) -> Keyword
    ensures { result ≡ side_word side }
{
    match side {
        Side::Provide => Keyword::Provide,
        Side::Require => Keyword::Require,
    }
}
