//! Declarations that give names.

use crate::names::Named;
use base::Text;
use darwin_parser::{ArrayDecl, Component, PortDecl};

impl Named for Component {
    ghost name_of = { λ c. c.name };

    fn name(&self) -> &Text {
        &self.name
    }
}

impl Named for PortDecl {
    ghost name_of = { λ p. p.name };

    fn name(&self) -> &Text {
        &self.name
    }
}

impl Named for ArrayDecl {
    ghost name_of = { λ a. a.name };

    fn name(&self) -> &Text {
        &self.name
    }
}

/// A parameter is a name alone.
impl Named for Text {
    ghost name_of = { λ t. t };

    fn name(&self) -> &Text {
        self
    }
}
