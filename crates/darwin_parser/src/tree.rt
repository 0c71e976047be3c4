//! The syntax tree of a description. Lists in it keep the order of the text.

use base::Text;
use darwin_lexer::At;

/// A whole description.
#[derive(Drop)]
pub struct Unit {
    pub components: Vec<Component>,
}

/// A component: its parameters, ports and arrays, and the statements of its body.
#[derive(Drop)]
pub struct Component {
    pub name: Text,
    pub at: At,
    pub params: Vec<Text>,
    pub ports: Vec<PortDecl>,
    pub arrays: Vec<ArrayDecl>,
    pub body: Vec<Stmt>,
}

/// Whether a port is a service that the component provides or one that it requires.
#[derive(Clone, Copy)]
pub enum Side {
    Provide,
    Require,
}

/// A port, or an array of ports where it has a size. Its place is that of the word `provide` or
/// `require`. A note is a list of token texts.
#[derive(Drop)]
pub struct PortDecl {
    pub side: Side,
    pub name: Text,
    pub size: Option<Expr>,
    pub note: Option<Vec<Text>>,
    pub at: At,
}

/// An array of instances. The arguments are those of each element that has none of its own.
#[derive(Drop)]
pub struct ArrayDecl {
    pub name: Text,
    pub size: Expr,
    pub component: Text,
    pub args: Option<Vec<Expr>>,
    pub at: At,
}

/// A statement. A list after `inst` or `bind` is one statement an entry.
#[derive(Drop)]
pub enum Stmt {
    Inst(InstEntry),
    Bind(BindEntry),
    Forall {
        var: Text,
        low: Expr,
        high: Expr,
        body: Vec<Stmt>,
        at: At,
    },
    When {
        test: Expr,
        body: Vec<Stmt>,
        at: At,
    },
}

/// An instance: a single one, or an element of an array.
#[derive(Drop)]
pub enum InstEntry {
    Single {
        name: Text,
        component: Text,
        args: Vec<Expr>,
        at: At,
    },
    Element {
        array: Text,
        index: Expr,
        args: Option<Vec<Expr>>,
        at: At,
    },
}

/// A binding of two ends, in either order.
#[derive(Drop)]
pub struct BindEntry {
    pub left: PortRef,
    pub right: PortRef,
    pub at: At,
}

/// An end of a binding: a port of an instance, or of the component itself where no instance stands.
#[derive(Drop)]
pub struct PortRef {
    pub inst: Option<Text>,
    pub inst_index: Option<Expr>,
    pub port: Text,
    pub port_index: Option<Expr>,
}

/// An expression over integers.
pub enum Expr {
    Num(u32),
    Var(Text),
    Neg(Box<Expr>),
    Op(Op, Box<Expr>, Box<Expr>),
}

impl Drop for Expr {
    /// A chain is as deep on its left as it is long, so left sides are dropped in a loop.
    fn drop(mut self) {
        loop {
            match self {
                Expr::Num(_) => return,
                Expr::Var(name) => {
                    drop(name);
                    return;
                }
                Expr::Neg(inner) => self = Box::into_inner(inner),
                Expr::Op(_, left, right) => {
                    drop(right);
                    self = Box::into_inner(left);
                }
            }
        }
    }
}

/// An operation on two sides.
#[derive(Clone, Copy)]
pub enum Op {
    Or,
    And,
    Eq,
    Ne,
    Lt,
    Le,
    Gt,
    Ge,
    Add,
    Sub,
    Mul,
    Div,
    Rem,
}
