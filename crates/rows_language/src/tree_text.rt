//! Trees in the words of the language, as the rows of trees have them.

use base::Text;
use darwin_lexer::At;
use darwin_parser::{
    ArrayDecl, Component, Expr, InstEntry, Op, PortDecl, PortRef, Side, Stmt, Unit,
};
use std::alloc::{AllocError, Global};
use std::str;

/// Prints a tree in the words of the language, with all parentheses, and places as `@line:column`.
#[derive(Drop)]
struct Printer {
    alloc: Global,
    out: String,
}

fn sign(op: Op) -> &'static str {
    match op {
        Op::Or => " or ",
        Op::And => " and ",
        Op::Eq => "==",
        Op::Ne => "!=",
        Op::Lt => "<",
        Op::Le => "<=",
        Op::Gt => ">",
        Op::Ge => ">=",
        Op::Add => "+",
        Op::Sub => "-",
        Op::Mul => "*",
        Op::Div => "/",
        Op::Rem => "%",
    }
}

impl Printer {
    fn text(&mut self, text: &Text) -> Result<(), AllocError> {
        self.out
            .push_str(str::from_utf8(text.as_bytes()).unwrap_or("?"))
    }

    fn at(&mut self, at: At) -> Result<(), AllocError> {
        let place = format!(in self.alloc; "@{}:{}", at.line, at.column)?;
        self.out.push_str(place.as_str())
    }

    fn expr(&mut self, expr: &Expr) -> Result<(), AllocError> {
        match expr {
            Expr::Num(n) => {
                let digits = format!(in self.alloc; "{n}")?;
                self.out.push_str(digits.as_str())
            }
            Expr::Var(name) => self.text(name),
            Expr::Neg(inner) => {
                self.out.push_str("-")?;
                self.expr(inner)
            }
            Expr::Op(op, left, right) => {
                self.out.push_str("(")?;
                self.expr(left)?;
                self.out.push_str(sign(*op))?;
                self.expr(right)?;
                self.out.push_str(")")
            }
        }
    }

    fn exprs(&mut self, exprs: &[Expr]) -> Result<(), AllocError> {
        self.out.push_str("(")?;
        for expr in exprs {
            self.expr(expr)?;
            self.out.push_str(",")?;
        }
        self.out.push_str(")")
    }

    fn index(&mut self, index: &Option<Expr>) -> Result<(), AllocError> {
        if let Some(index) = index {
            self.out.push_str("[")?;
            self.expr(index)?;
            self.out.push_str("]")?;
        }
        Ok(())
    }

    fn args(&mut self, args: &Option<Vec<Expr>>) -> Result<(), AllocError> {
        match args {
            Some(args) => self.exprs(args.as_slice()),
            None => Ok(()),
        }
    }

    fn port_ref(&mut self, end: &PortRef) -> Result<(), AllocError> {
        if let Some(inst) = &end.inst {
            self.text(inst)?;
            self.index(&end.inst_index)?;
            self.out.push_str(".")?;
        }
        self.text(&end.port)?;
        self.index(&end.port_index)
    }

    fn inst(&mut self, entry: &InstEntry) -> Result<(), AllocError> {
        match entry {
            InstEntry::Single {
                name,
                component,
                args,
                at,
            } => {
                self.text(name)?;
                self.out.push_str(":")?;
                self.text(component)?;
                self.exprs(args.as_slice())?;
                self.at(*at)
            }
            InstEntry::Element {
                array,
                index,
                args,
                at,
            } => {
                self.text(array)?;
                self.out.push_str("[")?;
                self.expr(index)?;
                self.out.push_str("]")?;
                self.args(args)?;
                self.at(*at)
            }
        }
    }

    #[cycle(printer)]
    fn stmt(&mut self, stmt: &Stmt) -> Result<(), AllocError> {
        match stmt {
            Stmt::Inst(entry) => self.inst(entry),
            Stmt::Bind(entry) => {
                self.port_ref(&entry.left)?;
                self.out.push_str("--")?;
                self.port_ref(&entry.right)?;
                self.at(entry.at)
            }
            Stmt::Forall {
                var,
                low,
                high,
                body,
                at,
            } => {
                self.text(var)?;
                self.out.push_str(":")?;
                self.expr(low)?;
                self.out.push_str("..")?;
                self.expr(high)?;
                self.at(*at)?;
                self.stmts(body.as_slice())
            }
            Stmt::When { test, body, at } => {
                self.expr(test)?;
                self.at(*at)?;
                self.stmts(body.as_slice())
            }
        }
    }

    #[cycle(printer)]
    fn stmts(&mut self, stmts: &[Stmt]) -> Result<(), AllocError> {
        self.out.push_str("{")?;
        for stmt in stmts {
            self.out.push_str(" ")?;
            self.stmt(stmt)?;
        }
        self.out.push_str(" }")
    }

    fn port(&mut self, port: &PortDecl) -> Result<(), AllocError> {
        self.out.push_str(match port.side {
            Side::Provide => " +",
            Side::Require => " -",
        })?;
        self.text(&port.name)?;
        self.index(&port.size)?;
        if let Some(note) = &port.note {
            for word in note {
                self.out.push_str("|")?;
                self.text(word)?;
            }
        }
        self.at(port.at)
    }

    fn array(&mut self, array: &ArrayDecl) -> Result<(), AllocError> {
        self.out.push_str(" ")?;
        self.text(&array.name)?;
        self.out.push_str("[")?;
        self.expr(&array.size)?;
        self.out.push_str("]:")?;
        self.text(&array.component)?;
        self.args(&array.args)?;
        self.at(array.at)
    }

    fn component(&mut self, component: &Component) -> Result<(), AllocError> {
        self.text(&component.name)?;
        self.at(component.at)?;
        for param in &component.params {
            self.out.push_str(" ")?;
            self.text(param)?;
        }
        for port in &component.ports {
            self.port(port)?;
        }
        for array in &component.arrays {
            self.array(array)?;
        }
        self.stmts(component.body.as_slice())
    }
}

/// A description's tree.
pub fn printed(alloc: Global, unit: &Unit) -> Result<String, AllocError> {
    let mut printer = Printer {
        alloc,
        out: String::new(alloc),
    };
    for component in &unit.components {
        printer.component(component)?;
    }
    let Printer { alloc: _, out } = printer;
    Ok(out)
}
