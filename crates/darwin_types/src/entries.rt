//! The `inst` entries of a component, those in bodies counted.

ghost use Rattle.std.specs.Prelude.{◌≡◌, ◌++◌, OnOk, map};
ghost use Rattle.darwin_parser.specs.Tree.{entry_of, stmts_of, stmt_of};
ghost use Rattle.darwin_types.specs.Scope.{entries_of, entries_of_stmt};

use darwin_parser::{InstEntry, Stmt};
use std::alloc::AllocError;

/// Adds the entries of these statements, in the order of the text.
#[cycle(entries)]
pub fn add_entries<'a>(entries: &mut Vec<&'a InstEntry>, body: &'a [Stmt]) -> Result<(), AllocError>
    ensures { OnOk result (map (λ e. entry_of e.now) entries.new.items
        ≡ map (λ e. entry_of e.now) entries.old.items ++ entries_of (stmts_of body.now)) }
{
    for stmt in body {
        add_entry(entries, stmt)?;
    }
    Ok(())
}

#[cycle(entries)]
fn add_entry<'a>(entries: &mut Vec<&'a InstEntry>, stmt: &'a Stmt) -> Result<(), AllocError>
    ensures { OnOk result (map (λ e. entry_of e.now) entries.new.items
        ≡ map (λ e. entry_of e.now) entries.old.items ++ entries_of_stmt (stmt_of stmt.now)) }
{
    match stmt {
        Stmt::Inst(entry) => {
            entries.push(entry)?;
            Ok(())
        }
        Stmt::Bind(_) => Ok(()),
        Stmt::Forall { body, .. } => add_entries(entries, body.as_slice()),
        Stmt::When { body, .. } => add_entries(entries, body.as_slice()),
    }
}
