//! A component whose declarations are indexed, and the checks of the names that it uses.

ghost use Rattle.std.specs.Prelude.{◌≡◌, ◌++◌, [], ◌∷◌, OnOk, map, option_map, length, bytes_eq, is_some, unwrap_or, false};
ghost use Rattle.std.specs.List.{flat_map};
ghost use Rattle.std.specs.Option.{option_to_list, option_map_or, option_or};
ghost use Rattle.darwin_parser.specs.Tree.{expr_of, entry_of, end_of, binding_of, stmt_of, stmts_of, array_of, port_of};
ghost use Rattle.darwin_types.specs.NameUses.{values, args_of, entry_uses, end_uses, stmt_uses, body_uses, port_uses};
ghost use Rattle.darwin_types.specs.Scope.{has, is_primitive as is_primitive_component, array_named, port_named, params_of_named};
ghost use Rattle.darwin_types.specs.Check.{Judges, declared_faults, kind_faults, value_faults, variable_faults, clash_faults, call_faults, element_faults, end_faults, outer_end_faults, inner_end_faults, uses_faults, array_faults, arrays_faults, names_in_component, names_of_arrays, FindsInstances, is_first_like, unless};
ghost use Rattle.darwin_types.specs.declared.error.TypeError.TheVariants.{UnknownName, UnknownComponent};

use crate::directory::Directory;
use crate::instances::Instances;
use crate::names::Names;
use crate::primitive::check_primitive;
use crate::{TypeError, refusal};
use base::Text;
use darwin_parser::{ArrayDecl, BindEntry, Component, Expr, InstEntry, PortDecl, PortRef, Stmt};
use std::alloc::Global;

/// A component of a description, with its ports, arrays and instances by name.
#[derive(Drop)]
pub struct Declared<'d, 'a> {
    pub alloc: Global,
    pub directory: &'d Directory<'a>,
    pub component: &'a Component,
    pub ports: &'d Names,
    pub arrays: Names,
    pub instances: Instances<'a>,
    ghost ports_named: { ports.now ≡ names_in_component component.now },
    ghost arrays_named: { arrays ≡ names_of_arrays component.now },
    ghost instances_found: { FindsInstances instances component.now },
}

impl<'d, 'a> Declared<'d, 'a> {
    ghost use Rattle.darwin_types.specs.Within.{tree_in, component_in};

    /// Everything of the component but for names that stand twice among its parameters, ports or
    /// arrays. These are its parameters, and it is primitive where it has no entry.
    pub fn check(&self, params: &mut Names, is_primitive: bool) -> Result<(), TypeError>
        requires params { params.old ≡ (component_in self.now).params }
        requires is_primitive { is_primitive ≡ is_primitive_component (component_in self.now) }
        ensures { Judges (declared_faults (tree_in self.now) (component_in self.now)) result }
    {
        self.check_ports(params, self.component.ports.as_slice())?;
        self.check_arrays(params, self.component.arrays.as_slice())?;
        self.check_body(params, self.component.body.as_slice())?;
        self.check_kind(is_primitive)
    }

    /// A primitive component is declared as a node kind.
    fn check_kind(&self, is_primitive: bool) -> Result<(), TypeError>
        requires { is_primitive ≡ is_primitive_component (component_in self.now) }
        ensures { Judges (kind_faults (component_in self.now)) result }
    {
        if is_primitive {
            check_primitive(self.component)
        } else {
            Ok(())
        }
    }

    /// The names that an expression uses.
    #[tactic(auto, using(crate::proofs::Values::value_faults_left))]
    fn check_value(&self, scope: &Names, value: &Expr) -> Result<(), TypeError>
        ensures { Judges (value_faults (component_in self.now) scope.now (expr_of value.now)) result }
    {
        let mut rest = value;
        loop {
            match rest {
                Expr::Num(_) => return Ok(()),
                Expr::Var(name) => return self.check_name(scope, name),
                Expr::Neg(inner) => rest = inner,
                // A chain groups to the left, so only its right sides are walked by recursion.
                Expr::Op(_, left, right) => {
                    self.check_value(scope, right)?;
                    rest = left;
                }
            }
        }
    }

    /// A name in an expression.
    fn check_name(&self, scope: &Names, name: &Text) -> Result<(), TypeError>
        ensures { Judges (unless (has scope.now name.now) (UnknownName (component_in self.now).name name.now)) result }
    {
        if scope.contains(name.as_bytes()) {
            Ok(())
        } else {
            refusal::unknown_name(&self.component.name, name)
        }
    }

    fn check_values(&self, scope: &Names, exprs: &[Expr]) -> Result<(), TypeError>
        ensures { Judges (uses_faults (tree_in self.now) (component_in self.now)
            (values scope.now (map expr_of exprs.now))) result }
    {
        for value in exprs {
            self.check_value(scope, value)?;
        }
        Ok(())
    }

    fn check_optional_value(&self, scope: &Names, value: &Option<Expr>) -> Result<(), TypeError>
        ensures { Judges (uses_faults (tree_in self.now) (component_in self.now)
            (values scope.now (option_to_list (option_map expr_of value.now)))) result }
    {
        match value {
            None => Ok(()),
            Some(value) => self.check_value(scope, value),
        }
    }

    fn check_optional_values(
        &self,
        scope: &Names,
        args: &Option<Vec<Expr>>,
    ) -> Result<(), TypeError>
        ensures { Judges (uses_faults (tree_in self.now) (component_in self.now)
            (values scope.now (args_of (option_map (λ l. map expr_of l.items) args.now)))) result }
    {
        match args {
            None => Ok(()),
            Some(args) => self.check_values(scope, args.as_slice()),
        }
    }

    /// The arguments of an instance, as many as its component has parameters.
    fn check_call(&self, name: &Text, component: &Text, given: usize) -> Result<(), TypeError>
        ensures { Judges (call_faults (tree_in self.now) (component_in self.now) name.now component.now given) result }
    {
        match self.directory.params_of(component.as_bytes()) {
            None => refusal::unknown_component(&self.component.name, component),
            Some(wanted) if wanted == given => Ok(()),
            Some(wanted) => refusal::arg_count(&self.component.name, name, wanted, given),
        }
    }

    /// A single instance: no array has its name, and no instance of another component.
    fn check_clash(&self, name: &Text, component: &Text) -> Result<(), TypeError>
        ensures { Judges (clash_faults (component_in self.now) name.now component.now) result }
    {
        if !self.has_array(name) && self.is_first_like(name, component) {
            Ok(())
        } else {
            refusal::two_names(&self.component.name, name)
        }
    }

    fn has_array(&self, name: &Text) -> bool
        ensures { result ≡ is_some (array_named (component_in self.now) name.now) }
    {
        self.arrays.contains(name.as_bytes())
    }

    fn has_port(&self, name: &Text) -> bool
        ensures { result ≡ is_some (port_named (component_in self.now) name.now) }
    {
        self.ports.contains(name.as_bytes())
    }

    /// Whether the first instance of this name is of this component.
    fn is_first_like(&self, name: &Text, component: &Text) -> bool
        ensures { result ≡ is_first_like (component_in self.now) name.now component.now }
    {
        is_some_of(
            self.instances.component_of(name.as_bytes()),
            component.as_bytes(),
        )
    }

    fn check_entry(&self, scope: &Names, entry: &InstEntry) -> Result<(), TypeError>
        ensures { Judges (uses_faults (tree_in self.now) (component_in self.now)
            (entry_uses scope.now (entry_of entry.now))) result }
    {
        match entry {
            InstEntry::Single {
                name,
                component,
                args,
                ..
            } => {
                self.check_single(name, component, args.len())?;
                self.check_values(scope, args.as_slice())
            }
            InstEntry::Element {
                array,
                index,
                args,
                ..
            } => {
                self.check_element(array, args)?;
                self.check_value(scope, index)?;
                self.check_optional_values(scope, args)
            }
        }
    }

    /// A single instance with this number of arguments.
    fn check_single(&self, name: &Text, component: &Text, given: usize) -> Result<(), TypeError>
        ensures { Judges (clash_faults (component_in self.now) name.now component.now ++ call_faults
            (tree_in self.now) (component_in self.now) name.now component.now given) result }
    {
        self.check_clash(name, component)?;
        self.check_call(name, component, given)
    }

    /// An element is of an array; its own arguments take the place of the array's.
    fn check_element(&self, array: &Text, args: &Option<Vec<Expr>>) -> Result<(), TypeError>
        ensures { Judges
            (element_faults (tree_in self.now) (component_in self.now) array.now
            (option_map (λ l. map expr_of l.items) args.now))
            result }
    {
        match self.array(array) {
            None => refusal::unknown_name(&self.component.name, array),
            Some(declared) => {
                self.check_call(array, &declared.component, count(args, &declared.args))
            }
        }
    }

    /// The array of this name.
    fn array(&self, name: &Text) -> Option<&'a ArrayDecl>
        ensures { option_map (λ a. array_of a.now) result ≡ array_named (component_in self.now) name.now }
    {
        let place = self.arrays.position(name.as_bytes())?;
        let arrays: &'a [ArrayDecl] = self.component.arrays.as_slice();
        Some(&arrays[place])
    }

    fn check_binding(&self, scope: &Names, entry: &BindEntry) -> Result<(), TypeError>
        ensures { Judges (uses_faults (tree_in self.now) (component_in self.now) (end_uses scope.now
            (binding_of entry.now).left ++ end_uses scope.now (binding_of entry.now).right)) result }
    {
        self.check_end(scope, &entry.left)?;
        self.check_end(scope, &entry.right)
    }

    fn check_end(&self, scope: &Names, end: &PortRef) -> Result<(), TypeError>
        ensures { Judges
            (uses_faults (tree_in self.now) (component_in self.now) (end_uses scope.now (end_of end.now))) result }
    {
        self.check_end_port(end)?;
        self.check_optional_value(scope, &end.inst_index)?;
        self.check_optional_value(scope, &end.port_index)
    }

    fn check_end_port(&self, end: &PortRef) -> Result<(), TypeError>
        ensures { Judges (end_faults (tree_in self.now) (component_in self.now) (end_of end.now)) result }
    {
        match &end.inst {
            None => self.check_outer_port(&end.port),
            Some(inst) => self.check_inner_port(inst, &end.port),
        }
    }

    /// A port of the component itself.
    fn check_outer_port(&self, port: &Text) -> Result<(), TypeError>
        ensures { Judges (outer_end_faults (component_in self.now) port.now) result }
    {
        if self.has_port(port) {
            Ok(())
        } else {
            refusal::unknown_name(&self.component.name, port)
        }
    }

    /// A port of an instance.
    fn check_inner_port(&self, inst: &Text, port: &Text) -> Result<(), TypeError>
        ensures { Judges (inner_end_faults (tree_in self.now) (component_in self.now) inst.now port.now) result }
    {
        match self.instances.component_of(inst.as_bytes()) {
            None => refusal::unknown_name(&self.component.name, inst),
            Some(component) if self.directory.lacks_port(component, port.as_bytes()) => {
                refusal::unknown_name(&self.component.name, port)
            }
            Some(_) => Ok(()),
        }
    }

    /// The sizes of ports, which see parameters alone.
    fn check_ports(&self, params: &Names, ports: &[PortDecl]) -> Result<(), TypeError>
        ensures { Judges (uses_faults (tree_in self.now) (component_in self.now)
            (flat_map (port_uses params.now) (map port_of ports.now))) result }
    {
        for port in ports {
            self.check_optional_value(params, &port.size)?;
        }
        Ok(())
    }

    /// The components of arrays, and their sizes and arguments, which see parameters alone.
    fn check_arrays(&self, params: &Names, arrays: &[ArrayDecl]) -> Result<(), TypeError>
        ensures { Judges
            (arrays_faults (tree_in self.now) (component_in self.now) params.now (map array_of arrays.now)) result }
    {
        for array in arrays {
            self.check_array(params, array)?;
        }
        Ok(())
    }

    /// An array's component, size and arguments.
    fn check_array(&self, params: &Names, array: &ArrayDecl) -> Result<(), TypeError>
        ensures { Judges (array_faults (tree_in self.now) (component_in self.now) params.now (array_of array.now))
            result }
    {
        self.check_array_component(array)?;
        self.check_value(params, &array.size)?;
        self.check_optional_values(params, &array.args)
    }

    fn check_array_component(&self, array: &ArrayDecl) -> Result<(), TypeError>
        ensures { Judges
            (unless (is_some (params_of_named (tree_in self.now) array.now.component))
            (UnknownComponent (component_in self.now).name array.now.component))
            result }
    {
        if self
            .directory
            .params_of(array.component.as_bytes())
            .is_some()
        {
            Ok(())
        } else {
            refusal::unknown_component(&self.component.name, &array.component)
        }
    }

    /// The statements of a body, where these names are round it.
    #[cycle(statements)]
    fn check_body(&self, scope: &mut Names, body: &[Stmt]) -> Result<(), TypeError>
        ensures judged { Judges (uses_faults (tree_in self.now) (component_in self.now)
            (body_uses scope.old (stmts_of body.now))) result }
        ensures scope_kept { OnOk result (scope.new ≡ scope.old) }
    {
        for stmt in body {
            self.check_stmt(scope, stmt)?;
        }
        Ok(())
    }

    #[cycle(statements)]
    fn check_stmt(&self, scope: &mut Names, stmt: &Stmt) -> Result<(), TypeError>
        ensures judged { Judges
            (uses_faults (tree_in self.now) (component_in self.now) (stmt_uses scope.old (stmt_of stmt.now))) result }
        ensures scope_kept { OnOk result (scope.new ≡ scope.old) }
    {
        match stmt {
            Stmt::Inst(entry) => self.check_entry(scope, entry),
            Stmt::Bind(entry) => self.check_binding(scope, entry),
            Stmt::Forall {
                var,
                low,
                high,
                body,
                ..
            } => {
                // The range doesn't see the variable.
                self.check_value(scope, low)?;
                self.check_value(scope, high)?;
                self.check_turns(scope, var, body.as_slice())
            }
            Stmt::When { test, body, .. } => {
                self.check_value(scope, test)?;
                self.check_body(scope, body.as_slice())
            }
        }
    }

    /// The body of a `forall` with this variable.
    #[cycle(statements)]
    fn check_turns(
        &self,
        scope: &mut Names,
        variable: &Text,
        body: &[Stmt],
    ) -> Result<(), TypeError>
        ensures judged { Judges
            (variable_faults (component_in self.now) scope.old variable.now ++ uses_faults (tree_in self.now)
            (component_in self.now) (body_uses (scope.old ++ variable.now ∷ []) (stmts_of body.now)))
            result }
        ensures scope_kept { OnOk result (scope.new ≡ scope.old) }
    {
        self.enter(scope, variable)?;
        self.check_body(scope, body)?;
        scope.remove_last();
        Ok(())
    }

    /// Adds the variable of a `forall`, whose name no parameter and no variable round it has.
    fn enter(&self, scope: &mut Names, variable: &Text) -> Result<(), TypeError>
        ensures judged { Judges (variable_faults (component_in self.now) scope.old variable.now) result }
        ensures added { OnOk result (scope.new ≡ scope.old ++ variable.now ∷ []) }
    {
        if scope.add(self.alloc, variable.as_bytes())? {
            Ok(())
        } else {
            refusal::two_names(&self.component.name, variable)
        }
    }
}

/// The number of an element's arguments: its own, or else those of its array.
fn count(own: &Option<Vec<Expr>>, of_array: &Option<Vec<Expr>>) -> usize
    ensures { result ≡ length (unwrap_or (option_or
        (option_map (λ l. map expr_of l.items) own.now)
        (option_map (λ l. map expr_of l.items) of_array.now)) []) }
{
    match (own, of_array) {
        (Some(args), _) => args.len(),
        (None, Some(args)) => args.len(),
        (None, None) => 0,
    }
}

/// Whether there is a name, and it is this one.
fn is_some_of(found: Option<&[u8]>, name: &[u8]) -> bool
    ensures { result ≡ option_map_or (bytes_eq name.now) (option_map (λ f. f.now) found.entry) false }
{
    match found {
        None => false,
        Some(found) => found == name,
    }
}
