//! The variables that a place sees.

ghost use Rattle.std.specs.Prelude.{◌≡◌};
ghost use Rattle.darwin_walk.specs.Value.{value_of_name};
ghost use Rattle.darwin_walk.specs.Spine.{env_of};
ghost use Rattle.darwin_walk.specs.Finds.{Finds};

use crate::keyed::Keyed;
use crate::valuing::Variable;
use base::Text;
use indexmap::IndexMap;

impl<'a> Keyed<'a> for Variable<'a> {
    ghost name_of = { λ v. v.name.now };

    fn key(&self) -> &'a [u8] {
        self.name.as_bytes()
    }
}

/// The parameters of an instance, with an index of them, and the variables of `forall` round a place,
/// from the outermost on.
#[derive(Clone, Copy)]
pub(crate) struct Environment<'a, 'b> {
    pub parameters: &'b [Variable<'a>],
    pub by_name: &'b IndexMap<&'a [u8], Variable<'a>>,
    pub variables: &'b [Variable<'a>],
    ghost found: { Finds (λ v. v.name.now) by_name.now.entries parameters.now },
}

impl Environment<'_, '_> {
    ghost use Rattle.darwin_walk.specs.Environment.{env_at};

    /// The value of a name, or 0 where nothing has it.
    pub fn value_of(&self, name: &Text) -> i32
        ensures { result ≡ value_of_name (env_at self.now) name.now }
    {
        match self.by_name.get(name.as_bytes()) {
            Some(parameter) => parameter.value,
            None => value_among(self.variables, name),
        }
    }
}

/// The value of a name among variables, or 0 where none has it.
fn value_among(variables: &[Variable], name: &Text) -> i32
    ensures { result ≡ value_of_name (env_of variables.now) name.now }
{
    for v in variables {
        if name.as_bytes() == v.name.as_bytes() {
            return v.value;
        }
    }
    0
}
