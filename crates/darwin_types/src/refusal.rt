//! Refusals, each with copies of the names that it carries.

ghost use Rattle.std.specs.Prelude.{◌≡◌, [], ◌∷◌, option_map};
ghost use Rattle.darwin_types.specs.Check.{Judges, repeat_fault};
ghost use Rattle.darwin_types.specs.Faults.{carried};
ghost use Rattle.darwin_types.specs.declared.error.TypeError.TheVariants.{TwoNames, UnknownName, UnknownComponent, ArgCount, UnknownKind, KindPorts};

use crate::TypeError;
use base::Text;

/// Two names of one class are this one: in the component, or else in the description.
pub fn repeated<T>(component: Option<&Text>, name: &Text) -> Result<T, TypeError>
    ensures { Judges (repeat_fault (option_map (λ c. c.now) component.entry) name.now ∷ []) result }
{
    match component {
        None => Err(TypeError::TwoComponents(name.try_clone()?)),
        Some(component) => two_names(component, name),
    }
}

pub fn two_names<T>(component: &Text, name: &Text) -> Result<T, TypeError>
    ensures { Judges (TwoNames component.now name.now ∷ []) result }
{
    Err(TypeError::TwoNames(component.try_clone()?, name.try_clone()?))
}

pub fn unknown_name<T>(component: &Text, name: &Text) -> Result<T, TypeError>
    ensures { Judges (UnknownName component.now name.now ∷ []) result }
{
    Err(TypeError::UnknownName(component.try_clone()?, name.try_clone()?))
}

pub fn unknown_component<T>(component: &Text, name: &Text) -> Result<T, TypeError>
    ensures { Judges (UnknownComponent component.now name.now ∷ []) result }
{
    Err(TypeError::UnknownComponent(component.try_clone()?, name.try_clone()?))
}

pub fn arg_count<T>(
    component: &Text,
    name: &Text,
    wanted: usize,
    given: usize,
) -> Result<T, TypeError>
    ensures { Judges (ArgCount component.now name.now (carried wanted) (carried given) ∷ []) result }
{
    Err(TypeError::ArgCount {
        component: component.try_clone()?,
        name: name.try_clone()?,
        wanted: carried(wanted),
        given: carried(given),
    })
}

pub fn unknown_kind<T>(component: &Text) -> Result<T, TypeError>
    ensures { Judges (UnknownKind component.now ∷ []) result }
{
    Err(TypeError::UnknownKind(component.try_clone()?))
}

pub fn kind_ports<T>(component: &Text) -> Result<T, TypeError>
    ensures { Judges (KindPorts component.now ∷ []) result }
{
    Err(TypeError::KindPorts(component.try_clone()?))
}

/// The number, or 4,294,967,295 where it is above that.
fn carried(number: usize) -> u32
    ensures { result ≡ carried number }
{
    u32::try_from(number).unwrap_or(u32::MAX)
}
