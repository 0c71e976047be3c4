//! The kinds of nodes: what each provides and requires, as a table.

ghost use Rattle.std.specs.Prelude.{◌≡◌, ◌<◌, length, is_some, slice_get, option_map, IfSome, Some};
ghost use Rattle.config_graph.specs.Kinds.{row, kinds, kind_named, depends_on, is_depended_on, calls_of, mores_of};
ghost use Rattle.config_graph.specs.Kinds.{Provision};
ghost use Rattle.config_graph.specs.declared.kind.Kind.{Kind};

/// What a node does. The work of each kind is built in.
#[derive(Clone, Copy, PartialEq, Eq)]
pub enum Kind {
    Philosopher,
    Place,
    Fork,
    Source,
    Map,
    Buffer,
    Sink,
    Teller,
    Branch,
    Account,
    Asker,
    Adder,
}

/// All kinds, in the order of their numbers.
const KINDS: [Kind; 12] = [
    Kind::Philosopher,
    Kind::Place,
    Kind::Fork,
    Kind::Source,
    Kind::Map,
    Kind::Buffer,
    Kind::Sink,
    Kind::Teller,
    Kind::Branch,
    Kind::Account,
    Kind::Asker,
    Kind::Adder,
];

/// The kind of this name, or `None` where no kind has it.
pub fn kind_of(name: &[u8]) -> Option<Kind>
    ensures named { result ≡ kind_named name.now }
    ensures found { IfSome result (λ kind. (row kind).name ≡ name.now) }
{
    KINDS
        .iter()
        .copied()
        .find(|kind| kind.name().as_bytes() == name)
}

impl Kind {
    /// The kind's place among all kinds, from 0.
    pub fn number(self) -> u32
        ensures number { result ≡ (row self).number }
        ensures place { slice_get kinds result ≡ Some self }
    {
        self as u32
    }

    /// The kind's name in a description.
    pub fn name(self) -> &'static str
        ensures { result.now ≡ (row self).name }
    {
        match self {
            Kind::Philosopher => "philosopher",
            Kind::Place => "place",
            Kind::Fork => "fork",
            Kind::Source => "source",
            Kind::Map => "map",
            Kind::Buffer => "buffer",
            Kind::Sink => "sink",
            Kind::Teller => "teller",
            Kind::Branch => "branch",
            Kind::Account => "account",
            Kind::Asker => "asker",
            Kind::Adder => "adder",
        }
    }

    /// How many services the kind provides. They are numbered from 0.
    pub fn provides(self) -> u32
        ensures { result ≡ length (row self).provides }
    {
        match self {
            Kind::Philosopher | Kind::Source | Kind::Teller | Kind::Asker => 0,
            _ => 1,
        }
    }

    /// How many services the kind requires. They are numbered from 0.
    pub fn requires_(self) -> u32
        ensures { result ≡ length (row self).requires_ }
    {
        match self {
            Kind::Fork | Kind::Sink | Kind::Account | Kind::Adder => 0,
            Kind::Place | Kind::Branch => 2,
            _ => 1,
        }
    }

    /// Whether a node of the kind has an argument.
    pub fn has_arg(self) -> bool
        ensures { result ≡ is_some (row self).arg }
    {
        !matches!(self, Kind::Fork | Kind::Sink | Kind::Branch | Kind::Adder)
    }

    /// Whether a service by this provision may call this requirement.
    pub fn depends(self, provide: u32, require: u32) -> bool
        ensures { result ≡ depends_on self provide require }
    {
        match self {
            Kind::Place | Kind::Branch => provide == 0 && require < 2,
            Kind::Map => provide == 0 && require == 0,
            _ => false,
        }
    }

    /// Whether a service by some provision may call this requirement.
    pub fn is_depended_on(self, require: u32) -> bool
        ensures { result ≡ is_depended_on self require }
    {
        match self {
            Kind::Place | Kind::Branch => require < 2,
            Kind::Map => require == 0,
            _ => false,
        }
    }

    /// How many calls one service by this provision makes at most.
    pub fn max_calls(self, provide: u32) -> u32
        ensures { result ≡ calls_of self provide }
    {
        match self {
            Kind::Place if provide == 0 => 4,
            Kind::Map if provide == 0 => 1,
            Kind::Branch if provide == 0 => 2,
            _ => 0,
        }
    }

    /// How many intermediate replies one service by this provision sends at most.
    pub fn max_mores(self, provide: u32) -> u32
        ensures { result ≡ mores_of self provide }
    {
        match self {
            Kind::Adder if provide == 0 => 1,
            _ => 0,
        }
    }

    /// The name of a service that the kind provides.
    pub fn provide_name(self, provide: u32) -> &'static str
        requires { provide < length (row self).provides }
        ensures { option_map (λ (p : Provision). p.name) (slice_get (row self).provides provide) ≡ Some result.now }
    {
        match self {
            Kind::Place => "dine",
            Kind::Fork => "hold",
            Kind::Branch => "move",
            Kind::Account => "post",
            Kind::Adder => "sum",
            _ => "in",
        }
    }

    /// The name of a service that the kind requires.
    pub fn require_name(self, require: u32) -> &'static str
        requires { require < length (row self).requires_ }
        ensures { slice_get (row self).requires_ require ≡ Some result.now }
    {
        match self {
            Kind::Philosopher => "dine",
            Kind::Place if require == 0 => "left",
            Kind::Place => "right",
            Kind::Source => "out",
            Kind::Teller => "move",
            Kind::Branch if require == 0 => "from",
            Kind::Branch => "to",
            Kind::Asker => "sum",
            _ => "next",
        }
    }
}
