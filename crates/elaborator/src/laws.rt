//! Laws of elaborations, each as the contract of a function that does nothing.

ghost use Rattle.std.specs.Prelude.{◌≡◌, ◌⊎◌, ◌<◌, ◌↔◌, ℕ, ℤ, All, List, Some, Contains};
ghost use Rattle.std.specs.List.{AllPass};
ghost use Rattle.config_graph.specs.Graph.{Graph};
ghost use Rattle.config_graph.specs.GraphText.{IsOneWord, graph_text};
ghost use Rattle.config_graph.specs.declared.node.Link.{Link};
ghost use Rattle.config_graph.specs.declared.node.Node.{Node};
ghost use Rattle.config_graph.specs.Sound.{Sound};
ghost use Rattle.darwin_lexer.specs.Tokens.{IsTokens};
ghost use Rattle.darwin_lexer.specs.declared.token.Token.{Token};
ghost use Rattle.darwin_parser.specs.Grammar.{IsUnit};
ghost use Rattle.darwin_parser.specs.Tree.{Name, Tree};
ghost use Rattle.darwin_types.specs.Faults.{NoFault};
ghost use Rattle.elaborator.specs.PathBytes.{is_path_byte};
ghost use Rattle.elaborator.specs.Paths.{Path};
ghost use Rattle.elaborator.specs.Instances.{Instance, Inst, instances, total, top_instance};
ghost use Rattle.elaborator.specs.Bindings.{Port, BoundThrough};
ghost use Rattle.elaborator.specs.Graph.{Linked, IsRequirementAt, IsProvisionAt};
ghost use Rattle.elaborator.specs.Faults.{Faults, Twice, CountsMore};
ghost use Rattle.elaborator.specs.Elaboration.{HasNoFault, ElaboratesTo};
ghost use Rattle.elaborator.specs.declared.error.ElabError.{ElabError};
ghost use Rattle.elaborator.specs.declared.error.ElabError.TheVariants.{BoundTwice, TwoInstances};

/// The instances of an elaboration are those of its list.
pub fn instances_are_those_of_the_list()
    ensures { (tree : Tree) (top i : Instance) → top.depth ≡ 0 → Inst tree top i ↔ Contains (instances tree top) i }
{}

/// Where no path is made twice, no instance stands twice in the list, and different instances count for more than a
/// limit exactly where the sum over the list is above it.
pub fn each_instance_is_counted_once()
    ensures once { (tree : Tree) (name : Name) (arguments : List ℤ) (top : Instance)
        → top_instance tree name arguments ≡ Some top
        → ((path : Path) → ¬ Faults tree name arguments (TwoInstances path))
        → (i : Instance) → ¬ Twice (instances tree top) i }
    ensures sum { (tree : Tree) (name : Name) (arguments : List ℤ) (top : Instance)
        → top_instance tree name arguments ≡ Some top
        → ((path : Path) → ¬ Faults tree name arguments (TwoInstances path))
        → (limit : ℕ) → CountsMore tree top limit ↔ limit < total tree top }
{}

/// Where no path is made twice, an instance that isn't the top is told by its path, with its component
/// and the values of its parameters.
pub fn an_instance_is_told_by_its_path()
    ensures { (tree : Tree) (name : Name) (arguments : List ℤ) (top : Instance)
        → top_instance tree name arguments ≡ Some top
        → ((path : Path) → ¬ Faults tree name arguments (TwoInstances path))
        → (i j : Instance) → Inst tree top i → Inst tree top j → 0 < i.depth → 0 < j.depth → i.path ≡ j.path → i ≡ j }
{}

/// A description has one graph at most with this top and these arguments.
pub fn one_graph()
    ensures { (tree : Tree) (name : Name) (arguments : List ℤ) (g h : Graph) → ElaboratesTo tree name arguments g
        → ElaboratesTo tree name arguments h → g ≡ h }
{}

/// Where no name is at fault, some fault of an elaboration holds, or none does and there is a graph, which may be run.
pub fn a_graph_or_a_fault()
    ensures { (tree : Tree) (name : Name) (arguments : List ℤ) → NoFault tree
        → ((f : ElabError) × Faults tree name arguments f)
        ⊎ ((g : Graph) × HasNoFault tree name arguments × ElaboratesTo tree name arguments g × Sound g) }
{}

/// Where no path is made twice and no end is bound twice, bindings lead from a requirement of a node to
/// one provision of a node at most.
pub fn one_provision()
    ensures { (tree : Tree) (name : Name) (arguments : List ℤ) (top : Instance) (a b c : Node)
        (require provide other : ℕ)
        → top_instance tree name arguments ≡ Some top
        → ((path : Path) → ¬ Faults tree name arguments (TwoInstances path))
        → ((path name_of_end : Path) → ¬ Faults tree name arguments (BoundTwice path name_of_end))
        → Linked tree top a require b provide → Linked tree top a require c other
        → (b ≡ c) × (provide ≡ other) }
{}

/// Each link of a graph leads from a requirement to a provision that a list of bindings joins, and no two
/// links leave one requirement.
pub fn links_join_what_bindings_do()
    ensures joined { (tree : Tree) (name : Name) (arguments : List ℤ) (top : Instance) (g : Graph) (l : Link)
        → top_instance tree name arguments ≡ Some top → ElaboratesTo tree name arguments g → Contains g.links l
        → (x y : Port) × IsRequirementAt tree top g.nodes l.from l.require x
        × IsProvisionAt tree top g.nodes l.to l.provide y × BoundThrough tree top x y }
    ensures one_a_requirement { (tree : Tree) (name : Name) (arguments : List ℤ) (g : Graph) (k l : Link)
        → ElaboratesTo tree name arguments g → Contains g.links k → Contains g.links l
        → k.from ≡ l.from → k.require ≡ l.require → k ≡ l }
{}

/// The paths of the nodes of a text's graph are made of letters, digits, `_`, `.`, `[`, `]` and `-`. So each is one
/// word in texts of graphs and plans, with no blank, comma, parenthesis or line feed in it.
pub fn paths_are_words()
    ensures bytes { (text : List ℕ) (tokens : List Token) (tree : Tree) (name : Name) (arguments : List ℤ)
        (g : Graph) → IsTokens text tokens → IsUnit text tokens tree → ElaboratesTo tree name arguments g
        → All (λ n. AllPass is_path_byte n.path) g.nodes }
    ensures words { (text : List ℕ) (tokens : List Token) (tree : Tree) (name : Name) (arguments : List ℤ)
        (g : Graph) → IsTokens text tokens → IsUnit text tokens tree → ElaboratesTo tree name arguments g
        → All (λ n. IsOneWord n.path) g.nodes }
{}

/// Graphs of texts are equal where their own texts are: what two descriptions elaborate to is told by what is written
/// of it.
pub fn texts_tell_graphs()
    ensures { (text other : List ℕ) (tokens others : List Token) (tree another : Tree) (name top : Name)
        (arguments values : List ℤ) (g h : Graph)
        → IsTokens text tokens → IsUnit text tokens tree → ElaboratesTo tree name arguments g → Sound g
        → IsTokens other others → IsUnit other others another → ElaboratesTo another top values h → Sound h
        → graph_text g ≡ graph_text h → g ≡ h }
{}
