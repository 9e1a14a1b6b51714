// Nodes of a formula: read from their three numbers, their formal degree and weight, and their sums in the work areas.
// Begin with specs/Node.antt and specs/Formal.antt, then with `Kind`, `read_node` and `make_node`; `work` forms a node's sum.
#![tactic(auto)]

ghost use Rattle.std.specs.Prelude.{◌≡◌, T, cond, nat_abs, length};
ghost use Rattle.algebra.specs.Limits.{largest_degree, largest_weight};
ghost use Rattle.nodes.specs.Node.{is_in, is_node, read_node};
ghost use Rattle.nodes.specs.Inside.Code.{kind_of, found_of, formal_degrees, formal_weights};
ghost use Rattle.weights.specs.Capped.{capped};
ghost use Rattle.nodes.specs.Formal.{formal_degree, formal_weight};
ghost use Rattle.nodes.specs.Inside.Children.{EachAtMost};

use algebra::Pattern;

pub mod work;

// What a node is, with its own data. Children are named by their index.
#[derive(Clone, Copy, Debug, PartialEq, Eq)]
pub enum Kind {
    Integer(i64),
    Variable(u64),
    Sum(usize, usize),
    Product(usize, usize),
    // The base, and the exponent.
    Power(usize, u64),
}

// A node that was read: its formal degree and its formal weight beside its kind. Every weight above 2^62 is told by 2^62 + 1.
#[derive(Clone, Copy, Debug, PartialEq, Eq)]
pub struct Node {
    pub degree: u64,
    pub weight: u64,
    pub kind: Kind,
}

// ---- Reading.

// A number of the table as an index, where it is at least 0 and below a limit.
#[tactic(auto, using(std::proofs::lemmas::Bool::Decides::nat_tests), unfolding(crate::specs::Node::is_in))]
fn below(n: i64, limit: usize) -> Option<usize>
    ensures { result ≡ cond (is_in limit n) (Some (nat_abs n)) None }
{
    usize::try_from(n).ok().filter(|k| *k < limit)
}

// Node i, from its three numbers, where they are those of a node. (The kinds' numbers are 01's table, which C lends.)
#[tactic(auto, using(std::proofs::lemmas::Int::ints), unfolding(crate::specs::Node::read_node, crate::specs::Node::is_kind, answers::specs::Judge::holding, algebra::specs::Sum::is_zero))]
pub fn read_node(i: usize, kind: i64, first: i64, second: i64) -> Option<Kind>
    ensures { found_of i result ≡ read_node i kind first second }
{
    match kind {
        0 if second == 0 => Some(Kind::Integer(first)),
        1 if second == 0 => {
            let v = below(first, Pattern::VARIABLES as usize)?;
            Some(Kind::Variable(v as u64))
        }
        2 => {
            let a = below(first, i)?;
            let b = below(second, i)?;
            Some(Kind::Sum(a, b))
        }
        3 => {
            let a = below(first, i)?;
            let b = below(second, i)?;
            Some(Kind::Product(a, b))
        }
        4 => {
            let a = below(first, i)?;
            let e = below(second, Pattern::LARGEST_DEGREE as usize + 1)?;
            Some(Kind::Power(a, e as u64))
        }
        _ => None,
    }
}

// ---- The formal degree and the formal weight, from those of the nodes before.

#[tactic(auto, using(std::proofs::lemmas::Grind::common_steps, crate::proofs::Formally::degree_there), unfolding(crate::specs::Formal::formal_degree))]
fn formal_degree(kind: Kind, before: &[Node]) -> u64
    requires node { T (is_node (length before.now) (kind_of kind)) }
    requires low { EachAtMost largest_degree (formal_degrees before.now) }
    ensures { result ≡ formal_degree (formal_degrees before.now) (kind_of kind) }
{
    match kind {
        Kind::Integer(_) => 0,
        Kind::Variable(_) => 1,
        Kind::Sum(a, b) => before[a].degree.max(before[b].degree),
        Kind::Product(a, b) => before[a].degree + before[b].degree,
        Kind::Power(a, e) => before[a].degree * e,
    }
}

#[tactic(auto, using(std::proofs::lemmas::Grind::common_steps, crate::proofs::Formally::weight_there), unfolding(crate::specs::Formal::formal_weight))]
fn formal_weight(kind: Kind, before: &[Node]) -> u64
    requires node { T (is_node (length before.now) (kind_of kind)) }
    requires light { EachAtMost largest_weight (formal_weights before.now) }
    ensures { result ≡ capped (formal_weight (formal_weights before.now) (kind_of kind)) }
{
    match kind {
        Kind::Integer(n) => weights::cap(n.unsigned_abs()),
        Kind::Variable(_) => 1,
        Kind::Sum(a, b) => weights::cap(before[a].weight + before[b].weight),
        Kind::Product(a, b) => weights::product(before[a].weight, before[b].weight),
        Kind::Power(a, e) => weights::power(before[a].weight, e),
    }
}

// The node of a kind, with its formal degree and weight from those of the nodes before.
// Asks that the node's children stand before it, and their degrees and weights are within the limits.
pub fn make_node(kind: Kind, before: &[Node]) -> Node
    requires node { T (is_node (length before.now) (kind_of kind)) }
    requires low { EachAtMost largest_degree (formal_degrees before.now) }
    requires light { EachAtMost largest_weight (formal_weights before.now) }
    ensures { (result.degree ≡ formal_degree (formal_degrees before.now) (kind_of kind))
        × (result.weight ≡ capped (formal_weight (formal_weights before.now) (kind_of kind))) × (result.kind ≡ kind) }
{
    Node {
        degree: formal_degree(kind, before),
        weight: formal_weight(kind, before),
        kind,
    }
}
