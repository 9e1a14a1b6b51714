// A table that is laid out node by node.
ghost use Rattle.std.specs.Prelude.{◌≡◌, ◌+◌, ◌-◌, ◌*◌, ◌≤◌, T, pos, replicate};
ghost use Rattle.algebra.specs.Limits.{most_nodes};
ghost use Rattle.nodes.specs.Node.{is_node, numbers_of};
ghost use Rattle.nodes.specs.Inside.Code.{kind_of};
ghost use Rattle.text.specs.Limits.{longest_text};
ghost use Rattle.text.specs.Inside.Laid.{put_node, signed_count, signed_table};

use algebra::MOST_NODES;
use nodes::Kind;

// The three numbers of each node, and how many nodes were put. A node past the last row is counted and left out: the caller refuses the formula in the end.
#[derive(Drop)]
pub struct Layout {
    pub rows: [[i64; 3]; MOST_NODES],
    pub nodes: usize,
}

// The three numbers of a node. The kinds' numbers are 01's table, which C lends.
fn numbers_of(node: Kind) -> [i64; 3]
    requires { T (is_node most_nodes (kind_of node)) }
    ensures { result ≡ numbers_of (kind_of node) }
{
    match node {
        Kind::Integer(value) => [0, value, 0],
        Kind::Variable(v) => [1, v as i64, 0],
        Kind::Sum(a, b) => [2, a as i64, b as i64],
        Kind::Product(a, b) => [3, a as i64, b as i64],
        Kind::Power(a, e) => [4, a as i64, e as i64],
    }
}

impl Layout {
    pub(crate) fn new() -> Layout
        ensures rows { result.rows ≡ replicate most_nodes (replicate 3 (pos 0)) }
        ensures none { result.nodes ≡ 0 }
    {
        Layout {
            rows: [[0; 3]; MOST_NODES],
            nodes: 0,
        }
    }

    // The node that was put last.
    pub(crate) fn last(&self) -> usize
        requires { 1 ≤ self.now.nodes }
        ensures { result ≡ self.now.nodes - 1 }
    {
        self.nodes - 1
    }

    #[tactic(auto, unfolding(crate::specs::Inside::Laid::put_node))]
    pub(crate) fn put(&mut self, node: Kind)
        requires at_place { T (is_node self.old.nodes (kind_of node)) }
        requires few { self.old.nodes ≤ 2 * longest_text + 1 }
        ensures rows_are { self.new.rows ≡ put_node self.old.rows self.old.nodes (kind_of node) }
        ensures one_more { self.new.nodes ≡ self.old.nodes + 1 }
    {
        let n = self.nodes;
        if n < MOST_NODES {
            self.rows[n] = numbers_of(node);
        }
        // Last, so that what comes next has the number from here, and not back from memory.
        self.nodes = n + 1;
    }

    // A term was read, and its own node is the last. If its sign is a minus, integer -1 is put, and the product of both.
    #[tactic(auto, unfolding(crate::specs::Inside::Laid::signed_count, crate::specs::Inside::Laid::signed_table))]
    pub(crate) fn put_sign(&mut self, sign: u8)
        requires some { 1 ≤ self.old.nodes }
        requires few { self.old.nodes ≤ 2 * longest_text }
        ensures nodes_are { self.new.nodes ≡ signed_count sign self.old.nodes }
        ensures rows_are { self.new.rows ≡ signed_table sign self.old.nodes self.old.rows }
    {
        if sign == b'-' {
            let term = self.last();
            self.put(Kind::Integer(-1));
            let minus_one = self.last();
            self.put(Kind::Product(minus_one, term));
        }
    }
}
