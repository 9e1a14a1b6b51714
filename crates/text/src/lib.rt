// Typed formulas, read into tables.
// Begin with specs/Grammar.antt and specs/Text.antt, then with `read_formula`; the four readers that call each other are in `readers`.
#![tactic(auto)]

ghost use Rattle.std.specs.Prelude.{◌≡◌};
ghost use Rattle.answers.specs.Answers.{told, outcome};
ghost use Rattle.text.specs.Text.{read_formula};

use algebra::MOST_NODES;
use answers::{Answer, Refusal};

mod bytes;
mod laying;
mod readers;

use laying::Layout;

// In bytes.
pub const LONGEST_TEXT: usize = 1024;

// How deep brackets may nest.
const DEEPEST: usize = 16;

// Three places for each node.
pub const TABLE_PLACES: usize = 3 * MOST_NODES;

// A typed formula becomes a table. It is laid out apart first, so that the caller's table changes only when all is well.
pub fn read_formula(text: &[u8], table: &mut [i64]) -> Answer
    ensures { outcome (told result) table.new ≡ read_formula text.now table.old }
{
    if table.len() < TABLE_PLACES {
        return Err(Refusal::Room.at(0));
    }
    if text.len() > LONGEST_TEXT {
        return Err(Refusal::Text.at(LONGEST_TEXT));
    }
    let mut layout = Layout::new();
    let read = readers::read_sum(text, 0, DEEPEST, &mut layout);
    let next = read.map_err(|place| Refusal::Text.at(place))?;
    if next < text.len() {
        return Err(Refusal::Text.at(next));
    }
    if layout.nodes > MOST_NODES {
        return Err(Refusal::Nodes.at(0));
    }
    let written = layout.rows[..layout.nodes].as_flattened();
    table[..written.len()].copy_from_slice(written);
    Ok(layout.nodes)
}
