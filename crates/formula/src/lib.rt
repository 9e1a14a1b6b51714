// Formula tables, and Simplify.
// Begin with specs/Table.antt and specs/Simplify.antt, then with `simplify`; what a formula means is in specs/Meaning.antt.
// What is written stays two slices, as C lends it: a struct of `&mut` slices would have to say in each contract where they point.
#![tactic(auto)]

ghost use Rattle.std.specs.Prelude.{◌≡◌, [], ◌≤◌, ◌/◌, length, drop};
ghost use Rattle.algebra.specs.Limits.{variables, work_places};
ghost use Rattle.answers.specs.Answers.{told, outcome};
ghost use Rattle.packed.specs.Packed.{most_bytes};
ghost use Rattle.packed.specs.Result.{packed_into};
ghost use Rattle.formula.specs.Table.{judge_nodes, is_shape};
ghost use Rattle.formula.specs.Simplify.{table_sum, simplify};
ghost use Rattle.formula.specs.Inside.Shape.{Shaped};
ghost use Rattle.formula.specs.Inside.Last.{terms_told, KeepsLast};

use algebra::{LARGEST_WEIGHT, MOST_NODES, MOST_TERMS, Pattern, Terms, WORK_PLACES};
use answers::{Answer, Refusal, areas};
use nodes::{Kind, Node, work};
use packed::writer;

// Whether a table's length is 3 × (1..64).
#[tactic(auto, using(std::proofs::lemmas::Bool::Decides::nat_tests), unfolding(crate::specs::Table::is_shape))]
fn is_shape(n: usize) -> bool
    ensures { result ≡ is_shape n }
{
    n % 3 == 0 && (1..=MOST_NODES).contains(&(n / 3))
}

// Reads, judges and forms the nodes from 0 up. Done, it returns the number of terms of the last one.
fn form_nodes(table: &[i64], patterns: &mut [u64], coefficients: &mut [i64]) -> Answer
    requires shape { Shaped (length table.now) (length table.now / 3) }
    requires patterns_room { work_places ≤ length patterns.old }
    requires coefficients_room { work_places ≤ length coefficients.old }
    ensures result_value { told result ≡ terms_told (judge_nodes [] table.now) }
    ensures keeps_last { KeepsLast (judge_nodes [] table.now) patterns.new coefficients.new }
    ensures patterns_unchanged { drop work_places patterns.new ≡ drop work_places patterns.old }
    ensures coefficients_unchanged { drop work_places coefficients.new ≡ drop work_places coefficients.old }
{
    let mut nodes = [Node {
        degree: 0,
        weight: 0,
        kind: Kind::Integer(0),
    }; MOST_NODES];
    // A node is what 01 says it is, and forming needs the counts alone.
    let mut counts = [0; MOST_NODES];
    for (i, numbers) in table.chunks_exact(3).enumerate() {
        let read = nodes::read_node(i, numbers[0], numbers[1], numbers[2]);
        let kind = read.ok_or(Refusal::Node.at(i))?;
        let node = nodes::make_node(kind, &nodes[..i]);
        if node.degree > Pattern::LARGEST_DEGREE {
            return Err(Refusal::Degree.at(i));
        }
        if node.weight > LARGEST_WEIGHT {
            return Err(Refusal::Weight.at(i));
        }
        let formed = work::form(kind, i, &counts, patterns, coefficients);
        let count = formed.ok_or(Refusal::Spread.at(i))?;
        counts[i] = count;
        nodes[i] = node;
    }
    Ok(counts[table.len() / 3 - 1])
}

// Writes the packed sum of the table's formula. What the work areas hold afterwards is not said, but that their further places stay: the caller
// clears them.
fn form_table(
    table: &[i64],
    patterns: &mut [u64],
    coefficients: &mut [i64],
    res: &mut [u8],
) -> Answer
    requires patterns_room { work_places ≤ length patterns.old }
    requires coefficients_room { work_places ≤ length coefficients.old }
    requires res_room { most_bytes variables ≤ length res.old }
    ensures res_after { outcome (told result) res.new ≡ packed_into (table_sum table.now) res.old }
    ensures patterns_unchanged { drop work_places patterns.new ≡ drop work_places patterns.old }
    ensures coefficients_unchanged { drop work_places coefficients.new ≡ drop work_places coefficients.old }
{
    if !is_shape(table.len()) {
        return Err(Refusal::Shape.at(0));
    }
    let count = form_nodes(table, patterns, coefficients)?;
    let start = MOST_TERMS * (table.len() / 3 - 1);
    let end = start + count;
    let sum = Terms {
        patterns: &patterns[start..end],
        coefficients: &coefficients[start..end],
    };
    let length = writer::write_sum(res, 0, sum);
    Ok(length)
}

// A formula table becomes a packed sum.
pub fn simplify(
    table: &[i64],
    patterns: &mut [u64],
    coefficients: &mut [i64],
    res: &mut [u8],
) -> Answer
    ensures { outcome (told result) (patterns.new, coefficients.new, res.new)
        ≡ simplify table.now patterns.old coefficients.old res.old }
{
    if patterns.len() < WORK_PLACES
        || coefficients.len() < WORK_PLACES
        || res.len() < packed::MOST_BYTES
    {
        return Err(Refusal::Room.at(0));
    }
    let answer = form_table(table, patterns, coefficients, res);
    areas::clear_words(patterns, WORK_PLACES);
    areas::clear_coefficients(coefficients, WORK_PLACES);
    answer
}
