// What the program `terms` prints of a typed formula: the terms of its sum, or a refusal.
// Begin with specs/Listing.antt, then with `list`.
// What is written stays two slices, as C lends it: a struct of `&mut` slices would have to say in each contract where they point.
#![tactic(auto)]

ghost use Rattle.std.specs.Prelude.{◌≡◌, ◌≤◌, length};
ghost use Rattle.algebra.specs.Limits.{variables, most_terms};
ghost use Rattle.answers.specs.Answers.{told, outcome};
ghost use Rattle.answers.specs.Areas.{written};
ghost use Rattle.formula.specs.Simplify.{table_sum};
ghost use Rattle.text.specs.Text.{text_sum};
ghost use Rattle.listing.specs.Lines.{most_lines};
ghost use Rattle.listing.specs.Inside.Forming.{Forms};
ghost use Rattle.listing.specs.Listing.{listed, without_newline, most_input, list};

use algebra::{MOST_TERMS, Pattern, Terms, WORK_PLACES};
use answers::{Answer, Refusal};

mod lines;

// 10 bytes for the first line; for each term 19 digits and a minus, three bytes for each exponent, and the newline.
pub const MOST_LINES: usize = (20 + 3 * Pattern::VARIABLES as usize + 1) * MOST_TERMS + 10;

// What a program need read of its input: one that fills this is too long, with or without a newline at its end.
pub const MOST_INPUT: usize = text::LONGEST_TEXT + 2;

// Ties it to the definition.
pub fn most_input() -> usize
    ensures { result ≡ most_input }
{
    MOST_INPUT
}

// The terms of a table's sum, to the first places of two areas. It answers how many they are.
fn form(table: &[i64], patterns: &mut [u64], coefficients: &mut [i64]) -> Answer
    requires patterns_room { most_terms ≤ length patterns.old }
    requires coefficients_room { most_terms ≤ length coefficients.old }
    ensures { Forms (table_sum table.now) result patterns.new coefficients.new }
{
    let mut work_patterns = [0u64; WORK_PLACES];
    let mut work_coefficients = [0i64; WORK_PLACES];
    let mut bytes = [0u8; packed::MOST_BYTES];
    let length = formula::simplify(
        table,
        &mut work_patterns,
        &mut work_coefficients,
        &mut bytes,
    )?;
    packed::unpack(&bytes[..length], patterns, coefficients)
}

// Both of these answer how many bytes they wrote.

// The lines of a table's formula.
fn list_table(table: &[i64], area: &mut [u8]) -> usize
    requires { most_lines variables ≤ length area.old }
    ensures value { result ≡ length (listed (table_sum table.now)) }
    ensures area_after { area.new ≡ written (listed (table_sum table.now)) area.old }
{
    let mut patterns = [0u64; MOST_TERMS];
    let mut coefficients = [0i64; MOST_TERMS];
    match form(table, &mut patterns, &mut coefficients) {
        Ok(count) => lines::write_sum(area, Terms::first(count, &patterns, &coefficients)),
        Err(refused) => lines::write_refusal(area, refused),
    }
}

// The lines of a typed formula. It is read before there are work areas: a text that is refused takes no time for them.
fn list_text(text: &[u8], area: &mut [u8]) -> usize
    requires { most_lines variables ≤ length area.old }
    ensures value { result ≡ length (listed (text_sum text.now)) }
    ensures area_after { area.new ≡ written (listed (text_sum text.now)) area.old }
{
    let mut table = [0i64; text::TABLE_PLACES];
    match text::read_formula(text, &mut table) {
        Ok(nodes) => list_table(&table[..3 * nodes], area),
        Err(refused) => lines::write_refusal(area, refused),
    }
}

// Lists the terms of a typed formula, or why it is refused.
pub fn list(input: &[u8], area: &mut [u8]) -> Answer
    ensures { outcome (told result) area.new ≡ list input.now area.old }
{
    if area.len() < MOST_LINES {
        return Err(Refusal::Room.at(0));
    }
    let text = input.strip_suffix(b"\n").unwrap_or(input);
    Ok(list_text(text, area))
}
