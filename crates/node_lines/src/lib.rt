// The lines of JUNCTIONS, RESERVOIRS and TANKS: what each is refused with by its words alone.
#![tactic(auto)]

ghost use Rattle.std.specs.Prelude.{◌≡◌};
ghost use Rattle.node_lines.specs.Nodes.{junction_fault, reservoir_fault, tank_fault, tank_numbers, overflow_good};

use line_fields::{LineFault, fault, is_keyword, is_name, is_number, is_number_or_none};
use word_places::LineWords;

// Name, elevation; then, or not, the base demand; then, or not, its pattern, which is not carried.
#[tactic(auto, unfolding(crate::specs::Nodes::junction_fault))]
pub fn junction_fault(words: &LineWords<'_>) -> Result<(), LineFault>
    ensures { result ≡ junction_fault words.now }
{
    let count = words.has(1) & !words.has(4);
    let good = count
        & is_name(words, 0)
        & is_number(words, 1)
        & is_number_or_none(words, 2)
        & is_name(words, 3);
    fault(good, words.has(3))
}

// Name, head; then, or not, its pattern.
#[tactic(auto, unfolding(crate::specs::Nodes::reservoir_fault))]
pub fn reservoir_fault(words: &LineWords<'_>) -> Result<(), LineFault>
    ensures { result ≡ reservoir_fault words.now }
{
    let count = words.has(1) & !words.has(3);
    let good = count & is_name(words, 0) & is_number(words, 1) & is_name(words, 2);
    fault(good, words.has(2))
}

// Elevation, the three levels, diameter, smallest volume.
#[tactic(auto, unfolding(crate::specs::Nodes::tank_numbers))]
fn tank_numbers(words: &LineWords<'_>) -> bool
    ensures { result ≡ tank_numbers words.now }
{
    let levels = is_number(words, 1)
        & is_number(words, 2)
        & is_number(words, 3)
        & is_number(words, 4);
    levels & is_number(words, 5) & is_number(words, 6)
}

// YES or NO, or nothing.
#[tactic(auto, unfolding(crate::specs::Nodes::overflow_good, spelled::specs::Texts::bytes_of))]
fn overflow_good(words: &LineWords<'_>) -> bool
    ensures { result ≡ overflow_good words.now }
{
    !words.has(8) | is_keyword(words, 8, b"YES") | is_keyword(words, 8, b"NO")
}

// Name and six numbers; then, or not, the volume curve, which is not carried, or a star for none; then, or not, whether it overflows.
#[tactic(auto, unfolding(crate::specs::Nodes::tank_fault, spelled::specs::Texts::bytes_of))]
pub fn tank_fault(words: &LineWords<'_>) -> Result<(), LineFault>
    ensures { result ≡ tank_fault words.now }
{
    let count = words.has(6) & !words.has(9);
    let good = count
        & is_name(words, 0)
        & tank_numbers(words)
        & is_name(words, 7)
        & overflow_good(words);
    let curve = words.has(7) & !is_keyword(words, 7, b"*");
    fault(good, curve)
}
