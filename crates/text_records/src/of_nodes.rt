// The records of nodes: node.rs `initial_head`, state.rs `apply_patterns`.
ghost use Rattle.std.specs.Prelude.{◌≡◌};
ghost use Rattle.text_records.specs.Nodes.{junction_record, reservoir_record, tank_record, node_record_of};

use crate::figures::feet_at;
use line_fields::{is_keyword, number_or_zero};
use named_lines::Kind;
use records::{Node, NodeKind};
use text_units::{Units, cubic_feet};
use word_places::LineWords;

// A junction. Its demand goes by a pattern of 1 and by the multiplier.
#[tactic(auto, unfolding(crate::specs::Nodes::junction_record, crate::specs::Nodes::demand_of))]
fn junction_record(words: &LineWords<'_>, u: Units, multiplier: f64) -> Node
    ensures { result ≡ junction_record u multiplier words.now }
{
    Node {
        kind: NodeKind::Junction,
        disabled: false,
        elevation: feet_at(words, 1, u),
        demand: 0.0 + cubic_feet(u, number_or_zero(words, 2)) * 1.0 * multiplier,
        head: 0.0,
        highest: 0.0,
        lowest: 0.0,
        overflow: false,
    }
}

// A reservoir: its one number is its elevation and its head.
#[tactic(auto, unfolding(crate::specs::Nodes::reservoir_record))]
fn reservoir_record(words: &LineWords<'_>, u: Units) -> Node
    ensures { result ≡ reservoir_record u words.now }
{
    let head = feet_at(words, 1, u);
    Node {
        kind: NodeKind::Reservoir,
        disabled: false,
        elevation: head,
        demand: 0.0,
        head: head,
        highest: 0.0,
        lowest: 0.0,
        overflow: false,
    }
}

// A tank: its head is its level above its elevation.
#[tactic(auto, unfolding(crate::specs::Nodes::tank_record, spelled::specs::Texts::bytes_of))]
fn tank_record(words: &LineWords<'_>, u: Units) -> Node
    ensures { result ≡ tank_record u words.now }
{
    let elevation = feet_at(words, 1, u);
    Node {
        kind: NodeKind::Tank,
        disabled: false,
        elevation: elevation,
        demand: 0.0,
        head: elevation + feet_at(words, 2, u),
        highest: feet_at(words, 4, u),
        lowest: feet_at(words, 3, u),
        overflow: is_keyword(words, 8, b"YES"),
    }
}

// The record of a node from its line; what is no junction and no reservoir is a tank.
#[tactic(auto, unfolding(crate::specs::Nodes::node_record_of))]
pub fn node_record(words: &LineWords<'_>, kind: Kind, u: Units, multiplier: f64) -> Node
    ensures { result ≡ node_record_of kind u multiplier words.now }
{
    match kind {
        Kind::Junction => junction_record(words, u, multiplier),
        Kind::Reservoir => reservoir_record(words, u),
        _ => tank_record(words, u),
    }
}
