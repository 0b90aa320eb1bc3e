// The records of the sheet, one behind the other: OP, PD where demands give way, the nodes, the links.
ghost use Rattle.std.specs.Prelude.{◌≡◌, ◌+◌, ◌*◌, ◌≤◌, length};
ghost use Rattle.words.specs.Buffer.{Put, placed};
ghost use Rattle.named_lines.specs.Named.{position_of};
ghost use Rattle.text_sheet.specs.Sheet.{head_bytes, nodes_bytes, links_bytes, sheet_of, sheet_size};

use known::Knowledge;
use named_lines::Table;
use power::{power_table, power_table_871};
use records::{Options, Pressures};
use sheet_bytes::{put_link, put_node, put_options, put_pressures};
use text_records::{link_record, node_record};
use text_settings::Settings;
use text_units::{pressure_feet, units_of};

// How many bytes the sheet has.
pub fn sheet_length(known: &Knowledge<'_>) -> usize
    ensures { result ≡ length (sheet_of known.now.known) }
{
    let records = 45 * known.nodes.len() + 49 * known.links.len();
    if known.settings.bends {
        return 47 + records;
    }
    29 + records
}

// OP, and PD where demands give way to pressure.
fn put_head(o: Settings, sheet: &mut [u8]) -> usize
    requires { sheet_size o 0 0 ≤ length sheet.old }
    ensures { Put sheet.old 0 (head_bytes o) sheet.new result }
{
    let options = Options {
        accuracy: o.accuracy,
        damping: o.damping,
        change: o.change,
        trials: o.trials,
        unit: o.unit,
    };
    let end = put_options(options, sheet, 0);
    if o.bends {
        let u = units_of(o.unit);
        let pressures = Pressures {
            minimum: pressure_feet(u, o.minimum),
            required: pressure_feet(u, o.required),
        };
        return put_pressures(pressures, sheet, end);
    }
    end
}

// All nodes, one behind the other.
fn put_nodes(nodes: &Table<'_>, o: Settings, sheet: &mut [u8], at: usize) -> usize
    requires { at + 45 * length nodes.now.lines ≤ length sheet.old }
    ensures { Put sheet.old at (nodes_bytes o nodes.now.lines) sheet.new result }
{
    let u = units_of(o.unit);
    let mut end = at;
    for i in 0..nodes.len() {
        let node = node_record(&nodes.words(i), nodes.kind(i), u, o.multiplier);
        end = put_node(node, sheet, end);
    }
    end
}

// The number of the node that has the name, or how many there are.
fn number_of(nodes: &Table<'_>, name: &[u8]) -> usize
    ensures { result ≡ position_of name.now nodes.now.lines }
{
    nodes.position(name).unwrap_or(nodes.len())
}

// All links, one behind the other: their ends are the numbers of the nodes that they name.
fn put_links(
    nodes: &Table<'_>,
    links: &Table<'_>,
    o: Settings,
    sheet: &mut [u8],
    at: usize,
) -> usize
    requires { at + 49 * length links.now.lines ≤ length sheet.old }
    ensures { Put sheet.old at (links_bytes o nodes.now.lines links.now.lines) sheet.new result }
{
    let u = units_of(o.unit);
    let table = power_table();
    let table_871 = power_table_871();
    let mut end = at;
    for j in 0..links.len() {
        let words = links.words(j);
        let link = link_record(
            &words,
            links.kind(j),
            &links.said(j),
            number_of(nodes, words.word(1)),
            number_of(nodes, words.word(2)),
            u,
            &table,
            &table_871,
        );
        end = put_link(link, sheet, end);
    }
    end
}

// The whole sheet; the buffer's bytes behind it stay.
pub fn put_sheet(known: &Knowledge<'_>, sheet: &mut [u8])
    requires { length (sheet_of known.now.known) ≤ length sheet.old }
    ensures { sheet.new ≡ placed sheet.old 0 (sheet_of known.now.known) }
{
    let o = known.settings;
    let behind_head = put_head(o, sheet);
    let behind_nodes = put_nodes(&known.nodes, o, sheet, behind_head);
    put_links(&known.nodes, &known.links, o, sheet, behind_nodes);
}
