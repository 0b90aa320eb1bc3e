// A sheet's links at each of its nodes.
#![tactic(auto)]

ghost use Rattle.std.specs.Prelude.{◌≡◌, ◌++◌, suc, ◌*◌, ◌<◌, ◌≤◌, length, drop};
ghost use Rattle.layout.specs.Places.{Laid};
ghost use Rattle.links.specs.Links.{link_start, link_end};
ghost use Rattle.touching.specs.Touching.{place_of, places_of, listed_of, Joined};
ghost use Rattle.fills.specs.Fills.{filled};
ghost use Rattle.links_at.specs.LinksAt.{LinksAt};

use fills::fill_with;
use layout::Layout;
use links::{link_end, link_start};

// Fills two columns with the nodes at which each link starts and ends.
pub fn put_ends(sheet: &[u8], l: Layout, starts: &mut [usize], ends: &mut [usize])
    requires laid { Laid l sheet.now }
    requires links_in_bounds { (l.links ≤ length starts.old) × (l.links ≤ length ends.old) }
    ensures starts { starts.new ≡ filled (link_start sheet.now l) l.links starts.old }
    ensures ends { ends.new ≡ filled (link_end sheet.now l) l.links ends.old }
{
    fill_with(starts, l.links, |j| link_start(sheet, l, j));
    fill_with(ends, l.links, |j| link_end(sheet, l, j));
}

// Lists a sheet's links at its nodes.
pub fn list_at_nodes(sheet: &[u8], l: Layout, places: &mut [usize], listed: &mut [usize])
    requires laid { Laid l sheet.now }
    requires joined { Joined (link_start sheet.now l) (link_end sheet.now l) l.nodes l.links }
    requires links_bound { (l.links ≤ 128) × ((l.nodes < length places.old) × (2 * l.links ≤ length listed.old)) }
    ensures places { places.new ≡ places_of (link_start sheet.now l) (link_end sheet.now l) l.links (suc l.nodes) ++ drop (suc l.nodes) places.old }
    ensures listed { listed.new ≡ listed_of (link_start sheet.now l) (link_end sheet.now l) l.links l.nodes ++ drop (place_of (link_start sheet.now l) (link_end sheet.now l) l.links l.nodes) listed.old }
    ensures right { LinksAt l sheet.now places.new listed.new }
{
    let mut starts = [0usize; 128];
    let mut ends = [0usize; 128];
    put_ends(sheet, l, &mut starts, &mut ends);
    touching::list_links(l.nodes, l.links, &starts, &ends, places, listed);
}
