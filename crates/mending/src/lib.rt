// The list of links at each node after one link's ends are edited: only what lies between the nodes
// that it left and those that it came to is moved.
#![tactic(auto)]

ghost use Rattle.std.specs.Prelude.{◌≡◌, ◌++◌, ℕ, suc, ◌+◌, ◌<◌, ◌≤◌, length, get_or, set, drop};
ghost use Rattle.touching.specs.Touching.{in_column, place_of, places_of, listed_of, Joined, Listed};
ghost use Rattle.mending.specs.Mending.{Sought, Lowered, Raised, Less, More, Goes, Mended};

// Where link j stands or would stand among the links listed at node i.
fn seek(i: usize, j: usize, places: &[usize], listed: &[usize]) -> usize
    requires { (i + 1 < length places.now) × ((get_or places.now i 0 ≤ get_or places.now (i + 1) 0) × (get_or places.now (i + 1) 0 ≤ length listed.now)) }
    ensures { Sought listed.now (get_or places.now i 0) (get_or places.now (i + 1) 0) j result }
{
    let last = places[i + 1];
    for p in places[i]..last {
        if listed[p] >= j {
            return p;
        }
    }
    last
}

// Entry p goes to q, and those between come one down.
fn lower(p: usize, q: usize, j: usize, listed: &mut [usize])
    requires { (p ≤ q) × (q < length listed.old) }
    ensures { Lowered p q j listed.old listed.new }
{
    listed.copy_within(p + 1..q + 1, p);
    listed[q] = j;
}

// Entry q goes to p, and those between go one up.
fn raise(p: usize, q: usize, j: usize, listed: &mut [usize])
    requires { (p ≤ q) × (q < length listed.old) }
    ensures { Raised p q j listed.old listed.new }
{
    listed.copy_within(p..q, p + 1);
    listed[p] = j;
}

// The places of the nodes behind x, up to y, come one down.
fn place_less(x: usize, y: usize, places: &mut [usize])
    requires x_lt_y { (x < y) × (y < length places.old) }
    requires by_index { (i : ℕ) → x < i → i ≤ y → 0 < get_or places.old i 0 }
    ensures { Less x y places.old places.new }
{
    for i in x + 1..=y {
        places[i] -= 1;
    }
}

// The places of the nodes behind x, up to y, go one up.
fn place_more(x: usize, y: usize, places: &mut [usize])
    requires x_lt_y { (x < y) × (y < length places.old) }
    requires by_index { (i : ℕ) → x < i → i ≤ y → get_or places.old i 0 < 0xffff_ffff_ffff_ffff }
    ensures { More x y places.old places.new }
{
    for i in x + 1..=y {
        places[i] += 1;
    }
}

// Puts one end of link j at node y, and its entry in the list with it.
fn move_end(
    nodes: usize,
    links: usize,
    j: usize,
    y: usize,
    moved: &mut [usize],
    other: &[usize],
    places: &mut [usize],
    listed: &mut [usize],
)
    requires listed { Listed (in_column moved.old) (in_column other.now) nodes links places.old listed.old }
    requires goes { Goes moved.old other.now nodes links j y }
    ensures end { moved.new ≡ set moved.old j y }
    ensures list { Mended (in_column moved.old) (in_column other.now) (in_column (set moved.old j y)) (in_column other.now) nodes links places.old listed.old places.new listed.new }
{
    let x = moved[j];
    if x == y {
        return;
    }
    moved[j] = y;
    let here = seek(x, j, places, listed);
    let there = seek(y, j, places, listed);
    if x < y {
        lower(here, there - 1, j, listed);
        place_less(x, y, places);
    } else {
        raise(there, here, j, listed);
        place_more(y, x, places);
    }
}

// Replaces the ends of link j, and mends the list: it becomes what the new ends list. A node that the
// link touches before and after keeps its entry where it is.
pub fn move_link(
    nodes: usize,
    links: usize,
    j: usize,
    start: usize,
    end: usize,
    starts: &mut [usize],
    ends: &mut [usize],
    places: &mut [usize],
    listed: &mut [usize],
)
    requires listed_2 { Listed (in_column starts.old) (in_column ends.old) nodes links places.old listed.old }
    requires joined { Joined (in_column starts.old) (in_column ends.old) nodes links }
    requires links_in_bounds { (links ≤ length starts.old) × (links ≤ length ends.old) }
    requires j_lt_links { (j < links) × ((start < nodes) × ((end < nodes) × (start ≡ end → ⊥))) }
    ensures starts { starts.new ≡ set starts.old j start }
    ensures ends { ends.new ≡ set ends.old j end }
    ensures places { places.new ≡ places_of (in_column (set starts.old j start)) (in_column (set ends.old j end)) links (suc nodes) ++ drop (suc nodes) places.old }
    ensures listed { listed.new ≡ listed_of (in_column (set starts.old j start)) (in_column (set ends.old j end)) links nodes ++ drop (place_of (in_column (set starts.old j start)) (in_column (set ends.old j end)) links nodes) listed.old }
{
    if (start == ends[j]) | (end == starts[j]) {
        move_end(nodes, links, j, end, starts, ends, places, listed);
        move_end(nodes, links, j, start, ends, starts, places, listed);
        starts[j] = start;
        ends[j] = end;
        return;
    }
    move_end(nodes, links, j, start, starts, ends, places, listed);
    move_end(nodes, links, j, end, ends, starts, places, listed);
}
