// Where the records of a sheet stand: one OP, a PD or none, then all ND, then all LK.
ghost use Rattle.std.specs.Prelude.{◌≡◌, ◌^◌, ◌<◌};
ghost use Rattle.layout.specs.Places.{heading, node_place, link_place};

// The sizes of the records in bytes, mark included.
pub const OP_SIZE: usize = 29;

pub const PD_SIZE: usize = 18;

pub const ND_SIZE: usize = 45;

pub const LK_SIZE: usize = 49;

// What is known of a sheet that was read: how many nodes, links and unknowns it has, where its
// first node and its first link stand, how far a link is from the next, and whether a PD stands
// behind its OP.
#[derive(Clone, Copy)]
pub struct Layout {
    pub nodes: usize,
    pub links: usize,
    pub unknowns: usize,
    pub node0: usize,
    pub link0: usize,
    pub stride: usize,
    pub pressures: bool,
}

// How many bytes stand before the first node.
pub fn heading(pressures: bool) -> usize
    ensures { result ≡ heading pressures }
{
    if pressures {
        return OP_SIZE + PD_SIZE;
    }
    OP_SIZE
}

// The byte offset of node i.
pub fn node_place(l: Layout, i: usize) -> usize
    requires { node_place l i < 2 ^ 64 }
    ensures { result ≡ node_place l i }
{
    l.node0 + ND_SIZE * i
}

// The byte offset of link j.
pub fn link_place(l: Layout, j: usize) -> usize
    requires { link_place l j < 2 ^ 64 }
    ensures { result ≡ link_place l j }
{
    l.link0 + l.stride * j
}
