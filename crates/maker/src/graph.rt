// The program's graph, as far as it has been explored. An edge is numbered by the address that it leaves, by its place
// among the two that can leave it, and by the page in place. With the first page the number is twice the address, plus
// the place. With another page an edge has a number of its own only where the instruction can have bytes in a page:
// below 800h, and at FFEh and FFFh, after which 000h follows. Anywhere else it leads on as with the first page.
//
// Each link that is noted is an edge of the program with some page in place (`Known`). All else only chooses which
// addresses and edges are looked at, and when: in the end the check finds whether anything was left out, so it needs no
// promise.
ghost use Rattle.std.specs.Prelude.{◌≡◌, [], ◌∷◌, ◌+◌, ◌*◌, ◌<◌, MatchOption};
ghost use Rattle.certificate.specs.Successors.{successor_of, listed};
ghost use Rattle.maker.specs.Making.{leaves, FirstEdge, NoEdges, Recorded, link_at, IsLink};

use certificate::marks::Kind;
use certificate::successors::{Successor, Successors};

pub const ADDRESSES: u16 = 4096;

// How many edges have a number with the first page, and how many with all nine.
pub const FIRST_EDGES: usize = 8192;

pub const ALL_EDGES: usize = 40992;

// How many addresses have instructions with bytes in a page: counted from FFEh on, the first ones.
const PAGED: u16 = 2050;

// A note is a number plus 2. 1 is the end of a list, and 0 says that nothing is noted.
const FIRST: u16 = 2;

const END: u16 = 1;

// The number that is noted.
fn noted(note: u16) -> Option<u16> {
    note.checked_sub(FIRST)
}

// A stack of addresses, each on it at most once, with a note of the one below it.
#[derive(Drop)]
pub struct Stack {
    below: [u16; 4096],
    top: u16,
}

impl Stack {
    fn new() -> Stack {
        Stack {
            below: [0; 4096],
            top: 0,
        }
    }

    // Puts an address on the stack, where it is not on it.
    pub fn push(&mut self, address: u16) {
        let number = address % ADDRESSES;
        let below = &mut self.below[number as usize];
        if *below == 0 {
            *below = self.top.max(END);
            self.top = number + FIRST;
        }
    }

    // Takes the address that was put on it last.
    pub fn pop(&mut self) -> Option<u16> {
        let address = noted(self.top)? % ADDRESSES;
        let below = &mut self.below[address as usize];
        self.top = *below;
        *below = 0;
        Some(address)
    }
}

// Where an edge leads, and the levels that going there takes.
#[derive(Clone, Copy)]
pub struct Link {
    pub to: u16,
    pub levels: u8,
}

// What is noted of an edge: its link, as twice the address to which it leads, plus the levels, plus 1; and the edge that
// was noted before it into the same address. Kept short, since all entries are cleared first.
#[derive(Clone, Copy)]
pub struct Entry {
    pub link: u16,
    pub earlier: u16,
}

// The edges, by number; for each address the last edge into it; the addresses that were found and not visited yet; and
// those whose need rose. A new one is all zeros, which are written in one go.
#[derive(Drop)]
pub struct Graph<const N: usize> {
    pub edges: [Entry; N],
    into: [u16; 4096],
    pub found: Stack,
    pub risen: Stack,
}

// The number of the first of the two edges that can leave an address with a page in place.
fn first_edge(from: u16, page: u8) -> u16
    requires { from < 4096 }
    ensures { FirstEdge from result }
{
    if page == 0 {
        return from * 2;
    }
    let row = (from + 2) % ADDRESSES;
    if PAGED <= row {
        return from * 2;
    }
    FIRST_EDGES as u16 + row * 16 + (page % 8) as u16 * 2
}

// The address that an edge leaves, by its number.
pub fn from_of(edge: u16) -> u16
    ensures { result ≡ leaves edge }
{
    if edge < FIRST_EDGES as u16 {
        return edge / 2;
    }
    ((edge - FIRST_EDGES as u16) / 16 + ADDRESSES - 2) % ADDRESSES
}

impl<const N: usize> Graph<N> {
    // No edge is noted yet.
    pub fn new() -> Self
        ensures { NoEdges result.edges }
    {
        Graph {
            edges: [Entry {
                link: 0,
                earlier: 0,
            }; N],
            into: [0; 4096],
            found: Stack::new(),
            risen: Stack::new(),
        }
    }

    // Finds a vector, to which the program comes by itself.
    pub fn find_vector(&mut self, vector: u16)
        ensures { self.new.edges ≡ self.old.edges }
    {
        self.into[(vector % ADDRESSES) as usize] = END;
        self.found.push(vector);
    }

    // Notes an edge, and finds the address to which it leads.
    fn note_edge(&mut self, edge: u16, to: Successor<Kind>)
        requires { edge < 40992 }
        ensures { Recorded self.old.edges self.new.edges (leaves edge) (successor_of to ∷ []) }
    {
        if N <= edge as usize || ADDRESSES <= to.address {
            return;
        }
        let earlier = self.into[to.address as usize];
        self.edges[edge as usize] = Entry {
            link: to.address * 2 + (to.levels % 2) as u16 + 1,
            earlier,
        };
        self.into[to.address as usize] = edge + FIRST;
        if earlier == 0 {
            self.found.push(to.address);
        }
    }

    // Notes the edges that leave an address with a page in place.
    pub fn note_edges(&mut self, from: u16, page: u8, successors: Successors<Kind>)
        ensures { Recorded self.old.edges self.new.edges from (listed successors) }
    {
        if ADDRESSES <= from {
            return;
        }
        let edge = first_edge(from, page);
        match successors {
            Successors::None => {}
            Successors::One(successor) => self.note_edge(edge, successor),
            Successors::Two(first, second) => {
                self.note_edge(edge, first);
                self.note_edge(edge + 1, second);
            }
        }
    }

    // The last edge into an address, as noted.
    pub fn last_edge(&self, to: u16) -> Option<u16> {
        noted(self.into[(to % ADDRESSES) as usize])
    }

    // The edge noted before one, into the same address.
    pub fn earlier_edge(&self, edge: u16) -> Option<u16> {
        if N <= edge as usize {
            return None;
        }
        noted(self.edges[edge as usize].earlier)
    }

    // Where an edge leads, as noted; none exactly where it is not.
    pub fn link(&self, edge: u16) -> Option<Link>
        ensures { MatchOption result (link_at self.now.edges edge ≡ 0) (IsLink self.now.edges edge) }
    {
        if N <= edge as usize {
            return None;
        }
        let link = self.edges[edge as usize].link;
        if link == 0 {
            return None;
        }
        Some(Link {
            to: (link - 1) / 2,
            levels: ((link - 1) % 2) as u8,
        })
    }
}
