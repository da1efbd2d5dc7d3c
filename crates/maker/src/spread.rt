// Kinds spread along the program's paths, with every page in place, and then needs against them.
ghost use Rattle.std.specs.Prelude.{◌≡◌, ◌≤◌};
ghost use Rattle.isa.specs.Rom.{IsImage};
ghost use Rattle.maker.specs.Making.{NoEdges, Explored, Raised, Spread};

use crate::Change;
use crate::graph::{ADDRESSES, ALL_EDGES, FIRST_EDGES, Graph, from_of};
use crate::marking::{raise_at, visit};
use certificate::marks::{mark_at, need_at};
use isa::rom::spaces_in;
use isa::sources::{RESET_VECTOR, SOURCES, vector_of};

// With how many pages in place an address is explored: all, where its instruction can have bytes in a page, below 800h
// or, from FFEh on, after FFFh; else one, since it is the same with each.
fn pages_at(address: u16, spaces: u8) -> u8 {
    if 0x800 <= address && address < 0xFFE {
        1
    } else {
        spaces
    }
}

// Visits an address with each of the first pages in place, and notes the edges that leave it.
fn explore_at<const N: usize>(
    image: &[u8],
    pages: u8,
    certificate: &mut [u8],
    graph: &mut Graph<N>,
    address: u16,
) -> Change
    requires { IsImage image.now }
    ensures { Explored image.now certificate.old certificate.new graph.old.edges graph.new.edges result }
{
    let mut changed = false;
    for page in 0..pages {
        let visited = visit(image, page, certificate, address)?;
        graph.note_edges(address, page, visited.successors);
        changed |= visited.changed;
    }
    Ok(changed)
}

// Explores an address. Where it needs a level it counts as risen, since those that lead to it need one too.
fn explore_one<const N: usize>(
    image: &[u8],
    spaces: u8,
    certificate: &mut [u8],
    graph: &mut Graph<N>,
    address: u16,
) -> Change
    requires { IsImage image.now }
    ensures { Explored image.now certificate.old certificate.new graph.old.edges graph.new.edges result }
{
    let changed = explore_at(
        image,
        pages_at(address, spaces),
        certificate,
        graph,
        address,
    )?;
    if 0 < need_at(certificate, address) {
        graph.risen.push(address);
    }
    Ok(changed)
}

// Explores what is found, until nothing more is: each address once, so all are explored before the count ends.
fn explore<const N: usize>(
    image: &[u8],
    spaces: u8,
    certificate: &mut [u8],
    graph: &mut Graph<N>,
) -> Change
    requires { IsImage image.now }
    ensures { Explored image.now certificate.old certificate.new graph.old.edges graph.new.edges result }
{
    let mut changed = false;
    for _ in 0..ADDRESSES {
        let Some(address) = graph.found.pop() else {
            break;
        };
        changed |= explore_one(image, spaces, certificate, graph, address)?;
    }
    Ok(changed)
}

// Raises the need of the address that an edge leaves to what the edge demands.
fn raise_one<const N: usize>(certificate: &mut [u8], graph: &mut Graph<N>, edge: u16) -> Change
    ensures { Raised certificate.old certificate.new graph.old.edges graph.new.edges result }
{
    let Some(link) = graph.link(edge) else {
        return Ok(false);
    };
    let from = from_of(edge);
    let need = need_at(certificate, link.to) + link.levels;
    let changed = raise_at(certificate, from, need)?;
    if changed {
        graph.risen.push(from);
    }
    Ok(changed)
}

// Raises the needs of all addresses that lead to one, by the list of the edges into it.
fn raise_into<const N: usize>(certificate: &mut [u8], graph: &mut Graph<N>, to: u16) -> Change
    ensures { Raised certificate.old certificate.new graph.old.edges graph.new.edges result }
{
    let mut changed = false;
    let mut next = graph.last_edge(to);
    for _ in 0..ALL_EDGES {
        let Some(edge) = next else {
            break;
        };
        changed |= raise_one(certificate, graph, edge)?;
        next = graph.earlier_edge(edge);
    }
    Ok(changed)
}

// Raises needs until none rises any more. Each address is taken at most seven times: as it was found, and after each of
// six rises.
fn raise<const N: usize>(certificate: &mut [u8], graph: &mut Graph<N>) -> Change
    ensures { Raised certificate.old certificate.new graph.old.edges graph.new.edges result }
{
    let mut changed = false;
    for _ in 0..7 * ADDRESSES {
        let Some(to) = graph.risen.pop() else {
            break;
        };
        changed |= raise_into(certificate, graph, to)?;
    }
    Ok(changed)
}

// Finds a vector that has a mark.
fn find_marked<const N: usize>(certificate: &[u8], graph: &mut Graph<N>, vector: u16)
    ensures { graph.new.edges ≡ graph.old.edges }
{
    if mark_at(certificate, vector) != 0 {
        graph.find_vector(vector);
    }
}

// Finds the vectors that have marks.
fn find_vectors<const N: usize>(certificate: &[u8], graph: &mut Graph<N>)
    ensures { graph.new.edges ≡ graph.old.edges }
{
    for source in SOURCES {
        find_marked(certificate, graph, vector_of(source));
    }
    find_marked(certificate, graph, RESET_VECTOR);
}

// Spreads the marks of the vectors over the program, with a number of pages, by a graph in which no edge is noted yet.
fn spread_by<const N: usize>(
    image: &[u8],
    spaces: u8,
    certificate: &mut [u8],
    graph: &mut Graph<N>,
) -> Change
    requires { IsImage image.now × NoEdges graph.old.edges }
    ensures { Spread image.now certificate.old certificate.new result }
{
    find_vectors(certificate, graph);
    let explored = explore(image, spaces, certificate, graph)?;
    let raised = raise(certificate, graph)?;
    Ok(explored | raised)
}

// .. by a new graph: a function of its own, so that nothing but a graph of this size is cleared.
fn spread_with<const N: usize>(image: &[u8], spaces: u8, certificate: &mut [u8]) -> Change
    requires { IsImage image.now × (N ≤ 40992) }
    ensures { Spread image.now certificate.old certificate.new result }
{
    let mut graph = Graph::<N>::new();
    spread_by(image, spaces, certificate, &mut graph)
}

// Spreads the marks of the vectors over the program. With one page, or none, there are fewer edges, which are cleared
// sooner.
pub fn spread(image: &[u8], certificate: &mut [u8]) -> Change
    requires { IsImage image.now }
    ensures { Spread image.now certificate.old certificate.new result }
{
    let spaces = spaces_in(image.len());
    if spaces == 1 {
        spread_with::<FIRST_EDGES>(image, spaces, certificate)
    } else {
        spread_with::<ALL_EDGES>(image, spaces, certificate)
    }
}
