// The certificate check.
ghost use Rattle.std.specs.Prelude.{◌≡◌, Some, true, ◌++◌, ◌≤◌, ◌<◌, length, MatchResult};
ghost use Rattle.isa.specs.Refusals.{answered, numbered};
ghost use Rattle.isa.specs.Rom.{is_image, Halves, spaces_in};
ghost use Rattle.certificate.specs.Marks.{kind_of, kind_number, lowest};
ghost use Rattle.certificate.specs.Findings.{passes, fault};
ghost use Rattle.certificate.specs.Check.{flow_found, marks_found, rules_found, marks_in};
ghost use Rattle.certificate.specs.Check.{verdict, check_of};
ghost use Rattle.certificate.specs.Levels.{levels_of};
ghost use Rattle.certificate.specs.Passes.{page_found, Searched};

use crate::levels::levels_of;
use crate::marks::{Kind, MOST_LEVELS, kind_of, need_of};
use crate::successors::{check_successors, is_placed, successors_of};
use crate::vectors::check_vectors;
use isa::flow_at::flow_at;
use isa::rom::{HALF_SPACE, PROGRAM_SPACE, Space, is_image_length, spaces_in};
use isa::sources::names_only_sources;
use isa::{Continuation, Refusal};

// The first fault of a pass, and the mark where it is.
#[derive(Clone, Copy, Debug, PartialEq, Eq)]
pub struct Fault {
    pub refusal: Refusal,
    pub at: usize,
}

// 15, 16 and 17 at a marked address of a kind, with where its instruction continues.
#[tactic(auto, unfolding(crate::specs::Check::flow_found))]
fn check_flow(
    certificate: &[u8],
    address: u16,
    mark: u8,
    kind: Kind,
    continuation: Continuation,
) -> Result<(), Refusal>
    requires { kind_number (Some kind) ≡ kind_of mark }
    ensures { answered result
        ≡ flow_found certificate.now address mark continuation.flow continuation.next }
{
    let Continuation { flow, next } = continuation;
    if !is_placed(kind, flow) {
        return Err(Refusal::MisplacedReturn(address));
    }
    check_successors(
        certificate,
        address,
        need_of(mark),
        successors_of(kind, flow, next),
    )
}

// The mark at an address of program space as it stands: nothing where it is 0, else 14, decoding's refusals, 15, 16 and
// 17.
#[tactic(auto, unfolding(crate::specs::Passes::page_found))]
fn check_mark(space: Space, certificate: &[u8], address: u16, mark: u8) -> Result<(), Refusal>
    requires { Halves space.page.now space.fixed.now × (address < 4096) }
    ensures { answered result
        ≡ page_found (space.entry.page.now ++ space.entry.fixed.now) certificate.now address mark }
{
    if mark == 0 {
        return Ok(());
    }
    let Some(kind) = kind_of(mark) else {
        return Err(Refusal::MalformedMark(address));
    };
    check_flow(certificate, address, mark, kind, flow_at(space, address)?)
}

// The first fault among the first marks, in program space as it stands, upward: one pass.
fn check_marks(space: Space, certificate: &[u8], end: usize) -> Result<(), Fault>
    requires { Halves space.page.now space.fixed.now × (length certificate.now ≤ 4096)
        × (end ≤ length certificate.now) }
    ensures { MatchResult result
        (λ _. Searched (space.entry.page.now ++ space.entry.fixed.now) certificate.now end passes end)
        (λ found. Searched (space.entry.page.now ++ space.entry.fixed.now) certificate.now end
        (fault (numbered found.refusal)) found.at) }
{
    let start = PROGRAM_SPACE - certificate.len();
    for (at, mark) in certificate[..end].iter().enumerate() {
        if let Err(refusal) = check_mark(space, certificate, (start + at) as u16, *mark) {
            return Err(Fault { refusal, at });
        }
    }
    Ok(())
}

// The first fault among the marks, by address and then by page: a pass with each page, over the marks before the first
// fault that was found.
fn check_pages(image: &[u8], certificate: &[u8]) -> Result<(), Refusal>
    requires { (is_image (length image.now) ≡ true) × (length certificate.now ≤ 4096) }
    ensures { answered result ≡ marks_found image.now certificate.now
        (spaces_in (length image.now)) (lowest certificate.now) certificate.now }
{
    let spaces = spaces_in(image.len());
    let mut first = Ok(());
    let mut end = certificate.len();
    for page in 0..spaces {
        if let Err(Fault { refusal, at }) = check_marks(Space::of(image, page), certificate, end) {
            first = Err(refusal);
            end = at;
        }
    }
    first
}

// How many marks the certificate of an image of so many bytes has.
pub fn marks_in(length: usize) -> usize
    ensures { result ≡ marks_in length }
{
    if length == HALF_SPACE {
        HALF_SPACE
    } else {
        PROGRAM_SPACE
    }
}

// The rules of a certificate of the right length: the marks upward, then the vectors, then 19.
fn check_rules(image: &[u8], certificate: &[u8], wired: u8) -> Result<u8, Refusal>
    requires { (is_image (length image.now) ≡ true) × (length certificate.now ≤ 4096) }
    ensures { answered result ≡ verdict (levels_of certificate.now wired)
        (rules_found image.now certificate.now wired) }
{
    check_pages(image, certificate)?;
    check_vectors(certificate, wired)?;
    let levels = levels_of(certificate, wired);
    if MOST_LEVELS < levels {
        return Err(Refusal::TooManyLevels);
    }
    Ok(levels)
}

// Checks a certificate for an image and its wired sources.
#[tactic(auto, unfolding(crate::specs::Check::check_of))]
pub fn check(image: &[u8], certificate: &[u8], wired: u8) -> Result<u8, Refusal>
    ensures { answered result ≡ check_of image.now certificate.now wired }
{
    if !is_image_length(image.len()) {
        return Err(Refusal::ImageLength);
    }
    if certificate.len() != marks_in(image.len()) {
        return Err(Refusal::CertificateLength);
    }
    if !names_only_sources(wired) {
        return Err(Refusal::UnknownSource);
    }
    check_rules(image, certificate, wired)
}
