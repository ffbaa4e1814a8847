ghost use Rattle.std.specs.Prelude.{◌≡◌, ◌+◌, ◌<◌, ◌≤◌, ◌++◌, [], length, List, ℕ, IfOk, IfErr};
ghost use Rattle.hilti_pcap.specs.Headers.{IsHeader};
ghost use Rattle.hilti_feed.specs.Known.{Related, WhereKnown};
ghost use Rattle.hilti_feed.specs.Fronts.{CausesFault, IsBadBy, IsRefusedBy};

use crate::feed::FeedFault;
use crate::pieces::PIECE;
use hilti_base::Blob;
use hilti_outside::Files;
use hilti_pcap::{Header, HeaderFault, read_header};
use std::alloc::Global;

/// The bytes of a capture's header.
const HEADER_BYTES: usize = 24;

/// The front of the current file: at least as many bytes as a header has, or all.
#[tactic(auto, using(crate::proofs::Beginnings::no_front, crate::proofs::Beginnings::more_front, crate::proofs::Beginnings::last_front, crate::proofs::Beginnings::known_end))]
pub fn read_front<F: Files>(alloc: Global, files: &mut F) -> Result<Blob, FeedFault>
    ensures front { IfOk result (λ front. Related (λ rest rest'. rest ≡ front ++ rest')
        (F.rest files.old) (F.rest files.new)) }
    ensures all { IfOk result (λ front. length front < 24 →
        WhereKnown (F.rest files.new) (λ rest. rest ≡ [])) }
    ensures short { IfOk result (λ front. length front ≤ 24 + 16384) }
    ensures bad { IfErr result (λ fault. (capture : List ℕ) → IsBadBy capture fault) }
    ensures files { F.files files.new ≡ F.files files.old }
    ensures opened { F.opened files.new ≡ F.opened files.old }
    ensures faults { CausesFault result (F.faults files.old) (F.faults files.new) }
{
    let mut front = Blob::new(alloc);
    let mut piece = [0; PIECE];
    'pieces: while front.len() < HEADER_BYTES {
        let count = files.read(&mut piece)?;
        if count == 0 {
            return Ok(front);
        }
        front.append(&piece[..count])?;
    }
    Ok(front)
}

/// The header at the front, and what stands behind it.
pub fn split_header(bytes: &[u8]) -> Result<(Header, &[u8]), FeedFault>
    ensures header { IfOk result (λ parts. (front : List ℕ)
        × (bytes.now ≡ front ++ parts.1.now) × IsHeader parts.0 front) }
    ensures refused { IsRefusedBy bytes.now result }
{
    let Some((front, records)) = bytes.split_first_chunk::<24>() else {
        let at = bytes.len() as u64;
        return Err(FeedFault::Bad { at, code: 1 });
    };
    match read_header(front) {
        Ok(header) => Ok((header, records)),
        Err(HeaderFault::BadMagic) => Err(FeedFault::Bad { at: 0, code: 2 }),
        Err(HeaderFault::BadVersion) => Err(FeedFault::Bad { at: 4, code: 3 }),
    }
}
