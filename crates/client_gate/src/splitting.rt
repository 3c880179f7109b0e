//! Words between commas, and between spaces.
ghost use Rattle.std.specs.Prelude.{◌≡◌, ◌==◌, map, position, IfOk, MatchOption};
ghost use Rattle.client_gate.specs.Words.{pieces, words};
ghost use Rattle.client_gate.specs.Cuts.{HasNone, IsCutAt};

use std::alloc::{AllocError, Global};

/// What is between the separators.
pub fn pieces(alloc: Global, bytes: &[u8], separator: u8) -> Result<Vec<&[u8]>, AllocError>
    ensures { IfOk result (λ v. map (λ x. x.now) v.items ≡ pieces separator bytes.now) }
{
    let mut all = Vec::new(alloc);
    let mut rest = bytes;
    while let Some((piece, behind)) = at_separator(rest, separator) {
        all.push(piece)?;
        rest = behind;
    }
    all.push(rest)?;
    Ok(all)
}

/// The words between spaces.
pub fn words(alloc: Global, text: &[u8]) -> Result<Vec<&[u8]>, AllocError>
    ensures { IfOk result (λ v. map (λ x. x.now) v.items ≡ words text.now) }
{
    let mut all = Vec::new(alloc);
    for piece in pieces(alloc, text, b' ')? {
        if !piece.is_empty() {
            all.push(piece)?;
        }
    }
    Ok(all)
}

/// What comes before the first separator, and what follows it.
pub fn at_separator(bytes: &[u8], separator: u8) -> Option<(&[u8], &[u8])>
    ensures { MatchOption result (HasNone separator bytes.now)
        (λ t. IsCutAt separator bytes.now t.0.now t.1.now) }
{
    match separator_place(bytes, separator) {
        None => None,
        Some(place) => Some((&bytes[..place], &bytes[place + 1..])),
    }
}

fn separator_place(bytes: &[u8], separator: u8) -> Option<usize>
    ensures { result ≡ position (λ b. b == separator) bytes.now }
{
    bytes.iter().position(|byte| *byte == separator)
}
