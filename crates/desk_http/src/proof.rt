//! That a service knows its token, without telling it. Whoever asks says a text that was never said before, and is answered
//! what only a program can work out that knows the token. So a client can tell before it sends its token whether what
//! listens at the port is the service.
ghost use Rattle.std.specs.Prelude.{◌≡◌, ◌++◌, IfOk, OnOk, string_bytes};
ghost use Rattle.std.specs.List.{list_all};
ghost use Rattle.hex.specs.Hex.{encode_lower};
ghost use Rattle.sha2.specs.Sha256.{sha256};
ghost use Rattle.desk_http.specs.Proofs.{block_of, hmac, is_nonce, is_nonce_byte, masked, nonce_by};
ghost use Rattle.desk_http.specs.Proofs.{nonce_of, nonce_with, proved_text, short_key};
ghost use Rattle.desk_http.specs.Sites.{some_page};
ghost use Rattle.desk_http.specs.Targets.{some_text, where_it};

use crate::access::Access;
use crate::site::Page;
use sha2::{Digest, Sha256};
use std::alloc::{AllocError, Global};

/// The digest of two texts, one behind the other.
fn digest_of(first: &[u8], second: &[u8]) -> [u8; 32]
    ensures { result ≡ sha256 (first.now ++ second.now) }
{
    let mut hasher = Sha256::new();
    hasher.update(first);
    hasher.update(second);
    hasher.finalize()
}

/// Adds a key, or its digest where it is longer than a block.
fn push_key(block: &mut Vec<u8>, key: &[u8]) -> Result<(), AllocError>
    ensures { OnOk result (block.new.items ≡ block.old.items ++ short_key key.now) }
{
    if key.len() > 64 {
        block.extend_from_slice(&Sha256::digest(key))
    } else {
        block.extend_from_slice(key)
    }
}

/// A key as a block of 64 bytes.
fn block_of(alloc: Global, key: &[u8]) -> Result<Vec<u8>, AllocError>
    ensures { IfOk result (λ block. block.items ≡ block_of key.now) }
{
    let mut block = Vec::new(alloc);
    push_key(&mut block, key)?;
    block.extend_from_slice(&[0u8; 64])?;
    block.truncate(64);
    Ok(block)
}

/// The bytes, each with the bits of the mask turned.
fn masked(alloc: Global, mask: u8, bytes: &[u8]) -> Result<Vec<u8>, AllocError>
    ensures { IfOk result (λ turned. turned.items ≡ masked mask bytes.now) }
{
    let mut turned = Vec::new(alloc);
    for b in bytes {
        turned.push(*b ^ mask)?;
    }
    Ok(turned)
}

/// The HMAC of a text over SHA-256.
fn hmac(alloc: Global, key: &[u8], message: &[u8]) -> Result<[u8; 32], AllocError>
    ensures { IfOk result (λ code. code ≡ hmac key.now message.now) }
{
    let block = block_of(alloc, key)?;
    let inner = masked(alloc, 0x36, &block)?;
    let outer = masked(alloc, 0x5c, &block)?;
    Ok(digest_of(&outer, &digest_of(&inner, message)))
}

/// What is proved: the port, a colon, and what was said.
fn proved_text(alloc: Global, port: u16, nonce: &[u8]) -> Result<Vec<u8>, AllocError>
    ensures { IfOk result (λ text. text.items ≡ proved_text port nonce.now) }
{
    let port = format!(in alloc; "{port}")?;
    let mut text = Vec::new(alloc);
    text.extend_from_slice(port.as_str().as_bytes())?;
    text.extend_from_slice(b":")?;
    text.extend_from_slice(nonce)?;
    Ok(text)
}

/// The proof, in hex, that a service at this port knows its token, for whoever said this.
pub fn proof_text(
    alloc: Global,
    port: u16,
    token: &[u8],
    nonce: &[u8],
) -> Result<String, AllocError>
    ensures { IfOk result (λ text.
        string_bytes text ≡ encode_lower (hmac token.now (proved_text port nonce.now))) }
{
    let text = proved_text(alloc, port, nonce)?;
    let code = hmac(alloc, token, &text)?;
    hex::encode(alloc, code)
}

fn is_nonce_byte(b: u8) -> bool
    ensures { result ≡ is_nonce_byte b }
{
    b.is_ascii_alphanumeric() || b == b'-' || b == b'_'
}

fn are_nonce(bytes: &[u8]) -> bool
    ensures { result ≡ list_all is_nonce_byte bytes.now }
{
    bytes.iter().all(|b| is_nonce_byte(*b))
}

/// Whether a client may say this to have it proved that the token is known.
fn is_nonce(bytes: &[u8]) -> bool
    ensures { result ≡ is_nonce bytes.now }
{
    0 < bytes.len() && bytes.len() <= 64 && are_nonce(bytes)
}

/// What stands behind `/prove/`.
fn read_nonce(bytes: &[u8]) -> Option<&[u8]>
    ensures { some_text result ≡ where_it is_nonce bytes.now }
{
    if is_nonce(bytes) { Some(bytes) } else { None }
}

/// What a whole target says that is to be proved.
fn read_nonce_target(target: &[u8]) -> Option<&[u8]>
    ensures { some_text result ≡ nonce_of target.now }
{
    match target.strip_prefix(b"/prove/".as_slice()) {
        Some(nonce) => read_nonce(nonce),
        None => None,
    }
}

/// The same, where there is a page.
fn find_with_page<'b>(page: &Option<Page>, target: &'b [u8]) -> Option<&'b [u8]>
    ensures { some_text result ≡ nonce_with (some_page page.now) target.now }
{
    match page {
        Some(_) => read_nonce_target(target),
        None => None,
    }
}

/// The same, where there is a token, and a page.
pub fn find_nonce<'b>(access: &Access, page: &Option<Page>, target: &'b [u8]) -> Option<&'b [u8]>
    ensures { some_text result ≡ nonce_by access.now.token (some_page page.now) target.now }
{
    match access.token_text() {
        Some(_) => find_with_page(page, target),
        None => None,
    }
}
