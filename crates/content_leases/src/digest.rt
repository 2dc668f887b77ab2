//! The digests of contents.

ghost use Rattle.std.specs.Prelude.{◌≡◌, IfOk};
ghost use Rattle.content_leases.specs.Digests.{digest_of};

use sha2::{Digest, Sha256};
use std::alloc::{AllocError, Global};
use wasm_ast::Text;

/// The digest of these bytes: `sha256:` and the SHA-256 (FIPS 180-4) in lower-case hexadecimal. An
/// error where there is no room for the text.
pub fn digest_of(alloc: Global, bytes: &[u8]) -> Result<Text, AllocError>
    ensures { IfOk result (λ t. t ≡ digest_of bytes.now) }
{
    let hash = Sha256::digest(bytes);
    let digits = hex::encode(alloc, hash.as_slice())?;
    let mut digest = String::from_str(alloc, "sha256:")?;
    digest.push_str(digits.as_str())?;
    Ok(Text::new(digest))
}
