//! The bytes of a file, which clones share, and their digest.

ghost use Rattle.std.specs.Prelude.{◌≡◌, IfOk, nat_eq};
ghost use Rattle.std.specs.Cmp.{partial_equiv_from_equiv};
ghost use Rattle.std.specs.Cmp.Lexicographic.{pointwise, nat_list_eq_equiv};
ghost use Rattle.sha2.specs.Sha256.{sha256};
ghost use Rattle.redo_digest.specs.Digest.{IsDigest};

use redo_bytes::Bytes;
use redo_digest::Digest;
use std::alloc::{AllocError, Global};
use std::marker::Model;

/// The bytes of a file. A clone shares them, but copies up to 22 bytes, and has their digest if it was kept. In a
/// contract it is the list of bytes.
#[derive(Debug, Drop)]
pub struct Content {
    bytes: Bytes,
    /// The digest of the bytes, if it was made to be kept.
    digest: Option<Digest>,
}

impl Model for Content {
    ghost use Rattle.std.specs.Prelude.{◌≡◌, IfSome, List, ℕ};
    ghost use Rattle.sha2.specs.Sha256.{sha256};

    ghost Value = { List ℕ };

    ghost view = { λ c. c.bytes };

    ghost invariant = { λ c. IfSome c.digest (λ digest. digest ≡ sha256 c.bytes) };
}

impl Content {
    /// Takes over the bytes, and copies them only if they are at most 22.
    pub fn new(bytes: Vec<u8>) -> Result<Content, AllocError>
        ensures { IfOk result (λ content. content ≡ bytes.items) }
    {
        let bytes = Bytes::from_vec(bytes)?;
        Ok(Content {
            bytes,
            digest: None,
        })
    }

    /// A copy of the bytes.
    pub fn of_slice(alloc: Global, bytes: &[u8]) -> Result<Content, AllocError>
        ensures { IfOk result (λ content. content ≡ bytes.now) }
    {
        let bytes = Bytes::from_slice(alloc, bytes)?;
        Ok(Content {
            bytes,
            digest: None,
        })
    }

    /// The bytes, in order.
    pub fn bytes(&self) -> &[u8]
        ensures { result.now ≡ self.now }
    {
        self.bytes.as_slice()
    }

    /// The digest of the bytes, which are read unless it was kept.
    pub fn digest(&self) -> Digest
        ensures sha256 { result ≡ sha256 self.now }
        ensures digest { IsDigest result }
    {
        match self.digest {
            Some(digest) => digest,
            None => Digest::of(self.bytes()),
        }
    }

    /// Whether the digest was kept.
    pub fn has_digest(&self) -> bool {
        self.digest.is_some()
    }

    /// Keeps a digest that was made of the bytes beside others.
    pub fn put_digest(&mut self, digest: Digest)
        requires { digest ≡ sha256 self.old }
        ensures { self.new ≡ self.old }
    {
        self.digest = Some(digest);
    }

    /// Makes the digest and keeps it, so that later calls of [`Content::digest`] read no byte. The same goes for clones
    /// made from then on.
    pub fn keep_digest(&mut self)
        ensures { self.new ≡ self.old }
    {
        self.digest = Some(self.digest());
    }
}

impl Clone for Content {
    ghost is_clone = { λ content copy. copy ≡ content };

    fn clone(&self) -> Result<Content, AllocError> {
        let bytes = self.bytes.clone()?;
        Ok(Content {
            bytes,
            digest: self.digest,
        })
    }
}

impl PartialEq for Content {
    ghost eq = { pointwise nat_eq };

    ghost laws = { partial_equiv_from_equiv nat_list_eq_equiv };

    fn eq(&self, other: &Content) -> bool {
        self.bytes() == other.bytes()
    }
}

impl Eq for Content {
    ghost laws = { nat_list_eq_equiv };
}
