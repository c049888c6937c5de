//! Theorems about the definitions of digests. The functions do nothing; each contract is a law.

ghost use Rattle.std.specs.Prelude.{◌≡◌, ◌↔◌, ℕ, List, Some};
ghost use Rattle.sha2.specs.Sha256.{sha256};
ghost use Rattle.redo_digest.specs.Digest.{IsDigest, Spells, digest_of};

/// The SHA-256 of any content is a digest.
pub fn a_content_has_a_digest()
    ensures { (content : List ℕ) → IsDigest (sha256 content) }
{}

/// A word is read as a digest exactly when it is the 64 digits of that digest.
pub fn a_digest_is_read_from_its_digits()
    ensures { (word digest : List ℕ) → (digest_of word ≡ Some digest) ↔ Spells word digest }
{}
