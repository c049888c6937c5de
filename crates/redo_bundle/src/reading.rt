//! Reading a bundle: a function for each part of an entry, over a buffer of bytes that were read and not used yet.

ghost use Rattle.std.specs.Prelude.{◌≡◌, ◌≢◌, ◌<◌, ◌≤◌, ◌+◌, ◌-◌, ◌*◌, ◌^◌, ◌↔◌, ℕ, List, [], ◌∷◌, ◌++◌, length, drop};
ghost use Rattle.std.specs.Prelude.{take, codes, Bool, true, false, is_err, Option, Some, None, option_map, Result, Ok};
ghost use Rattle.std.specs.Prelude.{Err, IfOk, OnOk, IfSome, IsErrOf, position};
ghost use Rattle.std.specs.Io.KnownBytes.{Consumes, IsAtEnd, prepend_known};
ghost use Rattle.std.specs.List.{position_or_len};
ghost use Rattle.std.specs.Option.{option_or};
ghost use Rattle.redo_path.specs.Names.{IsBelowRoot};
ghost use Rattle.redo_tree.specs.Tree.{Directory, added, top};
ghost use Rattle.redo_bundle.specs.Bundle.{HasSmallFiles, Reads, ReadsEach, ShowsHeader, is_newline, is_space, size_of, header_of};
ghost use Rattle.redo_bundle.specs.Bundle.{path_fault, tree_fault, body_fault, entry_fault, fault_at};
ghost use Rattle.redo_bundle.specs.inside.Steps.{is_read, Finds, Refuses, Shows, IsLine, AddsFile, AddsEntry};
ghost use Rattle.redo_bundle.specs.inside.Steps.{AddsNext, told, words_of, line_fault, size_fault, newline_fault};
ghost use Rattle.redo_bundle.specs.inside.Steps.{file_fault};

use crate::buffer::Held;
use crate::{BundleFault, ByteIn};
use itoa::Buffer;
use redo_path::{Path, PathFault, resolve};
use redo_tree::{Content, Tree, TreeFault};
use std::alloc::{AllocError, Global};

/// The most bytes in a header line, without its newline.
const LONGEST_LINE: usize = 1100;

/// The most bytes in a file.
const LARGEST_FILE: usize = 1 << 30;

/// The offset of the first newline.
fn newline_at(bytes: &[u8]) -> Option<usize>
    ensures { result ≡ position is_newline bytes.now }
{
    bytes.iter().position(|byte| *byte == b'\n')
}

/// The offset of the first newline, or the length if there is none.
#[tactic(auto, using(crate::proofs::LineLemmas::position_some, crate::proofs::LineLemmas::position_none))]
fn line_end(bytes: &[u8]) -> usize
    ensures { result ≡ position_or_len is_newline bytes.now }
{
    match newline_at(bytes) {
        Some(end) => end,
        None => bytes.len(),
    }
}

/// Reads a header line into `line`, without the newline, which it consumes too.
fn read_line<R: ByteIn>(
    held: &mut Held,
    reader: &mut R,
    number: u64,
    line: &mut Vec<u8>,
) -> Result<(), BundleFault>
    requires { R.has_failed reader.old ≡ false }
    ensures line { OnOk result (IsLine line.new.items) }
    ensures bytes { OnOk result (Consumes (prepend_known held.old (R.left reader.old))
        (prepend_known held.new (R.left reader.new)) (line.new.items ++ 10 ∷ [])) }
    ensures fault { Refuses result (prepend_known held.old (R.left reader.old)) (line_fault number) }
    ensures header { Shows result (prepend_known held.old (R.left reader.old)) line.new.items }
    ensures failed { R.has_failed reader.new ≡ is_read result }
{
    line.clear();
    loop {
        if !held.fill(reader)? {
            return Err(BundleFault::Truncated);
        }
        let bytes = held.bytes();
        let size = bytes.len();
        let end = line_end(bytes);
        if end > LONGEST_LINE - line.len() {
            return Err(BundleFault::Line(number));
        }
        line.extend_from_slice(&bytes[..end])?;
        if end < size {
            held.skip(end + 1);
            return Ok(());
        }
        held.skip(end);
    }
}

/// Reads `size` bytes of a file. Memory grows with the bytes that arrive.
fn read_bytes<R: ByteIn>(
    alloc: Global,
    held: &mut Held,
    reader: &mut R,
    size: usize,
) -> Result<Vec<u8>, BundleFault>
    requires { R.has_failed reader.old ≡ false }
    ensures size { IfOk result (λ bytes. length bytes.items ≡ size) }
    ensures bytes { IfOk result (λ bytes. Consumes (prepend_known held.old (R.left reader.old))
        (prepend_known held.new (R.left reader.new)) bytes.items) }
    ensures fault { Refuses result (prepend_known held.old (R.left reader.old)) (size_fault size) }
    ensures failed { R.has_failed reader.new ≡ is_read result }
{
    let mut bytes = Vec::new(alloc);
    while bytes.len() < size {
        if !held.fill(reader)? {
            return Err(BundleFault::Truncated);
        }
        let came = held.bytes();
        let count = came.len().min(size - bytes.len());
        bytes.extend_from_slice(&came[..count])?;
        held.skip(count);
    }
    Ok(bytes)
}

/// Reads a file of `size` bytes. Where all of them are in the buffer, they are copied out of it once.
fn read_content<R: ByteIn>(
    alloc: Global,
    held: &mut Held,
    reader: &mut R,
    size: usize,
) -> Result<Content, BundleFault>
    requires { R.has_failed reader.old ≡ false }
    ensures size { IfOk result (λ content. length content ≡ size) }
    ensures bytes { IfOk result (λ content. Consumes (prepend_known held.old (R.left reader.old))
        (prepend_known held.new (R.left reader.new)) content) }
    ensures fault { Refuses result (prepend_known held.old (R.left reader.old)) (size_fault size) }
    ensures failed { R.has_failed reader.new ≡ is_read result }
{
    if size <= held.bytes().len() {
        let content = Content::of_slice(alloc, &held.bytes()[..size])?;
        held.skip(size);
        return Ok(content);
    }
    let bytes = read_bytes(alloc, held, reader, size)?;
    Ok(Content::new(bytes)?)
}

/// Reads the newline after a file's bytes.
fn read_newline<R: ByteIn>(held: &mut Held, reader: &mut R, number: u64) -> Result<(), BundleFault>
    requires { R.has_failed reader.old ≡ false }
    ensures bytes { OnOk result (Consumes (prepend_known held.old (R.left reader.old))
        (prepend_known held.new (R.left reader.new)) (10 ∷ [])) }
    ensures fault { Refuses result (prepend_known held.old (R.left reader.old)) (newline_fault number) }
    ensures failed { R.has_failed reader.new ≡ is_read result }
{
    held.fill(reader)?;
    match held.bytes().first() {
        None => return Err(BundleFault::Truncated),
        Some(b'\n') => {}
        Some(_) => return Err(BundleFault::Line(number)),
    }
    held.skip(1);
    Ok(())
}

/// Reads the bytes of a file and the newline after them.
fn read_body<R: ByteIn>(
    alloc: Global,
    held: &mut Held,
    reader: &mut R,
    number: u64,
    size: usize,
) -> Result<Content, BundleFault>
    requires { R.has_failed reader.old ≡ false }
    ensures size { IfOk result (λ content. length content ≡ size) }
    ensures bytes { IfOk result (λ content. Consumes (prepend_known held.old (R.left reader.old))
        (prepend_known held.new (R.left reader.new)) (content ++ 10 ∷ [])) }
    ensures fault { Refuses result (prepend_known held.old (R.left reader.old)) (file_fault number size) }
    ensures failed { R.has_failed reader.new ≡ is_read result }
{
    let content = read_content(alloc, held, reader, size)?;
    read_newline(held, reader, number)?;
    Ok(content)
}

/// The size, at most 2^30, that these bytes spell in plain decimal; `None` for anything else.
fn read_size(digits: &[u8]) -> Option<usize>
    ensures { result ≡ size_of digits.now }
{
    let mut sum = 0usize;
    for digit in digits {
        sum = 10 * sum + (*digit as usize).saturating_sub(48);
        if sum > LARGEST_FILE {
            return None;
        }
    }
    let mut spelled = Buffer::new();
    (spelled.format(sum).as_bytes() == digits).then_some(sum)
}

/// The offset of the first space.
fn blank_at(bytes: &[u8]) -> Option<usize>
    ensures { result ≡ position is_space bytes.now }
{
    bytes.iter().position(|byte| *byte == b' ')
}

/// The size and the path after the first word of a file's header.
#[tactic(auto, using(crate::proofs::LineLemmas::words_none, crate::proofs::LineLemmas::words_at))]
fn read_words(words: &[u8]) -> Option<(usize, &[u8])>
    ensures { option_map (λ f. (f.0, f.1.now)) result ≡ words_of words.now }
{
    let blank = blank_at(words)?;
    let size = read_size(&words[..blank])?;
    Some((size, &words[blank + 1..]))
}

/// Parses a header line: the size of a file, `None` for a directory, and the path.
#[tactic(auto, using(crate::proofs::LineLemmas::header_none, crate::proofs::LineLemmas::header_file))]
fn read_header(line: &[u8]) -> Option<(Option<usize>, &[u8])>
    ensures { option_map (λ h. (h.0, h.1.now)) result ≡ header_of line.now }
{
    match line {
        [b'd', b'i', b'r', b' ', path @ ..] => Some((None, path)),
        [b'f', b'i', b'l', b'e', b' ', words @ ..] => {
            let (size, path) = read_words(words)?;
            Some((Some(size), path))
        }
        _ => None,
    }
}

/// The path of a header, which must be written as the path's text.
fn read_path(alloc: Global, number: u64, word: &[u8]) -> Result<Path, BundleFault>
    ensures path { IfOk result (λ path. path ≡ word.now) }
    ensures place { OnOk result (IsBelowRoot word.now) }
    ensures fault { Finds result (path_fault number word.now) }
    ensures quiet { is_read result ≡ false }
{
    match resolve(alloc, &Path::root(), word) {
        Ok(path) => {
            if path.text() == word {
                Ok(path)
            } else {
                Err(BundleFault::Line(number))
            }
        }
        Err(PathFault::Memory) => Err(BundleFault::Memory),
        Err(fault) => Err(BundleFault::Path(number, fault)),
    }
}

/// The tree's result as a result for the entry with this number.
fn tell(number: u64, outcome: Result<(), TreeFault>) -> Result<(), BundleFault>
    ensures { result ≡ told number outcome }
{
    match outcome {
        Ok(()) => Ok(()),
        Err(TreeFault::Memory) => Err(BundleFault::Memory),
        Err(fault) => Err(BundleFault::Tree(number, fault)),
    }
}

/// A bundle as far as it was read: the bytes that came and aren't used yet, and the tree of the entries so far.
#[derive(Drop)]
struct BundleParser {
    alloc: Global,
    held: Held,
    tree: Tree,
}

impl BundleParser {
    /// A parser before the first entry.
    fn new(alloc: Global) -> Result<BundleParser, AllocError>
        ensures held { IfOk result (λ parser. parser.held ≡ []) }
        ensures tree { IfOk result (λ parser. parser.tree ≡ top) }
    {
        Ok(BundleParser {
            alloc,
            held: Held::new(alloc)?,
            tree: Tree::new(alloc)?,
        })
    }

    /// The number of the next header. It is the tree's size, as the tree counts the top directory.
    fn number(&self) -> u64
        ensures number { result ≡ length self.now.tree }
        ensures small { result < 2 ^ 63 }
    {
        self.tree.len() as u64
    }

    /// Adds the directory that a header names.
    fn read_directory(&mut self, word: &[u8]) -> Result<(), BundleFault>
        ensures place { OnOk result (IsBelowRoot word.now) }
        ensures adds { OnOk result (added self.old.tree word.now Directory ≡ Ok self.new.tree) }
        ensures fault { Finds result (option_or (path_fault (length self.old.tree) word.now)
            (tree_fault (length self.old.tree) self.old.tree word.now Directory)) }
        ensures quiet { is_read result ≡ false }
        ensures held { self.new.held ≡ self.old.held }
    {
        let number = self.number();
        let path = read_path(self.alloc, number, word)?;
        let outcome = self.tree.add_dir(&path);
        tell(number, outcome)
    }

    /// Reads the bytes of a file and adds it at a path.
    fn add_file<R: ByteIn>(
        &mut self,
        reader: &mut R,
        size: usize,
        path: &Path,
    ) -> Result<(), BundleFault>
        requires { R.has_failed reader.old ≡ false }
        ensures adds { OnOk result (AddsFile self.old.tree self.new.tree path.now size
            (prepend_known self.old.held (R.left reader.old)) (prepend_known self.new.held (R.left reader.new))) }
        ensures fault { Refuses result (prepend_known self.old.held (R.left reader.old))
            (body_fault (length self.old.tree) self.old.tree (Some size) path.now) }
        ensures failed { R.has_failed reader.new ≡ is_read result }
    {
        let number = self.number();
        let content = read_body(self.alloc, &mut self.held, reader, number, size)?;
        let outcome = self.tree.add_content(path, content);
        tell(number, outcome)
    }

    /// Reads the file that a header names, and adds it.
    fn read_file<R: ByteIn>(
        &mut self,
        reader: &mut R,
        size: usize,
        word: &[u8],
    ) -> Result<(), BundleFault>
        requires { R.has_failed reader.old ≡ false }
        ensures place { OnOk result (IsBelowRoot word.now) }
        ensures adds { OnOk result (AddsFile self.old.tree self.new.tree word.now size
            (prepend_known self.old.held (R.left reader.old)) (prepend_known self.new.held (R.left reader.new))) }
        ensures fault { Refuses result (prepend_known self.old.held (R.left reader.old))
            (λ text. option_or (path_fault (length self.old.tree) word.now)
            (body_fault (length self.old.tree) self.old.tree (Some size) word.now text)) }
        ensures failed { R.has_failed reader.new ≡ is_read result }
    {
        let path = read_path(self.alloc, self.number(), word)?;
        self.add_file(reader, size, &path)
    }

    /// Reads what follows a header line and adds the entry to the tree.
    fn read_entry<R: ByteIn>(&mut self, reader: &mut R, line: &[u8]) -> Result<(), BundleFault>
        requires { R.has_failed reader.old ≡ false }
        ensures adds { OnOk result (AddsEntry self.old.tree self.new.tree line.now
            (prepend_known self.old.held (R.left reader.old)) (prepend_known self.new.held (R.left reader.new))) }
        ensures fault { Refuses result (prepend_known self.old.held (R.left reader.old))
            (entry_fault (length self.old.tree) self.old.tree line.now) }
        ensures failed { R.has_failed reader.new ≡ is_read result }
    {
        match read_header(line) {
            None => Err(BundleFault::Line(self.number())),
            Some((None, word)) => self.read_directory(word),
            Some((Some(size), word)) => self.read_file(reader, size, word),
        }
    }

    /// Reads one more entry or the end, and returns whether it was an entry. The line goes into `line`.
    fn read_next<R: ByteIn>(
        &mut self,
        reader: &mut R,
        line: &mut Vec<u8>,
    ) -> Result<bool, BundleFault>
        requires { R.has_failed reader.old ≡ false }
        ensures entry { result ≡ Ok true →
            AddsNext self.old.tree self.new.tree (prepend_known self.old.held (R.left reader.old))
            (prepend_known self.new.held (R.left reader.new)) }
        ensures end { result ≡ Ok false →
            (self.new.tree ≡ self.old.tree) ×
            Consumes (prepend_known self.old.held (R.left reader.old))
            (prepend_known self.new.held (R.left reader.new)) (codes "end\n") ×
            (self.new.held ≡ []) × IsAtEnd (R.left reader.new) }
        ensures fault { Refuses result (prepend_known self.old.held (R.left reader.old))
            (fault_at (length self.old.tree) self.old.tree) }
        ensures header { Shows result (prepend_known self.old.held (R.left reader.old)) line.new.items }
        ensures small { length self.old.tree < 2 ^ 63 }
        ensures failed { R.has_failed reader.new ≡ is_read result }
    {
        let number = self.number();
        read_line(&mut self.held, reader, number, line)?;
        if line.as_slice() == b"end".as_slice() {
            if self.held.fill(reader)? {
                return Err(BundleFault::Line(number + 1));
            }
            return Ok(false);
        }
        self.read_entry(reader, line)?;
        Ok(true)
    }
}

/// Reads a bundle to the end of the input, in pieces of 64 KiB. A file's bytes are copied once, out of the piece, and
/// memory grows with the bytes that arrive, whatever length a header states.
///
/// A bundle is a sequence of entries, then the line `end`, then nothing. An entry is a line `dir <path>`, or a line
/// `file <length> <path>` followed by that many bytes (at most 1,073,741,824) and a newline. The length is in plain
/// decimal without leading zeros. A header line has at most 1,100 bytes, a path is written as its text, and a directory
/// comes before what it holds. The first fault in the text is reported; within an entry the order is: the form of the
/// line, the path, the content, and what the tree says of it. After `Err` the reader may have given any part of its
/// bytes.
pub fn read_bundle<R: ByteIn>(alloc: Global, reader: &mut R) -> Result<Tree, BundleFault>
    requires { R.has_failed reader.old ≡ false }
    ensures reads { IfSome (R.left reader.old) (λ text. Reads result text) }
    ensures each { IfSome (R.left reader.old) (λ text. ReadsEach result text) }
    ensures whole { OnOk result (IfSome (R.left reader.new) (λ rest. rest ≡ [])) }
    ensures small { IfOk result HasSmallFiles }
    ensures read { IsErrOf result BundleFault.Read ↔ (R.has_failed reader.new ≡ true) }
{
    let mut line = Vec::with_capacity(alloc, LONGEST_LINE)?;
    read_bundle_by_line(alloc, reader, &mut line)
}

/// Reads a bundle as [`read_bundle`] does, each header line into `line`. So after a refusal the caller can show the
/// line at fault: the header line read last, without its newline, or the start of it if the line is too long or the
/// input ends in it.
pub fn read_bundle_by_line<R: ByteIn>(
    alloc: Global,
    reader: &mut R,
    line: &mut Vec<u8>,
) -> Result<Tree, BundleFault>
    requires { R.has_failed reader.old ≡ false }
    ensures reads { IfSome (R.left reader.old) (λ text. Reads result text) }
    ensures each { IfSome (R.left reader.old) (λ text. ReadsEach result text) }
    ensures header { IfSome (R.left reader.old) (λ text. ShowsHeader result line.new.items text) }
    ensures whole { OnOk result (IfSome (R.left reader.new) (λ rest. rest ≡ [])) }
    ensures small { IfOk result HasSmallFiles }
    ensures read { IsErrOf result BundleFault.Read ↔ (R.has_failed reader.new ≡ true) }
{
    let mut parser = BundleParser::new(alloc)?;
    while parser.read_next(reader, line)? {}
    Ok(parser.tree)
}
