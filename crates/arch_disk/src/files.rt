// Files in memory, by number.
ghost use Rattle.std.specs.Prelude.{◌≡◌, ◌<◌, [], ℕ, length, get_or, take, MatchOption, OnOk, OnErr, IfOk};
ghost use Rattle.arch_disk.specs.Image.{InFile, Becomes, overwritten};
ghost use Rattle.arch_disk.specs.Files.{content_of, image_in, AreOthers, IsFirstAt};

use std::alloc::{AllocError, Global};

#[derive(Drop)]
pub(crate) struct File {
    number: u32,
    octets: Vec<u8>,
}

/// The octets of each file by its number. Searched from the front: a disk of a test holds few files.
#[derive(Drop)]
pub struct Files {
    list: Vec<File>,
}

// Writes over the octets from `at` on, and past the end.
pub(crate) fn overwrite(octets: &mut Vec<u8>, at: u64, from: &[u8]) -> Result<(), AllocError>
    ensures ok { OnOk result (octets.new.items ≡ overwritten at from.now octets.old.items) }
    ensures err { OnErr result (octets.new.items ≡ octets.old.items) }
{
    let len = octets.len();
    let start = if at < len as u64 { at as usize } else { len };
    let inside = from.len().min(len - start);
    octets.extend_from_slice(&from[inside..])?;
    octets[start..start + inside].copy_from_slice(&from[..inside]);
    Ok(())
}

fn position(files: &[File], number: u32) -> Option<usize>
    ensures { MatchOption result (AreOthers files.now number (length files.now)) (λ i. IsFirstAt files.now number i) }
{
    for (i, file) in files.iter().enumerate() {
        if file.number == number {
            return Some(i);
        }
    }
    None
}

// Where the file of that number stands; it is put at the end, empty, if it isn't there.
fn place(files: &mut Vec<File>, number: u32) -> Result<usize, AllocError>
    ensures place { IfOk result (λ i. IsFirstAt files.new.items number i) }
    ensures same { (g : ℕ) → content_of files.new.items g ≡ content_of files.old.items g }
{
    match position(files, number) {
        Some(i) => return Ok(i),
        None => {}
    }
    let octets = Vec::new(*files.allocator());
    files.push(File { number, octets })?;
    Ok(files.len() - 1)
}

impl Files {
    ghost use Rattle.arch_disk.specs.declared.files.File.{File as AFile};

    /// No octet in any file.
    pub fn new(alloc: Global) -> Files
        ensures { image_in result ≡ (λ _. []) }
    {
        Files {
            list: Vec::new(alloc),
        }
    }

    /// The octets of a file.
    pub fn content(&self, file: u32) -> &[u8]
        ensures { result.now ≡ image_in self.now file }
    {
        match position(&self.list, file) {
            Some(i) => &self.list[i].octets,
            None => &[],
        }
    }

    /// Writes over the octets of a file from `at` on, and past the end.
    pub fn write(&mut self, file: u32, at: u64, from: &[u8]) -> Result<(), AllocError>
        ensures ok { OnOk result (InFile (Becomes (overwritten at from.now)) file (image_in self.old)
            (image_in self.new)) }
        ensures err { OnErr result ((g : ℕ) → image_in self.new g ≡ image_in self.old g) }
    {
        let i = place(&mut self.list, file)?;
        overwrite(&mut self.list[i].octets, at, from)?;
        Ok(())
    }

    /// Cuts a file to a length.
    pub fn cut(&mut self, file: u32, len: u64)
        ensures { InFile (Becomes (take len)) file (image_in self.old) (image_in self.new) }
    {
        match position(&self.list, file) {
            Some(i) => self.list[i].octets.truncate(len as usize),
            None => {}
        }
    }

    /// Puts these octets in the place of all that stands in a file.
    pub(crate) fn put(&mut self, file: u32, octets: &[u8]) -> Result<(), AllocError>
        ensures { OnOk result (InFile (Becomes (λ _. octets.now)) file (image_in self.old) (image_in self.new)) }
    {
        self.cut(file, 0);
        self.write(file, 0, octets)?;
        Ok(())
    }

    /// The number of places in the list.
    pub(crate) fn places(&self) -> usize
        ensures { result ≡ length self.now.list.items }
    {
        self.list.len()
    }

    /// The number of the file at a place of the list.
    pub(crate) fn number(&self, i: usize) -> u32
        requires { i < length self.now.list.items }
        ensures { (d : AFile) → result ≡ (get_or self.now.list.items i d).number }
    {
        self.list[i].number
    }
}
