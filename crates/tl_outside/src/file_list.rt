// Files in memory, with their names.
ghost use Rattle.std.specs.Prelude.{◌≡◌, ◌<◌, [], ◌∷◌, ◌++◌, None, Some, length, cond, is_ok, map, MatchOption, IfOk};
ghost use Rattle.std.specs.FinMap as dict;
ghost use Rattle.tl_outside.specs.FileList.{listed_files, bytes_at};
ghost use Rattle.tl_outside.specs.NamedFile.{name_and_bytes};

use std::alloc::{AllocError, Global};
use std::marker::Model;
use tl_syntax::NoMemory;

#[derive(Drop)]
struct NamedFile {
    name: String,
    bytes: Vec<u8>,
}

/// A list of files, which contracts see as a list of names and bytes.
#[derive(Drop)]
pub struct FileList {
    alloc: Global,
    files: Vec<NamedFile>,
}

impl Model for FileList {
    ghost use Rattle.std.specs.Prelude.{List, ℕ, map};

    ghost Value = { List (List ℕ × List ℕ) };

    ghost use Rattle.tl_outside.specs.NamedFile.{name_and_bytes};

    ghost view = { λ a. map name_and_bytes a.files.items };
}

// The place of the first file of this name.
fn place_of(files: &[NamedFile], name: &str) -> Option<usize>
    ensures { MatchOption result
        (dict.get (listed_files (map name_and_bytes files.now)) name.now ≡ None)
        (λ index. (index < length files.now) × (dict.get (listed_files (map name_and_bytes files.now)) name.now ≡ Some (bytes_at (map name_and_bytes files.now) index))) }
{
    for (index, file) in files.iter().enumerate() {
        if name == file.name.as_str() {
            return Some(index);
        }
    }
    None
}

fn named(alloc: Global, name: &str, bytes: &[u8]) -> Result<NamedFile, AllocError>
    ensures { IfOk result (λ file. name_and_bytes file ≡ (name.now, bytes.now)) }
{
    Ok(NamedFile {
        name: String::from_str(alloc, name)?,
        bytes: bytes.to_vec(alloc)?,
    })
}

impl FileList {
    /// No file. It takes no memory.
    pub fn new(alloc: Global) -> FileList
        ensures { result ≡ [] }
    {
        FileList {
            alloc,
            files: Vec::new(alloc),
        }
    }

    /// Adds a file at the end. After a refusal the list is as before.
    /// Under a name that comes twice, a store has the first file.
    pub fn add(&mut self, name: &str, bytes: &[u8]) -> Result<(), NoMemory>
        ensures { self.new ≡ cond (is_ok result) (self.old ++ (name.now, bytes.now) ∷ []) self.old }
    {
        let file = named(self.alloc, name, bytes)?;
        match self.files.push(file) {
            Ok(()) => Ok(()),
            Err(_) => Err(NoMemory),
        }
    }

    // The place of the first file of this name.
    pub(crate) fn place(&self, name: &str) -> Option<usize>
        ensures { MatchOption result
            (dict.get (listed_files self.now) name.now ≡ None)
            (λ index. (index < length self.now) × (dict.get (listed_files self.now) name.now ≡ Some (bytes_at self.now index))) }
    {
        place_of(&self.files, name)
    }

    // The bytes of the file at this place.
    pub(crate) fn bytes(&self, index: usize) -> &[u8]
        requires { index < length self.now }
        ensures { result.now ≡ bytes_at self.now index }
    {
        self.files[index].bytes.as_slice()
    }
}
