//! A list of named contents, of which the first of each name counts.

ghost use Rattle.std.specs.Prelude.{◌≡◌, [], ◌∷◌, ◌++◌, ◌==◌, IfSome, IfNone, OnOk, OnErr, IfOk};
ghost use Rattle.std.specs.Cmp.Lexicographic.{pointwise};
ghost use Rattle.grid_out.specs.Files.{content_of};

use crate::failure::NoMemory;
use std::alloc::Global;
use std::marker::Model;

/// Named contents in the order in which they were added. Contracts see the pairs of name and content, as bytes.
#[derive(Drop)]
pub struct Files {
    alloc: Global,
    files: Vec<File>,
}

// One named content.
#[derive(Drop)]
struct File {
    name: String,
    content: Vec<u8>,
}

impl Model for Files {
    ghost use Rattle.std.specs.Prelude.{ℕ, List};

    ghost Value = { List (List ℕ × List ℕ) };

    ghost view = { λ list. list.files.items };
}

impl Model for File {
    ghost use Rattle.std.specs.Prelude.{ℕ, List, string_bytes};

    ghost Value = { List ℕ × List ℕ };

    ghost view = { λ file. (string_bytes file.name, file.content.items) };
}

impl File {
    fn new(alloc: Global, name: &str, content: &[u8]) -> Result<File, NoMemory>
        ensures { IfOk result (λ file. file ≡ (name.now, content.now)) }
    {
        Ok(File {
            name: String::from_str(alloc, name)?,
            content: Vec::from_slice(alloc, content)?,
        })
    }

    fn is_named(&self, name: &str) -> bool
        ensures { result ≡ pointwise ◌==◌ self.now.0 name.now }
    {
        self.name.as_str() == name
    }

    fn content(&self) -> &[u8]
        ensures { result.now ≡ self.now.1 }
    {
        self.content.as_slice()
    }
}

impl Files {
    /// No files yet. Takes no memory.
    pub fn empty(alloc: Global) -> Files
        ensures { result ≡ [] }
    {
        Files {
            alloc,
            files: Vec::new(alloc),
        }
    }

    /// Where these files take their memory.
    pub(crate) fn alloc(&self) -> Global {
        self.alloc
    }

    /// Adds a file at the end.
    pub fn add(&mut self, name: &str, content: &[u8]) -> Result<(), NoMemory>
        ensures ok { OnOk result (self.new ≡ self.old ++ (name.now, content.now) ∷ []) }
        ensures err { OnErr result (self.new ≡ self.old) }
    {
        let file = File::new(self.alloc, name, content)?;
        self.files.push(file)?;
        Ok(())
    }

    /// The content of the first file of this name.
    pub(crate) fn find(&self, name: &str) -> Option<&[u8]>
        ensures found { IfSome result (λ bytes. content_of self.now name.now ≡ Some bytes.now) }
        ensures missing { IfNone result (content_of self.now name.now ≡ None) }
    {
        for file in &self.files {
            if file.is_named(name) {
                return Some(file.content());
            }
        }
        None
    }
}
