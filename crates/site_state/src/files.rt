//! The files of a site, without their bytes.

ghost use Rattle.std.specs.Prelude.{◌≡◌, ◌==◌, ◌<◌, ◌≤◌, ◌+◌, ◌^◌, ◌++◌, [], ◌∷◌, ℕ, length, remove, slice_get, slice_set, slice_index_or, IfSome, OnOk, None, Some, All};
ghost use Rattle.std.specs.List.{position};
ghost use Rattle.std.specs.Option.{option_copied};
ghost use Rattle.std.specs.Str.{bytes_eq};
ghost use Rattle.site_types.specs.Ranges.{IsInode};
ghost use Rattle.site_history.specs.Site.{file_at};
ghost use Rattle.site_history.specs.PutSteps.{stored_file};
ghost use Rattle.site_types.specs.declared.file.FileRec.{FileRec as Rec};

use crate::path_index::{
    index_of_inode, index_of_path, is_above_all, place_for_path, place_of_file,
};
use crate::stored::store_over;
use base::List;
use site_types::{FileRec, PutStep, Run};
use std::alloc::{AllocError, Global};
use std::marker::Model;

/// The files of a site, without their bytes, by rising inode, with an index of their paths. Contracts see them as a list, and
/// for how many more there is room.
#[derive(Drop)]
pub struct Files {
    items: Vec<FileRec>,
    // The inodes of all files, in the order of their paths. A removal moves places in `items`, and changes no inode.
    by_path: Vec<u32>,
}

impl Model for Files {
    ghost use Rattle.std.specs.Prelude.{◌-◌, min, vec_len, vec_capacity};
    ghost use Rattle.site_state.specs.FileList.{FileList};
    ghost use Rattle.site_state.specs.Inside.{AreIndexed};

    ghost Value = { FileList };

    ghost view = { λ files. record {
      list = files.items.items;
      room = min (vec_capacity files.items - vec_len files.items) (vec_capacity files.by_path - vec_len files.by_path);
    } };

    ghost invariant = { AreIndexed };
}

impl Files {
    /// No file. It takes no memory.
    pub fn new(alloc: Global) -> Self
        ensures { result.list ≡ [] }
    {
        Files {
            items: Vec::new(alloc),
            by_path: Vec::new(alloc),
        }
    }

    /// How many files there are.
    pub fn len(&self) -> usize
        ensures { result ≡ length self.now.list }
    {
        self.items.len()
    }

    /// The files.
    pub fn as_slice(&self) -> &[FileRec]
        ensures { result.now ≡ self.now.list }
    {
        self.items.as_slice()
    }

    /// The index of the first file of a path.
    pub fn find(&self, path: &[u8]) -> Option<usize>
        ensures { result ≡ position (λ (file : Rec). bytes_eq file.path path.now) self.now.list }
    {
        index_of_path(&self.items, &self.by_path, path)
    }

    /// The index of the first file of an inode.
    pub fn find_inode(&self, inode: u32) -> Option<usize>
        ensures { result ≡ position (λ (file : Rec). file.inode == inode) self.now.list }
    {
        index_of_inode(&self.items, inode)
    }

    /// The file of a path.
    pub fn get(&self, path: &[u8]) -> Option<&FileRec>
        ensures file { option_copied result ≡ file_at path.now self.now.list }
        ensures inode { IfSome result (λ file. IsInode file.now.inode) }
    {
        match self.find(path) {
            Some(index) => Some(&self.items[index]),
            None => None,
        }
    }

    /// Makes room for a further file.
    pub fn reserve(&mut self) -> Result<(), AllocError>
        ensures list { self.new.list ≡ self.old.list }
        ensures room { OnOk result (0 < self.new.room) }
    {
        self.items.reserve(1)?;
        self.by_path.reserve(1)
    }

    /// Adds a file of a path that no file has, for which there is room, behind the others, where its inode is above theirs. Where
    /// it is not, nothing is added.
    pub fn push(&mut self, file: FileRec)
        requires room { 0 < self.old.room }
        requires inode { IsInode file.inode }
        requires path { file_at file.path self.old.list ≡ None }
        ensures added { All (λ (other : Rec). other.inode < file.inode) self.old.list → self.new.list ≡ self.old.list ++ file ∷ [] }
        ensures stays { (All (λ (other : Rec). other.inode < file.inode) self.old.list → ⊥) → self.new.list ≡ self.old.list }
    {
        // A new file has the next inode, which is above all that any file had.
        if !is_above_all(&self.items, file.inode) {
            return;
        }
        let place = place_for_path(&self.items, &self.by_path, file.path.as_slice());
        if self.by_path.insert(place, file.inode).is_err() {
            unreachable!();
        }
        if self.items.push(file).is_err() {
            unreachable!();
        }
    }

    /// Puts what a put stores over the file at an index, whose runs it gives.
    pub fn store_at(&mut self, index: usize, moment: u64, put: PutStep) -> List<Run>
        requires { index < length self.old.list }
        ensures list { (file : Rec) → slice_get self.old.list index ≡ Some file → file.generation + 1 < 2 ^ 64
            → self.new.list ≡ slice_set self.old.list index (stored_file (Some file) moment put) }
        ensures runs { (file : Rec) → slice_get self.old.list index ≡ Some file → result ≡ file.runs }
    {
        store_over(&mut self.items[index], moment, put)
    }

    /// Sets the moment of access of the file at an index.
    pub fn access_at(&mut self, index: usize, moment: u64)
        requires { index < length self.old.list }
        ensures { (file : Rec) → slice_get self.old.list index ≡ Some file
            → self.new.list ≡ slice_set self.old.list index (record file { accessed = moment }) }
    {
        self.items[index].accessed = moment;
    }

    /// Takes out the file at an index.
    pub fn remove(&mut self, index: usize) -> FileRec
        requires { index < length self.old.list }
        ensures list { self.new.list ≡ remove self.old.list index }
        ensures old { slice_get self.old.list index ≡ Some result }
    {
        let place = place_of_file(&self.items, &self.by_path, index);
        self.by_path.remove(place);
        self.items.remove(index)
    }
}
