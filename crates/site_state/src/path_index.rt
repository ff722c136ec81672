//! Files by rising inode, and an index of their paths: searches that halve at each step what is left.

ghost use Rattle.std.specs.Prelude.{◌≡◌, ◌==◌, ◌<◌, ◌≤◌, ◌↔◌, ℕ, IsTrue, All, None, Some, length, position, slice_get};
ghost use Rattle.std.specs.List.Sorted.{IsSearchInRange, IsBinarySearchResult};
ghost use Rattle.std.specs.Str.{bytes_eq};
ghost use Rattle.std.specs.Cmp.Lexicographic.{slice_cmp};
ghost use Rattle.std.specs.Ordering.{nat_cmp};
ghost use Rattle.site_history.specs.Site.{file_at};
ghost use Rattle.site_state.specs.PathIndex.{RiseByInode, path_of, IsPathIndex, IsPlaceFor};
ghost use Rattle.site_types.specs.declared.file.FileRec.{FileRec as Rec};

use site_types::FileRec;
use std::cmp::Ordering;

/// The index of the file of an inode, in files by rising inode.
pub fn index_of_inode(files: &[FileRec], inode: u32) -> Option<usize>
    requires { RiseByInode files.now }
    ensures { result ≡ position (λ (file : Rec). file.inode == inode) files.now }
{
    files.binary_search_by_key(&inode, |file| file.inode).ok()
}

/// Whether an inode is above those of all files, which stand by rising inode.
pub fn is_above_all(files: &[FileRec], inode: u32) -> bool
    requires { RiseByInode files.now }
    ensures { IsTrue result ↔ All (λ (file : Rec). file.inode < inode) files.now }
{
    match files.last() {
        Some(last) => last.inode < inode,
        None => true,
    }
}

// The path of the file of an inode. Where there is none it is empty.
fn path_of(files: &[FileRec], inode: u32) -> &[u8]
    requires { RiseByInode files.now }
    ensures { result.now ≡ path_of files.now inode }
{
    match index_of_inode(files, inode) {
        Some(index) => files[index].path.as_slice(),
        None => &[],
    }
}

// The place of a path in an index of the files' paths; an `Err` has the place at which it would go.
fn place_of_path(files: &[FileRec], by_path: &[u32], path: &[u8]) -> Result<usize, usize>
    requires { RiseByInode files.now }
    ensures bound { IsSearchInRange result (length by_path.now) }
    ensures place { IsBinarySearchResult (λ (inode : ℕ). slice_cmp nat_cmp (path_of files.now inode) path.now) by_path.now result }
{
    by_path.binary_search_by(
        |inode: &u32| -> Ordering
            requires { RiseByInode files.now }
            ensures { result ≡ slice_cmp nat_cmp (path_of files.entry.now inode.now) path.entry.now }
        { path_of(files, *inode).cmp(&path) },
    )
}

/// The index of the file of a path.
pub fn index_of_path(files: &[FileRec], by_path: &[u32], path: &[u8]) -> Option<usize>
    requires rise { RiseByInode files.now }
    requires index { IsPathIndex files.now by_path.now }
    ensures { result ≡ position (λ (file : Rec). bytes_eq file.path path.now) files.now }
{
    match place_of_path(files, by_path, path) {
        Ok(place) => index_of_inode(files, by_path[place]),
        Err(_) => None,
    }
}

/// The place in the index of the file at `index`.
pub fn place_of_file(files: &[FileRec], by_path: &[u32], index: usize) -> usize
    requires rise { RiseByInode files.now }
    requires index { IsPathIndex files.now by_path.now }
    requires within { index < length files.now }
    ensures { (file : Rec) → slice_get files.now index ≡ Some file → slice_get by_path.now result ≡ Some file.inode }
{
    match place_of_path(files, by_path, files[index].path.as_slice()) {
        Ok(place) => place,
        Err(_) => unreachable!(),
    }
}

/// The place in the index at which the inode of a path goes that no file has.
pub fn place_for_path(files: &[FileRec], by_path: &[u32], path: &[u8]) -> usize
    requires rise { RiseByInode files.now }
    requires index { IsPathIndex files.now by_path.now }
    requires path { file_at path.now files.now ≡ None }
    ensures bound { result ≤ length by_path.now }
    ensures place { IsPlaceFor path.now files.now by_path.now result }
{
    match place_of_path(files, by_path, path) {
        Ok(_) => unreachable!(),
        Err(place) => place,
    }
}
