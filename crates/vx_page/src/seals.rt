//! What is kept of each page that was written, by file.
ghost use Rattle.std.specs.Prelude.{◌≡◌, ◌<◌, ◌++◌, ◌∷◌, [], ℕ, length, Some, slice_get, IfOk, OnOk, OnErr};
ghost use Rattle.vx_page.specs.Sealed.{kept_of, seals_of, pages_of};

use std::alloc::{AllocError, Global};

/// What is kept of a page as it was written: its place in the file, its length in bytes, the hash of its
/// bytes, and its number of rows.
#[derive(Clone, Copy)]
pub struct Seal {
    pub at: u64,
    pub len: u32,
    pub hash: u64,
    pub rows: u32,
}

/// The seal of a page that is there.
pub fn seal_of(files: &[Vec<Seal>], file: u64, page: u64) -> Seal
    requires { page < pages_of (kept_of files.now) file }
    ensures { slice_get (seals_of (kept_of files.now) file) page ≡ Some result }
{
    files[file as usize][page as usize]
}

/// Adds a seal to a file's and answers the page's number.
pub fn add_seal(
    alloc: Global,
    files: &mut Vec<Vec<Seal>>,
    file: u64,
    seal: Seal,
) -> Result<u64, AllocError>
    ensures number { IfOk result (λ page. page ≡ pages_of (kept_of files.old.items) file) }
    ensures ok { OnOk result (seals_of (kept_of files.new.items) file ≡ seals_of (kept_of files.old.items) file ++ seal ∷ []) }
    ensures others { (n : ℕ) → ¬ (n ≡ file) → seals_of (kept_of files.new.items) n ≡ seals_of (kept_of files.old.items) n }
    ensures err { OnErr result (seals_of (kept_of files.new.items) file ≡ seals_of (kept_of files.old.items) file) }
{
    reach(alloc, files, file)?;
    push_seal(files, file, seal)
}

/// Adds a seal where the file has a place.
fn push_seal(files: &mut Vec<Vec<Seal>>, file: u64, seal: Seal) -> Result<u64, AllocError>
    requires { file < length files.old.items }
    ensures number { IfOk result (λ page. page ≡ pages_of (kept_of files.old.items) file) }
    ensures ok { OnOk result (seals_of (kept_of files.new.items) file ≡ seals_of (kept_of files.old.items) file ++ seal ∷ []) }
    ensures others { (n : ℕ) → ¬ (n ≡ file) → seals_of (kept_of files.new.items) n ≡ seals_of (kept_of files.old.items) n }
    ensures err { OnErr result (seals_of (kept_of files.new.items) file ≡ seals_of (kept_of files.old.items) file) }
{
    let seals = &mut files[file as usize];
    let page = seals.len() as u64;
    seals.push(seal)?;
    Ok(page)
}

/// Makes a place for a file's seals.
fn reach(alloc: Global, files: &mut Vec<Vec<Seal>>, file: u64) -> Result<(), AllocError>
    ensures ok { OnOk result (file < length files.new.items) }
    ensures same { (n : ℕ) → seals_of (kept_of files.new.items) n ≡ seals_of (kept_of files.old.items) n }
{
    while files.len() as u64 <= file {
        files.push(Vec::new(alloc))?;
    }
    Ok(())
}

/// Forgets a file's seals.
pub fn forget(files: &mut Vec<Vec<Seal>>, file: u64)
    ensures file { seals_of (kept_of files.new.items) file ≡ [] }
    ensures others { (n : ℕ) → ¬ (n ≡ file) → seals_of (kept_of files.new.items) n ≡ seals_of (kept_of files.old.items) n }
{
    if file < files.len() as u64 {
        files[file as usize].clear();
    }
}
